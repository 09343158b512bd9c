//! A stage with the thread that owns it.
ghost use Rattle.std.specs.Prelude.{◌≡◌, ◌↔◌, IsTrue, IsSome, IsSomeAnd, IfSome, IfNone, Some, None};
ghost use Rattle.vault_types.specs.declared.Turn.TheVariants.{Done};

use crate::Stage;
use crate::back_off::BackOff;
use core::thread::Stack;
use std::alloc::Global;
use std::marker::Model;
use std::snapshot::Snapshot;
use std::sync::atomic::{AtomicBool, Ordering};
use std::sync::{Arc, Wait};
use std::thread::{Promise, PromisedHandle, Scope, Threads};
use std::time::Clock;
use vault_types::{Memory, Turn};

// That the stage which comes back is the same as the one that was handed in.
#[derive(Drop)]
struct Same<S>(Snapshot<S>);

impl<S: Stage> Promise<S> for Same<S> {
    ghost kept_by = { λ p s. S.same p.0.value s };
}

#[derive(Drop)]
enum State<S: Stage> {
    // only before a start
    Away,
    Thread(PromisedHandle<S, Same<S>>),
    Kept(S),
}

/// A stage in its thread, or kept where the thread was refused. Contracts see the stage that was handed in, and the kept
/// stage as it is now, if it is kept. One that is dropped instead of ended leaves its thread to the scope, which waits for
/// it; a kept stage is dropped with it.
#[derive(Drop)]
pub struct StageThread<S: Stage> {
    // in a box, since the check makes no proof where an enum with a promise at a type parameter is passed by value
    state: Box<State<S>>,
    first: Snapshot<S>,
}

impl<S: Stage> Model for StageThread<S> {
    ghost use Rattle.stage_threads.specs.ThreadView.{ThreadView, view_code};

    ghost Value = { ThreadView S };

    ghost coded = { view_code S.code };

    ghost use Rattle.stage_threads.specs.States.{StandsFor, kept_stage};

    ghost view = { λ t. record { first = t.first.value; kept = kept_stage t.state.value } };

    ghost invariant = { λ t. StandsFor S.same t.first.value t.state.value };
}

/// What a stage's thread takes of memory: a box, and two shares of the word that tells the thread's closure that the thread
/// was refused.
#[derive(Drop)]
pub struct StageRoom<S: Stage> {
    state: Box<State<S>>,
    mine: Arc<AtomicBool, Global>,
    theirs: Arc<AtomicBool, Global>,
}

impl<S: Stage> StageRoom<S> {
    /// Takes all memory that `start` needs, so that a job with several stages has it before the first thread is started. The
    /// only error is `Memory`.
    pub fn new(alloc: Global) -> Result<StageRoom<S>, Memory> {
        let state = Box::new(alloc, State::Away)?;
        let mine = Arc::new(alloc, AtomicBool::new(false))?;
        let theirs = Arc::try_clone(&mine)?;
        Ok(StageRoom {
            state,
            mine,
            theirs,
        })
    }
}

// Gives turns to a stage until it is done.
fn until_done<S: Stage, R: Wait + Clock>(rt: &R, mut stage: S) -> S
    ensures same { S.same stage result }
    ensures done { (before : S) × S.same stage before × S.turned before Done result }
{
    let mut back_off = BackOff::new();
    for _ in rt.forever() {
        match stage.turn(rt) {
            Turn::Moved => back_off.reset(),
            Turn::Idle => back_off.wait(rt),
            Turn::Done => return stage,
        }
    }
    unreachable!()
}

// The closure of a stage's thread: gives the stage turns until it is done, but none where the thread was refused.
fn drive<S: Stage, R: Wait + Clock + Drop>(rt: R, refused: Arc<AtomicBool, Global>, stage: S) -> S
    ensures { S.same stage result }
{
    if refused.load(Ordering::SeqCst) {
        return stage;
    }
    until_done(&rt, stage)
}

impl<S: Stage> StageThread<S> {
    /// Starts the stage in a thread of the scope, or keeps it where the thread is refused. No memory. The thread sleeps for
    /// up to two milliseconds between turns while the stage is idle.
    pub fn start<'s, E: 's, R: Wait + Clock + Copy + Drop + Send + 's>(
        rt: R,
        place: StageRoom<S>,
        scope: &'s Scope<'s, E>,
        stage: S,
    ) -> StageThread<S>
    where
        S: Send + 's,
        ensures first { result.first ≡ stage }
        ensures kept { IfSome result.kept (λ s. S.same stage s) }
    {
        StageThread::start_on(rt, place, scope, stage, Stack::new())
    }

    /// The same, in a thread with such a stack: the host refuses one that is too large.
    pub fn start_on<'s, E: 's, R: Wait + Clock + Copy + Drop + Send + 's>(
        rt: R,
        place: StageRoom<S>,
        scope: &'s Scope<'s, E>,
        stage: S,
        stack: Stack,
    ) -> StageThread<S>
    where
        S: Send + 's,
        ensures first { result.first ≡ stage }
        ensures kept { IfSome result.kept (λ s. S.same stage s) }
    {
        let StageRoom {
            mut state,
            mine,
            theirs,
        } = place;
        let first = Snapshot::of(&stage);
        let promise = Same(Snapshot::of(&stage));
        match stack.spawn_scoped_with(scope, promise, move || drive(rt, theirs, stage)) {
            Ok(handle) => *state = State::Thread(handle),
            Err(refused) => {
                mine.store(true, Ordering::SeqCst);
                *state = State::Kept((refused.value)());
            }
        }
        StageThread { state, first }
    }

    /// Whether the stage is kept: its thread was refused.
    pub fn is_kept(&self) -> bool
        ensures { IsTrue result ↔ IsSome self.now.kept }
    {
        match &*self.state {
            State::Kept(_) => true,
            State::Thread(_) => false,
            State::Away => unreachable!(),
        }
    }

    /// One turn of the stage if it is kept, and else `Done`.
    pub fn turn<R: Wait>(&mut self, rt: &R) -> Turn
        ensures first { self.new.first ≡ self.old.first }
        ensures kept { IfSome self.old.kept
            (λ s. IsSomeAnd self.new.kept (λ t. S.same s t × S.turned s result t)) }
        ensures thread { IfNone self.old.kept ((result ≡ Done) × (self.new.kept ≡ None)) }
    {
        match &mut *self.state {
            State::Kept(stage) => stage.turn(rt),
            State::Thread(_) => Turn::Done,
            State::Away => unreachable!(),
        }
    }

    /// The stage: it waits for the thread, or gives a kept stage turns until it is done. A caller with several stages first
    /// gives the kept ones turns until all are done, since one may wait for another.
    pub fn end<R: Threads + Wait + Clock>(self, rt: &R) -> S
        ensures same { S.same self.first result }
        ensures kept { IsSome self.kept
            → (before : S) × S.same self.first before × S.turned before Done result }
    {
        let StageThread { state, first: _ } = self;
        match Box::into_inner(state) {
            State::Thread(handle) => handle.join(rt),
            State::Kept(stage) => until_done(rt, stage),
            State::Away => unreachable!(),
        }
    }
}
