//! The sealing stage in its thread, between two lines.
#![tactic(auto)]

ghost use Rattle.std.specs.Prelude.{◌≡◌, ◌≤◌, ◌∷◌, ◌++◌, [], IfOk, IfErr, IfSome, IfNone, OnOk};
ghost use Rattle.vault_types.specs.Stages.{IsFront};

use container_fill::Unsealed;
use container_store::Sealed;
use core::thread::Stack;
use seal_stage::SealStage;
use stage_flows::parted;
use stage_queue::{Middle, Rx, Tx, close, line};
use stage_threads::{BackOff, StageRoom, StageThread};
use std::alloc::Global;
use std::marker::Model;
use std::sync::Wait;
use std::thread::{Scope, Threads};
use std::time::Clock;
use vault_types::{Flow, Memory, Turn};

/// A lane that was not started: its stage, its lines with their outer ends, and the room of its thread.
#[derive(Drop)]
pub struct SealRoom {
    unsealed: Middle<Flow<Unsealed>>,
    near: Tx<Flow<Unsealed>>,
    stage: SealStage,
    sealed: Middle<Flow<Sealed>>,
    far: Rx<Flow<Sealed>>,
    place: StageRoom<SealStage>,
}

impl Model for SealRoom {
    ghost use Rattle.std.specs.Prelude.{◌≡◌};
    ghost use Rattle.seal_lane.specs.Lanes.{SealView, IsLane};

    ghost Value = { SealView };

    ghost view = { λ l. record { given = l.near.sent; back = l.far.taken } };

    ghost invariant = { λ l. IsLane l.unsealed l.sealed l.near l.far l.stage };
}

impl SealRoom {
    /// Takes all memory of a lane whose lines hold so many containers each, at least 1.
    pub fn new(alloc: Global, queue: u32) -> Result<SealRoom, Memory>
        requires { 1 ≤ queue }
        ensures { IfOk result (λ l. l ≡ record { given = []; back = [] }) }
    {
        let (unsealed, near, from) = line::<Flow<Unsealed>>(alloc, queue)?;
        let (sealed, to, far) = line::<Flow<Sealed>>(alloc, queue)?;
        let place = StageRoom::new(alloc)?;
        let stage = SealStage::new(from, to);
        Ok(SealRoom {
            unsealed,
            near,
            stage,
            sealed,
            far,
            place,
        })
    }
}

/// A lane that runs: what is given to it comes back sealed, in order. Contracts see what was given to
/// it, and what came back, each with its last item.
#[derive(Drop)]
pub struct SealLane {
    unsealed: Middle<Flow<Unsealed>>,
    near: Tx<Flow<Unsealed>>,
    seal: StageThread<SealStage>,
    sealed: Middle<Flow<Sealed>>,
    far: Rx<Flow<Sealed>>,
}

impl Model for SealLane {
    ghost use Rattle.std.specs.Prelude.{◌≡◌};
    ghost use Rattle.seal_lane.specs.Lanes.{SealView, IsLane};

    ghost Value = { SealView };

    ghost view = { λ l. record { given = l.near.sent; back = l.far.taken } };

    ghost invariant = { λ l. IsLane l.unsealed l.sealed l.near l.far l.seal.first };
}

impl SealLane {
    /// Starts the stage in a thread with such a stack, or keeps it where the thread is refused. No memory.
    pub fn start<'s, E: 's, R: Wait + Clock + Copy + Drop + Send + 's>(
        rt: R,
        room: SealRoom,
        scope: &'s Scope<'s, E>,
        stack: Stack,
    ) -> SealLane
        ensures { result ≡ room }
    {
        let SealRoom {
            unsealed,
            near,
            stage,
            sealed,
            far,
            place,
        } = room;
        let seal = StageThread::start_on(rt, place, scope, stage, stack);
        SealLane {
            unsealed,
            near,
            seal,
            sealed,
            far,
        }
    }

    /// One turn of the stage if it is kept, and else `Done`.
    pub fn turn<R: Wait>(&mut self, rt: &R) -> Turn
        ensures { self.new ≡ self.old }
    {
        self.seal.turn(rt)
    }

    /// Gives an item to the lane, in one step. `Err` gives it back: the line was full. No memory.
    pub fn offer<R: Wait>(&mut self, rt: &R, item: Flow<Unsealed>) -> Result<(), Flow<Unsealed>>
        ensures given { OnOk result (self.new ≡ record self.old { given = self.old.given ++ item ∷ [] }) }
        ensures full { IfErr result (λ x. (x ≡ item) × (self.new ≡ self.old)) }
    {
        self.near.offer(rt, item)
    }

    /// The next item that came back, if there is one. No memory.
    pub fn take<R: Wait>(&mut self, rt: &R) -> Option<Flow<Sealed>>
        ensures taken { IfSome result (λ x. self.new ≡ record self.old { back = self.old.back ++ x ∷ [] }) }
        ensures none { IfNone result (self.new ≡ self.old) }
    {
        self.far.take(rt)
    }

    /// The next item that comes back. It waits for it, and gives a kept stage turns meanwhile. No memory.
    pub fn next<R: Wait + Clock>(&mut self, rt: &R) -> Flow<Sealed>
        ensures { self.new ≡ record self.old { back = self.old.back ++ result ∷ [] } }
    {
        let mut back_off = BackOff::new();
        for _ in rt.forever() {
            let kept = self.turn(rt);
            if let Some(item) = self.take(rt) {
                return item;
            }
            if kept == Turn::Moved {
                back_off.reset();
            } else {
                back_off.wait(rt);
            }
        }
        unreachable!()
    }

    /// Lets go what was given: the lane is told to stop where it was given no last item, and what still comes back is
    /// dropped, to the last item. No memory.
    pub fn stop<R: Wait + Clock>(&mut self, rt: &R) {
        let mut back_off = BackOff::new();
        let mut is_told = false;
        for _ in rt.forever() {
            if !is_told {
                is_told = self.offer(rt, Flow::Stopped).is_ok();
            }
            let kept = self.turn(rt);
            match self.take(rt) {
                Some(item) => {
                    if parted(item).is_err() {
                        return;
                    }
                    back_off.reset();
                }
                None => {
                    if kept == Turn::Moved {
                        back_off.reset();
                    } else {
                        back_off.wait(rt);
                    }
                }
            }
        }
        unreachable!()
    }

    /// Waits for the stage, after the last item came back: what came back begins what was given. No memory.
    pub fn end<R: Threads + Wait + Clock>(self, rt: &R)
        ensures { IsFront self.back self.given }
    {
        let SealLane {
            unsealed,
            near,
            seal,
            sealed,
            far,
        } = self;
        let stage = seal.end(rt);
        let (from, to) = stage.end();
        close(unsealed, near, from);
        close(sealed, to, far);
    }
}
