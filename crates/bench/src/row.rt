// Two stages in a row, each in a thread or kept.
ghost use Rattle.std.specs.Prelude.{◌≡◌, ◌≤◌, [], ◌∷◌, ◌++◌, IfOk, IfErr, IfSome, IfNone, OnOk};
ghost use Rattle.vault_types.specs.Stages.{IsFront};

use crate::relay::RelayStage;
use stage_queue::{Middle, Rx, Tx, close, line};
use stage_threads::{BackOff, StageRoom, StageThread, together};
use std::alloc::Global;
use std::marker::Model;
use std::sync::Wait;
use std::thread;
use std::thread::{Scope, Threads};
use std::time::{Clock, Duration};
use vault_types::{Memory, Turn};

/// Two stages in a row, and the ends of their lines that are the caller's. Contracts see what was sent into it and what was
/// taken from it.
#[derive(Drop)]
pub struct Row {
    near: Tx<Option<u64>>,
    inward: Middle<Option<u64>>,
    first: StageThread<RelayStage>,
    between: Middle<Option<u64>>,
    second: StageThread<RelayStage>,
    outward: Middle<Option<u64>>,
    far: Rx<Option<u64>>,
}

impl Model for Row {
    ghost use Rattle.std.specs.Prelude.{◌≡◌};
    ghost use Rattle.bench.specs.Row.{Rowing};

    ghost Value = { Rowing };

    ghost view = { λ r. record { sent = r.near.sent; taken = r.far.taken } };

    ghost invariant = { λ r. (r.near.line ≡ r.inward) × (r.first.first.from.line ≡ r.inward)
        × (r.first.first.to.line ≡ r.between) × (r.second.first.from.line ≡ r.between)
        × (r.second.first.to.line ≡ r.outward) × (r.far.line ≡ r.outward) };
}

impl Row {
    /// Starts both stages, between lines of this capacity. All memory is taken before the first thread is started.
    pub fn start<'s, E: 's, R: Wait + Clock + Copy + Drop + Send + 's>(
        rt: R,
        alloc: Global,
        scope: &'s Scope<'s, E>,
        capacity: u32,
    ) -> Result<Row, Memory>
        requires { 1 ≤ capacity }
        ensures { IfOk result (λ r. (r.sent ≡ []) × (r.taken ≡ [])) }
    {
        let (inward, near, from) = line(alloc, capacity)?;
        let (between, to, second_from) = line(alloc, capacity)?;
        let (outward, second_to, far) = line(alloc, capacity)?;
        let place = StageRoom::new(alloc)?;
        let second_place = StageRoom::new(alloc)?;
        let first = StageThread::start(rt, place, scope, RelayStage::new(from, to));
        let stage = RelayStage::new(second_from, second_to);
        let second = StageThread::start(rt, second_place, scope, stage);
        Ok(Row {
            near,
            inward,
            first,
            between,
            second,
            outward,
            far,
        })
    }

    pub fn offer<R: Wait>(&mut self, rt: &R, item: Option<u64>) -> Result<(), Option<u64>>
        ensures sent { OnOk result (self.new ≡ record self.old { sent = self.old.sent ++ item ∷ [] }) }
        ensures full { IfErr result (λ back. (back ≡ item) × (self.new ≡ self.old)) }
    {
        self.near.offer(rt, item)
    }

    pub fn take<R: Wait>(&mut self, rt: &R) -> Option<Option<u64>>
        ensures taken { IfSome result (λ x. self.new ≡ record self.old { taken = self.old.taken ++ x ∷ [] }) }
        ensures empty { IfNone result (self.new ≡ self.old) }
    {
        self.far.take(rt)
    }

    /// One turn of each kept stage.
    pub fn turn_rest<R: Wait>(&mut self, rt: &R) -> Turn
        ensures { self.new ≡ self.old }
    {
        let first = self.first.turn(rt);
        let second = self.second.turn(rt);
        together(first, second)
    }

    /// Ends both stages: what was taken is the first of what was sent, in order, for every schedule and whichever threads
    /// were refused.
    pub fn end<R: Threads + Wait + Clock>(mut self, rt: &R)
        ensures { IsFront self.taken self.sent }
    {
        self.finish_rest(rt);
        let Row {
            near,
            inward,
            first,
            between,
            second,
            outward,
            far,
        } = self;
        let (from, to) = first.end(rt).end();
        let (second_from, second_to) = second.end(rt).end();
        close(inward, near, from);
        close(between, to, second_from);
        close(outward, second_to, far);
    }

    // Gives turns to the kept stages until all are done.
    fn finish_rest<R: Wait + Clock>(&mut self, rt: &R)
        ensures { self.new ≡ self.old }
    {
        let mut back_off = BackOff::new();
        for _ in rt.forever() {
            match self.turn_rest(rt) {
                Turn::Done => return,
                Turn::Moved => back_off.reset(),
                Turn::Idle => back_off.wait(rt),
            }
        }
        unreachable!()
    }
}

// The number that is sent next, and none behind the last.
fn item_of(sent: u64, count: u64) -> Option<u64> {
    if sent < count { Some(sent) } else { None }
}

// Sends the next number, and tells whether it went in.
fn send<R: Wait>(rt: &R, row: &mut Row, sent: u64, count: u64) -> bool {
    sent <= count && row.offer(rt, item_of(sent, count)).is_ok()
}

// Sends the numbers 0 to `count - 1` and then the end, and tells how many came out.
fn carry<R: Wait + Clock>(rt: &R, row: &mut Row, count: u64) -> u64 {
    let mut sent = 0u64;
    let mut came = 0u64;
    let mut back_off = BackOff::new();
    for _ in rt.forever() {
        let mut told = row.turn_rest(rt);
        if send(rt, row, sent, count) {
            sent = sent.saturating_add(1);
            told = Turn::Moved;
        }
        match row.take(rt) {
            Some(Some(_)) => {
                came = came.saturating_add(1);
                told = Turn::Moved;
            }
            Some(None) => return came,
            None => {}
        }
        if told == Turn::Moved {
            back_off.reset();
        } else {
            back_off.wait(rt);
        }
    }
    unreachable!()
}

fn carried_in<'s, E: 's, R: Threads + Wait + Clock + Copy + Drop + Send + 's>(
    rt: R,
    alloc: Global,
    scope: &'s Scope<'s, E>,
    capacity: u32,
    count: u64,
    pause: Duration,
) -> Result<u64, Memory>
    requires { 1 ≤ capacity }
{
    let mut row = Row::start(rt, alloc, scope, capacity)?;
    thread::sleep(&rt, pause);
    let came = carry(&rt, &mut row, count);
    row.end(&rt);
    Ok(came)
}

/// How many numbers came out of a row of two stages, into which so many were sent after a pause.
pub fn carried<R: Threads + Wait + Clock + Copy + Drop + Send>(
    rt: R,
    alloc: Global,
    capacity: u32,
    count: u64,
    pause: Duration,
) -> Result<u64, Memory>
    requires { 1 ≤ capacity }
{
    thread::scope(
        thread::scope_env(),
        &rt,
        |scope| -> Result<u64, Memory>
            requires { 1 ≤ capacity }
        { carried_in(rt, alloc, scope, capacity, count, pause) },
    )
}
