//! Three stages in a row, in threads, kept, and both. Each test ends whatever the schedule: an end follows the last item, and
//! who waits leaves the processor to others.
ghost use Rattle.std.specs.Prelude.{◌≡◌, ◌≤◌, refl};
ghost use Rattle.std.proofs.Common.{◌∙◌};
ghost use Rattle.vault_types.specs.declared.Turn.TheVariants.{Idle};

use core::thread::Stack;
use stage_queue::{Rx, Tx, line};
use stage_threads::{BackOff, Stage, StageRoom, StageThread, together};
use std::alloc::Global;
use std::sync::Wait;
use std::test::Fail;
use std::thread;
use std::thread::{Scope, Threads};
use std::time::Clock;
use vault_types::{Memory, Turn};

// Passes numbers on, up to the first `None`.
#[derive(Drop)]
struct CarryStage {
    from: Rx<Option<u32>>,
    to: Tx<Option<u32>>,
    ready: Option<Option<u32>>,
    over: bool,
}

impl Stage for CarryStage {
    ghost same = { λ a b. (a.from.line ≡ b.from.line) × (a.to.line ≡ b.to.line) };

    ghost turned = { λ a turn b. turn ≡ Idle → (a.from ≡ b.from) × (a.to ≡ b.to) };

    fn turn<R: Wait>(&mut self, rt: &R) -> Turn {
        if let Some(item) = self.ready.take() {
            return match self.to.offer(rt, item) {
                Ok(()) => Turn::Moved,
                Err(back) => {
                    self.ready = Some(back);
                    Turn::Idle
                }
            };
        }
        if self.over {
            return Turn::Done;
        }
        match self.from.take(rt) {
            None => Turn::Idle,
            Some(item) => {
                self.over = item.is_none();
                self.ready = Some(item);
                Turn::Moved
            }
        }
    }

    ghost same_refl = { λ s. (refl, refl) };

    ghost same_trans = { λ a b c p q. (p.0 ∙ q.0, p.1 ∙ q.1) };
}

// A stack that no host gives to a thread, or the usual one.
fn stack(is_refused: bool) -> Stack {
    if is_refused {
        Stack::new().stack_size(usize::MAX)
    } else {
        Stack::new()
    }
}

fn is_done(stage: &CarryStage) -> bool {
    stage.over && stage.ready.is_none()
}

// How many of these are so.
fn count_of(first: bool, second: bool, third: bool) -> u32 {
    first as u32 + second as u32 + third as u32
}

// The number that is sent next, and none behind the last.
fn item_of(sent: u32, count: u32) -> Option<u32> {
    if sent < count { Some(sent) } else { None }
}

#[derive(Drop)]
struct Row {
    near: Tx<Option<u32>>,
    first: StageThread<CarryStage>,
    second: StageThread<CarryStage>,
    third: StageThread<CarryStage>,
    far: Rx<Option<u32>>,
}

impl Row {
    // Three stages in a row, of which those are refused their thread.
    fn start<'s, E: 's, R: Wait + Clock + Copy + Drop + Send + 's>(
        rt: R,
        alloc: Global,
        scope: &'s Scope<'s, E>,
        capacity: u32,
        refused: (bool, bool, bool),
    ) -> Result<Row, Memory>
        requires { 1 ≤ capacity }
    {
        let (_, near, from) = line(alloc, capacity)?;
        let (_, to, second_from) = line(alloc, capacity)?;
        let (_, second_to, third_from) = line(alloc, capacity)?;
        let (_, third_to, far) = line(alloc, capacity)?;
        let places = (
            StageRoom::new(alloc)?,
            StageRoom::new(alloc)?,
            StageRoom::new(alloc)?,
        );
        let first = CarryStage {
            from,
            to,
            ready: None,
            over: false,
        };
        let second = CarryStage {
            from: second_from,
            to: second_to,
            ready: None,
            over: false,
        };
        let third = CarryStage {
            from: third_from,
            to: third_to,
            ready: None,
            over: false,
        };
        Ok(Row {
            near,
            first: StageThread::start_on(rt, places.0, scope, first, stack(refused.0)),
            second: StageThread::start_on(rt, places.1, scope, second, stack(refused.1)),
            third: StageThread::start_on(rt, places.2, scope, third, stack(refused.2)),
            far,
        })
    }

    fn turn_rest<R: Wait>(&mut self, rt: &R) -> Turn {
        let first = self.first.turn(rt);
        let second = self.second.turn(rt);
        let third = self.third.turn(rt);
        together(first, together(second, third))
    }

    // Sends the next number, and tells whether it went in.
    fn send<R: Wait>(&mut self, rt: &R, sent: u32, count: u32) -> bool {
        sent <= count && self.near.offer(rt, item_of(sent, count)).is_ok()
    }

    // Sends the numbers 0 to `count - 1` and then `None`, and tells how many numbers came out, and whether all in order.
    fn carry<R: Wait + Clock>(&mut self, rt: &R, count: u32) -> (u32, bool) {
        let mut sent = 0u32;
        let mut came = 0u32;
        let mut in_order = true;
        let mut back_off = BackOff::new();
        for _ in rt.forever() {
            let mut told = self.turn_rest(rt);
            if self.send(rt, sent, count) {
                sent = sent.saturating_add(1);
                told = Turn::Moved;
            }
            match self.far.take(rt) {
                Some(Some(number)) => {
                    in_order = in_order && number == came;
                    came = came.saturating_add(1);
                    told = Turn::Moved;
                }
                Some(None) => return (came, in_order),
                None => {}
            }
            if told == Turn::Moved {
                back_off.reset();
            } else {
                back_off.wait(rt);
            }
        }
        unreachable!()
    }

    // Ends the stages, and tells how many were kept, and whether each is done.
    fn end<R: Threads + Wait + Clock>(mut self, rt: &R) -> (u32, bool) {
        for _ in rt.forever() {
            if self.turn_rest(rt) == Turn::Done {
                break;
            }
        }
        let kept = count_of(
            self.first.is_kept(),
            self.second.is_kept(),
            self.third.is_kept(),
        );
        let Row {
            near: _,
            first,
            second,
            third,
            far: _,
        } = self;
        let first = is_done(&first.end(rt));
        let second = is_done(&second.end(rt));
        let third = is_done(&third.end(rt));
        (kept, first && second && third)
    }
}

// How many numbers came out, whether all in order, how many stages were kept, and whether each was done.
type Carried = ((u32, bool), (u32, bool));

fn carried_in<'s, E: 's, R: Threads + Wait + Clock + Copy + Drop + Send + 's>(
    rt: R,
    alloc: Global,
    scope: &'s Scope<'s, E>,
    capacity: u32,
    count: u32,
    refused: (bool, bool, bool),
) -> Result<Carried, Memory>
    requires { 1 ≤ capacity }
{
    let mut row = Row::start(rt, alloc, scope, capacity, refused)?;
    let came = row.carry(&rt, count);
    Ok((came, row.end(&rt)))
}

fn carried<R: Threads + Wait + Clock + Copy + Drop + Send>(
    rt: R,
    alloc: Global,
    capacity: u32,
    count: u32,
    refused: (bool, bool, bool),
) -> Result<Carried, Memory>
    requires { 1 ≤ capacity }
{
    thread::scope(
        thread::scope_env(),
        &rt,
        |scope| -> Result<Carried, Memory>
            requires { 1 ≤ capacity }
        { carried_in(rt, alloc, scope, capacity, count, refused) },
    )
}

// Lines of one place and of 64, where all or none of the stages are refused their thread.
fn through_lines<R: Threads + Wait + Clock + Copy + Drop + Send>(
    rt: R,
    alloc: Global,
    refused: bool,
) -> Result<[Carried; 2], Memory> {
    let refused = (refused, refused, refused);
    let one = carried(rt, alloc, 1, 20_000, refused)?;
    let many = carried(rt, alloc, 64, 20_000, refused)?;
    Ok([one, many])
}

#[test]
fn three_stages_in_threads(rt: HostRuntime) -> Result<(), Fail> {
    assert!(rt; through_lines(rt, rt.alloc(), false)? == [((20_000, true), (0, true)); 2]);
    Ok(())
}

#[test]
fn three_stages_without_threads(rt: HostRuntime) -> Result<(), Fail> {
    assert!(rt; through_lines(rt, rt.alloc(), true)? == [((20_000, true), (3, true)); 2]);
    Ok(())
}

// Which stages are refused their thread, and how many are kept then.
const SOME: &[((bool, bool, bool), u32)] = &[
    ((true, false, false), 1),
    ((false, true, false), 1),
    ((false, false, true), 1),
    ((true, true, false), 2),
    ((true, false, true), 2),
    ((false, true, true), 2),
];

// Those of which something else came.
fn first_other<R: Threads + Wait + Clock + Copy + Drop + Send>(
    rt: R,
    alloc: Global,
    all: &[((bool, bool, bool), u32)],
) -> Result<Option<(bool, bool, bool)>, Memory> {
    for (refused, kept) in all {
        if carried(rt, alloc, 2, 5_000, *refused)? != ((5_000, true), (*kept, true)) {
            return Ok(Some(*refused));
        }
    }
    Ok(None)
}

#[test]
fn three_stages_with_some_threads(rt: HostRuntime) -> Result<(), Fail> {
    let other = first_other(rt, rt.alloc(), SOME)?;
    assert!(rt; other == None, "refused: {other:?}");
    Ok(())
}

// Sends 7, 8 and the end.
fn send_three<R: Wait>(rt: &R, near: &mut Tx<Option<u32>>) {
    let _ = near.offer(rt, Some(7));
    let _ = near.offer(rt, Some(8));
    let _ = near.offer(rt, None);
}

// What four takes give.
fn take_four<R: Wait>(
    rt: &R,
    alloc: Global,
    far: &mut Rx<Option<u32>>,
) -> Result<Vec<Option<u32>>, Memory> {
    let mut came = Vec::new(alloc);
    for _ in 0..4 {
        if let Some(item) = far.take(rt) {
            came.push(item)?;
        }
    }
    Ok(came)
}

// A stage that is kept, and what it has to carry is in its line: what it left in the next line, by its own end.
fn ended_in<'s, E: 's, R: Threads + Wait + Clock + Copy + Drop + Send + 's>(
    rt: R,
    alloc: Global,
    scope: &'s Scope<'s, E>,
) -> Result<(Vec<Option<u32>>, bool), Memory> {
    let (_, mut near, from) = line(alloc, 4)?;
    let (_, to, mut far) = line(alloc, 4)?;
    let place = StageRoom::new(alloc)?;
    let stage = CarryStage {
        from,
        to,
        ready: None,
        over: false,
    };
    let kept = StageThread::start_on(rt, place, scope, stage, stack(true));
    send_three(&rt, &mut near);
    let is_over = kept.end(&rt).over;
    Ok((take_four(&rt, alloc, &mut far)?, is_over))
}

fn ended_alone<R: Threads + Wait + Clock + Copy + Drop + Send>(
    rt: R,
    alloc: Global,
) -> Result<(Vec<Option<u32>>, bool), Memory> {
    thread::scope(thread::scope_env(), &rt, |scope| ended_in(rt, alloc, scope))
}

#[test]
fn a_kept_stage_is_done_at_its_end(rt: HostRuntime) -> Result<(), Fail> {
    let (came, is_over) = ended_alone(rt, rt.alloc())?;
    assert!(rt; came.as_slice() == [Some(7), Some(8), None].as_slice() && is_over);
    Ok(())
}
