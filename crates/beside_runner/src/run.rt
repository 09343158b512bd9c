// A run of lines with restores beside them.
ghost use Rattle.std.specs.Prelude.{◌≡◌, ◌<◌, ◌≤◌, ◌+◌, ℕ, true, false, List, [], length, get_or, set, map, vec_len, vec_capacity, None, Some, IfOk, OnOk, OnErr};
ghost use Rattle.std.specs.List.{AllByRecursion};
ghost use Rattle.vault_types.specs.declared.Answer.{Answer};
ghost use Rattle.vault_types.specs.declared.Limits.{Limits as LimitsNow};
ghost use Rattle.vault_types.specs.declared.Line.{Line};
ghost use Rattle.store_model.specs.Outputs.{AreApartLines};
ghost use Rattle.store_model.specs.Ranges.{AreLimits, IsLineInRange};
ghost use Rattle.store_model.specs.Script.{RunsLines};
ghost use Rattle.store_model.specs.Steps.{Moment};
ghost use Rattle.beside_laws.specs.Progress.{Underway};
ghost use Rattle.beside_runner.specs.Turns.{is_restore};

use crate::serving::{feed_at, serve, serve_until};
use crate::world::{Begun, LineTurn, RunningRestore, World};
use beside_laws::PinnedKeeper;
use stage_threads::BackOff;
use std::alloc::Global;
use std::sync::Wait;
use std::time::Clock;
use vault_types::{Answer, Fault, Limits, Line, Memory, Turn};

// Gives each restore that runs what it waits for. `Idle` where none got on.
fn feed_all<K: PinnedKeeper, E: RunningRestore<K>, Y: Drop, W: World<K, E, Y>, R: Wait>(
    rt: &R,
    world: &mut W,
    running: &mut Vec<E>,
) -> Turn
    requires holds { W.holds world.old running.old.items }
    ensures under { (limits : LimitsNow) (lines : List Line) (start : Moment K) (i : ℕ)
        (answers : List Answer)
        → Underway K.shelf K.keeps K.strays limits lines start i answers
        (map E.past running.old.items) (W.now world.old)
        → Underway K.shelf K.keeps K.strays limits lines start i answers
        (map E.past running.new.items) (W.now world.new) }
    ensures holds { W.holds world.new running.new.items }
    ensures line { W.in_line world.new ≡ W.in_line world.old }
    ensures room { vec_capacity running.new ≡ vec_capacity running.old }
{
    let mut got_on = Turn::Idle;
    for at in 0..running.len() {
        if feed_at(rt, world, running, at) == Turn::Moved {
            got_on = Turn::Moved;
        }
    }
    got_on
}

// Goes on with the line that the world is in until it answers, and feeds the restores meanwhile.
fn go_through<K: PinnedKeeper, E: RunningRestore<K>, Y: Drop, W: World<K, E, Y>, R: Wait + Clock>(
    rt: &R,
    alloc: Global,
    limits: &Limits,
    world: &mut W,
    running: &mut Vec<E>,
    line: &Line,
) -> Answer
    requires within { W.in_line world.old ≡ Some line.now }
    requires range { IsLineInRange line.now }
    requires limits { AreLimits limits.now }
    requires holds { W.holds world.old running.old.items }
    ensures under { (lines : List Line) (start : Moment K) (i : ℕ) (answers : List Answer)
        → i < length lines → line.now ≡ get_or lines i line.now
        → Underway K.shelf K.keeps K.strays limits.now lines start i answers
        (map E.past running.old.items) (W.now world.old)
        → Underway K.shelf K.keeps K.strays limits.now lines start (i + 1) (set answers i result)
        (map E.past running.new.items) (W.now world.new) }
    ensures holds { W.holds world.new running.new.items }
    ensures between { W.in_line world.new ≡ None }
    ensures room { vec_capacity running.new ≡ vec_capacity running.old }
{
    let mut back_off = BackOff::new();
    for _ in rt.forever() {
        let fed = feed_all(rt, world, running);
        match world.go_on(rt, alloc, line, limits) {
            LineTurn::Answered(answer) => return answer,
            LineTurn::Moved => back_off.reset(),
            LineTurn::Idle => {
                if fed == Turn::Moved {
                    back_off.reset();
                } else {
                    back_off.wait(rt);
                }
            }
        }
    }
    unreachable!()
}

// A turn of each restore that runs, and more of them until a worker is free where the line is a
// restore.
fn make_room<K: PinnedKeeper, E: RunningRestore<K>, Y: Drop, W: World<K, E, Y>, R: Wait + Clock>(
    rt: &R,
    limits: &Limits,
    world: &mut W,
    running: &mut Vec<E>,
    answers: &mut Vec<Answer>,
    line: &Line,
    workers: usize,
)
    requires between { W.in_line world.old ≡ None }
    requires holds { W.holds world.old running.old.items }
    requires under { (lines : List Line) × (start : Moment K) × (i : ℕ)
        × Underway K.shelf K.keeps K.strays limits.now lines start i answers.old.items
        (map E.past running.old.items) (W.now world.old) }
    ensures under { (lines : List Line) (start : Moment K) (i : ℕ)
        → Underway K.shelf K.keeps K.strays limits.now lines start i answers.old.items
        (map E.past running.old.items) (W.now world.old)
        → Underway K.shelf K.keeps K.strays limits.now lines start i answers.new.items
        (map E.past running.new.items) (W.now world.new) }
    ensures holds { W.holds world.new running.new.items }
    ensures between { W.in_line world.new ≡ None }
    ensures room { vec_capacity running.new ≡ vec_capacity running.old }
    ensures free { is_restore line.now ≡ true → vec_len running.new < workers }
{
    serve(rt, limits, world, running, answers);
    if let Line::Restore { .. } = line {
        serve_until(rt, limits, world, running, answers, workers);
    }
}

// The line at this place.
fn step<K: PinnedKeeper, E: RunningRestore<K>, Y: Drop, W: World<K, E, Y>, R: Wait + Clock>(
    rt: &R,
    alloc: Global,
    limits: &Limits,
    world: &mut W,
    running: &mut Vec<E>,
    answers: &mut Vec<Answer>,
    lines: &[Line],
    at: usize,
)
    requires here { at < length lines.now }
    requires ranges { AllByRecursion IsLineInRange lines.now }
    requires limits { AreLimits limits.now }
    requires between { W.in_line world.old ≡ None }
    requires holds { W.holds world.old running.old.items }
    requires room { (line : Line) → line ≡ get_or lines.now at line → is_restore line ≡ true
        → vec_len running.old < vec_capacity running.old }
    requires under { (start : Moment K)
        × Underway K.shelf K.keeps K.strays limits.now lines.now start at answers.old.items
        (map E.past running.old.items) (W.now world.old) }
    ensures under { (start : Moment K)
        → Underway K.shelf K.keeps K.strays limits.now lines.now start at answers.old.items
        (map E.past running.old.items) (W.now world.old)
        → Underway K.shelf K.keeps K.strays limits.now lines.now start (at + 1) answers.new.items
        (map E.past running.new.items) (W.now world.new) }
    ensures holds { W.holds world.new running.new.items }
    ensures between { W.in_line world.new ≡ None }
    ensures room { vec_capacity running.old ≤ vec_capacity running.new }
{
    let line = &lines[at];
    match world.begin(alloc, line, limits, at) {
        Begun::Answered(answer) => answers[at] = answer,
        Begun::InParts => {
            let answer = go_through(rt, alloc, limits, world, running, line);
            answers[at] = answer;
        }
        Begun::Running(entry) => match running.push(entry) {
            Ok(()) => {}
            Err(_) => unreachable!(),
        },
    }
}

/// Runs the lines in order, with at most so many restores beside them. Each answers, at its place,
/// and the answers have their causes in some order; a restore gives what its version was as its
/// line began. `Memory` comes before the first line, and then nothing has changed.
pub fn run_beside<
    K: PinnedKeeper,
    E: RunningRestore<K>,
    Y: Drop,
    W: World<K, E, Y>,
    R: Wait + Clock,
>(
    rt: &R,
    alloc: Global,
    limits: &Limits,
    world: &mut W,
    lines: &[Line],
    workers: usize,
) -> Result<Vec<Answer>, Memory>
    requires apart { AreApartLines lines.now }
    requires ranges { AllByRecursion IsLineInRange lines.now }
    requires limits { AreLimits limits.now }
    requires some { 1 ≤ workers }
    requires between { W.in_line world.old ≡ None }
    requires alone { W.holds world.old [] }
    ensures runs { IfOk result (λ answers. RunsLines false
        (λ S. K.keeps (W.now world.old).keeper S None) (λ S. K.strays (W.now world.old).keeper)
        limits.now lines.now answers.items (K.shelf (W.now world.old).keeper)
        (K.shelf (W.now world.new).keeper) (W.now world.old).places (W.now world.new).places) }
    ensures ended { OnOk result ((W.in_line world.new ≡ None) × W.holds world.new []) }
    ensures memory { OnErr result (world.new ≡ world.old) }
{
    let mut answers = Vec::from_elem(alloc, Answer::Refused(Fault::Memory), lines.len())?;
    let mut running = Vec::with_capacity(alloc, workers)?;
    for at in 0..lines.len() {
        make_room(
            rt,
            limits,
            world,
            &mut running,
            &mut answers,
            &lines[at],
            workers,
        );
        step(
            rt,
            alloc,
            limits,
            world,
            &mut running,
            &mut answers,
            lines,
            at,
        );
    }
    serve_until(rt, limits, world, &mut running, &mut answers, 1);
    Ok(answers)
}
