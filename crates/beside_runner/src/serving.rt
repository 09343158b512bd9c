// Turns of the restores that run.
ghost use Rattle.std.specs.Prelude.{◌≡◌, ◌<◌, ◌≤◌, ◌+◌, ℕ, List, get_or, map, vec_len, vec_capacity, None, IfSome};
ghost use Rattle.vault_types.specs.declared.Answer.{Answer};
ghost use Rattle.vault_types.specs.declared.Limits.{Limits as LimitsNow};
ghost use Rattle.vault_types.specs.declared.Line.{Line};
ghost use Rattle.store_model.specs.Steps.{Moment};
ghost use Rattle.beside_laws.specs.Progress.{Underway};

use crate::world::{RunningRestore, World};
use beside_laws::PinnedKeeper;
use stage_threads::BackOff;
use std::sync::Wait;
use std::time::Clock;
use vault_types::{Answer, Limits, Turn};

// The reply of the restore at this place among those that run, where it has come.
fn reply_at<K: PinnedKeeper, E: RunningRestore<K>, Y: Drop, W: World<K, E, Y>, R: Wait>(
    rt: &R,
    world: &W,
    running: &mut Vec<E>,
    at: usize,
) -> Option<Y>
    requires here { at < vec_len running.old }
    requires holds { W.holds world.now running.old.items }
    ensures past { map E.past running.new.items ≡ map E.past running.old.items }
    ensures reply { IfSome result (λ y. (e : E) → e ≡ get_or running.new.items at e → W.replied e y) }
    ensures holds { W.holds world.now running.new.items }
    ensures many { vec_len running.new ≡ vec_len running.old }
    ensures room { vec_capacity running.new ≡ vec_capacity running.old }
{
    world.reply(rt, &mut running[at])
}

/// Gives the restore at this place what it waits for.
pub(crate) fn feed_at<K: PinnedKeeper, E: RunningRestore<K>, Y: Drop, W: World<K, E, Y>, R: Wait>(
    rt: &R,
    world: &mut W,
    running: &mut Vec<E>,
    at: usize,
) -> Turn
    requires here { at < vec_len running.old }
    requires holds { W.holds world.old running.old.items }
    ensures under { (limits : LimitsNow) (lines : List Line) (start : Moment K) (i : ℕ)
        (answers : List Answer)
        → Underway K.shelf K.keeps K.strays limits lines start i answers
        (map E.past running.old.items) (W.now world.old)
        → Underway K.shelf K.keeps K.strays limits lines start i answers
        (map E.past running.new.items) (W.now world.new) }
    ensures holds { W.holds world.new running.new.items }
    ensures line { W.in_line world.new ≡ W.in_line world.old }
    ensures many { vec_len running.new ≡ vec_len running.old }
    ensures room { vec_capacity running.new ≡ vec_capacity running.old }
{
    world.feed(rt, &mut running[at])
}

// Ends the restore at this place with its reply, and puts its answer at the place of its line.
fn end_at<K: PinnedKeeper, E: RunningRestore<K>, Y: Drop, W: World<K, E, Y>, R: Wait>(
    rt: &R,
    limits: &Limits,
    world: &mut W,
    running: &mut Vec<E>,
    answers: &mut Vec<Answer>,
    at: usize,
    reply: Y,
)
    requires here { at < vec_len running.old }
    requires between { W.in_line world.old ≡ None }
    requires holds { W.holds world.old running.old.items }
    requires reply { (e : E) → e ≡ get_or running.old.items at e → W.replied e reply }
    requires under { (lines : List Line) × (start : Moment K) × (i : ℕ)
        × Underway K.shelf K.keeps K.strays limits.now lines start i answers.old.items
        (map E.past running.old.items) (W.now world.old) }
    ensures under { (lines : List Line) (start : Moment K) (i : ℕ)
        → Underway K.shelf K.keeps K.strays limits.now lines start i answers.old.items
        (map E.past running.old.items) (W.now world.old)
        → Underway K.shelf K.keeps K.strays limits.now lines start i answers.new.items
        (map E.past running.new.items) (W.now world.new) }
    ensures holds { W.holds world.new running.new.items }
    ensures between { W.in_line world.new ≡ None }
    ensures one { vec_len running.old ≡ vec_len running.new + 1 }
    ensures room { vec_capacity running.new ≡ vec_capacity running.old }
{
    let entry = running.remove(at);
    let place = entry.place();
    let answer = world.end(rt, limits, entry, reply);
    answers[place] = answer;
}

// One turn of the restore at this place among those that run: it goes on, or ends where it has
// replied.
fn serve_one<K: PinnedKeeper, E: RunningRestore<K>, Y: Drop, W: World<K, E, Y>, R: Wait>(
    rt: &R,
    limits: &Limits,
    world: &mut W,
    running: &mut Vec<E>,
    answers: &mut Vec<Answer>,
    at: usize,
) -> Turn
    requires here { at < vec_len running.old }
    requires between { W.in_line world.old ≡ None }
    requires holds { W.holds world.old running.old.items }
    requires under { (lines : List Line) × (start : Moment K) × (i : ℕ)
        × Underway K.shelf K.keeps K.strays limits.now lines start i answers.old.items
        (map E.past running.old.items) (W.now world.old) }
    ensures under { (lines : List Line) (start : Moment K) (i : ℕ)
        → Underway K.shelf K.keeps K.strays limits.now lines start i answers.old.items
        (map E.past running.old.items) (W.now world.old)
        → Underway K.shelf K.keeps K.strays limits.now lines start i answers.new.items
        (map E.past running.new.items) (W.now world.new) }
    ensures holds { W.holds world.new running.new.items }
    ensures between { W.in_line world.new ≡ None }
    ensures left { vec_len running.old ≤ vec_len running.new + 1 }
    ensures room { vec_capacity running.new ≡ vec_capacity running.old }
{
    match reply_at(rt, world, running, at) {
        None => feed_at(rt, world, running, at),
        Some(reply) => {
            end_at(rt, limits, world, running, answers, at, reply);
            Turn::Moved
        }
    }
}

/// One turn of each restore that runs, the last one first. `Idle` where none got on.
pub(crate) fn serve<K: PinnedKeeper, E: RunningRestore<K>, Y: Drop, W: World<K, E, Y>, R: Wait>(
    rt: &R,
    limits: &Limits,
    world: &mut W,
    running: &mut Vec<E>,
    answers: &mut Vec<Answer>,
) -> Turn
    requires between { W.in_line world.old ≡ None }
    requires holds { W.holds world.old running.old.items }
    requires under { (lines : List Line) × (start : Moment K) × (i : ℕ)
        × Underway K.shelf K.keeps K.strays limits.now lines start i answers.old.items
        (map E.past running.old.items) (W.now world.old) }
    ensures under { (lines : List Line) (start : Moment K) (i : ℕ)
        → Underway K.shelf K.keeps K.strays limits.now lines start i answers.old.items
        (map E.past running.old.items) (W.now world.old)
        → Underway K.shelf K.keeps K.strays limits.now lines start i answers.new.items
        (map E.past running.new.items) (W.now world.new) }
    ensures holds { W.holds world.new running.new.items }
    ensures between { W.in_line world.new ≡ None }
    ensures room { vec_capacity running.new ≡ vec_capacity running.old }
{
    let mut left = running.len();
    let mut got_on = Turn::Idle;
    while left > 0 {
        left -= 1;
        if serve_one(rt, limits, world, running, answers, left) == Turn::Moved {
            got_on = Turn::Moved;
        }
    }
    got_on
}

/// Turns until fewer than so many restores run.
pub(crate) fn serve_until<
    K: PinnedKeeper,
    E: RunningRestore<K>,
    Y: Drop,
    W: World<K, E, Y>,
    R: Wait + Clock,
>(
    rt: &R,
    limits: &Limits,
    world: &mut W,
    running: &mut Vec<E>,
    answers: &mut Vec<Answer>,
    fewer: usize,
)
    requires between { W.in_line world.old ≡ None }
    requires holds { W.holds world.old running.old.items }
    requires under { (lines : List Line) × (start : Moment K) × (i : ℕ)
        × Underway K.shelf K.keeps K.strays limits.now lines start i answers.old.items
        (map E.past running.old.items) (W.now world.old) }
    ensures under { (lines : List Line) (start : Moment K) (i : ℕ)
        → Underway K.shelf K.keeps K.strays limits.now lines start i answers.old.items
        (map E.past running.old.items) (W.now world.old)
        → Underway K.shelf K.keeps K.strays limits.now lines start i answers.new.items
        (map E.past running.new.items) (W.now world.new) }
    ensures holds { W.holds world.new running.new.items }
    ensures between { W.in_line world.new ≡ None }
    ensures room { vec_capacity running.new ≡ vec_capacity running.old }
    ensures done { vec_len running.new < fewer }
{
    let mut back_off = BackOff::new();
    for _ in rt.forever() {
        if running.len() < fewer {
            return;
        }
        match serve(rt, limits, world, running, answers) {
            Turn::Moved => back_off.reset(),
            _ => back_off.wait(rt),
        }
    }
    unreachable!()
}
