// Turns of the restores that run.
ghost use Rattle.std.specs.Prelude.{◌≡◌, ◌<◌, ◌≤◌, ◌+◌, ◌∷◌, [], ℕ, List, Option, get_or, map, vec_len, vec_capacity, IfSome};
ghost use Rattle.vault_types.specs.declared.Answer.{Answer};
ghost use Rattle.vault_types.specs.declared.Limits.{Limits as LimitsNow};
ghost use Rattle.vault_types.specs.declared.Line.{Line};
ghost use Rattle.vault_traits.specs.Told.{Files, PlacesTold};
ghost use Rattle.store_model.specs.Steps.{Moment};
ghost use Rattle.keeper_catalog.specs.View.{View};
ghost use Rattle.beside_steps.specs.Holding.{BesideView, Holds, past_of};
ghost use Rattle.beside_jobs.specs.Under.{IsUnder};

use beside_steps::{Beside, end_restore, feed_restore, take_reply};
use keeper_core::Keeper;
use restore_stage::Reply;
use stage_threads::BackOff;
use std::alloc::Global;
use std::sync::Wait;
use std::thread::Threads;
use std::time::Clock;
use vault_traits::{Places, Shelf, Sink};
use vault_types::{Answer, Limits, Turn};

// The reply of the restore at this place among those that run, where it has come.
fn reply_at<S: Shelf, O: Sink + Drop, R: Wait>(
    rt: &R,
    running: &mut Vec<Beside<S, O>>,
    at: usize,
) -> Option<Reply>
    requires here { at < vec_len running.old }
    requires holds { (v : View) × (files : Option Files) × Holds v files running.old.items }
    ensures past { map past_of running.new.items ≡ map past_of running.old.items }
    ensures reply { IfSome result (λ y. (e : BesideView) → e ≡ get_or running.new.items at e
        → e.restore.replied ≡ y ∷ []) }
    ensures holds { (v : View) (files : Option Files) → Holds v files running.old.items
        → Holds v files running.new.items }
    ensures many { vec_len running.new ≡ vec_len running.old }
    ensures room { vec_capacity running.new ≡ vec_capacity running.old }
{
    take_reply(rt, &mut running[at])
}

// Gives the restore at this place a turn.
fn feed_at<S: Shelf, O: Sink + Drop, R: Wait>(
    rt: &R,
    alloc: Global,
    keeper: &mut Keeper<S>,
    running: &mut Vec<Beside<S, O>>,
    at: usize,
) -> Turn
    requires here { at < vec_len running.old }
    requires holds { (files : Option Files) × Holds keeper.old files running.old.items }
    ensures under { (limits : LimitsNow) (lines : List Line) (start : Moment View) (i : ℕ)
        (answers : List Answer) (places : PlacesTold)
        → IsUnder limits lines start i answers running.old.items keeper.old places
        → IsUnder limits lines start i answers running.new.items keeper.new places }
    ensures holds { (places : PlacesTold) → Holds keeper.old places.files running.old.items
        → Holds keeper.new places.files running.new.items }
    ensures many { vec_len running.new ≡ vec_len running.old }
    ensures room { vec_capacity running.new ≡ vec_capacity running.old }
{
    feed_restore(rt, alloc, keeper, &mut running[at])
}

// Ends the restore at this place with its reply, and puts its answer at the place of its line.
fn end_at<S: Shelf, P: Places, R: Threads + Wait + Clock>(
    rt: &R,
    limits: &Limits,
    keeper: &mut Keeper<S>,
    places: &mut P,
    running: &mut Vec<Beside<S, P::Writer>>,
    answers: &mut Vec<Answer>,
    at: usize,
    reply: Reply,
)
where
    P::Writer: Drop,
    requires here { at < vec_len running.old }
    requires holds { Holds keeper.old (P.told places.old).files running.old.items }
    requires reply { (e : BesideView) → e ≡ get_or running.old.items at e → e.restore.replied ≡ reply ∷ [] }
    requires under { (lines : List Line) × (start : Moment View) × (i : ℕ)
        × IsUnder limits.now lines start i answers.old.items running.old.items keeper.old
        (P.told places.old) }
    ensures under { (lines : List Line) (start : Moment View) (i : ℕ)
        → IsUnder limits.now lines start i answers.old.items running.old.items keeper.old
        (P.told places.old)
        → IsUnder limits.now lines start i answers.new.items running.new.items keeper.new
        (P.told places.new) }
    ensures holds { Holds keeper.new (P.told places.new).files running.new.items }
    ensures one { vec_len running.old ≡ vec_len running.new + 1 }
    ensures room { vec_capacity running.new ≡ vec_capacity running.old }
{
    let entry = running.remove(at);
    let place = entry.place();
    let answer = end_restore(rt, keeper, places, limits, entry, reply);
    answers[place] = answer;
}

// One turn of the restore at this place among those that run: it goes on, or ends where it has
// replied.
fn serve_one<S: Shelf, P: Places, R: Threads + Wait + Clock>(
    rt: &R,
    alloc: Global,
    limits: &Limits,
    keeper: &mut Keeper<S>,
    places: &mut P,
    running: &mut Vec<Beside<S, P::Writer>>,
    answers: &mut Vec<Answer>,
    at: usize,
) -> Turn
where
    P::Writer: Drop,
    requires here { at < vec_len running.old }
    requires holds { Holds keeper.old (P.told places.old).files running.old.items }
    requires under { (lines : List Line) × (start : Moment View) × (i : ℕ)
        × IsUnder limits.now lines start i answers.old.items running.old.items keeper.old
        (P.told places.old) }
    ensures under { (lines : List Line) (start : Moment View) (i : ℕ)
        → IsUnder limits.now lines start i answers.old.items running.old.items keeper.old
        (P.told places.old)
        → IsUnder limits.now lines start i answers.new.items running.new.items keeper.new
        (P.told places.new) }
    ensures holds { Holds keeper.new (P.told places.new).files running.new.items }
    ensures left { vec_len running.old ≤ vec_len running.new + 1 }
    ensures room { vec_capacity running.new ≡ vec_capacity running.old }
{
    match reply_at(rt, running, at) {
        None => feed_at(rt, alloc, keeper, running, at),
        Some(reply) => {
            end_at(rt, limits, keeper, places, running, answers, at, reply);
            Turn::Moved
        }
    }
}

/// One turn of each restore that runs, the last one first. `Idle` where none got on.
pub(crate) fn serve<S: Shelf, P: Places, R: Threads + Wait + Clock>(
    rt: &R,
    alloc: Global,
    limits: &Limits,
    keeper: &mut Keeper<S>,
    places: &mut P,
    running: &mut Vec<Beside<S, P::Writer>>,
    answers: &mut Vec<Answer>,
) -> Turn
where
    P::Writer: Drop,
    requires holds { Holds keeper.old (P.told places.old).files running.old.items }
    requires under { (lines : List Line) × (start : Moment View) × (i : ℕ)
        × IsUnder limits.now lines start i answers.old.items running.old.items keeper.old
        (P.told places.old) }
    ensures under { (lines : List Line) (start : Moment View) (i : ℕ)
        → IsUnder limits.now lines start i answers.old.items running.old.items keeper.old
        (P.told places.old)
        → IsUnder limits.now lines start i answers.new.items running.new.items keeper.new
        (P.told places.new) }
    ensures holds { Holds keeper.new (P.told places.new).files running.new.items }
    ensures room { vec_capacity running.new ≡ vec_capacity running.old }
{
    let mut left = running.len();
    let mut got_on = Turn::Idle;
    while left > 0 {
        left -= 1;
        let turn = serve_one(rt, alloc, limits, keeper, places, running, answers, left);
        if turn == Turn::Moved {
            got_on = Turn::Moved;
        }
    }
    got_on
}

/// Turns until fewer than so many restores run.
pub(crate) fn serve_until<S: Shelf, P: Places, R: Threads + Wait + Clock>(
    rt: &R,
    alloc: Global,
    limits: &Limits,
    keeper: &mut Keeper<S>,
    places: &mut P,
    running: &mut Vec<Beside<S, P::Writer>>,
    answers: &mut Vec<Answer>,
    fewer: usize,
)
where
    P::Writer: Drop,
    requires holds { Holds keeper.old (P.told places.old).files running.old.items }
    requires under { (lines : List Line) × (start : Moment View) × (i : ℕ)
        × IsUnder limits.now lines start i answers.old.items running.old.items keeper.old
        (P.told places.old) }
    ensures under { (lines : List Line) (start : Moment View) (i : ℕ)
        → IsUnder limits.now lines start i answers.old.items running.old.items keeper.old
        (P.told places.old)
        → IsUnder limits.now lines start i answers.new.items running.new.items keeper.new
        (P.told places.new) }
    ensures holds { Holds keeper.new (P.told places.new).files running.new.items }
    ensures room { vec_capacity running.new ≡ vec_capacity running.old }
    ensures done { vec_len running.new < fewer }
{
    let mut back_off = BackOff::new();
    for _ in rt.forever() {
        if running.len() < fewer {
            return;
        }
        match serve(rt, alloc, limits, keeper, places, running, answers) {
            Turn::Moved => back_off.reset(),
            _ => back_off.wait(rt),
        }
    }
    unreachable!()
}
