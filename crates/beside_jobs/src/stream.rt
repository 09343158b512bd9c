// A source's stream on its way into the store, with restores beside it.
ghost use Rattle.std.specs.Prelude.{◌≡◌, ◌≤◌, vec_capacity, None, OnOk, IfErr};
ghost use Rattle.vault_types.specs.JobRanges.{IsInRange};
ghost use Rattle.backup_jobs.specs.Going.{Began};
ghost use Rattle.pipe_backup.specs.Piping.{IsPiping, HasCome};
ghost use Rattle.beside_jobs.specs.Beside.{Reached, RunsThere, IsBeside, HasBackedUp};

use crate::feeding::feed_at;
use beside_steps::Beside;
use keeper_core::Keeper;
use pipe_backup::{Course, Ended, Piping, end_piped, start_piped, step_piped};
use stage_threads::BackOff;
use std::alloc::Global;
use std::sync::Wait;
use std::thread::{Scope, Threads};
use std::time::Clock;
use vault_traits::{Shelf, Sink, Source};
use vault_types::{Answer, Fault, JobConfig, Limits, Set, Turn};

// A turn of each restore that runs, the last one first, and a step of the backup.
fn turn<S: Shelf, O: Sink + Drop, I: Source + Drop, R: Wait + Clock>(
    rt: &R,
    alloc: Global,
    keeper: &mut Keeper<S>,
    running: &mut Vec<Beside<S, O>>,
    piping: &mut Piping<I>,
) -> Result<Turn, Ended>
    requires { (r : Reached) × (first : Began)
        × IsBeside r first running.old.items (λ b. IsPiping b (λ (i : I). I.told i) keeper.old piping.old) }
    ensures ok { (r : Reached) (first : Began)
        → IsBeside r first running.old.items (λ b. IsPiping b (λ (i : I). I.told i) keeper.old piping.old)
        → OnOk result
        (IsBeside r first running.new.items (λ b. IsPiping b (λ (i : I). I.told i) keeper.new piping.new)) }
    ensures err { (r : Reached) (first : Began)
        → IsBeside r first running.old.items (λ b. IsPiping b (λ (i : I). I.told i) keeper.old piping.old)
        → IfErr result (λ e.
        IsBeside r first running.new.items (λ b. HasCome b (λ (i : I). I.told i) keeper.new piping.new e)) }
    ensures room { vec_capacity running.new ≡ vec_capacity running.old }
{
    let mut left = running.len();
    let mut got_on = Turn::Idle;
    while left > 0 {
        left -= 1;
        let turn = feed_at(rt, alloc, keeper, running, left);
        if turn == Turn::Moved {
            got_on = Turn::Moved;
        }
    }
    match step_piped(rt, alloc, keeper, piping) {
        Err(ended) => Err(ended),
        Ok(Turn::Moved) => Ok(Turn::Moved),
        Ok(_) => Ok(got_on),
    }
}

// Turns, until the backup's stream has ended.
fn turn_to_end<S: Shelf, O: Sink + Drop, I: Source + Drop, R: Wait + Clock>(
    rt: &R,
    alloc: Global,
    keeper: &mut Keeper<S>,
    running: &mut Vec<Beside<S, O>>,
    piping: &mut Piping<I>,
) -> Ended
    requires { (r : Reached) × (first : Began)
        × IsBeside r first running.old.items (λ b. IsPiping b (λ (i : I). I.told i) keeper.old piping.old) }
    ensures come { (r : Reached) (first : Began)
        → IsBeside r first running.old.items (λ b. IsPiping b (λ (i : I). I.told i) keeper.old piping.old)
        → IsBeside r first running.new.items
        (λ b. HasCome b (λ (i : I). I.told i) keeper.new piping.new result) }
    ensures room { vec_capacity running.new ≡ vec_capacity running.old }
{
    let mut back_off = BackOff::new();
    for _ in rt.forever() {
        match turn(rt, alloc, keeper, running, piping) {
            Err(ended) => return ended,
            Ok(Turn::Moved) => back_off.reset(),
            Ok(_) => back_off.wait(rt),
        }
    }
    unreachable!()
}

/// Backs what the source has left up into a set of the store, as its next version, by stages in threads of the scope, and
/// gives the restores that run their payloads meanwhile. The source comes back. Refused as a backup alone is.
pub(crate) fn stream_beside<
    's,
    X: 's,
    S: Shelf,
    O: Sink + Drop,
    I: Source + Drop + Send + 's,
    R: Threads + Wait + Clock + Copy + Drop + Send + 's,
>(
    rt: R,
    alloc: Global,
    scope: &'s Scope<'s, X>,
    keeper: &mut Keeper<S>,
    running: &mut Vec<Beside<S, O>>,
    set: Set,
    source: I,
    config: &JobConfig,
    limits: &Limits,
    course: Course,
) -> (I, Result<Answer, Fault>)
    requires config { IsInRange config.now }
    requires low { 1 ≤ limits.now.chunks }
    requires high { limits.now.chunks ≤ 4194304 }
    requires last { limits.now.last ≤ 4294967294 }
    requires queue { 1 ≤ course.queue }
    requires lanes { (1 ≤ course.lanes) × (course.lanes ≤ 8) }
    requires restores { (r : Reached) × RunsThere r running.old.items keeper.old }
    ensures backed_up { (r : Reached) → RunsThere r running.old.items keeper.old
        → HasBackedUp r running.new.items set config.now limits.now keeper.new (I.told source)
        (I.told result.0) result.1 }
    ensures room { vec_capacity running.new ≡ vec_capacity running.old }
{
    keeper.keeps_some_core();
    match start_piped(
        rt, alloc, scope, keeper, set, source, config, limits, course,
    ) {
        Err((source, fault)) => (source, Err(fault)),
        Ok(piping) => {
            let mut piping = piping;
            let ended = turn_to_end(&rt, alloc, keeper, running, &mut piping);
            end_piped(&rt, alloc, keeper, piping, ended)
        }
    }
}
