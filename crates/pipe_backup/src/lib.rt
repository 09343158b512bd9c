//! A backup into a store whose stream passes through stages in threads: in one call, or in steps between which the caller
//! does other things with the keeper.
#![tactic(auto)]

mod ending;
mod line;
mod piping;
mod sealing;
mod stepping;

ghost use Rattle.std.specs.Prelude.{◌≡◌, ◌≤◌, None};
ghost use Rattle.vault_types.specs.JobRanges.{IsInRange};
ghost use Rattle.backup_jobs.specs.Backup.{BacksUp};
ghost use Rattle.backup_jobs.specs.Going.{Began};
ghost use Rattle.pipe_backup.specs.Piping.{IsPiping, HasCome};

pub use crate::ending::end_piped;
pub use crate::line::backup_line_piped;
pub use crate::piping::{Ended, Piping, start_piped};
pub use crate::stepping::step_piped;
use keeper_core::Keeper;
use pipe_run::StackSizes;
use stage_threads::BackOff;
use std::alloc::Global;
use std::sync::Wait;
use std::thread::{Scope, Threads};
use std::time::Clock;
use vault_traits::{Shelf, Source};
use vault_types::{Answer, Fault, JobConfig, Limits, Set, Turn};

/// How a backup runs: how many items a line between two stages holds, at least 1; over how many lanes chunks are named, 1 to
/// 8; and the stacks of the threads, that of the sealing lane apart.
#[derive(Clone, Copy)]
pub struct Course {
    pub queue: u32,
    pub lanes: u32,
    pub stacks: StackSizes,
    pub seal: Option<usize>,
}

// Makes a backup's steps to the last one.
fn run_steps<I: Source + Drop, R: Wait + Clock, S: Shelf>(
    rt: &R,
    alloc: Global,
    keeper: &mut Keeper<S>,
    piping: &mut Piping<I>,
) -> Ended
    requires { (b : Began) × IsPiping b (λ (i : I). I.told i) keeper.old piping.old }
    ensures { (b : Began) → IsPiping b (λ (i : I). I.told i) keeper.old piping.old
        → HasCome b (λ (i : I). I.told i) keeper.new piping.new result }
{
    let mut back_off = BackOff::new();
    for _ in rt.forever() {
        match step_piped(rt, alloc, keeper, piping) {
            Err(ended) => return ended,
            Ok(Turn::Moved) => back_off.reset(),
            Ok(_) => back_off.wait(rt),
        }
    }
    unreachable!()
}

/// Backs what the source has left up into a set of the store, as its next version, by stages in threads of the scope; a
/// stage whose thread is refused runs in this one. The source comes back. `Full`, exactly where the set may have no version
/// more or the ids may run out, and then nothing is done; else `Memory`, `StoreFault`, `ReadFault`, `TooMany`. After an
/// `Err` there is no job, and the store has the versions that it had; only a `StoreFault` may leave the new version on the
/// shelf, until the next mending takes it back.
pub fn backup_piped<
    's,
    E: 's,
    R: Threads + Wait + Clock + Copy + Drop + Send + 's,
    S: Shelf,
    I: Source + Drop + Send + 's,
>(
    rt: R,
    alloc: Global,
    scope: &'s Scope<'s, E>,
    keeper: &mut Keeper<S>,
    set: Set,
    source: I,
    config: &JobConfig,
    limits: &Limits,
    course: Course,
) -> (I, Result<Answer, Fault>)
    requires no_job { keeper.old.job ≡ None }
    requires config { IsInRange config.now }
    requires low { 1 ≤ limits.now.chunks }
    requires high { limits.now.chunks ≤ 4194304 }
    requires last { limits.now.last ≤ 4294967294 }
    requires queue { 1 ≤ course.queue }
    requires lanes { (1 ≤ course.lanes) × (course.lanes ≤ 8) }
    ensures { BacksUp set config.now limits.now keeper.old keeper.new (I.told source) (I.told result.0)
        result.1 }
{
    match start_piped(
        rt, alloc, scope, keeper, set, source, config, limits, course,
    ) {
        Err((source, fault)) => (source, Err(fault)),
        Ok(piping) => {
            let mut piping = piping;
            let ended = run_steps(&rt, alloc, keeper, &mut piping);
            end_piped(&rt, alloc, keeper, piping, ended)
        }
    }
}
