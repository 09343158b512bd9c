//! A backup into a store, on one thread.
#![tactic(auto)]

mod ending;
mod line;
mod reading;

ghost use Rattle.std.specs.Prelude.{◌≡◌, ◌≤◌, None, []};
ghost use Rattle.vault_types.specs.JobRanges.{IsInRange};
ghost use Rattle.backup_pass.specs.Passing.{index_in};
ghost use Rattle.backup_jobs.specs.Backup.{BacksUp};
ghost use Rattle.backup_jobs.specs.Going.{Began, IsOver};
ghost use Rattle.serial_backup.specs.Streaming.{IsGoing};

use crate::ending::end_pass;
pub use crate::line::backup_line;
use crate::reading::read_all;
use backup_jobs::{Opened, StreamEnd, close_job, open_job};
use backup_pass::Pass;
use fp_index::Index;
use keeper_core::Keeper;
use std::alloc::Global;
use vault_traits::{Shelf, Source};
use vault_types::{Answer, Fault, JobConfig, Limits, Set};

// Reads the stream through the pass, and puts its containers. The index comes back.
fn run<S: Shelf, I: Source>(
    alloc: Global,
    keeper: &mut Keeper<S>,
    source: &mut I,
    pass: Pass,
    lens: &mut Vec<u32>,
) -> (Index, Result<StreamEnd, Fault>)
    requires { (b : Began) × IsGoing b keeper.old (I.told source.old) pass lens.old.items [] }
    ensures index { result.0 ≡ index_in pass }
    ensures over { (b : Began) → IsGoing b keeper.old (I.told source.old) pass lens.old.items []
        → IsOver b keeper.new (I.told source.new) lens.new.items result.1 }
{
    let mut pass = pass;
    match read_all(alloc, keeper, source, &mut pass, lens) {
        Err(fault) => (pass.end(), Err(fault)),
        Ok(()) => end_pass(alloc, keeper, pass, lens),
    }
}

/// Backs what the source has left up into a set of the store, as its next version. `Full`, exactly where the set may
/// have no version more or the ids may run out, and then nothing is done; else `Memory`, `StoreFault`, `ReadFault`,
/// `TooMany`. After an `Err` there is no job, and the store has the versions that it had; only a `StoreFault` may leave
/// the new version on the shelf, until the next mending takes it back.
pub fn backup_plain<S: Shelf, I: Source>(
    alloc: Global,
    keeper: &mut Keeper<S>,
    set: Set,
    source: &mut I,
    config: &JobConfig,
    limits: &Limits,
) -> Result<Answer, Fault>
    requires no_job { keeper.old.job ≡ None }
    requires config { IsInRange config.now }
    requires low { 1 ≤ limits.now.chunks }
    requires high { limits.now.chunks ≤ 4194304 }
    requires last { limits.now.last ≤ 4294967294 }
    ensures { BacksUp set config.now limits.now keeper.old keeper.new (I.told source.old) (I.told source.new)
        result }
{
    let opened = open_job(alloc, keeper, set, config, limits)?;
    let Opened { job, sparse, index } = opened;
    let pass = Pass::new(alloc, index, sparse, job.first, *config, limits.chunks);
    let mut lens = Vec::new(alloc);
    let (index, ended) = run(alloc, keeper, source, pass, &mut lens);
    close_job(alloc, keeper, &job, index, ended, lens.as_slice())
}
