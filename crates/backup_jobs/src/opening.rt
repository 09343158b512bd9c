// The beginning of a job.
ghost use Rattle.std.specs.Prelude.{◌≡◌, ◌≤◌, None, Err, IfOk, IfErr};
ghost use Rattle.vault_traits.specs.Told.{SourceTold};
ghost use Rattle.backup_jobs.specs.Backup.{BacksUp};
ghost use Rattle.backup_jobs.specs.Going.{IsOpened};

use fp_index::Index;
use keeper_core::{Begun, Keeper};
use std::alloc::Global;
use vault_traits::Shelf;
use vault_types::{Fault, Id, JobConfig, Limits, Set, Version};

/// A job: its set, the number of its version, the id of its first container, and its settings.
#[derive(Clone, Copy)]
pub struct Job {
    pub set: Set,
    pub version: Version,
    pub first: Id,
    pub config: JobConfig,
}

/// A job that has begun, with the sparse list of the version before, and with the index, which is lent until the job is
/// closed.
#[derive(Drop)]
pub struct Opened {
    pub job: Job,
    pub sparse: Vec<Id>,
    pub index: Index,
}

/// Begins the job of a set's next version. `Full`, exactly where the set may have no version more or the ids may run out,
/// and then nothing is done; else `Memory`, `StoreFault`. After an `Err` there is no job.
pub fn open_job<S: Shelf>(
    alloc: Global,
    keeper: &mut Keeper<S>,
    set: Set,
    config: &JobConfig,
    limits: &Limits,
) -> Result<Opened, Fault>
    requires no_job { keeper.old.job ≡ None }
    requires high { limits.now.chunks ≤ 4194304 }
    requires last { limits.now.last ≤ 4294967294 }
    ensures ok { (from : SourceTold)
        → IfOk result (IsOpened set config.now limits.now keeper.old keeper.new from) }
    ensures err { (from : SourceTold)
        → IfErr result (λ f. BacksUp set config.now limits.now keeper.old keeper.new from from (Err f)) }
{
    if keeper.full(set, limits) {
        return Err(Fault::Full {
            set,
            latest: keeper.latest(set),
            next: keeper.next_id(),
        });
    }
    let begun = keeper.begin(alloc, set)?;
    let Begun {
        version,
        next,
        sparse,
        index,
        ..
    } = begun;
    let job = Job {
        set,
        version,
        first: next,
        config: *config,
    };
    Ok(Opened { job, sparse, index })
}
