// A backup that runs, and its start.
ghost use Rattle.std.specs.Prelude.{◌≡◌, ◌≤◌, [], None, Err, IfOk, IfErr};
ghost use Rattle.vault_types.specs.JobRanges.{IsInRange};
ghost use Rattle.backup_jobs.specs.Backup.{BacksUp};
ghost use Rattle.pipe_backup.specs.Piping.{HasStartedPiping};

use crate::Course;
use crate::sealing::{Halt, Span};
use backup_jobs::{Opened, open_job};
use container_fill::{Filler, Unsealed};
use keeper_core::Keeper;
use pipe_lanes::stack_of;
use pipe_run::JobRoom;
use seal_lane::{SealLane, SealRoom};
use stage_flows::Last;
use std::alloc::Global;
use std::marker::Model;
use std::sync::Wait;
use std::thread::Scope;
use std::time::Clock;
use vault_traits::{Shelf, Source};
use vault_types::{Fault, Id, JobConfig, Limits, Memory, Set};

/// A backup that runs: its stages and its sealing lane, in threads or kept, and what came of them so far. It goes on by
/// `step_piped`, and is given to `end_piped` behind its last step: one that is only dropped may keep its scope waiting for
/// ever. Contracts see the numbers of its job, its stages, its lane, its filler with the container that it gave out last and
/// that waits for the lane, the length of each container that is put, and how many parts came.
#[derive(Drop)]
pub struct Piping<I: Source + Drop> {
    pub(crate) job: backup_jobs::Job,
    pub(crate) stages: pipe_run::Job<I>,
    pub(crate) lane: SealLane,
    pub(crate) filler: Filler,
    pub(crate) held: Option<Unsealed>,
    pub(crate) span: Span,
    pub(crate) lens: Vec<u32>,
    pub(crate) count: u32,
}

impl<I: Source + Drop> Model for Piping<I> {
    ghost use Rattle.pipe_backup.specs.Piping.{PipingView};

    ghost Value = { PipingView I };

    ghost view = { λ p. record {
      job = p.job;
      stages = p.stages;
      lane = p.lane;
      filler = p.filler;
      held = p.held;
      span = p.span;
      lens = p.lens.items;
      count = p.count;
    } };
}

/// Why a backup has no more steps: the last item of its stages came, or it broke off.
#[derive(Drop)]
pub struct Ended {
    pub(crate) last: Result<Last, Halt>,
}

// How many containers wait to be sealed at most, and how many to be put.
const WAITING: u32 = 2;

// All memory of the stages of a backup.
fn rooms<I: Source + Drop>(
    alloc: Global,
    course: Course,
    sparse: Vec<Id>,
) -> Result<(JobRoom<I>, SealRoom), Memory>
    requires queue { 1 ≤ course.queue }
    requires lanes { (1 ≤ course.lanes) × (course.lanes ≤ 8) }
    ensures job { IfOk result (λ r. r.0 ≡ sparse.items) }
    ensures lane { IfOk result (λ r. r.1 ≡ record { given = []; back = [] }) }
{
    let job = JobRoom::new(alloc, course.queue, course.lanes, sparse)?;
    let lane = SealRoom::new(alloc, WAITING)?;
    Ok((job, lane))
}

/// Starts the backup of what the source has left into a set of the store, as its next version, by stages in threads of the
/// scope; a stage whose thread is refused has its turns in the steps. All memory of the stages is taken before the first
/// thread. `Full`, exactly where the set may have no version more or the ids may run out; else `Memory`, `StoreFault`. After
/// an `Err` the source comes back unread, there is no job, and the store has the versions that it had.
pub fn start_piped<
    's,
    E: 's,
    R: Wait + Clock + Copy + Drop + Send + 's,
    S: Shelf,
    I: Source + Drop + Send + 's,
>(
    rt: R,
    alloc: Global,
    scope: &'s Scope<'s, E>,
    keeper: &mut Keeper<S>,
    set: Set,
    source: I,
    config: &JobConfig,
    limits: &Limits,
    course: Course,
) -> Result<Piping<I>, (I, Fault)>
    requires no_job { keeper.old.job ≡ None }
    requires config { IsInRange config.now }
    requires low { 1 ≤ limits.now.chunks }
    requires high { limits.now.chunks ≤ 4194304 }
    requires last { limits.now.last ≤ 4294967294 }
    requires queue { 1 ≤ course.queue }
    requires lanes { (1 ≤ course.lanes) × (course.lanes ≤ 8) }
    ensures ok { IfOk result (HasStartedPiping (λ (i : I). I.told i) set config.now limits.now
        keeper.old keeper.new (I.told source)) }
    ensures err { IfErr result (λ r. BacksUp set config.now limits.now keeper.old keeper.new
        (I.told source) (I.told r.0) (Err r.1)) }
{
    let opened = match open_job(alloc, keeper, set, config, limits) {
        Ok(opened) => opened,
        Err(fault) => return Err((source, fault)),
    };
    let Opened { job, sparse, index } = opened;
    let (room, lane_room) = match rooms(alloc, course, sparse) {
        Ok(rooms) => rooms,
        Err(_) => {
            keeper.abort(index);
            return Err((source, Fault::Memory));
        }
    };
    let stages = pipe_run::Job::start_on(
        rt,
        room,
        scope,
        source,
        index,
        *config,
        limits.chunks,
        course.stacks,
    );
    let lane = SealLane::start(rt, lane_room, scope, stack_of(course.seal));
    let lens = Vec::new(alloc);
    let filler = Filler::new(alloc, job.first, config.container);
    let span = Span {
        first: job.first,
        limit: limits.chunks,
    };
    Ok(Piping {
        job,
        stages,
        lane,
        filler,
        held: None,
        span,
        lens,
        count: 0,
    })
}
