// The end of a backup, behind its last step.
ghost use Rattle.std.specs.Prelude.{◌≡◌, ◌++◌, List, ℕ, Some, IfOk, IfErr};
ghost use Rattle.vault_types.specs.declared.How.{How};
ghost use Rattle.vault_types.specs.Names.{NamedChunk};
ghost use Rattle.vault_types.specs.Stages.{IsFront, decided_parts};
ghost use Rattle.fp_index.specs.Index.{found_in};
ghost use Rattle.rewrite_stage.specs.declared.Decided.{Decided as Decision};
ghost use Rattle.stage_flows.specs.declared.Last.{Last as Lasts};
ghost use Rattle.stage_flows.specs.Runs.{run};
ghost use Rattle.backup_jobs.specs.Backup.{BacksUp};
ghost use Rattle.backup_jobs.specs.Going.{Began, HasPutAll, IsOver, rules_of, chunks_of};
ghost use Rattle.pipe_backup.specs.Sealing.{IsSpanOf, IsFilling, IsHalt};
ghost use Rattle.pipe_backup.specs.Piping.{HasCome};
ghost use Rattle.pipe_backup.specs.Ending.{IsFilledFrom, as_begun};

use crate::piping::{Ended, Piping};
use crate::sealing::{Halt, Span, hand_on, hand_rest};
use backup_jobs::{Rest, StreamEnd, close_job, finish_parts};
use container_fill::{Filler, Unsealed};
use fp_index::Index;
use keeper_core::Keeper;
use pipe_run::Job;
use seal_lane::SealLane;
use stage_flows::{Last, parted};
use std::alloc::Global;
use std::sync::Wait;
use std::thread::Threads;
use std::time::Clock;
use vault_traits::{Shelf, Source};
use vault_types::{Answer, Fault};

// The fault for which a job is stopped.
fn fault_of(halt: &Halt) -> Fault {
    match halt {
        Halt::Failed(fault) => *fault,
        Halt::Never => Fault::Memory,
    }
}

// Stops a job, and takes all that still comes out of it.
fn drain<I: Source + Drop, R: Wait + Clock>(rt: &R, job: &mut Job<I>, halt: &Halt)
    ensures taken { (more : List Decision) × (l : Lasts)
        × (job.new.taken ≡ job.old.taken ++ run more (Some l)) }
    ensures same { as_begun job.new ≡ as_begun job.old }
{
    job.stop(&fault_of(halt));
    for _ in rt.forever() {
        if let Err(_) = parted(job.next(rt)) {
            return;
        }
    }
    unreachable!()
}

// Puts the containers that are left, behind the last part, and gives out the rows.
fn finish<R: Wait + Clock, S: Shelf>(
    rt: &R,
    alloc: Global,
    keeper: &mut Keeper<S>,
    lane: &mut SealLane,
    held: Option<Unsealed>,
    filler: Filler,
    span: Span,
    lens: &mut Vec<u32>,
) -> Result<Rest, Halt>
    requires { (b : Began) × (parts : List (NamedChunk × How))
        × IsFilling b keeper.old filler held lens.old.items lane.old parts × IsSpanOf b span }
    ensures ok { (b : Began) (parts : List (NamedChunk × How))
        → IsFilling b keeper.old filler held lens.old.items lane.old parts → IsSpanOf b span
        → IfOk result (λ r. IsFront lane.new.back lane.new.given → (read : List ℕ)
        → parts ≡ decided_parts (found_in b.index) (rules_of b) (chunks_of b.config read)
        → HasPutAll b keeper.new r lens.new.items read) }
    ensures err { (b : Began) (parts : List (NamedChunk × How))
        → IsFilling b keeper.old filler held lens.old.items lane.old parts → IsSpanOf b span
        → IfErr result (IsHalt b keeper.new lane.new) }
{
    if let Err(halt) = hand_on(rt, alloc, keeper, lane, held, span, lens) {
        return Err(halt);
    }
    let (last, rest) = finish_parts(filler);
    match hand_rest(rt, alloc, keeper, lane, last, span, lens) {
        Ok(()) => Ok(rest),
        Err(halt) => Err(halt),
    }
}

// What is left of a backup of whose stages all came: the stages and the lane, which are to be ended, the lengths of the
// containers that are put, and what the filling came to.
#[derive(Drop)]
struct Left<I: Source + Drop> {
    stages: Job<I>,
    lane: SealLane,
    lens: Vec<u32>,
    filled: Result<Rest, Halt>,
}

// Puts all that is left behind the last part; after a fault of the shelf or a want of memory the stages are stopped, and the
// rest is only taken.
fn settle<I: Source + Drop, R: Wait + Clock, S: Shelf>(
    rt: &R,
    alloc: Global,
    keeper: &mut Keeper<S>,
    piping: Piping<I>,
    ended: Ended,
) -> Left<I>
    requires { (b : Began) × HasCome b (λ (i : I). I.told i) keeper.old piping ended }
    ensures last { (parts : List Decision) × (l : Lasts) × (result.stages.taken ≡ run parts (Some l)) }
    ensures same { as_begun result.stages ≡ as_begun piping.stages }
    ensures filled { (b : Began) → HasCome b (λ (i : I). I.told i) keeper.old piping ended
        → IsFilledFrom b keeper.new result.lens.items piping.stages result.stages result.lane
        result.filled }
{
    let Piping {
        mut stages,
        mut lane,
        filler,
        held,
        span,
        mut lens,
        ..
    } = piping;
    match ended.last {
        Err(halt) => {
            drain(rt, &mut stages, &halt);
            Left {
                filled: Err(halt),
                stages,
                lane,
                lens,
            }
        }
        Ok(last) => match last {
            Last::End => {
                let filled = finish(rt, alloc, keeper, &mut lane, held, filler, span, &mut lens);
                Left {
                    filled,
                    stages,
                    lane,
                    lens,
                }
            }
            Last::Failed(fault) => Left {
                filled: Err(Halt::Failed(fault)),
                stages,
                lane,
                lens,
            },
            Last::Stopped => Left {
                filled: Err(Halt::Never),
                stages,
                lane,
                lens,
            },
        },
    }
}

// Brings a backup's stages and its lane to their ends. The source and the index come back, with the lengths of the
// containers that are put.
fn run_out<I: Source + Drop, R: Threads + Wait + Clock, S: Shelf>(
    rt: &R,
    alloc: Global,
    keeper: &mut Keeper<S>,
    piping: Piping<I>,
    ended: Ended,
) -> (I, Index, Vec<u32>, Result<StreamEnd, Fault>)
    requires { (b : Began) × HasCome b (λ (i : I). I.told i) keeper.old piping ended }
    ensures index { result.1 ≡ piping.stages.index }
    ensures over { (b : Began) → HasCome b (λ (i : I). I.told i) keeper.old piping ended
        → IsOver b keeper.new (I.told result.0) result.2.items result.3 }
{
    let Left {
        stages,
        mut lane,
        lens,
        filled,
    } = settle(rt, alloc, keeper, piping, ended);
    let (source, index, whole, _) = stages.end(rt);
    match filled {
        Ok(rest) => {
            lane.end(rt);
            (source, index, lens, Ok(StreamEnd { rest, whole }))
        }
        Err(halt) => match halt {
            Halt::Failed(fault) => {
                lane.stop(rt);
                lane.end(rt);
                (source, index, lens, Err(fault))
            }
            Halt::Never => {
                lane.end(rt);
                unreachable!()
            }
        },
    }
}

/// Ends a backup behind its last step: puts what is left, waits for the threads, and commits the version; or stops its
/// stages, and there is no version more. The source comes back. `Memory`, `StoreFault`, `ReadFault`, `TooMany`. Afterwards
/// there is no job; after an `Err` the store has the versions that it had, and only a `StoreFault` may leave the new version
/// on the shelf, until the next mending takes it back.
pub fn end_piped<I: Source + Drop, R: Threads + Wait + Clock, S: Shelf>(
    rt: &R,
    alloc: Global,
    keeper: &mut Keeper<S>,
    piping: Piping<I>,
    ended: Ended,
) -> (I, Result<Answer, Fault>)
    requires { (b : Began) × HasCome b (λ (i : I). I.told i) keeper.old piping ended }
    ensures { (b : Began) → HasCome b (λ (i : I). I.told i) keeper.old piping ended
        → BacksUp b.set b.config b.limits b.keeper keeper.new b.source (I.told result.0) result.1 }
{
    let job = piping.job;
    let (source, index, lens, over) = run_out(rt, alloc, keeper, piping, ended);
    let answer = close_job(alloc, keeper, &job, index, over, lens.as_slice());
    (source, answer)
}
