// The end of a job.
ghost use Rattle.std.specs.Prelude.{◌≡◌, ◌∷◌, ◌++◌, [], List, Some, length, vec_len, vec_capacity};
ghost use Rattle.fp_index.specs.Index.{found_in};
ghost use Rattle.rewrite_stage.specs.declared.Decided.{Decided as Decision};
ghost use Rattle.stage_flows.specs.declared.Last.{Last as Lasts};
ghost use Rattle.stage_flows.specs.Runs.{run};
ghost use Rattle.pipe_run.specs.Jobs.{IsJobBack};
ghost use Rattle.pipe_run.specs.Running.{IsRunning};

use crate::Job;
use fp_index::Index;
use pipe_lanes::{Lane, end_all};
use pipe_threads::Single;
use rewrite_stage::Decided;
use stage_flows::Bytes;
use stage_queue::{Middle, Rx, close};
use stage_threads::BackOff;
use std::sync::Wait;
use std::thread::Threads;
use std::time::Clock;
use stop_word::{Holder, gather};
use vault_traits::Source;
use vault_types::{Flow, Fp, Turn};

// What comes back of a job.
#[derive(Drop)]
pub(crate) struct Back<I: Source + Drop> {
    pub(crate) source: I,
    pub(crate) index: Index,
    pub(crate) sum: Fp,
    pub(crate) raised: bool,
}

// Gives the kept stages turns until all are done.
pub(crate) fn rest<I: Source + Drop, R: Wait + Clock>(rt: &R, job: &mut Job<I>)
    ensures { job.new ≡ job.old }
{
    let mut back_off = BackOff::new();
    for _ in rt.forever() {
        match job.turn_rest(rt) {
            Turn::Moved => back_off.reset(),
            Turn::Idle => back_off.wait(rt),
            Turn::Done => return,
        }
    }
    unreachable!()
}

// Gives the kept stages turns until an item comes out.
pub(crate) fn next_item<I: Source + Drop, R: Wait + Clock>(
    rt: &R,
    job: &mut Job<I>,
) -> Flow<Decided>
    ensures { job.new ≡ record job.old { taken = job.old.taken ++ result ∷ [] } }
{
    let mut back_off = BackOff::new();
    for _ in rt.forever() {
        let kept = job.turn_rest(rt);
        if let Some(item) = job.take(rt) {
            return item;
        }
        if kept == Turn::Moved {
            back_off.reset();
        } else {
            back_off.wait(rt);
        }
    }
    unreachable!()
}

// Ends all stages, and gathers what they say.
pub(crate) fn end_job<I: Source + Drop, R: Threads + Wait + Clock>(
    rt: &R,
    reads: Middle<Flow<Bytes>>,
    sums: Middle<Flow<Bytes>>,
    ends: Middle<Flow<Decided>>,
    single: Single<I>,
    lanes: Vec<Lane>,
    far: Rx<Flow<Decided>>,
    own: Holder,
    mut back: Vec<Holder>,
) -> Back<I>
    requires running { IsRunning reads sums ends single.read.first single.sum.first single.chunk.first single.decide.first lanes.items far.line own (vec_len back) (vec_capacity back) back.items }
    requires last { (parts : List Decision) × (l : Lasts) × (far.taken ≡ run parts (Some l)) }
    ensures index { result.index ≡ single.decide.first.index }
    ensures back { IsJobBack single.chunk.first.cutting (found_in single.decide.first.index) single.decide.first.rules single.decide.first.limit (I.told single.read.first.source) (I.told result.source) far.taken result.sum own.raised result.raised }
{
    let Single {
        read,
        sum,
        chunk,
        decide,
    } = single;
    let read_stage = read.end(rt);
    let sum_stage = sum.end(rt);
    let chunk_stage = chunk.end(rt);
    let decide_stage = decide.end(rt);
    let (source, read_to, read_holder) = read_stage.end();
    let (sum_from, sum_to, fp) = sum_stage.end();
    let (chunk_from, near, chunk_holder) = chunk_stage.end();
    let (index, lane_ends, mut outs, decide_holder) = decide_stage.end();
    close(reads, read_to, sum_from);
    close(sums, sum_to, chunk_from);
    let Some(out) = outs.pop() else {
        unreachable!()
    };
    close(ends, out, far);
    back.push(own).unwrap();
    back.push(read_holder).unwrap();
    back.push(chunk_holder).unwrap();
    back.push(decide_holder).unwrap();
    end_all(rt, lanes, near, lane_ends, &mut back);
    let raised = gather(back);
    Back {
        source,
        index,
        sum: fp,
        raised,
    }
}
