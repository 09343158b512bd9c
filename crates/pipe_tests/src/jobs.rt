// Jobs over sources in memory. Each test ends whatever the schedule: a job always gives a last item.
ghost use Rattle.std.specs.Prelude.{◌≡◌, ◌≤◌, ◌<◌, List, [], Some};
ghost use Rattle.rewrite_stage.specs.declared.Decided.{Decided as Decision};
ghost use Rattle.stage_flows.specs.Runs.{run};
ghost use Rattle.vault_types.specs.JobRanges.{IsCuttable};

use crate::streams::{filled, passed, settings, stream};
use fp_index::Index;
use pipe_run::{Job, JobRoom, StackSizes};
use rewrite_stage::Decided;
use stage_flows::{Last, parted};
use std::alloc::Global;
use std::sync::Wait;
use std::test::Fail;
use std::thread;
use std::thread::Threads;
use std::time::Clock;
use vault_ports::{FaultSource, MemSource};
use vault_traits::Source;
use vault_types::{Cutting, Fault, Fp, JobConfig, Memory};

const FIXED: Cutting = Cutting::Fixed { size: 4_096 };

const EXTREMUM: Cutting = Cutting::Ae {
    window: 512,
    max: 8_192,
};

// How a job is run: how long its lines are, over how many lanes, with which stacks, and of how many parts it is stopped.
#[derive(Clone, Copy)]
struct Way {
    queue: u32,
    lanes: u32,
    limit: u32,
    stop_at: usize,
    stacks: StackSizes,
}

// Lines of such a length, and so many lanes, in threads, to the end.
fn way_of(queue: u32, lanes: u32) -> Way
    ensures queue { result.queue ≡ queue }
    ensures lanes { result.lanes ≡ lanes }
{
    Way {
        queue,
        lanes,
        limit: 100_000,
        stop_at: usize::MAX,
        stacks: StackSizes::usual(),
    }
}

// A stack that no host gives to a thread, or the usual one.
fn size(is_refused: bool) -> Option<usize> {
    if is_refused { Some(usize::MAX) } else { None }
}

// The threads that are refused: of reading, summing, chunking, deciding, and of the lanes.
fn refused(read: bool, sum: bool, chunk: bool, decide: bool, lanes: bool) -> StackSizes {
    StackSizes {
        read: size(read),
        sum: size(sum),
        chunk: size(chunk),
        decide: size(decide),
        lanes: size(lanes),
    }
}

// What came of a job.
#[derive(Drop)]
struct Came {
    parts: Vec<Decided>,
    last: Last,
    sum: Fp,
    is_raised: bool,
}

// Takes all that comes out of a job, and stops it where so many parts came.
fn take_all<I: Source + Drop, R: Wait + Clock>(
    rt: &R,
    job: &mut Job<I>,
    stop_at: usize,
    out: &mut Vec<Decided>,
) -> Last
    requires { job.old.taken ≡ [] }
    ensures { (parts : List Decision) × (job.new.taken ≡ run parts (Some result)) }
{
    for _ in rt.forever() {
        match parted(job.next(rt)) {
            Ok(part) => {
                let _ = out.push(part);
                if out.len() == stop_at {
                    job.stop(&Fault::Memory);
                }
            }
            Err(last) => return last,
        }
    }
    unreachable!()
}

fn job_came<I: Source + Drop + Send, R: Threads + Wait + Clock + Copy + Drop + Send>(
    rt: R,
    alloc: Global,
    source: I,
    config: JobConfig,
    way: Way,
) -> Result<Came, Memory>
    requires cuttable { IsCuttable config.cutting }
    requires queue { 1 ≤ way.queue }
    requires lanes { (1 ≤ way.lanes) × (way.lanes ≤ 8) }
{
    thread::scope(
        thread::scope_env(),
        &rt,
        |scope| -> Result<Came, Memory>
            requires cuttable { IsCuttable config.cutting }
            requires queue { 1 ≤ way.queue }
            requires lanes { (1 ≤ way.lanes) × (way.lanes ≤ 8) }
        {
            let index = Index::from_tables(alloc, &[])?;
            let room = JobRoom::new(alloc, way.queue, way.lanes, Vec::new(alloc))?;
            let mut job = Job::start_on(
                rt, room, scope, source, index, config, way.limit, way.stacks,
            );
            let mut parts = Vec::new(alloc);
            let last = take_all(&rt, &mut job, way.stop_at, &mut parts);
            let (_, _, sum, is_raised) = job.end(&rt);
            Ok(Came {
                parts,
                last,
                sum,
                is_raised,
            })
        },
    )
}

// Whether a job over some bytes ends as the pass on one thread does: with the same rows, containers and sum.
fn is_as_one<R: Threads + Wait + Clock + Copy + Drop + Send>(
    rt: R,
    alloc: Global,
    cutting: Cutting,
    len: usize,
    way: Way,
) -> Result<bool, Fail>
    requires cuttable { IsCuttable cutting }
    requires queue { 1 ≤ way.queue }
    requires lanes { (1 ≤ way.lanes) × (way.lanes ≤ 8) }
{
    let config = settings(cutting);
    let bytes = stream(alloc, len)?;
    let (one, whole) = passed(alloc, &config, bytes.as_slice())?;
    let came = job_came(rt, alloc, MemSource::new(bytes, 30_000), config, way)?;
    let is_ended = came.last == Last::End && !came.is_raised && came.sum == whole;
    Ok(filled(alloc, &config, came.parts)?.is(&one) && is_ended)
}

#[test]
fn a_job_stores_what_one_thread_stores_of_fixed_chunks(rt: HostRuntime) -> Result<(), Fail> {
    for lanes in [1, 2, 4] {
        for queue in [1, 64] {
            assert!(rt;
                is_as_one(rt, rt.alloc(), FIXED, 500_000, way_of(queue, lanes))?,
                "{lanes} lanes, {queue} places"
            );
        }
    }
    Ok(())
}

#[test]
fn a_job_stores_what_one_thread_stores_of_chunks_at_extrema(rt: HostRuntime) -> Result<(), Fail> {
    for lanes in [1, 2, 4] {
        for queue in [1, 64] {
            assert!(rt;
                is_as_one(rt, rt.alloc(), EXTREMUM, 500_000, way_of(queue, lanes))?,
                "{lanes} lanes, {queue} places"
            );
        }
    }
    Ok(())
}

#[test]
fn a_job_over_nothing_ends(rt: HostRuntime) -> Result<(), Fail> {
    assert!(rt; is_as_one(rt, rt.alloc(), FIXED, 0, way_of(1, 1))?);
    assert!(rt; is_as_one(rt, rt.alloc(), EXTREMUM, 1, way_of(1, 8))?);
    Ok(())
}

#[test]
fn a_job_whose_threads_are_refused(rt: HostRuntime) -> Result<(), Fail> {
    for (read, sum, chunk, decide, lanes) in [
        (true, false, false, false, false),
        (false, true, false, false, false),
        (false, false, true, false, false),
        (false, false, false, true, false),
        (false, false, false, false, true),
        (true, true, true, true, true),
    ] {
        let mut way = way_of(2, 2);
        way.stacks = refused(read, sum, chunk, decide, lanes);
        assert!(rt;
            is_as_one(rt, rt.alloc(), FIXED, 200_000, way)?,
            "refused: {read} {sum} {chunk} {decide} {lanes}"
        );
    }
    Ok(())
}

// The parts of a job that was not ended, as they are stored, beside what one thread stores of all bytes.
fn both<R: Threads + Wait + Clock + Copy + Drop + Send, I: Source + Drop + Send>(
    rt: R,
    alloc: Global,
    bytes: &[u8],
    source: I,
    way: Way,
) -> Result<(Came, bool), Fail>
    requires queue { 1 ≤ way.queue }
    requires lanes { (1 ≤ way.lanes) × (way.lanes ≤ 8) }
{
    let config = settings(FIXED);
    let (one, _) = passed(alloc, &config, bytes)?;
    let mut came = job_came(rt, alloc, source, config, way)?;
    let parts = std::mem::replace(&mut came.parts, Vec::new(alloc));
    let is_front = filled(alloc, &config, parts)?.begins(&one);
    Ok((came, is_front))
}

#[test]
fn a_job_whose_source_fails(rt: HostRuntime) -> Result<(), Fail> {
    let bytes = stream(rt.alloc(), 500_000)?;
    let inner = MemSource::new(bytes.clone()?, 30_000);
    let source = FaultSource::new(inner, vec![in rt.alloc(); 9]?);
    let (came, is_front) = both(rt, rt.alloc(), bytes.as_slice(), source, way_of(4, 2))?;
    assert!(rt; (came.last, came.is_raised) == (Last::Failed(Fault::ReadFault(1)), false));
    assert!(rt; is_front);
    Ok(())
}

#[test]
fn a_job_of_too_many_chunks(rt: HostRuntime) -> Result<(), Fail> {
    let bytes = stream(rt.alloc(), 500_000)?;
    let source = MemSource::new(bytes.clone()?, 30_000);
    let mut way = way_of(4, 2);
    way.limit = 50;
    let (came, is_front) = both(rt, rt.alloc(), bytes.as_slice(), source, way)?;
    assert!(rt; (came.last, came.is_raised) == (Last::Failed(Fault::TooMany { limit: 50 }), true));
    assert!(rt; is_front);
    Ok(())
}

#[test]
fn a_job_that_is_stopped(rt: HostRuntime) -> Result<(), Fail> {
    let bytes = stream(rt.alloc(), 3_000_000)?;
    let source = MemSource::new(bytes.clone()?, 30_000);
    let mut way = way_of(1, 1);
    way.stop_at = 1;
    let (came, is_front) = both(rt, rt.alloc(), bytes.as_slice(), source, way)?;
    assert!(rt; (came.last, came.is_raised) == (Last::Stopped, true));
    assert!(rt; is_front);
    Ok(())
}
