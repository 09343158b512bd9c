// A backup's job over standard input whose parts are thrown away: reading, summing, cutting, naming and deciding.
ghost use Rattle.std.specs.Prelude.{◌≡◌, ◌≤◌, List, [], Some};
ghost use Rattle.rewrite_stage.specs.declared.Decided.{Decided as Decision};
ghost use Rattle.stage_flows.specs.declared.Last.{Last as Lasts};
ghost use Rattle.stage_flows.specs.Runs.{run};

use crate::watch::{Stop, Watch, rate};
use folder_shelf::InSource;
use fp_index::Index;
use pipe_run::{Job, JobRoom, StackSizes};
use stage_flows::{Last, parted};
use std::sync::Wait;
use std::thread;
use std::thread::Threads;
use std::time::Clock;
use vault_traits::Source;
use vault_types::JobConfig;

// A stack that no host gives to a thread.
const REFUSED: Option<usize> = Some(usize::MAX);

// The stacks of a job, all of whose threads are refused where it runs in one.
fn stacks(is_one: bool) -> StackSizes {
    if is_one {
        StackSizes {
            read: REFUSED,
            sum: REFUSED,
            chunk: REFUSED,
            decide: REFUSED,
            lanes: REFUSED,
        }
    } else {
        StackSizes::usual()
    }
}

// The bytes of all parts, where the job came to the end of its source.
fn take_all<I: Source + Drop, R: Wait + Clock>(rt: &R, job: &mut Job<I>) -> Result<u64, Stop>
    requires { job.old.taken ≡ [] }
    ensures { (parts : List Decision) × (l : Lasts) × (job.new.taken ≡ run parts (Some l)) }
{
    let mut bytes = 0u64;
    for _ in rt.forever() {
        match parted(job.next(rt)) {
            Ok(part) => bytes = bytes.saturating_add(part.chunk.bytes().len() as u64),
            Err(Last::End) => return Ok(bytes),
            Err(_) => return Err(Stop::Refused),
        }
    }
    unreachable!()
}

fn bytes_of<R: Threads + Wait + Clock + Copy + Drop + Send>(
    rt: R,
    host: HostRuntime,
    lanes: u32,
    queue: u32,
    stacks: StackSizes,
) -> Result<u64, Stop>
    requires queue { 1 ≤ queue }
    requires lanes { (1 ≤ lanes) × (lanes ≤ 8) }
{
    let alloc = host.alloc();
    thread::scope(
        thread::scope_env(),
        &rt,
        |scope| -> Result<u64, Stop>
            requires queue { 1 ≤ queue }
            requires lanes { (1 ≤ lanes) × (lanes ≤ 8) }
        {
            let config = JobConfig::standard();
            let index = Index::from_tables(alloc, &[])?;
            let room = JobRoom::new(alloc, queue, lanes, Vec::new(alloc))?;
            let source = InSource::new(host.stdin());
            let mut job = Job::start_on(rt, room, scope, source, index, config, 4_194_304, stacks);
            let bytes = take_all(&rt, &mut job);
            let (_, _, _, _) = job.end(&rt);
            bytes
        },
    )
}

pub fn run<R: Threads + Wait + Clock + Copy + Drop + Send>(
    rt: R,
    host: HostRuntime,
    lanes: &str,
    queue: &str,
) -> Result<(), Stop> {
    let (Ok(lanes), Ok(queue)) = (lanes.parse::<u32>(), queue.parse::<u32>()) else {
        return Err(Stop::Refused);
    };
    let stacks = stacks(lanes == 0);
    let mut watch = Watch::start(host)?;
    let bytes = bytes_of(rt, host, lanes.clamp(1, 8), queue.max(1), stacks)?;
    let took = watch.lap(host);
    watch.end()?;
    let rate = rate(bytes, took);
    println!(host; "job: {bytes} bytes over {lanes} lanes, lines of {queue}: {rate} MB/s")?;
    Ok(())
}
