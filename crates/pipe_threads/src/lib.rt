//! The single stages of a job, each in a thread of its own or kept.
#![tactic(auto)]

ghost use Rattle.std.specs.Prelude.{◌≡◌};

use chunk_stage::ChunkStage;
use decide_stage::DecideStage;
use pipe_lanes::stack_of;
use read_stage::ReadStage;
use stage_threads::{StageRoom, StageThread, together};
use std::alloc::Global;
use std::sync::Wait;
use std::thread::Scope;
use std::time::Clock;
use sum_stage::SumStage;
use vault_traits::Source;
use vault_types::{Memory, Turn};

/// What a job's single stages take of memory.
#[derive(Drop)]
pub struct StageRooms<I: Source + Drop> {
    pub read: StageRoom<ReadStage<I>>,
    pub sum: StageRoom<SumStage>,
    pub chunk: StageRoom<ChunkStage>,
    pub decide: StageRoom<DecideStage>,
}

/// How large the stack of each stage's thread is, the last for that of each lane; or none, for the
/// host's usual one. A thread whose stack is too large is refused, and its stage kept.
#[derive(Clone, Copy, Debug, PartialEq, Eq)]
pub struct StackSizes {
    pub read: Option<usize>,
    pub sum: Option<usize>,
    pub chunk: Option<usize>,
    pub decide: Option<usize>,
    pub lanes: Option<usize>,
}

impl StackSizes {
    /// The host's usual stacks.
    pub fn usual() -> StackSizes {
        StackSizes {
            read: None,
            sum: None,
            chunk: None,
            decide: None,
            lanes: None,
        }
    }
}

/// The single stages of a job.
#[derive(Drop)]
pub struct Single<I: Source + Drop> {
    pub read: StageThread<ReadStage<I>>,
    pub sum: StageThread<SumStage>,
    pub chunk: StageThread<ChunkStage>,
    pub decide: StageThread<DecideStage>,
}

/// Takes all memory of their threads.
pub fn single_rooms<I: Source + Drop>(alloc: Global) -> Result<StageRooms<I>, Memory> {
    let read = StageRoom::new(alloc)?;
    let sum = StageRoom::new(alloc)?;
    let chunk = StageRoom::new(alloc)?;
    let decide = StageRoom::new(alloc)?;
    Ok(StageRooms {
        read,
        sum,
        chunk,
        decide,
    })
}

/// Starts them, or keeps those whose thread is refused. No memory.
pub fn start_single<
    's,
    E: 's,
    I: Source + Drop + Send + 's,
    R: Wait + Clock + Copy + Drop + Send + 's,
>(
    rt: R,
    rooms: StageRooms<I>,
    scope: &'s Scope<'s, E>,
    stacks: StackSizes,
    read: ReadStage<I>,
    sum: SumStage,
    chunk: ChunkStage,
    decide: DecideStage,
) -> Single<I>
    ensures read { result.read.first ≡ read }
    ensures sum { result.sum.first ≡ sum }
    ensures chunk { result.chunk.first ≡ chunk }
    ensures decide { result.decide.first ≡ decide }
{
    Single {
        read: StageThread::start_on(rt, rooms.read, scope, read, stack_of(stacks.read)),
        sum: StageThread::start_on(rt, rooms.sum, scope, sum, stack_of(stacks.sum)),
        chunk: StageThread::start_on(rt, rooms.chunk, scope, chunk, stack_of(stacks.chunk)),
        decide: StageThread::start_on(rt, rooms.decide, scope, decide, stack_of(stacks.decide)),
    }
}

/// One turn of each that is kept.
pub fn turn_single<I: Source + Drop, R: Wait>(rt: &R, single: &mut Single<I>) -> Turn
    ensures read { single.new.read.first ≡ single.old.read.first }
    ensures sum { single.new.sum.first ≡ single.old.sum.first }
    ensures chunk { single.new.chunk.first ≡ single.old.chunk.first }
    ensures decide { single.new.decide.first ≡ single.old.decide.first }
{
    let read = single.read.turn(rt);
    let sum = single.sum.turn(rt);
    let chunk = single.chunk.turn(rt);
    let decide = single.decide.turn(rt);
    together(together(read, sum), together(chunk, decide))
}
