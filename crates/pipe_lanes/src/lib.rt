//! The lanes of a job: several naming stages side by side, each with its thread.
#![tactic(auto)]

ghost use Rattle.std.specs.Prelude.{◌≡◌, ◌≤◌, [], IfOk};
ghost use Rattle.pipe_laws.specs.Pipe.{LaneBack};

mod ends;
mod rooms;
mod stacks;

use core::thread::Stack;
pub use ends::end_all;
use fingerprint_stage::Chunk;
use hash_stage::HashStage;
pub use rooms::{all_rooms, start_all, turn_all};
pub use stacks::stack_of;
use stage_flows::Bytes;
use stage_queue::{Middle, Rx, Tx, close, line};
use stage_threads::{StageRoom, StageThread};
use std::alloc::Global;
use std::marker::Model;
use std::sync::Wait;
use std::thread::{Scope, Threads};
use std::time::Clock;
use stop_word::Holder;
use vault_types::{Flow, Memory, Turn};

/// A lane that was not started: its stage, its lines, and the place of its thread. Contracts see it
/// as they see the lane that it becomes.
#[derive(Drop)]
pub struct LaneRoom {
    bytes: Middle<Flow<Bytes>>,
    stage: HashStage,
    chunks: Middle<Flow<Chunk>>,
    place: StageRoom<HashStage>,
}

impl Model for LaneRoom {
    ghost use Rattle.std.specs.Prelude.{◌≡◌};
    ghost use Rattle.pipe_lanes.specs.Lanes.{LaneView};

    ghost Value = { LaneView };

    ghost view = { λ l. record { near = l.bytes; far = l.chunks; holder = l.stage.holder } };

    ghost invariant = { λ l. (l.stage.from.line ≡ l.bytes) × (l.stage.to.line ≡ l.chunks) };
}

impl LaneRoom {
    /// Takes all memory of a lane. Its ends come beside it.
    pub fn new(
        alloc: Global,
        queue: u32,
        holder: Holder,
    ) -> Result<(Tx<Flow<Bytes>>, LaneRoom, Rx<Flow<Chunk>>), Memory>
        requires { 1 ≤ queue }
        ensures lines { IfOk result (λ r. (r.0.line ≡ r.1.near) × (r.2.line ≡ r.1.far)) }
        ensures unused { IfOk result (λ r. (r.0.sent ≡ []) × (r.2.taken ≡ [])) }
        ensures holder { IfOk result (λ r. r.1.holder ≡ holder) }
    {
        let (bytes, near, from) = line::<Flow<Bytes>>(alloc, queue)?;
        let (chunks, to, far) = line::<Flow<Chunk>>(alloc, queue)?;
        let place = StageRoom::new(alloc)?;
        let stage = HashStage::new(from, to, holder);
        Ok((
            near,
            LaneRoom {
                bytes,
                stage,
                chunks,
                place,
            },
            far,
        ))
    }
}

/// A lane that runs. Contracts see which lines it lies between, and the holder of its stage.
#[derive(Drop)]
pub struct Lane {
    bytes: Middle<Flow<Bytes>>,
    hash: StageThread<HashStage>,
    chunks: Middle<Flow<Chunk>>,
}

impl Model for Lane {
    ghost use Rattle.std.specs.Prelude.{◌≡◌};
    ghost use Rattle.pipe_lanes.specs.Lanes.{LaneView};

    ghost Value = { LaneView };

    ghost view = { λ l. record { near = l.bytes; far = l.chunks; holder = l.hash.first.holder } };

    ghost invariant = { λ l. (l.hash.first.from.line ≡ l.bytes) × (l.hash.first.to.line ≡ l.chunks) };
}

impl Lane {
    /// Starts the stage of a lane in a thread with such a stack, or keeps it where the thread is refused.
    /// No memory.
    pub fn start<'s, E: 's, R: Wait + Clock + Copy + Drop + Send + 's>(
        rt: R,
        room: LaneRoom,
        scope: &'s Scope<'s, E>,
        stack: Stack,
    ) -> Lane
        ensures { result ≡ room }
    {
        let LaneRoom {
            bytes,
            stage,
            chunks,
            place,
        } = room;
        let hash = StageThread::start_on(rt, place, scope, stage, stack);
        Lane {
            bytes,
            hash,
            chunks,
        }
    }

    /// One turn of the stage if it is kept.
    pub fn turn<R: Wait>(&mut self, rt: &R) -> Turn
        ensures { self.new ≡ self.old }
    {
        self.hash.turn(rt)
    }

    /// The holder of the stage, when all ends of the lane are back: what was taken at its far end
    /// is told by what was dealt to it.
    pub fn end<R: Threads + Wait + Clock>(
        self,
        rt: &R,
        near: Tx<Flow<Bytes>>,
        far: Rx<Flow<Chunk>>,
    ) -> Holder
        requires { (near.line ≡ self.near) × (far.line ≡ self.far) }
        ensures back { LaneBack near.sent far.taken }
        ensures holder { result ≡ self.holder }
    {
        let Lane {
            bytes,
            hash,
            chunks,
        } = self;
        let stage = hash.end(rt);
        let (from, to, holder) = stage.end();
        close(bytes, near, from);
        close(chunks, to, far);
        holder
    }
}
