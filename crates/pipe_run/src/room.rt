// What a job takes of memory.
ghost use Rattle.std.specs.Prelude.{◌≡◌, ◌≤◌, ◌+◌, [], ◌∷◌, length, IfOk};
ghost use Rattle.stop_word.specs.Holders.{Family as Kin};
ghost use Rattle.pipe_lanes.specs.Lanes.{AreNew};

use fingerprint_stage::Chunk;
use pipe_lanes::{Lane, LaneRoom, all_rooms};
use pipe_threads::{StageRooms, single_rooms};
use rewrite_stage::Decided;
use stage_flows::Bytes;
use stage_queue::{Middle, Rx, Tx, line};
use std::alloc::Global;
use std::marker::Model;
use stop_word::{Holder, holders};
use vault_traits::Source;
use vault_types::{Flow, Id, Memory};

/// All memory of a job: its lines, its lanes, the rooms of its threads, its holders with room for
/// their way back, and the list of sparse containers, twice.
#[derive(Drop)]
pub struct JobRoom<I: Source + Drop> {
    pub(crate) alloc: Global,
    pub(crate) reads: Middle<Flow<Bytes>>,
    pub(crate) read_to: Tx<Flow<Bytes>>,
    pub(crate) sum_from: Rx<Flow<Bytes>>,
    pub(crate) sums: Middle<Flow<Bytes>>,
    pub(crate) sum_to: Tx<Flow<Bytes>>,
    pub(crate) chunk_from: Rx<Flow<Bytes>>,
    pub(crate) ends: Middle<Flow<Decided>>,
    pub(crate) outs: Vec<Tx<Flow<Decided>>>,
    pub(crate) far: Rx<Flow<Decided>>,
    pub(crate) near: Vec<Tx<Flow<Bytes>>>,
    pub(crate) rooms: Vec<LaneRoom>,
    pub(crate) lane_ends: Vec<Rx<Flow<Chunk>>>,
    pub(crate) lanes: Vec<Lane>,
    pub(crate) read_holder: Holder,
    pub(crate) chunk_holder: Holder,
    pub(crate) decide_holder: Holder,
    pub(crate) own: Holder,
    pub(crate) back: Vec<Holder>,
    pub(crate) sparse: Vec<Id>,
    pub(crate) copy: Vec<Id>,
    pub(crate) single: StageRooms<I>,
}

impl<I: Source + Drop> Model for JobRoom<I> {
    ghost use Rattle.std.specs.Prelude.{vec_len, vec_capacity, List, ℕ, ◌∷◌, []};
    ghost use Rattle.pipe_run.specs.Running.{IsReady};

    ghost Value = { List ℕ };

    ghost view = { λ r. r.sparse.items };

    ghost invariant = { λ r. IsReady r.reads r.sums r.ends r.read_to r.sum_from r.sum_to r.chunk_from r.outs.items r.far r.near.items r.rooms.items r.lane_ends.items (r.own ∷ r.read_holder ∷ r.chunk_holder ∷ r.decide_holder ∷ []) r.lanes.items (vec_len r.lanes) (vec_capacity r.lanes) r.back.items (vec_len r.back) (vec_capacity r.back) r.sparse.items r.copy.items };
}

// The four holders of a job that are not its lanes'.
#[derive(Drop)]
struct Four {
    own: Holder,
    read: Holder,
    chunk: Holder,
    decide: Holder,
}

// Four of a job's holders, of which the others are left.
fn deal_four(all: &mut Vec<Holder>) -> Four
    requires { 4 ≤ length all.old.items }
    ensures left { length all.new.items + 4 ≡ length all.old.items }
    ensures new { (f : Kin) → AreNew f all.old.items
        → AreNew f (result.own ∷ result.read ∷ result.chunk ∷ result.decide ∷ [])
        × AreNew f all.new.items }
{
    let Some(own) = all.pop() else { unreachable!() };
    let Some(read) = all.pop() else {
        unreachable!()
    };
    let Some(chunk) = all.pop() else {
        unreachable!()
    };
    let Some(decide) = all.pop() else {
        unreachable!()
    };
    Four {
        own,
        read,
        chunk,
        decide,
    }
}

// A new word's holders.
fn new_holders(alloc: Global, count: u32) -> Result<Vec<Holder>, Memory>
    requires { 1 ≤ count }
    ensures { IfOk result (λ all. (f : Kin) × AreNew f all.items × (length all.items ≡ count)
        × (f.count ≡ count)) }
{
    holders(alloc, count)
}

impl<I: Source + Drop> JobRoom<I> {
    /// Takes all memory of a job, over the list of sparse containers of the version before.
    pub fn new(alloc: Global, queue: u32, lanes: u32, sparse: Vec<Id>) -> Result<JobRoom<I>, Memory>
        requires queue { 1 ≤ queue }
        requires lanes { (1 ≤ lanes) × (lanes ≤ 8) }
        ensures { IfOk result (λ r. r ≡ sparse.items) }
    {
        let mut all = new_holders(alloc, lanes + 4)?;
        let hands = deal_four(&mut all);
        let (near, rooms, lane_ends) = all_rooms(alloc, queue, lanes, &mut all)?;
        let (reads, read_to, sum_from) = line::<Flow<Bytes>>(alloc, queue)?;
        let (sums, sum_to, chunk_from) = line::<Flow<Bytes>>(alloc, queue)?;
        let (ends, out, far) = line::<Flow<Decided>>(alloc, queue)?;
        let mut outs = Vec::new(alloc);
        outs.push(out)?;
        let started = Vec::with_capacity(alloc, lanes as usize)?;
        let back = Vec::with_capacity(alloc, lanes as usize + 4)?;
        let mut copy = Vec::new(alloc);
        copy.extend_from_slice(sparse.as_slice())?;
        let single = single_rooms(alloc)?;
        let Four {
            own,
            read,
            chunk,
            decide,
        } = hands;
        Ok(JobRoom {
            alloc,
            reads,
            read_to,
            sum_from,
            sums,
            sum_to,
            chunk_from,
            ends,
            outs,
            far,
            near,
            rooms,
            lane_ends,
            lanes: started,
            read_holder: read,
            chunk_holder: chunk,
            decide_holder: decide,
            own,
            back,
            sparse,
            copy,
            single,
        })
    }
}
