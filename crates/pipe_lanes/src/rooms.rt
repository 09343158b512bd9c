// All lanes are made, started, and given turns.
ghost use Rattle.std.specs.Prelude.{◌≡◌, ◌≤◌, ◌+◌, ◌++◌, [], All, map, length, vec_len, vec_capacity, IfOk};
ghost use Rattle.std.specs.List.{AllByRecursion};
ghost use Rattle.stop_word.specs.Holders.{Family as Kin};
ghost use Rattle.stage_lanes.specs.Steps.{lines_of, ends_of};
ghost use Rattle.pipe_lanes.specs.Lanes.{AreRooms, AreNew};

use crate::stacks::stack_of;
use crate::{Lane, LaneRoom};
use fingerprint_stage::Chunk;
use stage_flows::Bytes;
use stage_queue::{Rx, Tx};
use stage_threads::together;
use std::alloc::Global;
use std::sync::Wait;
use std::thread::Scope;
use std::time::Clock;
use stop_word::Holder;
use vault_types::{Flow, Memory, Turn};

/// So many lanes that were not started, with their ends. Each has one of the holders, of which the
/// others are left.
pub fn all_rooms(
    alloc: Global,
    queue: u32,
    count: u32,
    holders: &mut Vec<Holder>,
) -> Result<(Vec<Tx<Flow<Bytes>>>, Vec<LaneRoom>, Vec<Rx<Flow<Chunk>>>), Memory>
    requires queue { 1 ≤ queue }
    requires holders { count ≤ length holders.old.items }
    ensures rooms { IfOk result (λ r. AreRooms r.0.items r.1.items r.2.items) }
    ensures count { IfOk result (λ r. length r.1.items ≡ count) }
    ensures holders { (f : Kin) → AreNew f holders.old.items
        → IfOk result (λ r. AreNew f (map (λ l. l.holder) r.1.items) × AreNew f holders.new.items
        × (length holders.new.items + count ≡ length holders.old.items)) }
{
    let mut nears = Vec::new(alloc);
    let mut rooms = Vec::new(alloc);
    let mut fars = Vec::new(alloc);
    for lane in 0..count {
        let Some(holder) = holders.pop() else {
            unreachable!()
        };
        let (near, room, far) = LaneRoom::new(alloc, queue, holder)?;
        nears.push(near)?;
        rooms.push(room)?;
        fars.push(far)?;
    }
    Ok((nears, rooms, fars))
}

/// Starts all lanes, each in a thread with a stack of that size, or the host's usual one. No memory.
pub fn start_all<'s, E: 's, R: Wait + Clock + Copy + Drop + Send + 's>(
    rt: R,
    scope: &'s Scope<'s, E>,
    rooms: Vec<LaneRoom>,
    lanes: &mut Vec<Lane>,
    stack_size: Option<usize>,
)
    requires none { lanes.old.items ≡ [] }
    requires room { vec_len lanes.old + length rooms.items ≤ vec_capacity lanes.old }
    ensures { lanes.new.items ≡ rooms.items }
{
    for room in rooms {
        lanes
            .push(Lane::start(rt, room, scope, stack_of(stack_size)))
            .unwrap();
    }
}

/// One turn of each kept stage.
pub fn turn_all<R: Wait>(rt: &R, lanes: &mut Vec<Lane>) -> Turn
    ensures { lanes.new.items ≡ lanes.old.items }
{
    let mut all = Turn::Done;
    for i in 0..lanes.len() {
        all = together(all, lanes[i].turn(rt));
    }
    all
}
