// All lanes are ended.
ghost use Rattle.std.specs.Prelude.{◌≡◌, ◌≤◌, ◌+◌, ◌++◌, map, length, vec_len, vec_capacity};
ghost use Rattle.pipe_lanes.specs.Lanes.{AreEnds, AreBack};

use crate::Lane;
use fingerprint_stage::Chunk;
use stage_flows::Bytes;
use stage_queue::{Rx, Tx};
use std::sync::Wait;
use std::thread::Threads;
use std::time::Clock;
use stop_word::Holder;
use vault_types::Flow;

/// Ends all lanes, whose ends are back, and adds their holders to the others. No memory.
pub fn end_all<R: Threads + Wait + Clock>(
    rt: &R,
    lanes: Vec<Lane>,
    near: Vec<Tx<Flow<Bytes>>>,
    far: Vec<Rx<Flow<Chunk>>>,
    holders: &mut Vec<Holder>,
)
    requires ends { AreEnds lanes.items near.items far.items }
    requires room { vec_len holders.old + length lanes.items ≤ vec_capacity holders.old }
    ensures back { AreBack near.items far.items }
    ensures holders { holders.new.items ≡ holders.old.items ++ map (λ l. l.holder) lanes.items }
{
    let mut near = near.into_iter();
    let mut far = far.into_iter();
    for lane in lanes {
        let Some(tx) = near.next() else {
            unreachable!()
        };
        let Some(rx) = far.next() else { unreachable!() };
        let holder = lane.end(rt, tx, rx);
        holders.push(holder).unwrap();
    }
}
