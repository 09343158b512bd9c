//! The optimal plan of a restore: when each container is loaded and evicted, so that the fewest payloads are read
//! under a number of slots. Where all slots are full, the container that is needed farthest in the future goes, after
//! Belady ("A study of replacement algorithms for a virtual-storage computer", 1966).
#![tactic(auto)]

ghost use Rattle.std.specs.Prelude.{◌≡◌, ◌≤◌, [], map, IfOk, IsTrue};
ghost use Rattle.vault_types.specs.Plans.{requests as requests_of, next_uses as next_uses_of, rule_plan, serves, loads as loads_of, IsLeast};

mod present;

use crate::present::{Held, serve};
use std::alloc::Global;
use std::collections::HashMap;
use vault_types::list::ListOf;
use vault_types::{Id, Memory, Spot, Step};

/// A plan of a restore. `steps` are its steps in order: a load takes a free slot, an eviction frees one, and there is
/// one `Serve` for each request. `loads` is how many of them are loads, each of which reads one payload.
#[derive(Drop)]
pub struct Planned {
    pub steps: ListOf<Step>,
    pub loads: u64,
}

/// The requests of a restore: the containers of its chunks in order, with each run of equal neighbours made one. The
/// only error is `Memory`, after which there is no list.
pub fn requests(alloc: Global, spots: &[Spot]) -> Result<Vec<Id>, Memory>
    ensures { IfOk result (λ ids. ids.items ≡ requests_of (map (λ s. s.id) spots.now)) }
{
    let mut ids: Vec<Id> = spots.iter().map(|spot| spot.id).collect(alloc)?;
    ids.dedup();
    Ok(ids)
}

/// For each place of `reqs`, counted from 0, the next place with the same id, or the number of requests where the id
/// does not come again. It takes one pass, from the last request on. The only error is `Memory`, after which there is
/// no list.
pub fn next_uses(alloc: Global, reqs: &[Id]) -> Result<Vec<usize>, Memory>
    ensures { IfOk result (λ next. next.items ≡ next_uses_of reqs.now) }
{
    let end = reqs.len();
    let mut next = vec![in alloc; end; end]?;
    let mut later = HashMap::new(alloc);
    for i in (0..end).rev() {
        next[i] = later.insert(reqs[i], i)?.unwrap_or(end);
    }
    Ok(next)
}

/// The plan of the rule for these requests, under 1 to 64 slots. It loads a container only for the next request, and
/// evicts one only where all slots are full: the one whose next request is farthest (Belady, 1966), and of those that
/// are not requested again the one with the lowest id. No list of steps that serves the requests has fewer loads, even
/// one that loads early or evicts without need. A request takes a few passes over the slots, and none over the other
/// requests. The only error is `Memory`, after which there is no plan.
pub fn plan(alloc: Global, reqs: &[Id], slots: u32) -> Result<Planned, Memory>
    requires some { 1 ≤ slots }
    requires few { slots ≤ 64 }
    ensures rule { IfOk result (λ planned. planned.steps ≡ rule_plan slots [] reqs.now) }
    ensures serves { IfOk result (λ planned. IsTrue (serves slots [] planned.steps reqs.now)) }
    ensures loads { IfOk result (λ planned. planned.loads ≡ loads_of planned.steps) }
    ensures least { IfOk result (λ planned. IsLeast reqs.now slots planned.loads) }
{
    let next = next_uses(alloc, reqs)?;
    let mut present = Vec::new(alloc);
    let mut steps = Vec::new(alloc);
    let mut loads: u64 = 0;
    for (i, id) in reqs.iter().enumerate() {
        let held = Held {
            id: *id,
            next: next[i],
        };
        if serve(&mut present, &mut steps, slots as usize, held)? {
            loads += 1;
        }
    }
    Ok(Planned {
        steps: ListOf::from_vec(steps),
        loads,
    })
}
