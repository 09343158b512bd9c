// Planning a restore: the optimal plan, beside least recently used and one load a request. The series drift as versions
// do: runs of neighbouring containers, with jumps back to old ones.
use crate::made::next;
use crate::watch::{Stop, Watch};
use std::alloc::Global;
use vault_types::Memory;

// The container after `at`: mostly the next or one shortly before it, now and then any.
fn drifted(at: u64, pick: u64, containers: u64) -> u64 {
    match pick % 16 {
        0 => (pick / 16) % containers.max(1),
        1..=6 => at.saturating_sub((pick / 16) % 40),
        _ => at.wrapping_add(1) % containers.max(1),
    }
}

fn drifting(alloc: Global, count: u64, containers: u64) -> Result<Vec<u64>, Memory> {
    let mut reqs = Vec::new(alloc);
    let mut state = 1u64;
    let mut at = 0u64;
    for _i in 0..count {
        state = next(state);
        at = drifted(at, state >> 33, containers);
        reqs.push(at.wrapping_add(1))?;
    }
    Ok(reqs)
}

fn place_of(present: &[u64], id: u64) -> Option<usize> {
    for (at, one) in present.iter().enumerate() {
        if *one == id {
            return Some(at);
        }
    }
    None
}

fn remove(present: &mut Vec<u64>, at: usize) {
    if at < present.len() {
        present.remove(at);
    }
}

// How many loads least recently used needs.
fn lru_loads(alloc: Global, reqs: &[u64], slots: usize) -> Result<u64, Memory> {
    let mut present: Vec<u64> = Vec::new(alloc);
    let mut loads = 0u64;
    for id in reqs {
        match place_of(present.as_slice(), *id) {
            Some(at) => remove(&mut present, at),
            None => {
                loads = loads.saturating_add(1);
                if present.len() >= slots {
                    remove(&mut present, 0);
                }
            }
        }
        present.push(*id)?;
    }
    Ok(loads)
}

// How many loads the optimal plan needs.
fn planned(alloc: Global, reqs: &[u64], slots: u32) -> Result<u64, Stop> {
    if slots < 1 || slots > 64 {
        return Err(Stop::Refused);
    }
    Ok(belady_cache::plan(alloc, reqs, slots)?.loads)
}

fn show_plan(rt: HostRuntime, reqs: &[u64], slots: u32) -> Result<(), Stop> {
    let mut watch = Watch::start(rt)?;
    let loads = planned(rt.alloc(), reqs, slots)?;
    let took = watch.lap(rt) / 1_000_000;
    watch.end()?;
    let lru = lru_loads(rt.alloc(), reqs, slots as usize)?;
    let each = reqs.len();
    println!(rt;
        "plan: {slots} slots: {loads} loads in {took} ms, least recently used {lru}, one a request {each}"
    )?;
    Ok(())
}

pub fn run(rt: HostRuntime) -> Result<(), Stop> {
    let reqs = drifting(rt.alloc(), 1_000_000, 5_000)?;
    for slots in [1u32, 4, 16, 64] {
        show_plan(rt, reqs.as_slice(), slots)?;
    }
    Ok(())
}
