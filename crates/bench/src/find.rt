// Look-ups of the index, beside those of a hash map, for so many containers of 1,000 rows.
use crate::made::{fp_of, index_of, next};
use crate::watch::{Stop, Watch};
use fp_index::Index;
use std::alloc::Global;
use std::collections::HashMap;
use vault_types::Fp;

const LOOKS: u64 = 2_000_000;

pub fn run(rt: HostRuntime) -> Result<(), Stop> {
    for containers in [10u64, 100, 400, 1000] {
        look(rt, containers)?;
    }
    Ok(())
}

fn map_of(alloc: Global, all: u64) -> Result<HashMap<Fp, u64>, Stop> {
    let mut map: HashMap<Fp, u64> = HashMap::new(alloc);
    for number in 0..all {
        map.insert(fp_of(number), number / 1000)?;
    }
    Ok(map)
}

fn find_all(index: &Index, all: u64) -> u64 {
    let mut found = 0u64;
    let mut state = 1u64;
    for _look in 0..LOOKS {
        state = next(state);
        if index.find(&fp_of((state >> 33) % all.max(1))).is_some() {
            found = found.saturating_add(1);
        }
    }
    found
}

fn get_all(map: &HashMap<Fp, u64>, all: u64) -> u64 {
    let mut found = 0u64;
    let mut state = 1u64;
    for _look in 0..LOOKS {
        state = next(state);
        if map.get(&fp_of((state >> 33) % all.max(1))).is_some() {
            found = found.saturating_add(1);
        }
    }
    found
}

// The nanoseconds of a look-up of the index, and how many were found.
fn by_index(rt: HostRuntime, containers: u64, all: u64) -> Result<(u64, u64), Stop> {
    let index = index_of(rt.alloc(), containers, 1000)?;
    let mut watch = Watch::start(rt)?;
    let found = find_all(&index, all);
    let took = watch.lap(rt);
    watch.end()?;
    Ok((took / LOOKS, found))
}

// The same of a hash map.
fn by_map(rt: HostRuntime, all: u64) -> Result<(u64, u64), Stop> {
    let map = map_of(rt.alloc(), all)?;
    let mut watch = Watch::start(rt)?;
    let found = get_all(&map, all);
    let took = watch.lap(rt);
    watch.end()?;
    Ok((took / LOOKS, found))
}

fn look(rt: HostRuntime, containers: u64) -> Result<(), Stop> {
    let all = containers.saturating_mul(1000);
    let (by_index, found) = by_index(rt, containers, all)?;
    let (by_map, same) = by_map(rt, all)?;
    println!(rt;
        "find: {all} fingerprints: {by_index} ns a look-up, a hash map {by_map} ns; {found} and {same} found"
    )?;
    Ok(())
}
