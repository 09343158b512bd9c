//! Plans of short restores, worked by hand.
use belady_cache::{next_uses, plan, requests};
use std::alloc::Global;
use std::test::Fail;
use vault_types::{Id, Spot, Step};

// The requests of chunks that lie in these containers.
fn requests_of(alloc: Global, ids: &[Id]) -> Result<Vec<Id>, Fail> {
    let mut spots = Vec::new(alloc);
    for id in ids {
        spots.push(Spot {
            id: *id,
            at: 0,
            len: 1,
        })?;
    }
    Ok(requests(alloc, spots.as_slice())?)
}

#[test]
fn equal_neighbours_are_one_request(rt: HostRuntime) -> Result<(), Fail> {
    let ids = requests_of(rt.alloc(), &[1, 1, 2, 2, 1])?;
    assert!(rt; ids.as_slice() == [1, 2, 1].as_slice());
    Ok(())
}

fn next_of(alloc: Global, reqs: &[Id]) -> Result<Vec<usize>, Fail> {
    Ok(next_uses(alloc, reqs)?)
}

#[test]
fn a_request_knows_when_its_container_is_next(rt: HostRuntime) -> Result<(), Fail> {
    let next = next_of(rt.alloc(), &[1, 2, 3, 1, 2])?;
    assert!(rt; next.as_slice() == [3, 4, 5, 5, 5].as_slice());
    Ok(())
}

fn steps_of(alloc: Global, reqs: &[Id], slots: u32) -> Result<Vec<Step>, Fail> {
    if slots < 1 || slots > 64 {
        return Err(Fail::from("slots"));
    }
    Ok(plan(alloc, reqs, slots)?.steps.into_vec())
}

fn loads_of(alloc: Global, reqs: &[Id], slots: u32) -> Result<u64, Fail> {
    if slots < 1 || slots > 64 {
        return Err(Fail::from("slots"));
    }
    Ok(plan(alloc, reqs, slots)?.loads)
}

#[test]
fn the_container_needed_last_goes(rt: HostRuntime) -> Result<(), Fail> {
    let steps = [
        Step::Load(1),
        Step::Serve,
        Step::Load(2),
        Step::Serve,
        Step::Evict(2),
        Step::Load(3),
        Step::Serve,
        Step::Serve,
        Step::Evict(1),
        Step::Load(2),
        Step::Serve,
    ];
    let found = steps_of(rt.alloc(), &[1, 2, 3, 1, 2], 2)?;
    assert!(rt; found.as_slice() == steps.as_slice());
    assert!(rt; loads_of(rt.alloc(), &[1, 2, 3, 1, 2], 2)? == 4);
    Ok(())
}

// How many loads the requests 1 2 3 1 2 take under so many slots, and the requests 1 2 1 3 1 2.
const LOADS: &[(u32, u64, u64)] = &[(1, 5, 6), (2, 4, 4), (3, 3, 3), (64, 3, 3)];

fn loads_are(alloc: Global, rows: &[(u32, u64, u64)]) -> Result<bool, Fail> {
    for (slots, short, long) in rows {
        if loads_of(alloc, &[1, 2, 3, 1, 2], *slots)? != *short {
            return Ok(false);
        }
        if loads_of(alloc, &[1, 2, 1, 3, 1, 2], *slots)? != *long {
            return Ok(false);
        }
    }
    Ok(true)
}

#[test]
fn more_slots_take_fewer_loads(rt: HostRuntime) -> Result<(), Fail> {
    assert!(rt; loads_are(rt.alloc(), LOADS)?);
    Ok(())
}

#[test]
fn no_requests_take_no_steps(rt: HostRuntime) -> Result<(), Fail> {
    assert!(rt; steps_of(rt.alloc(), &[], 1)?.is_empty() && loads_of(rt.alloc(), &[], 1)? == 0);
    Ok(())
}
