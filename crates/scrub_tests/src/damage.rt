// What a scrub on one thread finds.
use crate::stores::{Change, damage_payload, payload_name, payload_of, store_of};
use keeper_driver::store::started;
use keeper_driver::sum;
use payload_health::{Bad, Findings, Health};
use scrub::{Plain, scrub_plain};
use std::alloc::Global;
use std::test::Fail;
use vault_ports::{FaultShelf, MemShelf};
use vault_traits::Shelf;
use vault_types::{Fault, Id};

fn found_on<S: Shelf + Drop>(alloc: Global, shelf: S) -> Result<Result<Findings, Fault>, Fail> {
    let mut keeper = started(alloc, shelf)?.into_keeper();
    Ok(scrub_plain(alloc, &mut keeper, &Plain))
}

// The health of a container behind a change.
fn health_behind(id: Id, with: Change) -> Health {
    let whole = payload_of(id);
    let mut other = whole;
    other[5] = b'x';
    match with {
        Change::IsGone => Health::Absent,
        Change::HasOneByteMore => Health::Length {
            want: 12,
            found: 13,
        },
        Change::HasAnotherByte => Health::Sum {
            want: sum(&whole),
            found: sum(&other),
        },
        Change::HasAnotherChunk => Health::Chunk {
            row: 1,
            want: sum(&whole[4..8]),
            found: sum(&other[4..8]),
        },
    }
}

// Whether a scrub of three containers finds this change of one of them, and nothing else.
fn finds(alloc: Global, id: Id, with: Change) -> Result<bool, Fail> {
    let mut shelf = store_of(alloc, 3)?;
    damage_payload(alloc, &mut shelf, id, with)?;
    let found = found_on(alloc, shelf)??;
    let bad = Bad {
        id,
        health: health_behind(id, with),
    };
    Ok(found.containers == 3 && found.damaged.as_slice() == [bad].as_slice())
}

const CHANGES: [Change; 4] = [
    Change::IsGone,
    Change::HasOneByteMore,
    Change::HasAnotherByte,
    Change::HasAnotherChunk,
];

fn first_missed(alloc: Global) -> Result<Option<(Id, Change)>, Fail> {
    for id in 1..4u64 {
        for with in CHANGES {
            if !finds(alloc, id, with)? {
                return Ok(Some((id, with)));
            }
        }
    }
    Ok(None)
}

#[test]
fn each_damage_of_each_container_is_found(rt: HostRuntime) -> Result<(), Fail> {
    assert!(rt; first_missed(rt.alloc())? == None);
    Ok(())
}

// How many containers a scrub finds, and the ids of those that are not good, behind changes of two of four, and with a
// payload that no version names.
fn ids_found(alloc: Global) -> Result<(u64, Vec<Id>), Fail> {
    let mut shelf = store_of(alloc, 4)?;
    damage_payload(alloc, &mut shelf, 4, Change::IsGone)?;
    damage_payload(alloc, &mut shelf, 1, Change::HasAnotherByte)?;
    shelf.put(alloc, payload_name(9), b"x")?;
    let found = found_on(alloc, shelf)??;
    let mut ids = Vec::new(alloc);
    for bad in found.damaged.as_slice() {
        ids.push(bad.id)?;
    }
    Ok((found.containers, ids))
}

#[test]
fn damage_stops_no_scrub(rt: HostRuntime) -> Result<(), Fail> {
    let (containers, ids) = ids_found(rt.alloc())?;
    assert!(rt; containers == 4);
    assert!(rt; ids.as_slice() == [1, 4].as_slice());
    Ok(())
}

fn nothing_found(alloc: Global) -> Result<(u64, usize), Fail> {
    let found = found_on(alloc, MemShelf::new(alloc))??;
    Ok((found.containers, found.damaged.as_slice().len()))
}

#[test]
fn an_empty_store_is_good(rt: HostRuntime) -> Result<(), Fail> {
    assert!(rt; nothing_found(rt.alloc())? == (0, 0));
    Ok(())
}

// Over a store of two containers an opening makes six calls, and a scrub four more. The first of these whose failure is not
// the refusal.
fn first_untold(alloc: Global) -> Result<Option<u64>, Fail> {
    for call in 7..11u64 {
        let shelf = FaultShelf::new(store_of(alloc, 2)?, [call].to_vec(alloc)?, false);
        let is_told = match found_on(alloc, shelf)? {
            Ok(_) => false,
            Err(fault) => fault == Fault::StoreFault(1),
        };
        if !is_told {
            return Ok(Some(call));
        }
    }
    Ok(None)
}

#[test]
fn a_shelf_that_fails_is_the_refusal(rt: HostRuntime) -> Result<(), Fail> {
    assert!(rt; first_untold(rt.alloc())? == None);
    Ok(())
}
