// Checks in threads.
use crate::stores::{Change, damage_payload, store_of};
use keeper_core::Keeper;
use keeper_driver::store::started;
use payload_health::{Findings, Health};
use scrub::{Plain, scrub, scrub_on};
use scrub_gates::GateCheck;
use std::alloc::Global;
use std::test::Fail;
use std::thread;
use vault_ports::MemShelf;
use vault_types::Fault;

// A store of nine containers, of which the payloads of 2, 5 and 9 are damaged.
fn damaged(alloc: Global) -> Result<Keeper<MemShelf>, Fail> {
    let mut shelf = store_of(alloc, 9)?;
    damage_payload(alloc, &mut shelf, 2, Change::IsGone)?;
    damage_payload(alloc, &mut shelf, 5, Change::HasAnotherChunk)?;
    damage_payload(alloc, &mut shelf, 9, Change::HasOneByteMore)?;
    Ok(started(alloc, shelf)?.into_keeper())
}

// Whether that damage was found.
fn is_found(found: &Findings) -> bool {
    match found.damaged.as_slice() {
        [two, five, nine] => {
            let ids = two.id == 2 && five.id == 5 && nine.id == 9;
            let is_chunk = matches!(five.health, Health::Chunk { row: 1, .. });
            ids && is_chunk && two.health == Health::Absent && found.containers == 9
        }
        _ => false,
    }
}

#[test]
fn workers_find_what_one_thread_finds(rt: HostRuntime) -> Result<(), Fail> {
    let alloc = rt.alloc();
    let mut wrong = None;
    for workers in 1..9u32 {
        let mut keeper = damaged(alloc)?;
        let found = thread::scope(
            thread::scope_env(),
            &rt,
            |scope| -> Result<Findings, Fault> {
                scrub(&rt, alloc, scope, &mut keeper, &Plain, workers)
            },
        )?;
        if !is_found(&found) {
            wrong = Some(workers);
        }
    }
    assert!(rt; wrong == None);
    Ok(())
}

#[test]
fn refused_threads_change_nothing(rt: HostRuntime) -> Result<(), Fail> {
    let alloc = rt.alloc();
    let mut keeper = damaged(alloc)?;
    let found = thread::scope(
        thread::scope_env(),
        &rt,
        |scope| -> Result<Findings, Fault> {
            scrub_on(&rt, alloc, scope, Some(usize::MAX), &mut keeper, &Plain, 3)
        },
    )?;
    assert!(rt; is_found(&found));
    Ok(())
}

#[test]
fn two_checks_run_at_once(rt: HostRuntime) -> Result<(), Fail> {
    let alloc = rt.alloc();
    let mut keeper = started(alloc, store_of(alloc, 2)?)?.into_keeper();
    let check = GateCheck::new(alloc)?;
    let found = thread::scope(
        thread::scope_env(),
        &rt,
        |scope| -> Result<Findings, Fault> { scrub(&rt, alloc, scope, &mut keeper, &check, 2) },
    )?;
    assert!(rt; found.damaged.as_slice().is_empty());
    assert!(rt; check.met() == [true, true]);
    Ok(())
}
