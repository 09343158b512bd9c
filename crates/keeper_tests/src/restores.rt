// Restores of a store of two versions.
use keeper_core::Keeper;
use keeper_driver::store::started;
use keeper_driver::sum;
use serial_restore::restore_plain;
use std::alloc::Global;
use std::test::Fail;
use vault_ports::{FaultSink, MemShelf, MemSink};
use vault_traits::Shelf;
use vault_types::{Answer, Fault, Kind, Name, Version, Why};

// Version 1 of set 0 is `aaaabbbbcccc`, in the containers 1 and 2; version 2 is `ccccaaaaccccdddd`, in 2, 1, 2 and 3.
fn store(alloc: Global) -> Result<MemShelf, Fail> {
    let mut store = started(alloc, MemShelf::new(alloc))?;
    store.back_up(alloc, 0, b"", &[b"aaaabbbb", b"cccc"])?;
    store.back_up(alloc, 0, b"ccccaaaacccc", &[b"dddd"])?;
    Ok(store.close())
}

// That store, in which the payload of container 1 has other bytes.
fn damaged(alloc: Global) -> Result<MemShelf, Fail> {
    let mut shelf = store(alloc)?;
    let name = Name {
        kind: Kind::Payload,
        number: 1,
    };
    match shelf.put(alloc, name, b"aaaabbbx") {
        Ok(()) => Ok(shelf),
        Err(_) => Err(Fail::from("the bytes are put")),
    }
}

// Restores a version over so many slots, into a sink of which a write fails. Gives what was answered and taken, how many
// payloads were got, and the shelf.
type Restored = (Result<Answer, Fault>, Vec<u8>, u64, MemShelf);

fn restored(
    alloc: Global,
    shelf: MemShelf,
    version: Version,
    slots: u32,
    write: u64,
) -> Result<Restored, Fail> {
    if slots < 1 || slots > 64 {
        return Err(Fail::from("the slots are in range"));
    }
    let fail = [write].to_vec(alloc)?;
    let mut sink = FaultSink::new(MemSink::with(alloc, 100)?, fail);
    let Ok(mut keeper) = Keeper::start(alloc, shelf) else {
        return Err(Fail::from("the store is opened"));
    };
    let answer = restore_plain(alloc, &mut keeper, 0, version, slots, &mut sink);
    let shelf = keeper.close();
    let gets = shelf.payload_gets();
    Ok((answer, sink.into_vec(), gets, shelf))
}

fn done(loads: u64) -> Result<Answer, Fault> {
    Ok(Answer::Restored {
        set: 0,
        version: 2,
        bytes: 16,
        loads,
    })
}

const SECOND: &[u8] = b"ccccaaaaccccdddd";

// Whether a restore answers this, gives these bytes, and gets so many payloads.
fn restore_is(
    alloc: Global,
    shelf: MemShelf,
    (version, slots, write): (Version, u32, u64),
    (answer, bytes, gets): (Result<Answer, Fault>, &[u8], u64),
) -> Result<bool, Fail> {
    let (found, taken, got, _) = restored(alloc, shelf, version, slots, write)?;
    Ok(found == answer && taken.as_slice() == bytes && got == gets)
}

#[test]
fn one_slot_takes_a_load_more_than_two(rt: HostRuntime) -> Result<(), Fail> {
    let alloc = rt.alloc();
    assert!(rt; restore_is(alloc, store(alloc)?, (2, 1, 0), (done(4), SECOND, 4))?);
    assert!(rt; restore_is(alloc, store(alloc)?, (2, 2, 0), (done(3), SECOND, 3))?);
    Ok(())
}

// The third write fails; and the store then restores the version.
fn front_and_whole(alloc: Global) -> Result<(bool, bool), Fail> {
    let (answer, taken, _, shelf) = restored(alloc, store(alloc)?, 2, 2, 3)?;
    let front = taken.as_slice() == b"ccccaaaa".as_slice();
    let is_refused = answer == Err(Fault::WriteFault(1));
    let (again, _, _, _) = restored(alloc, shelf, 2, 2, 0)?;
    Ok((is_refused && front, again == done(3)))
}

#[test]
fn a_sink_that_fails_has_a_front(rt: HostRuntime) -> Result<(), Fail> {
    assert!(rt; front_and_whole(rt.alloc())? == (true, true));
    Ok(())
}

fn other_bytes() -> Result<Answer, Fault> {
    Err(Fault::Damaged {
        kind: Kind::Payload,
        number: 1,
        why: Why::Sum {
            want: sum(b"aaaabbbb"),
            found: sum(b"aaaabbbx"),
        },
    })
}

#[test]
fn a_payload_of_other_bytes_is_named(rt: HostRuntime) -> Result<(), Fail> {
    let alloc = rt.alloc();
    let (answer, taken, _, _) = restored(alloc, damaged(alloc)?, 2, 2, 0)?;
    assert!(rt; answer == other_bytes());
    assert!(rt; taken.as_slice() == b"cccc".as_slice());
    Ok(())
}

fn not_kept() -> Result<Answer, Fault> {
    Err(Fault::NotKept {
        set: 0,
        version: 3,
        floor: 1,
        latest: 2,
    })
}

#[test]
fn a_version_that_is_not_kept_moves_nothing(rt: HostRuntime) -> Result<(), Fail> {
    let alloc = rt.alloc();
    assert!(rt; restore_is(alloc, store(alloc)?, (3, 2, 0), (not_kept(), b"", 0))?);
    Ok(())
}
