//! Worked examples of the devices in memory.
use crate::calls::{Answer, faults_of, four_reads, four_writes, read_all, removes, write_to};
use std::alloc::Global;
use std::test::Fail;
use vault_ports::{
    CrashShelf, FaultPlaces, FaultShelf, FaultSink, FaultSource, MemPlaces, MemShelf, MemSink,
    MemSource,
};
use vault_traits::{Failed, Places, Refused, Shelf, Sink, Source};
use vault_types::{Kind, Name};

const FIRST: Name = Name {
    kind: Kind::Table,
    number: 1,
};

const SECOND: Name = Name {
    kind: Kind::Payload,
    number: 2,
};

const FLOOR: Name = Name {
    kind: Kind::Floor,
    number: 0,
};

const FAR_FLOOR: Name = Name {
    kind: Kind::Floor,
    number: 300,
};

fn plain_reads(alloc: Global) -> Result<[Answer; 4], Fail> {
    let mut source = MemSource::new(b"hello".to_vec(alloc)?, 2);
    Ok(four_reads(&mut source))
}

// What four reads answer, how much is left after each, and how many failed, where the second and third are to fail.
fn faulty_reads(alloc: Global) -> Result<(Vec<(Answer, usize)>, u64), Fail> {
    let inner = MemSource::new(b"hello".to_vec(alloc)?, 4);
    let mut source = FaultSource::new(inner, [2, 3].to_vec(alloc)?);
    let mut buf = [0; 8];
    let mut found = Vec::new(alloc);
    for _ in 0..4 {
        let answer = source.read(&mut buf);
        found.push((answer, source.left().len()))?;
    }
    Ok((found, source.faults()))
}

#[test]
fn sources_give_pieces_and_fail_at_numbers(rt: HostRuntime) -> Result<(), Fail> {
    assert!(rt; plain_reads(rt.alloc())? == [Ok(2), Ok(2), Ok(1), Ok(0)]);
    let (found, faults) = faulty_reads(rt.alloc())?;
    let expected = [(Ok(4), 1), (Err(Failed), 1), (Err(Failed), 1), (Ok(1), 0)];
    assert!(rt; found.as_slice() == expected.as_slice());
    assert!(rt; faults == 2);
    Ok(())
}

// What four writes answer, what was taken, and how many failed, with room for seven bytes.
fn plain_writes(alloc: Global) -> Result<([Answer; 4], Vec<u8>, u64), Fail> {
    let mut sink = MemSink::with(alloc, 7)?;
    let answers = four_writes(&mut sink, b"hello");
    Ok((answers, sink.as_slice().to_vec(alloc)?, sink.faults()))
}

// The same with room for six bytes, where the first write is to fail.
fn faulty_writes(alloc: Global) -> Result<([Answer; 4], Vec<u8>, u64), Fail> {
    let mut sink = FaultSink::new(MemSink::with(alloc, 6)?, [1].to_vec(alloc)?);
    let answers = four_writes(&mut sink, b"world");
    let faults = sink.faults();
    Ok((answers, sink.into_vec(), faults))
}

#[test]
fn sinks_fail_without_room_and_at_numbers(rt: HostRuntime) -> Result<(), Fail> {
    let (answers, bytes, faults) = plain_writes(rt.alloc())?;
    assert!(rt; answers == [Ok(5), Ok(2), Err(Failed), Err(Failed)]);
    assert!(rt; bytes.as_slice() == b"hellohe".as_slice() && faults == 2);
    let (answers, bytes, faults) = faulty_writes(rt.alloc())?;
    assert!(rt; answers == [Err(Failed), Ok(5), Ok(1), Err(Failed)]);
    assert!(rt; bytes.as_slice() == b"worldw".as_slice() && faults == 2);
    Ok(())
}

fn with_floors(alloc: Global) -> Result<MemShelf, Fail> {
    let mut blobs = Vec::new(alloc);
    for (name, bytes) in [(FAR_FLOOR, b"far"), (FLOOR, b"odd"), (SECOND, b"two")] {
        blobs.push((name, bytes.to_vec(alloc)?))?;
    }
    Ok(MemShelf::with(alloc, blobs)?)
}

fn holds(shelf: &MemShelf, name: Name, bytes: &[u8]) -> bool {
    shelf.blob(name) == Some(bytes)
}

fn put_more(alloc: Global, shelf: &mut MemShelf) -> Result<(), Fail> {
    shelf.put(alloc, FIRST, b"one")?;
    shelf.put_floor(0, &[9; 28])?;
    Ok(())
}

// Whether the shelf gives these bytes, and that is its only read of a payload.
fn gives_once(alloc: Global, shelf: &mut MemShelf, name: Name, bytes: &[u8]) -> bool {
    match shelf.get(alloc, name) {
        Ok(Some(found)) => found.as_slice() == bytes && shelf.payload_gets() == 1,
        _ => false,
    }
}

// Whether the floor of set 0 has its odd bytes, and more is put; what is listed then.
fn with_more(alloc: Global, shelf: &mut MemShelf) -> Result<([bool; 2], Vec<Name>), Fail> {
    let odd = holds(shelf, FLOOR, b"odd");
    put_more(alloc, shelf)?;
    let floor = holds(shelf, FLOOR, &[9; 28]);
    Ok(([odd, floor], shelf.list(alloc)?))
}

// Whether that floor is removed, also where it is absent; what is listed then; and whether a payload is given.
fn without_floor(alloc: Global, shelf: &mut MemShelf) -> Result<([bool; 3], Vec<Name>), Fail> {
    let removed = removes(shelf, FLOOR);
    let again = removes(shelf, FLOOR);
    let names = shelf.list(alloc)?;
    let given = gives_once(alloc, shelf, SECOND, b"two");
    Ok(([removed, again, given], names))
}

type Listed = (Vec<Name>, Vec<Name>);

fn with_and_without(alloc: Global) -> Result<([bool; 2], [bool; 3], Listed), Fail> {
    let mut shelf = with_floors(alloc)?;
    let (with, all) = with_more(alloc, &mut shelf)?;
    let (without, rest) = without_floor(alloc, &mut shelf)?;
    Ok((with, without, (all, rest)))
}

#[test]
fn a_shelf_in_memory_holds_floors_of_any_number(rt: HostRuntime) -> Result<(), Fail> {
    let (with, without, (all, rest)) = with_and_without(rt.alloc())?;
    assert!(rt; (with, without) == ([true; 2], [true; 3]));
    assert!(rt; all.as_slice() == [FIRST, SECOND, FLOOR, FAR_FLOOR].as_slice());
    assert!(rt; rest.as_slice() == [FIRST, SECOND, FAR_FLOOR].as_slice());
    Ok(())
}

// Puts, settles, puts, sets a floor and removes.
fn run_script<S: Shelf>(alloc: Global, shelf: &mut S) {
    let _ = shelf.put(alloc, FIRST, b"a");
    let _ = shelf.settle();
    let _ = shelf.put(alloc, SECOND, b"bb");
    let _ = shelf.put_floor(0, &[7; 28]);
    let _ = shelf.remove(FIRST);
}

// How many of the script's calls failed where the third and the fifth are to, and what the shelf lists then.
fn failed(alloc: Global, keep: bool) -> Result<(u64, Vec<Name>), Fail> {
    let fail = [3, 5].to_vec(alloc)?;
    let mut shelf = FaultShelf::new(MemShelf::new(alloc), fail, keep);
    run_script(alloc, &mut shelf);
    let faults = shelf.faults();
    Ok((faults, shelf.list(alloc)?))
}

#[test]
fn a_write_that_fails_is_done_where_it_is_to_be_kept(rt: HostRuntime) -> Result<(), Fail> {
    let (faults, names) = failed(rt.alloc(), false)?;
    assert!(rt; faults == 2 && names.as_slice() == [FIRST, FLOOR].as_slice());
    let (faults, names) = failed(rt.alloc(), true)?;
    assert!(rt; faults == 2 && names.as_slice() == [SECOND, FLOOR].as_slice());
    Ok(())
}

// Where the shelf stops, which of the waiting writes are carried out, and the names after that.
struct Crash {
    stop: u64,
    taken: u64,
    names: &'static [Name],
}

const CRASHES: &[Crash] = &[
    Crash {
        stop: 100,
        taken: 0,
        names: &[FIRST],
    },
    Crash {
        stop: 100,
        taken: 1,
        names: &[FIRST, SECOND],
    },
    Crash {
        stop: 100,
        taken: 2,
        names: &[FIRST, FLOOR],
    },
    Crash {
        stop: 100,
        taken: 5,
        names: &[SECOND],
    },
    Crash {
        stop: 5,
        taken: 3,
        names: &[FIRST, SECOND, FLOOR],
    },
    Crash {
        stop: 5,
        taken: 7,
        names: &[SECOND, FLOOR],
    },
    Crash {
        stop: 4,
        taken: 7,
        names: &[FIRST, SECOND, FLOOR],
    },
    Crash {
        stop: 2,
        taken: 1,
        names: &[FIRST],
    },
    Crash {
        stop: 2,
        taken: 0,
        names: &[],
    },
];

fn names_after(alloc: Global, stop: u64, taken: u64) -> Result<Vec<Name>, Fail> {
    let mut shelf = CrashShelf::new(alloc, MemShelf::new(alloc), stop)?;
    run_script(alloc, &mut shelf);
    Ok(shelf.image(alloc, taken)?.names(alloc)?)
}

fn crashes_are(alloc: Global, rows: &[Crash]) -> Result<bool, Fail> {
    for row in rows {
        if names_after(alloc, row.stop, row.taken)?.as_slice() != row.names {
            return Ok(false);
        }
    }
    Ok(true)
}

#[test]
fn a_crash_carries_out_the_writes_of_the_mask(rt: HostRuntime) -> Result<(), Fail> {
    assert!(rt; crashes_are(rt.alloc(), CRASHES)?);
    Ok(())
}

// Of a shelf that stopped at its fourth call: whether it still gives a blob, its faults and reads of payloads, and what it
// has.
fn stopped(alloc: Global) -> Result<((bool, u64, u64), Vec<Name>), Fail> {
    let mut shelf = CrashShelf::new(alloc, MemShelf::new(alloc), 4)?;
    run_script(alloc, &mut shelf);
    let gives = shelf.get(alloc, SECOND).is_ok();
    let counts = (gives, shelf.faults(), shelf.payload_gets());
    Ok((counts, shelf.into_inner().names(alloc)?))
}

#[test]
fn a_shelf_that_stopped_keeps_what_it_had(rt: HostRuntime) -> Result<(), Fail> {
    let (counts, names) = stopped(rt.alloc())?;
    assert!(rt; counts == (false, 3, 1));
    assert!(rt; names.as_slice() == [FIRST, SECOND].as_slice());
    Ok(())
}

// Copies what is under a name to another one by a writer.
fn copy_over<P: Places>(
    alloc: Global,
    places: &mut P,
    from: &str,
    to: &str,
) -> Result<(), Refused> {
    let mut reader = places.open_source(alloc, from)?;
    let bytes = read_all(alloc, &mut reader);
    places.close_source(reader);
    write_to(alloc, places, to, bytes?.as_slice())
}

fn hello(alloc: Global) -> Result<Vec<(String, Vec<u8>)>, Fail> {
    let mut files = Vec::new(alloc);
    files.push(("a".to_string(alloc)?, b"hello".to_vec(alloc)?))?;
    Ok(files)
}

// Whether what is written under a name is there, whether a copy of no name fails, and how many openings failed.
fn copied(alloc: Global) -> Result<(bool, bool, u64), Fail> {
    let mut places = MemPlaces::with(alloc, hello(alloc)?, 100)?;
    copy_over(alloc, &mut places, "a", "b")?;
    let is_there = places.bytes("b") == Some(b"hello".as_slice());
    let fails = copy_over(alloc, &mut places, "c", "b").is_err();
    Ok((is_there, fails, places.faults()))
}

#[test]
fn places_give_what_was_written(rt: HostRuntime) -> Result<(), Fail> {
    assert!(rt; copied(rt.alloc())? == (true, true, 1));
    Ok(())
}

fn faulty_places(alloc: Global) -> Result<FaultPlaces, Fail> {
    let reads = [1, 3].to_vec(alloc)?;
    let writes = [1].to_vec(alloc)?;
    Ok(FaultPlaces::with(alloc, hello(alloc)?, 100, 2, reads, writes)?)
}

// Whether what is written under a name is there, where reads and writes of the first copy fail, and what failed after a
// second copy.
fn copied_twice(alloc: Global) -> Result<(bool, (u64, u64, u64)), Fail> {
    let mut places = faulty_places(alloc)?;
    copy_over(alloc, &mut places, "a", "b")?;
    let is_there = places.bytes("b") == Some(b"hello".as_slice());
    copy_over(alloc, &mut places, "b", "a")?;
    Ok((is_there, faults_of(&places)))
}

#[test]
fn the_first_reader_and_writer_fail_at_numbers(rt: HostRuntime) -> Result<(), Fail> {
    assert!(rt; copied_twice(rt.alloc())? == (true, (0, 2, 1)));
    Ok(())
}
