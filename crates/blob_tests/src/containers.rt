// Containers on a shelf.
use crate::shelves::{
    PAYLOAD, TABLE, damaged, ends_with, faulty, holds, lists, one_chunk, shelf_with,
};
use crate::tables::{LONGER, TWO};
use container_store::{Sealed, get_table, load, put, remove};
use sha1::Sha1;
use std::alloc::Global;
use std::test::Fail;
use vault_ports::MemShelf;
use vault_traits::Shelf;
use vault_types::{Fault, Fp, Why};

fn put_fault<S: Shelf>(alloc: Global, shelf: &mut S, sealed: &Sealed) -> Option<Fault> {
    put(alloc, shelf, sealed).err()
}

fn table_fault<S: Shelf>(alloc: Global, shelf: &mut S) -> Option<Fault> {
    get_table(alloc, shelf, 1).err()
}

fn load_fault<S: Shelf>(alloc: Global, shelf: &mut S, sealed: &Sealed) -> Option<Fault> {
    load(alloc, shelf, sealed.table()).err()
}

fn is_removed<S: Shelf>(shelf: &mut S) -> bool {
    remove(shelf, 1).is_ok()
}

// Whether container 1 is there, and takes one get of a payload.
fn is_loaded_once(alloc: Global, shelf: &mut MemShelf) -> Result<bool, Fail> {
    let table = get_table(alloc, shelf, 1)?;
    let before = shelf.payload_gets();
    let payload = load(alloc, shelf, &table)?;
    let gets = (before, shelf.payload_gets());
    Ok(table.id == 1 && payload.as_slice() == b"abcd".as_slice() && gets == (0, 1))
}

// Whether the container is put, is there, is loaded and removed, and nothing is there then.
fn put_and_removed(
    alloc: Global,
    shelf: &mut MemShelf,
    sealed: &Sealed,
) -> Result<[bool; 6], Fail> {
    let put = put_fault(alloc, shelf, sealed) == None;
    let listed = lists(alloc, shelf, &[TABLE, PAYLOAD]);
    let held = holds(shelf, PAYLOAD, b"abcd");
    let loaded = is_loaded_once(alloc, shelf)?;
    let removed = is_removed(shelf);
    Ok([put, listed, held, loaded, removed, lists(alloc, shelf, &[])])
}

type Faults = [Option<Fault>; 2];

// The same, and the faults of its table and its payload behind that.
fn put_loaded_and_removed(alloc: Global) -> Result<([bool; 6], Faults), Fail> {
    let sealed = one_chunk(alloc)?;
    let mut shelf = MemShelf::new(alloc);
    let done = put_and_removed(alloc, &mut shelf, &sealed)?;
    let table = table_fault(alloc, &mut shelf);
    Ok((done, [table, load_fault(alloc, &mut shelf, &sealed)]))
}

#[test]
fn a_container_is_put_loaded_and_removed(rt: HostRuntime) -> Result<(), Fail> {
    let (done, faults) = put_loaded_and_removed(rt.alloc())?;
    assert!(rt; done == [true; 6]);
    assert!(rt; faults == [damaged(TABLE, Why::Absent), damaged(PAYLOAD, Why::Absent)]);
    Ok(())
}

// What is told of container 1 as it is loaded, where its payload is this one.
fn fault_with(alloc: Global, payload: &[u8]) -> Result<Option<Fault>, Fail> {
    let mut blobs = Vec::new(alloc);
    blobs.push((TABLE, TWO.to_vec(alloc)?))?;
    blobs.push((PAYLOAD, payload.to_vec(alloc)?))?;
    let mut shelf = MemShelf::with(alloc, blobs)?;
    let table = get_table(alloc, &mut shelf, 1)?;
    Ok(load(alloc, &mut shelf, &table).err())
}

#[test]
fn a_payload_has_the_length_and_the_sum_of_its_table(rt: HostRuntime) -> Result<(), Fail> {
    let alloc = rt.alloc();
    let length = Why::Length { want: 6, found: 7 };
    let want = Fp(Sha1::digest(b"abcdab"));
    let found = Fp(Sha1::digest(b"xbcdab"));
    assert!(rt; fault_with(alloc, b"abcdab")? == None);
    assert!(rt; fault_with(alloc, b"abcdabc")? == damaged(PAYLOAD, length));
    assert!(rt; fault_with(alloc, b"xbcdab")? == damaged(PAYLOAD, Why::Sum { want, found }));
    Ok(())
}

fn longer_fault(alloc: Global) -> Result<Option<Fault>, Fail> {
    let mut shelf = shelf_with(alloc, TABLE, &LONGER)?;
    Ok(table_fault(alloc, &mut shelf))
}

#[test]
fn a_table_with_other_bytes_is_damaged(rt: HostRuntime) -> Result<(), Fail> {
    assert!(rt; longer_fault(rt.alloc())? == damaged(TABLE, Why::Spelling));
    Ok(())
}

// The faults of three puts, of a table and of a payload, and whether two removals are done.
fn five_faults<S: Shelf>(
    alloc: Global,
    shelf: &mut S,
    sealed: &Sealed,
) -> ([Option<Fault>; 5], [bool; 2]) {
    let first = put_fault(alloc, shelf, sealed);
    let second = put_fault(alloc, shelf, sealed);
    let third = put_fault(alloc, shelf, sealed);
    let table = table_fault(alloc, shelf);
    let payload = load_fault(alloc, shelf, sealed);
    let removed = is_removed(shelf);
    (
        [first, second, third, table, payload],
        [removed, is_removed(shelf)],
    )
}

// The same over a shelf of which six calls fail, and whether that many are counted and the payload is left.
fn failing_calls(alloc: Global) -> Result<([Option<Fault>; 5], [bool; 2], bool), Fail> {
    let sealed = one_chunk(alloc)?;
    let mut shelf = faulty(alloc, MemShelf::new(alloc), &[3, 5, 6, 7, 8, 10], false)?;
    let (faults, removed) = five_faults(alloc, &mut shelf, &sealed);
    Ok((faults, removed, ends_with(alloc, shelf, 6, &[PAYLOAD])))
}

#[test]
fn a_call_that_fails_is_told_by_its_number(rt: HostRuntime) -> Result<(), Fail> {
    let (faults, removed, is_left) = failing_calls(rt.alloc())?;
    let expected = [
        None,
        Some(Fault::StoreFault(1)),
        Some(Fault::StoreFault(2)),
        Some(Fault::StoreFault(3)),
        Some(Fault::StoreFault(4)),
    ];
    assert!(rt; faults == expected);
    assert!(rt; (removed, is_left) == ([false; 2], true));
    Ok(())
}
