// What each part of a keeper's calls writes, and where it stops when the shelf fails.
ghost use Rattle.vault_types.specs.Blobs.{IsVersion};

use crate::shelves::{
    FLOOR, PAYLOAD, RECIPE, TABLE, ends_with, faulty, floor_of, holds, lists, one_chunk, shelf_with,
};
use container_store::Sealed;
use deletion_laws::clean_from;
use keeper_parts::{Halt, clean, commit, mend, put_container, raise_floor};
use std::alloc::Global;
use std::test::Fail;
use vault_ports::{FaultShelf, MemShelf};
use vault_traits::{Refused, Shelf};
use vault_types::{Fault, Name, Version};

fn put_fault<S: Shelf>(alloc: Global, shelf: &mut S, sealed: &Sealed) -> Option<Fault> {
    put_container(alloc, shelf, sealed).err()
}

fn halt_of<S: Shelf>(alloc: Global, shelf: &mut S) -> Option<Halt> {
    commit(alloc, shelf, 3, 1, b"recipe").err()
}

fn mend_fault<S: Shelf>(shelf: &mut S, floor: Version) -> Option<Fault>
    requires { IsVersion floor }
{
    mend(shelf, 3, 1, floor).err()
}

fn floor_fault<S: Shelf>(shelf: &mut S, floor: Version) -> Option<Fault>
    requires { IsVersion floor }
{
    raise_floor(shelf, 3, floor).err()
}

// The strays that are left.
fn cleaned<S: Shelf>(alloc: Global, shelf: &mut S, strays: &[Name]) -> Result<Vec<Name>, Fail> {
    let mut strays = strays.to_vec(alloc)?;
    clean(shelf, &mut strays);
    Ok(strays)
}

// The same where the first stray is left.
fn cleaned_from_1<S: Shelf>(
    alloc: Global,
    shelf: &mut S,
    strays: &[Name],
) -> Result<Vec<Name>, Fail> {
    let mut strays = strays.to_vec(alloc)?;
    if strays.is_empty() {
        return Err(Fail::from("no strays"));
    }
    clean_from(shelf, &mut strays, 1);
    Ok(strays)
}

// A shelf with that recipe, whose calls of these numbers fail.
fn shelf_with_recipe(alloc: Global, fail: &[u64]) -> Result<FaultShelf, Fail> {
    let inner = shelf_with(alloc, RECIPE, b"recipe")?;
    Ok(faulty(alloc, inner, fail, false)?)
}

// Whether a container is put and a commit is done, and what is there then.
fn put_and_committed(alloc: Global, shelf: &mut MemShelf, sealed: &Sealed) -> [bool; 5] {
    let put = put_fault(alloc, shelf, sealed) == None;
    let committed = halt_of(alloc, shelf) == None;
    let listed = lists(alloc, shelf, &[TABLE, PAYLOAD, RECIPE]);
    let payload = holds(shelf, PAYLOAD, b"abcd");
    [
        put,
        committed,
        listed,
        payload,
        holds(shelf, RECIPE, b"recipe"),
    ]
}

// Whether a mending is done, the recipe has gone, and the floor is its own.
fn mended(alloc: Global, shelf: &mut MemShelf) -> [bool; 3] {
    let is_done = mend_fault(shelf, 5) == None;
    let listed = lists(alloc, shelf, &[TABLE, PAYLOAD, FLOOR]);
    [is_done, listed, floor_of(alloc, shelf) == Ok(5)]
}

// Whether the floor is raised, all strays go, and the floor alone is left.
fn raised_and_cleaned(alloc: Global, shelf: &mut MemShelf) -> Result<[bool; 4], Fail> {
    let raised = floor_fault(shelf, 6) == None;
    let floor = floor_of(alloc, shelf) == Ok(6);
    let left = cleaned(alloc, shelf, &[TABLE, PAYLOAD, RECIPE])?;
    Ok([
        raised,
        floor,
        left.is_empty(),
        lists(alloc, shelf, &[FLOOR]),
    ])
}

fn each_part(alloc: Global) -> Result<([bool; 5], [bool; 3], [bool; 4]), Fail> {
    let sealed = one_chunk(alloc)?;
    let mut shelf = MemShelf::new(alloc);
    let put = put_and_committed(alloc, &mut shelf, &sealed);
    let mended = mended(alloc, &mut shelf);
    Ok((put, mended, raised_and_cleaned(alloc, &mut shelf)?))
}

#[test]
fn each_part_writes_its_blobs(rt: HostRuntime) -> Result<(), Fail> {
    assert!(rt; each_part(rt.alloc())? == ([true; 5], [true; 3], [true; 4]));
    Ok(())
}

// The faults of two puts of which a call each fails, and whether the payload alone is left.
fn failing_puts(alloc: Global) -> Result<([Option<Fault>; 2], bool), Fail> {
    let sealed = one_chunk(alloc)?;
    let mut shelf = faulty(alloc, MemShelf::new(alloc), &[1, 3], false)?;
    let first = put_fault(alloc, &mut shelf, &sealed);
    let second = put_fault(alloc, &mut shelf, &sealed);
    Ok(([first, second], ends_with(alloc, shelf, 2, &[PAYLOAD])))
}

#[test]
fn a_put_that_fails_leaves_the_payload_at_most(rt: HostRuntime) -> Result<(), Fail> {
    let (faults, is_left) = failing_puts(rt.alloc())?;
    assert!(rt; faults == [Some(Fault::StoreFault(1)), Some(Fault::StoreFault(2))]);
    assert!(rt; is_left);
    Ok(())
}

// The call that fails, whether its write is done, how a commit ends and which names it leaves.
const COMMITS: &[(u64, bool, Halt, &[Name])] = &[
    (1, true, Halt::Before(Refused::Failed), &[]),
    (2, false, Halt::Half, &[]),
    (2, true, Halt::Half, &[RECIPE]),
    (3, true, Halt::Half, &[RECIPE]),
];

fn commit_halts(alloc: Global, fail: u64, keep: bool) -> Result<(Option<Halt>, FaultShelf), Fail> {
    let mut shelf = faulty(alloc, MemShelf::new(alloc), &[fail], keep)?;
    let halt = halt_of(alloc, &mut shelf);
    Ok((halt, shelf))
}

fn commits_halt(alloc: Global, commits: &[(u64, bool, Halt, &[Name])]) -> Result<bool, Fail> {
    for (fail, keep, halt, names) in commits {
        let (found, shelf) = commit_halts(alloc, *fail, *keep)?;
        if !ends_with(alloc, shelf, 1, names) || found != Some(*halt) {
            return Ok(false);
        }
    }
    Ok(true)
}

// The call that fails, and which names a mending leaves.
const MENDINGS: &[(u64, &[Name])] = &[(1, &[RECIPE]), (2, &[]), (3, &[FLOOR])];

fn mending_halts(alloc: Global, fail: u64) -> Result<(Option<Fault>, FaultShelf), Fail> {
    let mut shelf = shelf_with_recipe(alloc, &[fail])?;
    let fault = mend_fault(&mut shelf, 1);
    Ok((fault, shelf))
}

fn mendings_halt(alloc: Global, mendings: &[(u64, &[Name])]) -> Result<bool, Fail> {
    for (fail, names) in mendings {
        let (fault, shelf) = mending_halts(alloc, *fail)?;
        if !ends_with(alloc, shelf, 1, names) || fault != Some(Fault::StoreFault(1)) {
            return Ok(false);
        }
    }
    Ok(true)
}

#[test]
fn a_commit_or_a_mending_stops_at_the_call_that_fails(rt: HostRuntime) -> Result<(), Fail> {
    assert!(rt; commits_halt(rt.alloc(), COMMITS)?);
    assert!(rt; mendings_halt(rt.alloc(), MENDINGS)?);
    Ok(())
}

// The faults of two raisings of a floor to 2, and the floor then.
fn failing_floors(alloc: Global) -> Result<([Option<Fault>; 2], Result<Version, Fault>), Fail> {
    let mut shelf = shelf_with_recipe(alloc, &[1, 3])?;
    let first = floor_fault(&mut shelf, 2);
    let second = floor_fault(&mut shelf, 2);
    Ok(([first, second], floor_of(alloc, &mut shelf)))
}

#[test]
fn a_floor_may_be_there_before_it_is_settled(rt: HostRuntime) -> Result<(), Fail> {
    let (faults, floor) = failing_floors(rt.alloc())?;
    assert!(rt; faults == [Some(Fault::StoreFault(1)), Some(Fault::StoreFault(2))]);
    assert!(rt; floor == Ok(2));
    Ok(())
}

// The strays that are left behind a first cleaning and a second, and whether one call failed and nothing is there.
type Cleaned = (Vec<Name>, Vec<Name>, bool);

fn cleaned_twice(alloc: Global) -> Result<Cleaned, Fail> {
    let mut shelf = shelf_with_recipe(alloc, &[2])?;
    let first = cleaned(alloc, &mut shelf, &[TABLE, RECIPE, PAYLOAD])?;
    let second = cleaned(alloc, &mut shelf, first.as_slice())?;
    Ok((first, second, ends_with(alloc, shelf, 1, &[])))
}

#[test]
fn what_is_not_removed_stays_a_stray(rt: HostRuntime) -> Result<(), Fail> {
    let (first, second, is_empty) = cleaned_twice(rt.alloc())?;
    assert!(rt; first.as_slice() == [RECIPE].as_slice());
    assert!(rt; second.is_empty() && is_empty);
    Ok(())
}

fn cleaned_twice_from_1(alloc: Global) -> Result<Cleaned, Fail> {
    let mut shelf = shelf_with_recipe(alloc, &[2])?;
    let first = cleaned_from_1(alloc, &mut shelf, &[TABLE, RECIPE, PAYLOAD])?;
    let second = cleaned_from_1(alloc, &mut shelf, first.as_slice())?;
    Ok((first, second, ends_with(alloc, shelf, 1, &[])))
}

#[test]
fn names_before_a_place_are_left(rt: HostRuntime) -> Result<(), Fail> {
    let (first, second, is_empty) = cleaned_twice_from_1(rt.alloc())?;
    assert!(rt; first.as_slice() == [TABLE, RECIPE].as_slice());
    assert!(rt; second.as_slice() == [TABLE].as_slice() && is_empty);
    Ok(())
}
