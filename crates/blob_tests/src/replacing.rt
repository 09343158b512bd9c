// A kept recipe is replaced by one in format 2.
use crate::shelves::{ends_with, faulty, holds, lists};
use recipe_replacement::replace_recipe;
use recipe_store::decode_recipe;
use std::alloc::Global;
use std::test::Fail;
use vault_ports::{FaultShelf, MemShelf};
use vault_types::{Fault, Kind, Name, Pending};

// The recipe in format 2 of the version 1 of set 2 that has no rows.
const EMPTY: [u8; 72] = [
    0x44, 0x52, 0x43, 0x32, 0x00, 0x00, 0x00, 0x01, 0x00, 0x00, 0x00, 0x00, 0x00, 0x00, 0x00, 0x01,
    0x00, 0x00, 0x00, 0x00, 0x00, 0x00, 0x00, 0x00, 0xda, 0x39, 0xa3, 0xee, 0x5e, 0x6b, 0x4b, 0x0d,
    0x32, 0x55, 0xbf, 0xef, 0x95, 0x60, 0x18, 0x90, 0xaf, 0xd8, 0x07, 0x09, 0x00, 0x00, 0x00, 0x00,
    0x00, 0x00, 0x00, 0x00, 0xd4, 0x31, 0xff, 0x81, 0x08, 0x55, 0xf7, 0xc8, 0x0c, 0x53, 0xb9, 0x79,
    0xf3, 0x79, 0xf7, 0x6d, 0x09, 0x74, 0x71, 0x81,
];

const NAME: Name = Name {
    kind: Kind::Recipe,
    number: 8_589_934_593,
};

// How the call ends, and what is due then.
fn replaced(alloc: Global, shelf: &mut FaultShelf) -> Result<(Option<Fault>, Pending), Fail> {
    let mut pending = Pending::Not;
    match decode_recipe(alloc, &EMPTY, 2, 1)? {
        Some(recipe) => {
            let fault = replace_recipe(alloc, shelf, &mut pending, &recipe).err();
            Ok((fault, pending))
        }
        None => Err(Fail::from("the bytes are no recipe")),
    }
}

// How the call ends over a shelf of which these calls fail, what is due then, and the shelf.
fn replaced_on(
    alloc: Global,
    fail: &[u64],
) -> Result<((Option<Fault>, Pending), FaultShelf), Fail> {
    let mut shelf = faulty(alloc, MemShelf::new(alloc), fail, false)?;
    let end = replaced(alloc, &mut shelf)?;
    Ok((end, shelf))
}

// A third call of the shelf would fail. Whether the recipe alone is there then, with its bytes.
fn put_and_settled(alloc: Global) -> Result<((Option<Fault>, Pending), [bool; 2]), Fail> {
    let (end, shelf) = replaced_on(alloc, &[3])?;
    let inner = shelf.into_inner();
    let listed = lists(alloc, &inner, &[NAME]);
    Ok((end, [listed, holds(&inner, NAME, &EMPTY)]))
}

#[test]
fn a_recipe_is_put_and_settled(rt: HostRuntime) -> Result<(), Fail> {
    assert!(rt; put_and_settled(rt.alloc())? == ((None, Pending::Not), [true; 2]));
    Ok(())
}

// Whether one call failed then, and these names are left.
fn failed(
    alloc: Global,
    fail: &[u64],
    names: &[Name],
) -> Result<((Option<Fault>, Pending), bool), Fail> {
    let (end, shelf) = replaced_on(alloc, fail)?;
    Ok((end, ends_with(alloc, shelf, 1, names)))
}

// What is not put is not settled either.
#[test]
fn a_put_or_a_settle_that_fails_makes_a_mending_due(rt: HostRuntime) -> Result<(), Fail> {
    let due = (Some(Fault::StoreFault(1)), Pending::FailedFor(2));
    assert!(rt; failed(rt.alloc(), &[1, 2], &[])? == (due, true));
    assert!(rt; failed(rt.alloc(), &[2], &[NAME])? == (due, true));
    Ok(())
}
