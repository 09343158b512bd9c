// Recipes and floors on a shelf.
ghost use Rattle.std.specs.Prelude.{IfOk};
ghost use Rattle.blob_parts.specs.Recipes.{HasWidths};

use crate::forms;
use crate::shelves::{FLOOR, RECIPE, damaged, ends_with, faulty, floor_of, shelf_with};
use blob_parts::has_rules;
use recipe_store::{encode_recipe, get_recipe, put_floor, put_recipe, remove_recipe, survey};
use std::alloc::Global;
use std::test::Fail;
use vault_ports::MemShelf;
use vault_traits::Shelf;
use vault_types::list::ListOf;
use vault_types::{Fault, Fp, Kind, Memory, Name, Recipe, Row, Set, Version, Why};

// The SHA-1 of `aaaa`.
const AAAA: [u8; 20] = [
    0x70, 0xc8, 0x81, 0xd4, 0xa2, 0x69, 0x84, 0xdd, 0xce, 0x79, 0x5f, 0x6f, 0x71, 0x81, 0x7c, 0x9c,
    0xf4, 0x48, 0x0e, 0x79,
];

const RECIPE_OF_4: Name = Name {
    kind: Kind::Recipe,
    number: 17_179_869_185,
};

// The recipe of the first version of set 3, in format 1: a chunk `aaaa`, of container 1.
fn recipe_of_3(alloc: Global) -> Result<Recipe, Memory>
    ensures { IfOk result HasWidths }
{
    let fp = Fp(AAAA);
    let rows = vec![in alloc; Row { fp, id: 1, len: 4 }]?;
    Ok(Recipe {
        set: 3,
        version: 1,
        next: 2,
        length: 4,
        rows: ListOf::from_vec(rows),
        sparse: ListOf::from_vec(Vec::new(alloc)),
        whole: None,
    })
}

fn blob_of_3(alloc: Global) -> Result<Vec<u8>, Fail> {
    let recipe = recipe_of_3(alloc)?;
    if !has_rules(alloc, &recipe)? {
        return Err(Fail::from("the recipe breaks a rule"));
    }
    Ok(encode_recipe(alloc, &recipe)?)
}

// How the recipe's put ends, `Usage` where the recipe breaks a rule.
fn put_end<S: Shelf>(alloc: Global, shelf: &mut S) -> Result<(), Fault> {
    let recipe = recipe_of_3(alloc)?;
    if !has_rules(alloc, &recipe)? {
        return Err(Fault::Usage);
    }
    put_recipe(alloc, shelf, &recipe)
}

fn put_fault<S: Shelf>(alloc: Global, shelf: &mut S) -> Option<Fault> {
    put_end(alloc, shelf).err()
}

fn get_fault<S: Shelf>(alloc: Global, shelf: &mut S, set: Set) -> Option<Fault> {
    get_recipe(alloc, shelf, set, 1).err()
}

// The next id, the length and the rows of the recipe that is got.
fn got(alloc: Global, shelf: &mut MemShelf) -> Result<(u64, u64, Vec<Row>), Fault> {
    let recipe = get_recipe(alloc, shelf, 3, 1)?;
    Ok((recipe.next, recipe.length, recipe.rows.into_vec()))
}

fn floor_fault<S: Shelf>(shelf: &mut S) -> Option<Fault> {
    put_floor(shelf, 3, 7).err()
}

fn is_removed<S: Shelf>(shelf: &mut S) -> bool {
    remove_recipe(shelf, 3, 1).is_ok()
}

fn surveyed<S: Shelf>(alloc: Global, shelf: &mut S) -> Result<Vec<Name>, Fault> {
    survey(alloc, shelf)
}

// What is told of the blob of set 3 under the name of set 4.
fn fault_of_4(alloc: Global, blob: &[u8]) -> Result<Option<Fault>, Fail> {
    let mut shelf = shelf_with(alloc, RECIPE_OF_4, blob)?;
    Ok(get_fault(alloc, &mut shelf, 4))
}

// How long the blob is, whether it is a recipe of set 3 and of set 4, and what is told of it under the name of set 4.
fn of_another_set(alloc: Global) -> Result<(usize, [bool; 2], Option<Fault>), Fail> {
    let blob = blob_of_3(alloc)?;
    let own = forms::spells(alloc, blob.as_slice(), 3, 1)?;
    let other = forms::spells(alloc, blob.as_slice(), 4, 1)?;
    Ok((
        blob.len(),
        [own, other],
        fault_of_4(alloc, blob.as_slice())?,
    ))
}

#[test]
fn a_recipe_is_none_of_another_set(rt: HostRuntime) -> Result<(), Fail> {
    let (len, sets, fault) = of_another_set(rt.alloc())?;
    assert!(rt; len == 84 && sets == [true, false]);
    assert!(rt; fault == damaged(RECIPE_OF_4, Why::Spelling));
    Ok(())
}

// The floor before and behind its put, and the fault of that.
fn floor_put(
    alloc: Global,
    shelf: &mut MemShelf,
) -> (Option<Version>, Option<Fault>, Option<Version>) {
    let before = floor_of(alloc, shelf).ok();
    let fault = floor_fault(shelf);
    (before, fault, floor_of(alloc, shelf).ok())
}

// The fault of the recipe's put, and what is got then.
fn recipe_put(
    alloc: Global,
    shelf: &mut MemShelf,
) -> Result<(Option<Fault>, (u64, u64, Vec<Row>)), Fail> {
    let fault = put_fault(alloc, shelf);
    Ok((fault, got(alloc, shelf)?))
}

// Of a shelf with both: whether the floor and the recipe were put, and what is got and surveyed.
fn both_put(alloc: Global) -> Result<(bool, (u64, u64, Vec<Row>), Vec<Name>), Fail> {
    let mut shelf = MemShelf::new(alloc);
    let floor = floor_put(alloc, &mut shelf);
    let (fault, got) = recipe_put(alloc, &mut shelf)?;
    let is_put = floor == (Some(1), None, Some(7)) && fault == None;
    Ok((is_put, got, surveyed(alloc, &mut shelf)?))
}

#[test]
fn floors_and_recipes_are_put(rt: HostRuntime) -> Result<(), Fail> {
    let (is_put, (next, length, rows), names) = both_put(rt.alloc())?;
    let row = Row {
        fp: Fp(AAAA),
        id: 1,
        len: 4,
    };
    assert!(rt; is_put && (next, length) == (2, 4));
    assert!(rt; rows.as_slice() == [row].as_slice());
    assert!(rt; names.as_slice() == [RECIPE, FLOOR].as_slice());
    Ok(())
}

// Whether the floor and the recipe are put, and the recipe is removed; the fault of a get, and what is surveyed then.
fn put_and_removed(alloc: Global) -> Result<([bool; 3], Option<Fault>, Vec<Name>), Fail> {
    let mut shelf = MemShelf::new(alloc);
    let floor = floor_fault(&mut shelf) == None;
    let recipe = put_fault(alloc, &mut shelf) == None;
    let removed = is_removed(&mut shelf);
    let fault = get_fault(alloc, &mut shelf, 3);
    Ok((
        [floor, recipe, removed],
        fault,
        surveyed(alloc, &mut shelf)?,
    ))
}

#[test]
fn a_recipe_is_removed(rt: HostRuntime) -> Result<(), Fail> {
    let (done, fault, names) = put_and_removed(rt.alloc())?;
    assert!(rt; done == [true; 3]);
    assert!(rt; fault == damaged(RECIPE, Why::Absent));
    assert!(rt; names.as_slice() == [FLOOR].as_slice());
    Ok(())
}

fn cut_floor_fault(alloc: Global) -> Result<Option<Fault>, Fail> {
    let mut shelf = shelf_with(alloc, FLOOR, &forms::FLOOR[..27])?;
    Ok(floor_of(alloc, &mut shelf).err())
}

#[test]
fn a_floor_that_is_cut_is_damaged(rt: HostRuntime) -> Result<(), Fail> {
    assert!(rt; cut_floor_fault(rt.alloc())? == damaged(FLOOR, Why::Spelling));
    Ok(())
}

// The faults of two puts and a get of the recipe, of a put and a get of the floor and of a survey; and whether a removal
// is done.
fn six_faults<S: Shelf>(alloc: Global, shelf: &mut S) -> ([Option<Fault>; 6], bool) {
    let first = put_fault(alloc, shelf);
    let second = put_fault(alloc, shelf);
    let get = get_fault(alloc, shelf, 3);
    let floor = floor_fault(shelf);
    let floor_get = floor_of(alloc, shelf).err();
    let survey = surveyed(alloc, shelf).err();
    (
        [first, second, get, floor, floor_get, survey],
        is_removed(shelf),
    )
}

// The same over a shelf of which six calls fail, and whether that many are counted and the recipe is left.
fn failing_calls(alloc: Global) -> Result<([Option<Fault>; 6], bool, bool), Fail> {
    let mut shelf = faulty(alloc, MemShelf::new(alloc), &[2, 3, 4, 5, 6, 7], false)?;
    let (faults, removed) = six_faults(alloc, &mut shelf);
    Ok((faults, removed, ends_with(alloc, shelf, 6, &[RECIPE])))
}

#[test]
fn a_call_that_fails_is_told_by_its_number(rt: HostRuntime) -> Result<(), Fail> {
    let (faults, removed, is_left) = failing_calls(rt.alloc())?;
    let expected = [
        None,
        Some(Fault::StoreFault(1)),
        Some(Fault::StoreFault(2)),
        Some(Fault::StoreFault(3)),
        Some(Fault::StoreFault(4)),
        Some(Fault::StoreFault(5)),
    ];
    assert!(rt; faults == expected);
    assert!(rt; !removed && is_left);
    Ok(())
}
