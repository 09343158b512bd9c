// A first backup over a shelf of which one call fails.
use crate::running::{as_said, row_is, run_on};
use program_rows::{BACKUP, FLOOR, PAYLOAD, QUIET, RECIPE, Row, STANDARD, TABLE, TEXT};
use std::alloc::Global;
use std::test::Fail;
use vault_ports::{FaultShelf, MemShelf};
use vault_traits::Shelf;
use vault_types::{Answer, Fault};

const LINE: &[u8] = b"error 6: store failed\n";

// The status and the fault of a run; whether the refusal is its one answer, whether its line is on the out sink and on
// the other; how often the shelf failed; and whether the floor, the payload, the table and the recipe are there.
type Told = (u8, Option<Fault>, bool, bool, bool, u64, [bool; 4]);

fn told(alloc: Global, call: u64, keep: bool) -> Result<Told, Fail> {
    let shelf = FaultShelf::new(MemShelf::new(alloc), [call].to_vec(alloc)?, keep);
    let seen = run_on(alloc, BACKUP, TEXT, &STANDARD, shelf)?;
    let refused = Answer::Refused(Fault::StoreFault(1));
    let is_refused = seen.answers.as_slice() == [refused].as_slice();
    let is_out = seen.out.as_slice() == LINE && seen.report.is_empty();
    let is_reported = seen.report.as_slice() == LINE && seen.out.is_empty();
    let faults = seen.shelf.faults();
    let left = seen.shelf.into_inner();
    let there = [
        left.blob(FLOOR).is_some(),
        left.blob(PAYLOAD).is_some(),
        left.blob(TABLE).is_some(),
        left.blob(RECIPE).is_some(),
    ];
    Ok((
        seen.status,
        seen.fault,
        is_refused,
        is_out,
        is_reported,
        faults,
        there,
    ))
}

// The order of the calls shows in what is there after each: `list`; the mending's `remove`, `put_floor` (3) and `settle`;
// `put` of the payload (5), of the table (6), `settle`; `put` of the recipe (8), `settle`.
fn wanted(call: u64, keep: bool) -> Told {
    let is_first = call == 1;
    let fault = if is_first {
        Some(Fault::StoreFault(1))
    } else {
        None
    };
    let there = [
        3 < call || 3 == call && keep,
        5 < call || 5 == call && keep,
        6 < call || 6 == call && keep,
        8 < call || 8 == call && keep,
    ];
    (6, fault, !is_first, !is_first, is_first, 1, there)
}

// Says at which call the failure is not told as it should be.
fn each_call_is_told(alloc: Global) -> Result<(), Fail> {
    for call in 1..10u64 {
        for keep in [false, true] {
            let found = told(alloc, call, keep)?;
            if found != wanted(call, keep) {
                return Err(Fail::new(format!(in alloc; "at {call} {keep}: {found:?}")?));
            }
        }
    }
    Ok(())
}

#[test]
fn a_shelf_that_fails_is_told(rt: HostRuntime) -> Result<(), Fail> {
    each_call_is_told(rt.alloc())
}

const REFUSED: Row = Row {
    words: BACKUP,
    input: b"aaaa",
    status: 6,
    out: LINE,
    ..QUIET
};

const AGAIN: Row = Row {
    words: BACKUP,
    input: b"aaaa",
    out: b"backup 2: 1 chunks, 4 bytes, 0 new containers, 0 bytes written, 0 sparse\n",
    ..QUIET
};

// The commit's put fails and is done, and a new run opens what the first one left: the recipe is a version.
fn put_recipe_is_a_version(alloc: Global) -> Result<(), Fail> {
    let shelf = FaultShelf::new(MemShelf::new(alloc), [8].to_vec(alloc)?, true);
    let seen = run_on(alloc, REFUSED.words, REFUSED.input, &STANDARD, shelf)?;
    as_said(alloc, &REFUSED, &seen)?;
    let _ = row_is(alloc, &STANDARD, &AGAIN, seen.shelf.into_inner())?;
    Ok(())
}

#[test]
fn a_mending_comes_before_the_next_backup(rt: HostRuntime) -> Result<(), Fail> {
    put_recipe_is_a_version(rt.alloc())
}
