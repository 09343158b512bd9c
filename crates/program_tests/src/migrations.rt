// `migrate`, over a store whose recipe is in the first format.
use crate::formats::{THREE_CHUNKS, THREE_IN_FORMAT_1, has_recipe, store_with};
use crate::running::{row_is, run_on};
use program_rows::{QUIET, RECIPE, Row, STANDARD, TEXT};
use std::alloc::Global;
use std::test::Fail;
use vault_ports::FaultShelf;

const RESTORED: Row = Row {
    words: "restore --version 1",
    out: TEXT,
    report: b"restore 1: 10 bytes, 1 loads\n",
    ..QUIET
};

const ONCE: &[Row] = &[
    Row {
        words: "migrate",
        out: b"migrate: 1 recipes\n",
        ..QUIET
    },
    Row {
        words: "migrate",
        out: b"migrate: 0 recipes\n",
        ..QUIET
    },
    RESTORED,
];

// The first of the rows behind which the recipe is not the one in the second format.
fn first_other(alloc: Global, rows: &[Row]) -> Result<Option<&'static str>, Fail> {
    let mut shelf = store_with(alloc, THREE_IN_FORMAT_1)?;
    for row in rows {
        shelf = row_is(alloc, &STANDARD, row, shelf)?;
        if !has_recipe(alloc, &shelf, RECIPE.number, THREE_CHUNKS)? {
            return Ok(Some(row.words));
        }
    }
    Ok(None)
}

#[test]
fn a_recipe_is_put_in_the_second_format_once(rt: HostRuntime) -> Result<(), Fail> {
    assert!(rt; first_other(rt.alloc(), ONCE)? == None);
    Ok(())
}

const LINE: &[u8] = b"error 6: store failed\n";

// Whether a run over a shelf whose call of this number fails is refused for it, and none where it ended in another way.
// The version then comes back.
fn is_refused(alloc: Global, call: u64, keep: bool) -> Result<Option<bool>, Fail> {
    let shelf = store_with(alloc, THREE_IN_FORMAT_1)?;
    let failing = FaultShelf::new(shelf, [call].to_vec(alloc)?, keep);
    let seen = run_on(alloc, "migrate", b"", &STANDARD, failing)?;
    let is_told = seen.out.as_slice() == LINE || seen.report.as_slice() == LINE;
    let is_done = seen.out.as_slice() == b"migrate: 1 recipes\n".as_slice();
    let status = seen.status;
    let _ = row_is(alloc, &STANDARD, &RESTORED, seen.shelf.into_inner())?;
    match (status, is_told, is_done) {
        (6, true, false) => Ok(Some(true)),
        (0, false, true) => Ok(Some(false)),
        _ => Ok(None),
    }
}

// How many calls a run makes: those numbers are refused, and no later one is. None where it is otherwise.
fn calls_made(alloc: Global, keep: bool) -> Result<Option<u64>, Fail> {
    let mut calls = 0u64;
    for number in 1..=40u64 {
        match is_refused(alloc, number, keep)? {
            Some(true) if calls.saturating_add(1) == number => calls = number,
            Some(false) => {}
            _ => return Ok(None),
        }
    }
    Ok(Some(calls))
}

fn between(calls: Option<u64>, low: u64, high: u64) -> bool {
    match calls {
        None => false,
        Some(calls) => low < calls && calls < high,
    }
}

#[test]
fn a_store_that_fails_keeps_its_version(rt: HostRuntime) -> Result<(), Fail> {
    let alloc = rt.alloc();
    assert!(rt; between(calls_made(alloc, false)?, 10, 40));
    assert!(rt; between(calls_made(alloc, true)?, 10, 40));
    Ok(())
}
