// Deletions over a shelf that an earlier run left unsettled, and a crash behind them.
use crate::recorded::Recorded;
use crate::running::{as_said, rows_are, run_on, run_with};
use program_rows::{BACKUP, QUIET, Row, STANDARD};
use std::alloc::Global;
use std::test::Fail;
use vault_ports::{MemPlaces, MemShelf, MemSource};

const TWO: &[Row] = &[
    Row {
        words: BACKUP,
        input: b"aaaa",
        out: b"backup 1: 1 chunks, 4 bytes, 1 new containers, 4 bytes written, 0 sparse\n",
        ..QUIET
    },
    Row {
        words: BACKUP,
        input: b"bbbb",
        out: b"backup 2: 1 chunks, 4 bytes, 1 new containers, 4 bytes written, 0 sparse\n",
        ..QUIET
    },
];

// Over a store with the second version alone.
const FIRST_IS_GONE: Row = Row {
    words: "batch",
    input: b"restore 1 x\nrestore 2 y\n",
    status: 3,
    out: b"error 3: version not kept\nrestore 2: 4 bytes, 1 loads\n",
    ..QUIET
};

// Whether the shelf opens with the second version alone.
fn is_gone(alloc: Global, image: MemShelf) -> Result<bool, Fail> {
    let mut places = MemPlaces::with(alloc, Vec::new(alloc), 100)?;
    let script = MemSource::new(FIRST_IS_GONE.input.to_vec(alloc)?, 100);
    let seen = run_with(
        alloc,
        FIRST_IS_GONE.words,
        &STANDARD,
        image,
        &mut places,
        script,
        1000,
    )?;
    as_said(alloc, &FIRST_IS_GONE, &seen)?;
    Ok(places.bytes("y") == Some(b"bbbb".as_slice()))
}

// Whether it does whatever a crash leaves, of which at most four writes are not settled.
fn is_gone_for_good(alloc: Global, recorded: &Recorded) -> Result<bool, Fail> {
    for taken in 0..16u64 {
        if !is_gone(alloc, recorded.image(alloc, taken)?)? {
            return Ok(false);
        }
    }
    Ok(true)
}

const DELETE: &str = "delete --through 1";

// Two deletions of the first version, each a run of its own, where one call of the first run fails: their statuses, and
// whether the version is gone for good where the second is acknowledged.
type Twice = (u8, u8, bool);

fn deleted_twice(alloc: Global, shelf: MemShelf, call: u64, keep: bool) -> Result<Twice, Fail> {
    let recorded = Recorded::new(alloc, shelf, [call].to_vec(alloc)?, keep)?;
    let one = run_on(alloc, DELETE, b"", &STANDARD, recorded)?;
    let other = run_on(alloc, DELETE, b"", &STANDARD, one.shelf)?;
    let gone = other.status == 0 && is_gone_for_good(alloc, &other.shelf)?;
    Ok((one.status, other.status, gone))
}

// The calls of the first run are the opening's six, the mending's three, the floor and its settling, and three removals.
fn first_other(alloc: Global, keep: bool) -> Result<Option<(u64, Twice)>, Fail> {
    let shelf = rows_are(alloc, &STANDARD, TWO)?;
    for call in 1..=14u64 {
        let status = if call <= 11 { 6 } else { 0 };
        let found = deleted_twice(alloc, shelf.copy()?, call, keep)?;
        if found != (status, 0, true) {
            return Ok(Some((call, found)));
        }
    }
    Ok(None)
}

#[test]
fn a_deletion_behind_one_that_failed_stays(rt: HostRuntime) -> Result<(), Fail> {
    let other = first_other(rt.alloc(), false)?;
    assert!(rt; other == None, "{other:?}");
    Ok(())
}

#[test]
fn a_deletion_behind_one_that_was_done_and_failed_stays(rt: HostRuntime) -> Result<(), Fail> {
    let other = first_other(rt.alloc(), true)?;
    assert!(rt; other == None, "{other:?}");
    Ok(())
}
