// Rows of scripts.
use crate::running::{as_said, holds, lists, rows_are, run_with};
use program_rows::{
    BAD_SCRIPTS, BATCH, FAILED_CALLS, FIRST, File, Group, LINE_BY_LINE, PAYLOAD, Row, SCRIPTS,
    STANDARD, TEXT, TWO_AND_TWO, TWO_FILES,
};
use std::alloc::Global;
use std::test::Fail;
use vault_ports::{FaultPlaces, FaultShelf, MemPlaces, MemShelf, MemSource};
use vault_traits::{Places, Shelf};
use vault_types::{Fault, Kind, Name};

// The names and the bytes of these files.
fn files_of(alloc: Global, files: &[File]) -> Result<Vec<(String, Vec<u8>)>, Fail> {
    let mut all = Vec::new(alloc);
    for (name, bytes) in files {
        all.push((String::from_str(alloc, name)?, bytes.to_vec(alloc)?))?;
    }
    Ok(all)
}

// Places with these files, whose writers have room for all that is written.
fn places_of(alloc: Global, files: &[File]) -> Result<MemPlaces, Fail> {
    Ok(MemPlaces::with(alloc, files_of(alloc, files)?, 1_048_576)?)
}

// Runs a row over a shelf and places, and gives the shelf that it leaves.
fn script_is<S: Shelf + Drop, P: Places>(
    alloc: Global,
    row: &Row,
    shelf: S,
    places: &mut P,
) -> Result<S, Fail> {
    let source = MemSource::new(row.input.to_vec(alloc)?, 3);
    let seen = run_with(
        alloc, row.words, &STANDARD, shelf, places, source, 1_048_576,
    )?;
    as_said(alloc, row, &seen)?;
    Ok(seen.shelf)
}

fn scripts_are(alloc: Global, groups: &[Group]) -> Result<(), Fail> {
    for group in groups {
        for row in group.rows {
            let mut places = places_of(alloc, group.files)?;
            let _ = script_is(alloc, row, MemShelf::new(alloc), &mut places)?;
        }
    }
    Ok(())
}

#[test]
fn scripts_do_as_their_rows_say(rt: HostRuntime) -> Result<(), Fail> {
    scripts_are(rt.alloc(), SCRIPTS)
}

// What the script has left under `back`.
fn runs_line_by_line(alloc: Global) -> Result<bool, Fail> {
    let mut places = places_of(alloc, &[("one", TEXT)])?;
    let _ = script_is(alloc, &LINE_BY_LINE, MemShelf::new(alloc), &mut places)?;
    Ok(places.bytes("back") == Some(TEXT))
}

#[test]
fn a_script_runs_line_by_line(rt: HostRuntime) -> Result<(), Fail> {
    assert!(rt; runs_line_by_line(rt.alloc())?);
    Ok(())
}

// Runs the rows over a shelf whose first call fails: it is not called, and has no names then.
fn run_no_line(alloc: Global, rows: &[Row]) -> Result<bool, Fail> {
    for row in rows {
        let shelf = FaultShelf::new(MemShelf::new(alloc), [1].to_vec(alloc)?, false);
        let mut places = places_of(alloc, &[("x", b"x")])?;
        let shelf = script_is(alloc, row, shelf, &mut places)?;
        if shelf.faults() > 0 || !lists(alloc, &shelf.into_inner(), &[])? {
            return Ok(false);
        }
    }
    Ok(true)
}

#[test]
fn bad_scripts_run_no_line(rt: HostRuntime) -> Result<(), Fail> {
    assert!(rt; run_no_line(rt.alloc(), BAD_SCRIPTS)?);
    Ok(())
}

const ONE_SOURCE_FAILS: Row = Row {
    input: b"backup a chunk=fixed size=4 rewrite=none\n\
        backup b chunk=fixed size=4 rewrite=none\n",
    status: 4,
    out: b"error 4: source failed\n\
        backup 1: 1 chunks, 4 bytes, 1 new containers, 4 bytes written, 0 sparse\n",
    ..BATCH
};

// The second read of the first source fails, behind all its bytes.
fn one_source_fails(alloc: Global) -> Result<bool, Fail> {
    let files = files_of(alloc, &[("a", b"aaaa"), ("b", b"aaaa")])?;
    let reads = [2].to_vec(alloc)?;
    let mut places = FaultPlaces::with(alloc, files, 100, 4, reads, Vec::new(alloc))?;
    let shelf = script_is(alloc, &ONE_SOURCE_FAILS, MemShelf::new(alloc), &mut places)?;
    Ok(holds(&shelf, PAYLOAD, b"aaaa"))
}

#[test]
fn a_source_that_fails_makes_no_version(rt: HostRuntime) -> Result<(), Fail> {
    assert!(rt; one_source_fails(rt.alloc())?);
    Ok(())
}

const ONE_SINK_FAILS: Row = Row {
    input: b"restore 1 x\n\
        backup nosuch\n\
        restore 1 y\n",
    status: 5,
    out: b"error 5: sink failed\n\
        error 11: place failed\n\
        restore 1: 10 bytes, 1 loads\n",
    ..BATCH
};

// Whether the first sink has nothing, and the second the version.
fn one_sink_fails(alloc: Global) -> Result<(bool, bool), Fail> {
    let shelf = rows_are(alloc, &STANDARD, &[FIRST])?;
    let writes = [1].to_vec(alloc)?;
    let mut places = FaultPlaces::with(alloc, Vec::new(alloc), 100, 4, Vec::new(alloc), writes)?;
    let _ = script_is(alloc, &ONE_SINK_FAILS, shelf, &mut places)?;
    Ok((
        places.bytes("x") == Some(b"".as_slice()),
        places.bytes("y") == Some(TEXT),
    ))
}

#[test]
fn a_sink_that_fails_leaves_a_front(rt: HostRuntime) -> Result<(), Fail> {
    assert!(rt; one_sink_fails(rt.alloc())? == (true, true));
    Ok(())
}

const SECOND_PAYLOAD: Name = Name {
    kind: Kind::Payload,
    number: 2,
};

// Whether the first container's payload is gone, and the second's is there.
fn container_goes_along(alloc: Global) -> Result<(bool, bool), Fail> {
    let mut places = places_of(alloc, TWO_FILES)?;
    let shelf = script_is(alloc, &TWO_AND_TWO, MemShelf::new(alloc), &mut places)?;
    Ok((
        shelf.blob(PAYLOAD).is_none(),
        holds(&shelf, SECOND_PAYLOAD, b"bbbb"),
    ))
}

#[test]
fn a_deleted_version_takes_its_container_along(rt: HostRuntime) -> Result<(), Fail> {
    assert!(rt; container_goes_along(rt.alloc())? == (true, true));
    Ok(())
}

// Runs the script over a shelf of which this call fails, and says whether the second version is left alone where it is to be.
fn call_fails(alloc: Global, row: &Row, call: u64, keep: bool) -> Result<bool, Fail> {
    let shelf = FaultShelf::new(MemShelf::new(alloc), [call].to_vec(alloc)?, keep);
    let mut places = places_of(alloc, TWO_FILES)?;
    let shelf = script_is(alloc, row, shelf, &mut places)?.into_inner();
    let is_left = shelf.names(alloc)?.len() == 4 && holds(&shelf, SECOND_PAYLOAD, b"bbbb");
    Ok(is_left || call < 15)
}

// Says at which call the script did not end as it should.
fn each_call_fails_once(alloc: Global) -> Result<(), Fail> {
    for calls in FAILED_CALLS {
        for call in calls.first..=calls.last {
            for keep in [false, true] {
                if !call_fails(alloc, &calls.row, call, keep)? {
                    return Err(Fail::new(format!(in alloc; "at call {call}, {keep}")?));
                }
            }
        }
    }
    Ok(())
}

#[test]
fn each_call_of_the_shelf_fails_once(rt: HostRuntime) -> Result<(), Fail> {
    each_call_fails_once(rt.alloc())
}
