// The rows that the call on one thread is tested by as well.
use crate::running::{row_is, row_is_over};
use program_rows::{
    BAD_SCRIPTS, FAILED_CALLS, GROUPS, Group, LIMITED, LIMITS, LINE_BY_LINE, Row, SCRIPTS,
    STANDARD, TEXT, TWO_AND_TWO, TWO_FILES,
};
use std::alloc::Global;
use std::sync::Wait;
use std::test::Fail;
use std::thread::Threads;
use std::time::Clock;
use vault_ports::{FaultShelf, MemShelf};
use vault_types::{Kind, Limits, Name};

// Runs the rows of each group, each over the shelf that the one before has left, the first over an empty one.
fn groups_are<H: Threads + Wait + Clock + Copy + Drop + Send>(
    host: H,
    alloc: Global,
    limits: &Limits,
    groups: &[&[Row]],
) -> Result<(), Fail> {
    for rows in groups {
        let mut shelf = MemShelf::new(alloc);
        for row in *rows {
            shelf = row_is(host, alloc, limits, row, &[], shelf)?;
        }
    }
    Ok(())
}

// Runs the scripts of each group, each over an empty shelf.
fn scripts_are<H: Threads + Wait + Clock + Copy + Drop + Send>(
    host: H,
    alloc: Global,
    groups: &[Group],
) -> Result<(), Fail> {
    for group in groups {
        for row in group.rows {
            let _ = row_is(
                host,
                alloc,
                &STANDARD,
                row,
                group.files,
                MemShelf::new(alloc),
            )?;
        }
    }
    Ok(())
}

#[test]
fn commands_do_as_their_rows_say(rt: HostRuntime) -> Result<(), Fail> {
    groups_are(rt, rt.alloc(), &STANDARD, GROUPS)
}

#[test]
fn limits_are_kept_as_the_rows_say(rt: HostRuntime) -> Result<(), Fail> {
    groups_are(rt, rt.alloc(), &LIMITS, &[LIMITED])
}

#[test]
fn scripts_do_as_their_rows_say(rt: HostRuntime) -> Result<(), Fail> {
    scripts_are(rt, rt.alloc(), SCRIPTS)?;
    scripts_are(
        rt,
        rt.alloc(),
        &[
            Group {
                files: &[("one", TEXT)],
                rows: &[LINE_BY_LINE],
            },
            Group {
                files: TWO_FILES,
                rows: &[TWO_AND_TWO],
            },
            Group {
                files: &[("x", b"x")],
                rows: BAD_SCRIPTS,
            },
        ],
    )
}

const SECOND_PAYLOAD: Name = Name {
    kind: Kind::Payload,
    number: 2,
};

// Runs the script over a shelf of which this call fails, and says whether the second version is left alone where it is to be.
fn call_fails<H: Threads + Wait + Clock + Copy + Drop + Send>(
    host: H,
    alloc: Global,
    row: &Row,
    call: u64,
    keep: bool,
) -> Result<bool, Fail> {
    let shelf = FaultShelf::new(MemShelf::new(alloc), [call].to_vec(alloc)?, keep);
    let shelf = row_is_over(host, alloc, &STANDARD, row, TWO_FILES, shelf)?;
    let is_there = shelf.blob(SECOND_PAYLOAD) == Some(b"bbbb".as_slice());
    Ok(call < 15 || is_there && shelf.names(alloc)?.len() == 4)
}

// Says at which call the script did not end as it should.
fn each_call_fails_once<H: Threads + Wait + Clock + Copy + Drop + Send>(
    host: H,
    alloc: Global,
) -> Result<(), Fail> {
    for calls in FAILED_CALLS {
        for call in calls.first..=calls.last {
            for keep in [false, true] {
                if !call_fails(host, alloc, &calls.row, call, keep)? {
                    return Err(Fail::new(format!(in alloc; "at call {call}, {keep}")?));
                }
            }
        }
    }
    Ok(())
}

#[test]
fn each_call_of_the_shelf_fails_once(rt: HostRuntime) -> Result<(), Fail> {
    each_call_fails_once(rt, rt.alloc())
}
