// A first backup over a shelf that stops at a call, and what a crash then leaves.
use crate::running::{blob_len, holds, run_on};
use program_rows::{BACKUP, FLOOR, PAYLOAD, RECIPE, STANDARD, TABLE, TEXT};
use std::alloc::Global;
use std::test::Fail;
use vault_ports::{CrashShelf, MemShelf};

// The status of the run; and where the recipe is there, whether the payload is, and the lengths of the table and the floor.
type Left = (u8, Option<(bool, usize, usize)>);

fn left_by(alloc: Global, stop: u64, taken: u64) -> Result<Left, Fail> {
    let shelf = CrashShelf::new(alloc, MemShelf::new(alloc), stop)?;
    let seen = run_on(alloc, BACKUP, TEXT, &STANDARD, shelf)?;
    let image = seen.shelf.image(alloc, taken)?;
    if image.blob(RECIPE).is_none() {
        return Ok((seen.status, None));
    }
    let payload = holds(&image, PAYLOAD, b"abcdab");
    let lens = (payload, blob_len(&image, TABLE), blob_len(&image, FLOOR));
    Ok((seen.status, Some(lens)))
}

fn wanted(stop: u64, taken: u64) -> Left {
    let status = if stop < 10 { 6 } else { 0 };
    if stop == 10 || stop >= 8 && taken % 2 == 1 {
        (status, Some((true, 104, 28)))
    } else {
        (status, None)
    }
}

// Says at which stop and with which writes something else is left.
fn each_stop_leaves_all_or_nothing(alloc: Global) -> Result<(), Fail> {
    for stop in 1..11u64 {
        for taken in 0..8u64 {
            let found = left_by(alloc, stop, taken)?;
            if found != wanted(stop, taken) {
                return Err(Fail::new(format!(in alloc; "at {stop} {taken}: {found:?}")?));
            }
        }
    }
    Ok(())
}

#[test]
fn a_crash_leaves_the_version_whole_or_not_at_all(rt: HostRuntime) -> Result<(), Fail> {
    each_stop_leaves_all_or_nothing(rt.alloc())
}
