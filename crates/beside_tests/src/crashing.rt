// Two restores that run, over a shelf that stops at a call, and what a crash then leaves.
use crate::running::Left;
use crate::two_restores::{are_kept, are_restored, run_script};
use std::alloc::Global;
use std::sync::Wait;
use std::test::Fail;
use std::thread::Threads;
use std::time::Clock;
use vault_ports::{CrashShelf, MemShelf};

// One call more than the script makes where none fails.
const BEYOND: u64 = 46;

// Whether each restore has its version, or a front of it; and whether the store opens with what was
// stored behind a crash, at which these of the writes that were not settled are done.
fn ends_well<R: Threads + Wait + Clock + Copy + Drop + Send>(
    rt: R,
    alloc: Global,
    stop: u64,
    taken: u64,
) -> Result<bool, Fail> {
    let shelf = CrashShelf::new(alloc, MemShelf::new(alloc), stop)?;
    let Left {
        answers,
        shelf,
        places,
    } = run_script(rt, alloc, shelf)?;
    let answers = answers.as_slice();
    let image = shelf.image(alloc, taken)?;
    Ok(are_restored(answers, &places) && are_kept(rt, alloc, answers, image)?)
}

// Says at which stop, and with which writes, the script does not end as it should. The first call
// opens the store.
fn each_stop<R: Threads + Wait + Clock + Copy + Drop + Send>(
    rt: R,
    alloc: Global,
) -> Result<(), Fail> {
    for stop in 2..=BEYOND {
        for taken in [0, 1, 2, 5, 255] {
            if !ends_well(rt, alloc, stop, taken)? {
                return Err(Fail::new(format!(in alloc; "at stop {stop}, {taken}")?));
            }
        }
    }
    Ok(())
}

#[test]
fn a_crash_beside_restores_leaves_what_was_stored(rt: HostRuntime) -> Result<(), Fail> {
    each_stop(rt, rt.alloc())
}
