// Two restores that run, over a shelf of which one call fails.
use crate::running::Left;
use crate::two_restores::{are_kept, are_restored, other_answers, run_script, store_faults};
use std::alloc::Global;
use std::sync::Wait;
use std::test::Fail;
use std::thread::Threads;
use std::time::Clock;
use vault_ports::{FaultShelf, MemShelf};
use vault_traits::Shelf;

// The number of calls where none fails.
const CALLS: u64 = 45;

// The calls up to the end of the second backup, behind which one failure changes one answer at most.
const STORED: u64 = 20;

// Whether a failing call is told to one line at most, and each restore has its version, or a front of
// it; and whether the store then opens with what was stored.
fn ends_well<R: Threads + Wait + Clock + Copy + Drop + Send>(
    rt: R,
    alloc: Global,
    call: u64,
    keep: bool,
) -> Result<bool, Fail> {
    let shelf = FaultShelf::new(MemShelf::new(alloc), [call].to_vec(alloc)?, keep);
    let Left {
        answers,
        shelf,
        places,
    } = run_script(rt, alloc, shelf)?;
    let answers = answers.as_slice();
    let has_failed = shelf.faults() == 1;
    let others = if has_failed { 1 } else { 0 };
    let is_told = store_faults(answers) <= 1
        && (call <= STORED || other_answers(answers) <= others)
        && has_failed == (call <= CALLS);
    Ok(
        is_told
            && are_restored(answers, &places)
            && are_kept(rt, alloc, answers, shelf.into_inner())?,
    )
}

// Says at which call the script does not end as it should. The first one opens the store.
fn each_call_fails<R: Threads + Wait + Clock + Copy + Drop + Send>(
    rt: R,
    alloc: Global,
) -> Result<(), Fail> {
    for call in 2..=CALLS + 1 {
        for keep in [false, true] {
            if !ends_well(rt, alloc, call, keep)? {
                return Err(Fail::new(format!(in alloc; "at call {call}, {keep}")?));
            }
        }
    }
    Ok(())
}

#[test]
fn restores_that_run_end_whichever_call_fails(rt: HostRuntime) -> Result<(), Fail> {
    each_call_fails(rt, rt.alloc())
}
