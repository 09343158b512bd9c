// The events of a keeper over a shelf of which a call fails.
use crate::script::{Ran, events_again, events_from};
use crate::seen::has;
use keeper_driver::store::{Store, started};
use keeper_driver::views::{listing, removed};
use std::alloc::Global;
use std::test::Fail;
use vault_ports::{FaultShelf, MemShelf};
use vault_types::{Fault, Id, Version};

fn shelf_failing(alloc: Global, call: u64, keep: bool) -> Result<FaultShelf, Fail> {
    let fail = [call].to_vec(alloc)?;
    Ok(FaultShelf::new(MemShelf::new(alloc), fail, keep))
}

// A store over an empty shelf of which a call fails, the first being that of opening.
fn store_failing(alloc: Global, call: u64, keep: bool) -> Result<Store<FaultShelf>, Fail> {
    started(alloc, shelf_failing(alloc, call, keep)?)
}

// The floor, the latest version and the next id.
type State = (Version, Version, Id);

// The commit's put fails and is done. Whether the backup is refused, and the state and the shelf are right, also behind the
// same backup once more, which takes the recipe back first.
fn recipe_is_taken_back(alloc: Global, again: bool, state: State) -> Result<bool, Fail> {
    let mut store = store_failing(alloc, 8, true)?;
    let first = store.back_up(alloc, 0, b"", &[b"aaaa"]) == Err(Fault::StoreFault(1));
    if again {
        store.back_up(alloc, 0, b"", &[b"aaaa"])?;
    }
    let same = store.summary() == state;
    let mut shelf = store.close().into_inner();
    Ok(first && same && has(alloc, &mut shelf, "T1 P1 R1 F0", 1, b"aaaa")?)
}

#[test]
fn a_recipe_that_failed_is_taken_back_by_the_next_job(rt: HostRuntime) -> Result<(), Fail> {
    assert!(rt; recipe_is_taken_back(rt.alloc(), false, (1, 0, 1))?);
    assert!(rt; recipe_is_taken_back(rt.alloc(), true, (1, 1, 2))?);
    Ok(())
}

// What a call that fails leaves: the event that is refused, or 3 where none is; the state; and the names on the shelf where
// a write that fails is not done, and where it is.
type Line = (usize, State, &'static str, &'static str);

const EMPTY: State = (1, 0, 1);

const ONE: State = (1, 1, 2);

const TWO: State = (1, 2, 3);

const SECOND: State = (2, 2, 3);

const ALL: &str = "T1 T2 P1 P2 R1 R2 F0";

// The calls from the second on; the first is that of opening, and the last line's is none.
const LINES: &[Line] = &[
    // the mending of the first event
    (0, EMPTY, "", ""),
    (0, EMPTY, "", "F0"),
    (0, EMPTY, "F0", "F0"),
    // its put, of the payload and of the table
    (0, EMPTY, "F0", "P1 F0"),
    (0, EMPTY, "P1 F0", "T1 P1 F0"),
    // its commit
    (0, EMPTY, "T1 P1 F0", "T1 P1 F0"),
    (0, EMPTY, "T1 P1 F0", "T1 P1 R1 F0"),
    (0, EMPTY, "T1 P1 R1 F0", "T1 P1 R1 F0"),
    // the put of the second event
    (1, ONE, "T1 P1 R1 F0", "T1 P1 P2 R1 F0"),
    (1, ONE, "T1 P1 P2 R1 F0", "T1 T2 P1 P2 R1 F0"),
    // its commit
    (1, ONE, "T1 T2 P1 P2 R1 F0", "T1 T2 P1 P2 R1 F0"),
    (1, ONE, "T1 T2 P1 P2 R1 F0", ALL),
    (1, ONE, ALL, ALL),
    // the floor of the third event, and its settling
    (2, TWO, ALL, ALL),
    (2, TWO, ALL, ALL),
    // its removals, of which each that fails leaves a stray
    (3, SECOND, "T2 P2 R1 R2 F0", "T2 P2 R2 F0"),
    (3, SECOND, "T1 T2 P2 R2 F0", "T2 P2 R2 F0"),
    (3, SECOND, "T2 P1 P2 R2 F0", "T2 P2 R2 F0"),
    // no call
    (3, SECOND, "T2 P2 R2 F0", "T2 P2 R2 F0"),
];

// The events over a shelf of which a call fails: the event that is refused, the state that is left, and the shelf.
fn left_by(alloc: Global, call: u64, keep: bool) -> Result<(usize, State, MemShelf), Fail> {
    let mut store = store_failing(alloc, call, keep)?;
    let event = match events_from(alloc, &mut store, 0) {
        Err((event, Fault::StoreFault(1))) => event,
        Ok(Some(answer)) if Ok(answer) == removed(1, 2, 1) => 3,
        _ => return Err(Fail::from("the answer is a store fault, or that of the deletion")),
    };
    let state = store.summary();
    Ok((event, state, store.close().into_inner()))
}

// Whether the event is refused that makes a call which fails, and the state before it is left.
fn is_told(alloc: Global, call: u64, keep: bool, line: &Line) -> Result<bool, Fail> {
    let (event, state, lost, kept) = *line;
    let (refused, left, shelf) = left_by(alloc, call, keep)?;
    let text = if keep { kept } else { lost };
    Ok(refused == event && left == state && listing(alloc, &shelf)?.as_str() == text)
}

// Whether the same keeper goes on with the event that was refused, and a last deletion removes the strays: the shelf then.
fn mended(alloc: Global, call: u64, keep: bool) -> Result<(bool, MemShelf), Fail> {
    let mut store = store_failing(alloc, call, keep)?;
    let done = match events_again(alloc, &mut store) {
        Some(answer) => answer == Ok(Some(removed(1, 2, 1)?)),
        None => call > 16,
    };
    let clean = store.delete(0, 1) == removed(1, 2, 0);
    Ok((done && clean, store.close().into_inner()))
}

// Whether what is left is then the store of the second version alone.
fn is_mended(alloc: Global, call: u64, keep: bool) -> Result<bool, Fail> {
    let (done, mut shelf) = mended(alloc, call, keep)?;
    let clean = has(alloc, &mut shelf, "T2 P2 R2 F0", 2, b"bbbb")?;
    let state = started(alloc, shelf)?.summary();
    Ok(done && clean && state == (2, 2, 3))
}

// The first call that is not told or not mended.
fn first_wrong(alloc: Global, keep: bool, lines: &[Line]) -> Result<Option<u64>, Fail> {
    let mut call = 2u64;
    for line in lines {
        if !is_told(alloc, call, keep, line)? || !is_mended(alloc, call, keep)? {
            return Ok(Some(call));
        }
        call = call.saturating_add(1);
    }
    Ok(None)
}

#[test]
fn each_call_that_fails_is_told_and_the_next_event_mends(rt: HostRuntime) -> Result<(), Fail> {
    assert!(rt; first_wrong(rt.alloc(), false, LINES)? == None);
    assert!(rt; first_wrong(rt.alloc(), true, LINES)? == None);
    Ok(())
}

// The fault of an opening whose one call fails, and what the events give once the store is opened again.
fn opened_again(alloc: Global, keep: bool) -> Result<Option<(Fault, Ran)>, Fail> {
    match Store::start(alloc, shelf_failing(alloc, 1, keep)?) {
        Ok(_) => Ok(None),
        Err((fault, shelf)) => {
            let mut store = started(alloc, shelf)?;
            Ok(Some((fault, events_from(alloc, &mut store, 0))))
        }
    }
}

fn is_opened_again(alloc: Global, keep: bool) -> Result<bool, Fail> {
    let ran = Ok(Some(removed(1, 2, 1)?));
    Ok(opened_again(alloc, keep)? == Some((Fault::StoreFault(1), ran)))
}

#[test]
fn the_first_call_that_fails_is_that_of_opening(rt: HostRuntime) -> Result<(), Fail> {
    assert!(rt; is_opened_again(rt.alloc(), false)?);
    assert!(rt; is_opened_again(rt.alloc(), true)?);
    Ok(())
}
