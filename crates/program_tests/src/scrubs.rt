// `scrub`, over stores whose payloads are damaged.
use crate::running::{rows_are, run_on, run_with};
use program_rows::{BACKUP, FIRST, PAYLOAD, QUIET, Row, STANDARD};
use std::alloc::Global;
use std::test::Fail;
use vault_ports::{FaultShelf, MemPlaces, MemShelf, MemSource};
use vault_traits::Shelf;
use vault_types::{Answer, Fault, Kind, Name, Why};

const OF_ONE_MORE: Row = Row {
    words: BACKUP,
    input: b"efgh",
    out: b"backup 2: 1 chunks, 4 bytes, 1 new containers, 4 bytes written, 0 sparse\n",
    ..QUIET
};

const SECOND_PAYLOAD: Name = Name {
    kind: Kind::Payload,
    number: 2,
};

// A store of two versions, in a container each.
fn store_of_two(alloc: Global) -> Result<MemShelf, Fail> {
    rows_are(alloc, &STANDARD, &[FIRST, OF_ONE_MORE])
}

// What is printed, what is told and the status of a scrub.
fn is_end(
    alloc: Global,
    shelf: MemShelf,
    out: &[u8],
    report: &[u8],
    why: Option<Why>,
) -> Result<bool, Fail> {
    let seen = run_on(alloc, "scrub", b"", &STANDARD, shelf)?;
    let found = match seen.fault {
        Some(Fault::Damaged { why, .. }) => Some(why),
        _ => None,
    };
    let status = if why.is_some() { 7 } else { 0 };
    let texts = seen.out.as_slice() == out && seen.report.as_slice() == report;
    Ok(texts && found == why && seen.status == status && seen.shelf.payload_gets() == 2)
}

fn a_gone_payload_is_told(alloc: Global) -> Result<bool, Fail> {
    let mut shelf = store_of_two(alloc)?;
    shelf.remove(SECOND_PAYLOAD)?;
    let out = b"container 2 absent\nscrub: 2 containers, 1 damaged\n".as_slice();
    let report = b"error 7: store damaged, payload 2\n".as_slice();
    is_end(alloc, shelf, out, report, Some(Why::Absent))
}

fn two_damages_are_told(alloc: Global) -> Result<bool, Fail> {
    let mut shelf = store_of_two(alloc)?;
    shelf.put(alloc, PAYLOAD, b"abcdabx")?;
    shelf.put(alloc, SECOND_PAYLOAD, b"efgx")?;
    let out = b"container 1 length\ncontainer 2 sum\nscrub: 2 containers, 2 damaged\n".as_slice();
    let report = b"error 7: store damaged, payload 1\n".as_slice();
    let why = Why::Length { want: 6, found: 7 };
    is_end(alloc, shelf, out, report, Some(why))
}

#[test]
fn each_damaged_payload_has_its_line(rt: HostRuntime) -> Result<(), Fail> {
    assert!(rt; a_gone_payload_is_told(rt.alloc())?);
    assert!(rt; two_damages_are_told(rt.alloc())?);
    Ok(())
}

// Over an out sink that has room for the front alone: whether that is the fault, and the damage is not told.
fn is_cut_off(alloc: Global, room: usize) -> Result<bool, Fail> {
    let mut shelf = store_of_two(alloc)?;
    shelf.remove(PAYLOAD)?;
    let mut places = MemPlaces::with(alloc, Vec::new(alloc), 0)?;
    let input = MemSource::new(Vec::new(alloc), 1);
    let seen = run_with(alloc, "scrub", &STANDARD, shelf, &mut places, input, room)?;
    let fault = seen.fault == Some(Fault::WriteFault(1));
    let text = b"container 1 absent\nscrub: 2 containers, 1 damaged\n".as_slice();
    let front = seen.out.len() == room && text.starts_with(seen.out.as_slice());
    Ok(fault && front && seen.status == 5 && seen.report.is_empty())
}

#[test]
fn a_report_without_room_comes_before_the_damage(rt: HostRuntime) -> Result<(), Fail> {
    assert!(rt; is_cut_off(rt.alloc(), 0)?);
    assert!(rt; is_cut_off(rt.alloc(), 25)?);
    Ok(())
}

// Whether a scrub over a shelf whose call of this number fails is refused for it. An opening makes six calls.
fn is_refused(alloc: Global, call: u64) -> Result<bool, Fail> {
    let failing = FaultShelf::new(store_of_two(alloc)?, [call].to_vec(alloc)?, false);
    let seen = run_on(alloc, "scrub", b"", &STANDARD, failing)?;
    let answer = Answer::Refused(Fault::StoreFault(1));
    let answers = seen.answers.as_slice() == [answer].as_slice();
    let texts = seen.out.as_slice() == b"error 6: store failed\n".as_slice()
        && seen.report.is_empty();
    Ok(answers && texts && seen.status == 6 && seen.fault == None)
}

fn first_untold(alloc: Global) -> Result<Option<u64>, Fail> {
    for call in 7..11u64 {
        if !is_refused(alloc, call)? {
            return Ok(Some(call));
        }
    }
    Ok(None)
}

#[test]
fn a_shelf_that_fails_refuses_the_scrub(rt: HostRuntime) -> Result<(), Fail> {
    assert!(rt; first_untold(rt.alloc())? == None);
    Ok(())
}
