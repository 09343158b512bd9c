// The answers of first backups, over sources, shelves and sinks of which some fail.
use crate::running::{Seen, blob_len, holds, run_on, run_with};
use program_rows::{BACKUP, PAYLOAD, RECIPE, STANDARD, TEXT};
use std::alloc::Global;
use std::test::Fail;
use vault_ports::{FaultShelf, FaultSource, MemPlaces, MemShelf, MemSource};
use vault_traits::Shelf;
use vault_types::{Answer, Fault, Limits};

// The answer to a first backup of so many chunks and bytes, of which so many are written into so many containers.
macro_rules! stored {
    ($chunks:expr, $bytes:expr, $containers:expr, $written:expr) => {
        Answer::Stored {
            set: 0,
            version: 1,
            chunks: $chunks,
            bytes: $bytes,
            containers: $containers,
            written: $written,
            sparse: 0,
        }
    };
}

// What a first backup gives, within a limit of chunks: its status and its answer, what is printed on the out sink, and
// whether the recipe is there.
struct Case {
    input: &'static [u8],
    status: u8,
    answer: Answer,
    out: &'static [u8],
    is_kept: bool,
}

const WITHIN_THREE_CHUNKS: &[Case] = &[
    Case {
        input: b"",
        status: 0,
        answer: stored!(0, 0, 0, 0),
        out: b"backup 1: 0 chunks, 0 bytes, 0 new containers, 0 bytes written, 0 sparse\n",
        is_kept: true,
    },
    Case {
        input: b"abcdefghijkl",
        status: 0,
        answer: stored!(3, 12, 1, 12),
        out: b"backup 1: 3 chunks, 12 bytes, 1 new containers, 12 bytes written, 0 sparse\n",
        is_kept: true,
    },
    Case {
        input: TEXT,
        status: 0,
        answer: stored!(3, 10, 1, 6),
        out: b"backup 1: 3 chunks, 10 bytes, 1 new containers, 6 bytes written, 0 sparse\n",
        is_kept: true,
    },
    Case {
        input: b"abcdefghijklm",
        status: 9,
        answer: Answer::Refused(Fault::TooMany { limit: 3 }),
        out: b"error 9: too many chunks\n",
        is_kept: false,
    },
];

// Whether a run ended behind its line with this status and answer, this text on the out sink, and nothing on the other.
fn answers<S, I>(seen: &Seen<S, I>, status: u8, answer: &Answer, out: &[u8]) -> bool {
    seen.status == status
        && seen.fault.is_none()
        && seen.answers.as_slice() == [*answer].as_slice()
        && seen.out.as_slice() == out
        && seen.report.is_empty()
}

fn case_is(alloc: Global, limits: &Limits, case: &Case) -> Result<bool, Fail> {
    let seen = run_on(alloc, BACKUP, case.input, limits, MemShelf::new(alloc))?;
    let is_kept = seen.shelf.blob(RECIPE).is_some();
    Ok(answers(&seen, case.status, &case.answer, case.out) && is_kept == case.is_kept)
}

// The place of the first case that is not as it is said.
fn first_wrong(alloc: Global, cases: &[Case]) -> Result<Option<usize>, Fail> {
    let limits = Limits {
        chunks: 3,
        ..STANDARD
    };
    for (place, case) in cases.iter().enumerate() {
        if !case_is(alloc, &limits, case)? {
            return Ok(Some(place));
        }
    }
    Ok(None)
}

#[test]
fn the_chunks_are_counted_up_to_the_limit(rt: HostRuntime) -> Result<(), Fail> {
    assert!(rt; first_wrong(rt.alloc(), WITHIN_THREE_CHUNKS)? == None);
    Ok(())
}

// The source gives the text by four reads, and its end by the fifth. Whether the failure of a read is the answer, and no
// version is there.
fn failed_read_is_the_answer(alloc: Global, read: u64) -> Result<bool, Fail> {
    let input = FaultSource::new(
        MemSource::new(TEXT.to_vec(alloc)?, 3),
        [read].to_vec(alloc)?,
    );
    let mut places = MemPlaces::with(alloc, Vec::new(alloc), 0)?;
    let shelf = MemShelf::new(alloc);
    let seen = run_with(alloc, BACKUP, &STANDARD, shelf, &mut places, input, 100)?;
    let answer = Answer::Refused(Fault::ReadFault(1));
    let is_told = answers(&seen, 4, &answer, b"error 4: source failed\n");
    Ok(is_told && seen.shelf.blob(RECIPE).is_none())
}

fn first_read_untold(alloc: Global) -> Result<Option<u64>, Fail> {
    for read in 1..6u64 {
        if !failed_read_is_the_answer(alloc, read)? {
            return Ok(Some(read));
        }
    }
    Ok(None)
}

#[test]
fn a_source_that_fails_is_the_answer(rt: HostRuntime) -> Result<(), Fail> {
    assert!(rt; first_read_untold(rt.alloc())? == None);
    Ok(())
}

// Over an out sink that has room for the front alone: whether that is a fault of the run, and the version is there.
fn front_is_printed(alloc: Global, front: &[u8]) -> Result<bool, Fail> {
    let input = MemSource::new(TEXT.to_vec(alloc)?, 3);
    let mut places = MemPlaces::with(alloc, Vec::new(alloc), 0)?;
    let shelf = MemShelf::new(alloc);
    let seen = run_with(
        alloc,
        BACKUP,
        &STANDARD,
        shelf,
        &mut places,
        input,
        front.len(),
    )?;
    let end = (seen.status, seen.fault) == (5, Some(Fault::WriteFault(1)));
    let text = seen.out.as_slice() == front && seen.report.is_empty();
    let answer = seen.answers.as_slice() == [stored!(3, 10, 1, 6)].as_slice();
    let kept = holds(&seen.shelf, PAYLOAD, b"abcdab") && blob_len(&seen.shelf, RECIPE) == 156;
    Ok(end && text && answer && kept)
}

#[test]
fn a_report_without_room_is_a_fault_and_the_store_is_there(rt: HostRuntime) -> Result<(), Fail> {
    let alloc = rt.alloc();
    assert!(rt; front_is_printed(alloc, b"")?);
    assert!(rt; front_is_printed(alloc, b"backup 1: 3")?);
    Ok(())
}

const NO_COMMANDS: &[&str] = &[
    "",
    "backup --size 0",
    "backup --chunk fixed --size 0",
    "backup --chunk fixed --size",
    "backup --chunk fixed --size 4 --size 4",
    "backup --chunk fixed --colour 1",
    "backup --max 4096",
    // These are commands, but the program does not have them yet.
    "backup --chunk fixed --size 4 --sample 1 --prefetch 1",
    "restore --version 1 --area 65536",
    "scrub --workers 9",
];

// Whether the words are refused before the shelf, whose first call fails, and the input are touched.
fn words_are_refused(alloc: Global, words: &str) -> Result<bool, Fail> {
    let shelf = FaultShelf::new(MemShelf::new(alloc), [1].to_vec(alloc)?, false);
    let seen = run_on(alloc, words, TEXT, &STANDARD, shelf)?;
    let end = (seen.status, seen.fault) == (2, Some(Fault::Usage));
    let text = seen.out.is_empty() && seen.report.as_slice() == b"error 2: usage\n".as_slice();
    let untouched = seen.shelf.faults() == 0 && seen.input.left() == TEXT;
    Ok(end && text && untouched && seen.answers.is_empty())
}

// The first of the words that are not refused.
fn first_taken(alloc: Global, all: &[&'static str]) -> Result<Option<&'static str>, Fail> {
    for words in all {
        if !words_are_refused(alloc, words)? {
            return Ok(Some(*words));
        }
    }
    Ok(None)
}

#[test]
fn other_words_are_refused_before_the_shelf_is_touched(rt: HostRuntime) -> Result<(), Fail> {
    assert!(rt; first_taken(rt.alloc(), NO_COMMANDS)? == None);
    Ok(())
}
