// A script in which two restores run beside a backup and a deletion, and what has to hold of it whatever fails.
use crate::running::{File, Left, is_line, run_over};
use std::alloc::Global;
use std::sync::Wait;
use std::test::Fail;
use std::thread::Threads;
use std::time::Clock;
use vault_ports::{MemPlaces, MemShelf};
use vault_traits::Shelf;
use vault_types::{Answer, Fault};

const FIRST: &[u8] = b"aaaabbbbccccdddd";

const SECOND: &[u8] = b"eeeebbbb";

const THIRD: &[u8] = b"ffff";

const FILES: &[File] = &[("a", FIRST), ("b", SECOND), ("c", THIRD)];

const SCRIPT: &[u8] = b"backup a chunk=fixed size=4 container=4 rewrite=none\n\
    backup b chunk=fixed size=4 container=4 rewrite=none\n\
    restore 1 x\n\
    restore 2 y\n\
    backup c chunk=fixed size=4 container=4 rewrite=none\n\
    delete 1\n\
    restore 2 z\n";

// Its report lines where nothing fails.
const LINES: [&[u8]; 7] = [
    b"backup 1: 4 chunks, 16 bytes, 4 new containers, 16 bytes written, 0 sparse\n",
    b"backup 2: 2 chunks, 8 bytes, 1 new containers, 4 bytes written, 0 sparse\n",
    b"restore 1: 16 bytes, 4 loads\n",
    b"restore 2: 8 bytes, 2 loads\n",
    b"backup 3: 1 chunks, 4 bytes, 1 new containers, 4 bytes written, 0 sparse\n",
    b"delete 1: floor 2, 3 containers reclaimed\n",
    b"restore 2: 8 bytes, 2 loads\n",
];

/// Runs the script over a shelf.
pub fn run_script<S: Shelf + Drop, R: Threads + Wait + Clock + Copy + Drop + Send>(
    rt: R,
    alloc: Global,
    shelf: S,
) -> Result<Left<S, MemPlaces>, Fail> {
    run_over(rt, alloc, SCRIPT, FILES, shelf)
}

/// How many answers are not those of a script in which nothing fails.
pub fn other_answers(answers: &[Answer]) -> usize {
    let mut others = 0usize;
    for at in 0..LINES.len() {
        let is_same = match answers.get(at) {
            Some(answer) => is_line(answer, LINES[at]),
            None => false,
        };
        if !is_same {
            others = others.saturating_add(1);
        }
    }
    others
}

/// How many answers are the refusal of a line for which the shelf failed.
pub fn store_faults(answers: &[Answer]) -> usize {
    let mut faults = 0usize;
    for answer in answers {
        if matches!(answer, Answer::Refused(Fault::StoreFault(_))) {
            faults = faults.saturating_add(1);
        }
    }
    faults
}

// Whether the line at this place answered that it stored this version.
fn has_stored(answers: &[Answer], at: usize, version: u32) -> bool {
    match answers.get(at) {
        Some(
            Answer::Stored {
                version: stored,
                ..
            },
        ) => *stored == version,
        _ => false,
    }
}

/// The bytes of a version, where a line answered that it is stored.
pub fn bytes_of(answers: &[Answer], version: u32) -> Option<&'static [u8]> {
    if has_stored(answers, 4, version) {
        Some(THIRD)
    } else if has_stored(answers, 1, version) {
        Some(SECOND)
    } else if has_stored(answers, 0, version) {
        Some(FIRST)
    } else {
        None
    }
}

// Whether these are the bytes of a file, or a front of them.
fn is_front(bytes: &[u8]) -> bool {
    FIRST.starts_with(bytes) || SECOND.starts_with(bytes) || THIRD.starts_with(bytes)
}

// Whether the restore at this place wrote its version, or, where it was refused, a front of one.
fn is_restored(answers: &[Answer], at: usize, written: Option<&[u8]>) -> bool {
    match answers.get(at) {
        Some(Answer::Restored { version, .. }) => written == bytes_of(answers, *version),
        _ => match written {
            None => true,
            Some(bytes) => is_front(bytes),
        },
    }
}

/// Whether each restore of the script wrote its version, or, where it was refused, a front of one.
pub fn are_restored(answers: &[Answer], places: &MemPlaces) -> bool {
    is_restored(answers, 2, places.bytes("x"))
        && is_restored(answers, 3, places.bytes("y"))
        && is_restored(answers, 6, places.bytes("z"))
}

const AGAIN: &[u8] = b"restore 1 x\nrestore 2 y\nrestore 3 z\n";

// Whether the deletion was done.
fn has_deleted(answers: &[Answer]) -> bool {
    matches!(answers.get(5), Some(Answer::Removed { .. }))
}

// Whether a version that is restored once more is the one that was stored, and whether one that is
// not kept may be missing: the first was to be deleted, and is not kept once it is.
fn is_kept(
    answers: &[Answer],
    version: u32,
    answer: Option<&Answer>,
    written: Option<&[u8]>,
) -> bool {
    let stored = bytes_of(answers, version);
    let is_first = version == 1;
    match answer {
        Some(Answer::Restored { .. }) => {
            (stored.is_none() || written == stored) && !(is_first && has_deleted(answers))
        }
        Some(Answer::Refused(Fault::NotKept { .. })) => stored.is_none() || is_first,
        _ => false,
    }
}

/// Whether a shelf that the script left opens, and has each version that it stored and did not delete.
pub fn are_kept<R: Threads + Wait + Clock + Copy + Drop + Send>(
    rt: R,
    alloc: Global,
    answers: &[Answer],
    shelf: MemShelf,
) -> Result<bool, Fail> {
    let again = run_over(rt, alloc, AGAIN, &[], shelf)?;
    let restored = again.answers.as_slice();
    Ok(
        is_kept(answers, 1, restored.first(), again.places.bytes("x"))
            && is_kept(answers, 2, restored.get(1), again.places.bytes("y"))
            && is_kept(answers, 3, restored.get(2), again.places.bytes("z")),
    )
}
