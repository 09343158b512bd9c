// Words that are run by both calls, over equal shelves and places, and where they do not leave the same.
use crate::running::words_of;
use destor_top::{Ended, run, run_plain};
use program_rows::STANDARD;
use std::alloc::Global;
use std::sync::Wait;
use std::test::Fail;
use std::thread;
use std::thread::Threads;
use std::time::Clock;
use vault_ports::{FaultShelf, MemPlaces, MemShelf, MemSink, MemSource};
use vault_types::{Answer, Fault};

/// What is run: the words and the input, the call of the shelf that fails, if it is not 0, and the files.
#[derive(Clone, Copy)]
pub struct Case<'a> {
    pub words: &'a str,
    pub input: &'a [u8],
    pub call: u64,
    pub files: &'a [(String, Vec<u8>)],
}

/// What a run left.
#[derive(Drop)]
pub struct Left {
    pub status: u8,
    pub fault: Option<Fault>,
    pub answers: Vec<Answer>,
    pub out: Vec<u8>,
    pub report: Vec<u8>,
    pub shelf: MemShelf,
    pub places: MemPlaces,
}

fn left_of(
    ended: Ended<FaultShelf, MemSource, MemSink>,
    places: MemPlaces,
    report: MemSink,
) -> Left {
    let Ended {
        status,
        fault,
        answers,
        shelf,
        out,
        ..
    } = ended;
    Left {
        status,
        fault,
        answers,
        out: out.into_vec(),
        report: report.into_vec(),
        shelf: shelf.into_inner(),
        places,
    }
}

fn places_of(alloc: Global, case: Case<'_>) -> Result<MemPlaces, Fail> {
    let mut files = Vec::new(alloc);
    for (name, bytes) in case.files {
        files.push((
            String::from_str(alloc, name.as_str())?,
            bytes.as_slice().to_vec(alloc)?,
        ))?;
    }
    Ok(MemPlaces::with(alloc, files, 1_048_576)?)
}

fn input_of(alloc: Global, case: Case<'_>) -> Result<MemSource, Fail> {
    Ok(MemSource::new(case.input.to_vec(alloc)?, 100))
}

fn shelf_over(alloc: Global, case: Case<'_>, shelf: MemShelf) -> Result<FaultShelf, Fail> {
    Ok(FaultShelf::new(shelf, [case.call].to_vec(alloc)?, false))
}

/// Runs a case over a shelf on one thread.
pub fn ran_on_one(alloc: Global, case: Case<'_>, shelf: MemShelf) -> Result<Left, Fail> {
    let words = words_of(alloc, case.words)?;
    let mut places = places_of(alloc, case)?;
    let mut report = MemSink::with(alloc, 1_048_576)?;
    let ended = run_plain(
        alloc,
        words.as_slice(),
        &STANDARD,
        shelf_over(alloc, case, shelf)?,
        &mut places,
        input_of(alloc, case)?,
        MemSink::with(alloc, 1_048_576)?,
        &mut report,
    );
    Ok(left_of(ended, places, report))
}

/// Runs a case over a shelf in threads.
pub fn ran_in_threads<H: Threads + Wait + Clock + Copy + Drop + Send>(
    host: H,
    alloc: Global,
    case: Case<'_>,
    shelf: MemShelf,
) -> Result<Left, Fail> {
    let words = words_of(alloc, case.words)?;
    thread::scope(thread::scope_env(), &host, |scope| -> Result<Left, Fail> {
        let mut places = places_of(alloc, case)?;
        let mut report = MemSink::with(alloc, 1_048_576)?;
        let ended = run(
            host,
            alloc,
            scope,
            words.as_slice(),
            &STANDARD,
            shelf_over(alloc, case, shelf)?,
            &mut places,
            input_of(alloc, case)?,
            MemSink::with(alloc, 1_048_576)?,
            &mut report,
        );
        Ok(left_of(ended, places, report))
    })
}

fn have_same_blobs(alloc: Global, one: &MemShelf, other: &MemShelf) -> Result<bool, Fail> {
    let names = one.names(alloc)?;
    if other.names(alloc)?.as_slice() != names.as_slice() {
        return Ok(false);
    }
    for name in &names {
        if one.blob(*name) != other.blob(*name) {
            return Ok(false);
        }
    }
    Ok(true)
}

fn have_same_outputs(alloc: Global, one: &MemPlaces, other: &MemPlaces) -> Result<bool, Fail> {
    for place in 0..12 {
        let name = format!(in alloc; "out{place}")?;
        if one.bytes(name.as_str()) != other.bytes(name.as_str()) {
            return Ok(false);
        }
    }
    Ok(true)
}

fn have_same_texts(one: &Left, other: &Left) -> bool {
    one.status == other.status
        && one.fault == other.fault
        && one.answers.as_slice() == other.answers.as_slice()
        && one.out == other.out
        && one.report == other.report
}

/// Whether two runs ended alike, printed the same, and left the same blobs and outputs.
pub fn are_same(alloc: Global, one: &Left, other: &Left) -> Result<bool, Fail> {
    Ok(
        have_same_texts(one, other)
            && have_same_blobs(alloc, &one.shelf, &other.shelf)?
            && have_same_outputs(alloc, &one.places, &other.places)?,
    )
}
