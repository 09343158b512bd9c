// Rows by the call that runs in threads.
ghost use Rattle.std.specs.Prelude.{◌≤◌};

use destor_top::{Ended, run};
use program_rows::{File, Row};
use std::alloc::Global;
use std::sync::Wait;
use std::test::Fail;
use std::thread;
use std::thread::Threads;
use std::time::Clock;
use vault_ports::{FaultShelf, MemPlaces, MemShelf, MemSink, MemSource};
use vault_types::Limits;

/// The words of a text.
pub fn words_of(alloc: Global, text: &str) -> Result<Vec<String>, Fail> {
    let mut words = Vec::new(alloc);
    for word in text.split_whitespace() {
        words.push(String::from_str(alloc, word)?)?;
    }
    Ok(words)
}

/// Places with these files, whose writers have room for all that is written.
pub fn places_of(alloc: Global, files: &[File]) -> Result<MemPlaces, Fail> {
    let mut all = Vec::new(alloc);
    for (name, bytes) in files {
        all.push((String::from_str(alloc, name)?, bytes.to_vec(alloc)?))?;
    }
    Ok(MemPlaces::with(alloc, all, 1_048_576)?)
}

// Says where a run is not as its row says, and gives its shelf.
fn as_said(
    alloc: Global,
    row: &Row,
    ended: Ended<FaultShelf, MemSource, MemSink>,
    report: MemSink,
) -> Result<MemShelf, Fail> {
    let Ended {
        status,
        fault,
        shelf,
        out,
        ..
    } = ended;
    let (out, report) = (out.into_vec(), report.into_vec());
    let is_end = status == row.status && fault == row.fault;
    if is_end && out.as_slice() == row.out && report.as_slice() == row.report {
        return Ok(shelf.into_inner());
    }
    let at = row.words;
    Err(Fail::new(format!(in alloc; "at {at}: ended with {status}, {fault:?}")?))
}

/// Runs a row within limits over a shelf and places with these files, and gives the shelf that it leaves.
pub fn row_is<H: Threads + Wait + Clock + Copy + Drop + Send>(
    host: H,
    alloc: Global,
    limits: &Limits,
    row: &Row,
    files: &[File],
    shelf: MemShelf,
) -> Result<MemShelf, Fail> {
    let sound = FaultShelf::new(shelf, Vec::new(alloc), false);
    row_is_over(host, alloc, limits, row, files, sound)
}

/// The same over a shelf that may fail.
pub fn row_is_over<H: Threads + Wait + Clock + Copy + Drop + Send>(
    host: H,
    alloc: Global,
    limits: &Limits,
    row: &Row,
    files: &[File],
    shelf: FaultShelf,
) -> Result<MemShelf, Fail> {
    let Limits {
        chunks,
        last,
        script,
    } = *limits;
    if chunks < 1 || chunks > 4_194_304 || last < 1 || last > 4_294_967_294 {
        return Err(Fail::from("the limits of chunks and versions are in range"));
    }
    if script < 1 || script > 1_048_576 {
        return Err(Fail::from("the limit of scripts is in range"));
    }
    let words = words_of(alloc, row.words)?;
    thread::scope(
        thread::scope_env(),
        &host,
        |scope| -> Result<MemShelf, Fail>
            requires chunks { (1 ≤ chunks) × (chunks ≤ 4194304) }
            requires last { (1 ≤ last) × (last ≤ 4294967294) }
            requires script { (1 ≤ script) × (script ≤ 1048576) }
        {
            let mut places = places_of(alloc, files)?;
            let mut report = MemSink::with(alloc, 1_048_576)?;
            let ended = run(
                host,
                alloc,
                scope,
                words.as_slice(),
                &Limits {
                    chunks,
                    last,
                    script,
                },
                shelf,
                &mut places,
                MemSource::new(row.input.to_vec(alloc)?, 3),
                MemSink::with(alloc, 1_048_576)?,
                &mut report,
            );
            as_said(alloc, row, ended, report)
        },
    )
}
