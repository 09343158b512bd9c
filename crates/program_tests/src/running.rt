// Runs of the program's call over devices in memory, and rows that say what a run gives.
use destor_top::{Ended, run_plain};
use program_rows::Row;
use std::alloc::Global;
use std::str::from_utf8;
use std::test::Fail;
use vault_ports::{MemPlaces, MemShelf, MemSink, MemSource};
use vault_traits::{Places, Shelf, Source};
use vault_types::{Answer, Fault, Limits, Name};

/// What a run gave.
#[derive(Drop)]
pub struct Seen<S, I> {
    pub status: u8,
    pub fault: Option<Fault>,
    pub answers: Vec<Answer>,
    pub out: Vec<u8>,
    pub report: Vec<u8>,
    pub shelf: S,
    pub input: I,
}

fn words_of(alloc: Global, text: &str) -> Result<Vec<String>, Fail> {
    let mut words = Vec::new(alloc);
    for word in text.split_whitespace() {
        words.push(String::from_str(alloc, word)?)?;
    }
    Ok(words)
}

/// Runs the words of a text. The out sink has room for so many bytes.
pub fn run_with<S: Shelf + Drop, P: Places, I: Source + Send + Drop>(
    alloc: Global,
    text: &str,
    limits: &Limits,
    shelf: S,
    places: &mut P,
    input: I,
    room: usize,
) -> Result<Seen<S, I>, Fail> {
    let Limits {
        chunks,
        last,
        script,
    } = *limits;
    if chunks < 1 || chunks > 4_194_304 {
        return Err(Fail::from("the limit of chunks is in range"));
    }
    if last < 1 || last > 4_294_967_294 {
        return Err(Fail::from("the last version is in range"));
    }
    if script < 1 || script > 1_048_576 {
        return Err(Fail::from("the limit of scripts is in range"));
    }
    let words = words_of(alloc, text)?;
    let out = MemSink::with(alloc, room)?;
    let mut report = MemSink::with(alloc, 1_048_576)?;
    let ended = run_plain(
        alloc,
        words.as_slice(),
        &Limits {
            chunks,
            last,
            script,
        },
        shelf,
        places,
        input,
        out,
        &mut report,
    );
    let Ended {
        status,
        fault,
        answers,
        shelf,
        input,
        out,
        ..
    } = ended;
    Ok(Seen {
        status,
        fault,
        answers,
        out: out.into_vec(),
        report: report.into_vec(),
        shelf,
        input,
    })
}

/// Runs the words of a text over these bytes and without places, with room for all that is printed.
pub fn run_on<S: Shelf + Drop>(
    alloc: Global,
    text: &str,
    input: &[u8],
    limits: &Limits,
    shelf: S,
) -> Result<Seen<S, MemSource>, Fail> {
    let mut places = MemPlaces::with(alloc, Vec::new(alloc), 0)?;
    let source = MemSource::new(input.to_vec(alloc)?, 3);
    run_with(alloc, text, limits, shelf, &mut places, source, 1_048_576)
}

// Says where a text is not the one that is wanted.
fn same_text(alloc: Global, at: &str, what: &str, found: &[u8], want: &[u8]) -> Result<(), Fail> {
    if found == want {
        return Ok(());
    }
    let found = from_utf8(found).unwrap_or("no text");
    let want = from_utf8(want).unwrap_or("no text");
    let text = format!(in alloc; "at {at}: {what} {found:?}, wanted {want:?}")?;
    Err(Fail::new(text))
}

// Says where a run did not end as it should.
fn same_end(
    alloc: Global,
    at: &str,
    found: (u8, Option<Fault>),
    want: (u8, Option<Fault>),
) -> Result<(), Fail> {
    if found == want {
        return Ok(());
    }
    let text = format!(in alloc; "at {at}: ended with {found:?}, wanted {want:?}")?;
    Err(Fail::new(text))
}

/// Says where a run is not as its row says.
pub fn as_said<S, I>(alloc: Global, row: &Row, seen: &Seen<S, I>) -> Result<(), Fail> {
    let at = row.words;
    same_end(
        alloc,
        at,
        (seen.status, seen.fault),
        (row.status, row.fault),
    )?;
    same_text(alloc, at, "out", seen.out.as_slice(), row.out)?;
    same_text(alloc, at, "report", seen.report.as_slice(), row.report)
}

/// Runs a row over a shelf, and gives the shelf that it leaves.
pub fn row_is(
    alloc: Global,
    limits: &Limits,
    row: &Row,
    shelf: MemShelf,
) -> Result<MemShelf, Fail> {
    let seen = run_on(alloc, row.words, row.input, limits, shelf)?;
    as_said(alloc, row, &seen)?;
    Ok(seen.shelf)
}

/// Runs rows, each over the shelf that the one before has left.
pub fn rows_over(
    alloc: Global,
    limits: &Limits,
    rows: &[Row],
    shelf: MemShelf,
) -> Result<MemShelf, Fail> {
    let mut shelf = shelf;
    for row in rows {
        shelf = row_is(alloc, limits, row, shelf)?;
    }
    Ok(shelf)
}

/// The same over an empty shelf.
pub fn rows_are(alloc: Global, limits: &Limits, rows: &[Row]) -> Result<MemShelf, Fail> {
    rows_over(alloc, limits, rows, MemShelf::new(alloc))
}

/// Runs the rows of each group over an empty shelf.
pub fn groups_are(alloc: Global, limits: &Limits, groups: &[&[Row]]) -> Result<(), Fail> {
    for rows in groups {
        let _ = rows_are(alloc, limits, rows)?;
    }
    Ok(())
}

/// How many bytes a blob has, 0 where it is not there.
pub fn blob_len(shelf: &MemShelf, name: Name) -> usize {
    match shelf.blob(name) {
        Some(bytes) => bytes.len(),
        None => 0,
    }
}

/// Whether a blob has these bytes.
pub fn holds(shelf: &MemShelf, name: Name, bytes: &[u8]) -> bool {
    shelf.blob(name) == Some(bytes)
}

/// Whether the shelf has these names alone.
pub fn lists(alloc: Global, shelf: &MemShelf, names: &[Name]) -> Result<bool, Fail> {
    Ok(shelf.names(alloc)?.as_slice() == names)
}

/// Whether two shelves have the same names and bytes.
pub fn same_blobs(alloc: Global, one: &MemShelf, other: &MemShelf) -> Result<bool, Fail> {
    let names = one.names(alloc)?;
    if !lists(alloc, other, names.as_slice())? {
        return Ok(false);
    }
    for name in names.as_slice() {
        if one.blob(*name) != other.blob(*name) {
            return Ok(false);
        }
    }
    Ok(true)
}
