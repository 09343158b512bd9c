//! Each device on real files, in a folder that is empty at first.
use crate::calls::{faults_of, gives, has_no, puts, removes, settles, write_to};
use folder_shelf::names::{has_file, push_file_name, read_file_name};
use folder_shelf::{
    ErrSink, FolderPlaces, FolderShelf, InSource, OutSink, StreamSink, StreamSource,
};
use std::alloc::Global;
use std::fs::Files;
use std::io::{Error, ErrorKind, Read, Write};
use std::test::Fail;
use std::{fs, io};
use vault_traits::{Failed, Places, Refused, Shelf, Sink, Source};
use vault_types::{Fault, Kind, Name};

const PAYLOAD: Name = Name {
    kind: Kind::Payload,
    number: 1,
};

const TABLE: Name = Name {
    kind: Kind::Table,
    number: 1,
};

// The first version of set 3.
const RECIPE: Name = Name {
    kind: Kind::Recipe,
    number: (3 << 32) + 1,
};

const FLOOR: Name = Name {
    kind: Kind::Floor,
    number: 0,
};

const NAMES: &[(Name, &str)] = &[
    (TABLE, "table-0000000000000001"),
    (
        Name {
            kind: Kind::Payload,
            number: 0xfedc_ba98_7654_3210,
        },
        "payload-fedcba9876543210",
    ),
    (
        Name {
            kind: Kind::Recipe,
            number: 7,
        },
        "recipe-00000007",
    ),
    (
        Name {
            kind: Kind::Recipe,
            number: (3 << 32) + 10,
        },
        "recipe-03-0000000a",
    ),
    (FLOOR, "floor"),
    (
        Name {
            kind: Kind::Floor,
            number: 255,
        },
        "floor-ff",
    ),
];

// Whether a name has this file name, which is read back.
fn is_named(alloc: Global, name: Name, text: &str) -> Result<bool, Fail> {
    if !has_file(name) {
        return Ok(false);
    }
    let mut found = String::new(alloc);
    push_file_name(&mut found, name)?;
    Ok(found.as_str() == text && read_file_name(text.as_bytes()) == Some(name))
}

fn all_are_named(alloc: Global, rows: &[(Name, &str)]) -> Result<bool, Fail> {
    for (name, text) in rows {
        if !is_named(alloc, *name, text)? {
            return Ok(false);
        }
    }
    Ok(true)
}

#[test]
fn each_name_has_its_file_name_and_is_read_back(rt: HostRuntime) -> Result<(), Fail> {
    assert!(rt; all_are_named(rt.alloc(), NAMES)?);
    Ok(())
}

const OTHERS: &[&str] = &[
    "",
    ".",
    "floor-",
    "floor-0",
    "floor-00",
    "floor-FF",
    "floor-100",
    "floor.new",
    "Floor",
    "table-000000000000001",
    "table-000000000000000A",
    "table-0000000000000001.new",
    "tables",
    "recipe-0000007",
    "recipe-00-00000007",
    "recipe-3-00000007",
    "recipe-03.00000007",
    "recipe-0300000007",
    "recipe-03-000000070",
    "recipe-00000007.new",
];

fn none_is_a_name(texts: &[&str]) -> bool {
    for text in texts {
        if read_file_name(text.as_bytes()).is_some() {
            return false;
        }
    }
    true
}

#[test]
fn other_file_names_are_no_names(rt: HostRuntime) {
    assert!(rt; none_is_a_name(OTHERS));
}

fn started<R: Files + Drop>(alloc: Global, files: R) -> Result<FolderShelf<R>, Fail> {
    match FolderShelf::start(alloc, files, "store") {
        Ok(shelf) => Ok(shelf),
        Err(_) => Err(Fail::from("the folder was not made")),
    }
}

fn puts_floor<S: Shelf>(shelf: &mut S) -> bool {
    shelf.put_floor(3, &[7; 28]).is_ok()
}

fn faults_are<S: Shelf>(shelf: &S, faults: u64) -> bool {
    shelf.faults() == faults
}

fn file_is<R: Files + AllocGlobal>(rt: &R, path: &str, bytes: &[u8]) -> bool {
    match fs::read(rt, path) {
        Ok(found) => found.as_slice() == bytes,
        Err(_) => false,
    }
}

// Files beside the shelf's own.
fn add_files<R: Files>(rt: &R) -> bool {
    let left = fs::write(rt, "store/table-0000000000000001.new", "left").is_ok();
    let notes = fs::write(rt, "store/notes", "mine").is_ok();
    left && notes
}

// Whether each of these is put, the recipe twice, and settled.
fn puts_each<S: Shelf>(alloc: Global, shelf: &mut S) -> [bool; 5] {
    let payload = puts(alloc, shelf, PAYLOAD, b"abcdab");
    let old = puts(alloc, shelf, RECIPE, b"old");
    let recipe = puts(alloc, shelf, RECIPE, b"");
    let floor = puts_floor(shelf);
    [payload, old, recipe, floor, settles(shelf)]
}

fn put_in_folder(rt: HostRuntime) -> Result<[bool; 5], Fail> {
    let mut shelf = started(rt.alloc(), rt)?;
    Ok(puts_each(rt.alloc(), &mut shelf))
}

#[test]
fn a_shelf_keeps_each_blob_in_a_file(rt: HostRuntime) -> Result<(), Fail> {
    assert!(rt; put_in_folder(rt)? == [true; 5]);
    let there = [
        file_is(&rt, "store/payload-0000000000000001", b"abcdab"),
        file_is(&rt, "store/recipe-03-00000001", b""),
        file_is(&rt, "store/floor-03", &[7; 28]),
    ];
    assert!(rt; there == [true; 3]);
    Ok(())
}

const FAR_FLOOR: Name = Name {
    kind: Kind::Floor,
    number: 3,
};

fn lists_each<S: Shelf>(alloc: Global, shelf: &mut S) -> bool {
    match shelf.list(alloc) {
        Ok(names) => names.as_slice() == [PAYLOAD, RECIPE, FAR_FLOOR].as_slice(),
        Err(_) => false,
    }
}

// Whether the blobs are listed, the payload is given, removed, removed again and absent, and nothing failed.
fn gives_and_removes<S: Shelf>(alloc: Global, shelf: &mut S) -> [bool; 6] {
    let listed = lists_each(alloc, shelf);
    let given = gives(alloc, shelf, PAYLOAD, b"abcdab");
    let removed = removes(shelf, PAYLOAD);
    let again = removes(shelf, PAYLOAD);
    let absent = has_no(alloc, shelf, PAYLOAD);
    [listed, given, removed, again, absent, faults_are(shelf, 0)]
}

// The same beside other files, behind whether the blobs are put.
fn given_and_removed(rt: HostRuntime) -> Result<([bool; 5], bool, [bool; 6]), Fail> {
    let alloc = rt.alloc();
    let mut shelf = started(alloc, rt)?;
    let put = puts_each(alloc, &mut shelf);
    let added = add_files(&rt);
    Ok((put, added, gives_and_removes(alloc, &mut shelf)))
}

#[test]
fn a_shelf_lists_its_blobs_and_gives_and_removes_them(rt: HostRuntime) -> Result<(), Fail> {
    let expected = ([true; 5], true, [true; 6]);
    assert!(rt; given_and_removed(rt)? == expected);
    Ok(())
}

// Whether the store has each of these files, or none of them.
fn have_files<R: Files>(rt: &R, files: &[&str], are_there: bool) -> bool {
    for file in files {
        match fs::exists(rt, *file) {
            Ok(is_there) if is_there == are_there => {}
            _ => return false,
        }
    }
    true
}

fn puts_more<S: Shelf>(alloc: Global, shelf: &mut S) -> bool {
    for number in 2..6 {
        let name = Name {
            kind: Kind::Payload,
            number,
        };
        if !puts(alloc, shelf, name, b"more") {
            return false;
        }
    }
    true
}

const NAMED: &[&str] = &[
    "store/payload-0000000000000001",
    "store/payload-0000000000000005",
    "store/table-0000000000000001",
];

const WAITING: &[&str] = &[
    "store/payload-0000000000000001.new",
    "store/payload-0000000000000005.new",
    "store/table-0000000000000001.new",
];

// Whether a payload is put and waits, is put again, and a table waits behind it.
fn two_wait<R: Files, S: Shelf>(alloc: Global, files: &R, shelf: &mut S) -> [bool; 5] {
    let old = puts(alloc, shelf, PAYLOAD, b"old");
    let waits = have_files(files, &WAITING[..1], true);
    let new = puts(alloc, shelf, PAYLOAD, b"new");
    let table = puts(alloc, shelf, TABLE, b"rows");
    [
        old,
        waits,
        new,
        table,
        have_files(files, &NAMED[2..], false),
    ]
}

// Whether the payload is given, more are put, and all is settled with no fault.
fn settles_more<S: Shelf>(alloc: Global, shelf: &mut S) -> [bool; 4] {
    let given = gives(alloc, shelf, PAYLOAD, b"new");
    let more = puts_more(alloc, shelf);
    [given, more, settles(shelf), faults_are(shelf, 0)]
}

fn waited(rt: HostRuntime) -> Result<([bool; 5], [bool; 4]), Fail> {
    let mut shelf = started(rt.alloc(), rt)?;
    let two = two_wait(rt.alloc(), &rt, &mut shelf);
    Ok((two, settles_more(rt.alloc(), &mut shelf)))
}

// Blobs of containers get their names at a later call: two may wait, of two names, and a settling leaves none.
#[test]
fn containers_get_their_names_later(rt: HostRuntime) -> Result<(), Fail> {
    assert!(rt; waited(rt)? == ([true; 5], [true; 4]));
    assert!(rt; have_files(&rt, NAMED, true));
    assert!(rt; have_files(&rt, WAITING, false));
    Ok(())
}

fn is_refused<R: Files + Drop>(alloc: Global, files: R, path: &str) -> bool {
    matches!(
        FolderShelf::start(alloc, files, path),
        Err(Fault::StoreFault(1))
    )
}

#[test]
fn no_shelf_is_made_where_no_folder_can_be(rt: HostRuntime) -> Result<(), Fail> {
    fs::write(&rt, "file", "in its place")?;
    assert!(rt; is_refused(rt.alloc(), rt, "file"));
    assert!(rt; is_refused(rt.alloc(), rt, "no/folder"));
    assert!(rt; is_refused(rt.alloc(), rt, ""));
    Ok(())
}

const FAR_RECIPE: Name = Name {
    kind: Kind::Recipe,
    number: 1 << 40,
};

const NO_FLOOR: Name = Name {
    kind: Kind::Floor,
    number: 256,
};

// Whether a recipe that has no file name is refused and absent, and a floor that has none is removed.
fn far_names<S: Shelf>(alloc: Global, shelf: &mut S) -> [bool; 3] {
    let refused = shelf.put(alloc, FAR_RECIPE, b"x") == Err(Refused::Failed);
    let absent = has_no(alloc, shelf, FAR_RECIPE);
    [refused, absent, removes(shelf, NO_FLOOR)]
}

fn cannot_get<S: Shelf>(alloc: Global, shelf: &mut S, name: Name) -> bool {
    matches!(shelf.get(alloc, name), Err(Refused::Failed))
}

// Whether the floor of set 0 can be neither read, nor written, nor removed.
fn fails_at_floor<S: Shelf>(alloc: Global, shelf: &mut S) -> [bool; 3] {
    let read = cannot_get(alloc, shelf, FLOOR);
    let written = shelf.put_floor(0, &[7; 28]) == Err(Failed);
    [read, written, shelf.remove(FLOOR) == Err(Failed)]
}

// What fails, with the faults so far, before and behind a folder in the place of a floor.
fn failures(rt: HostRuntime) -> Result<([bool; 3], u64, bool, [bool; 3], u64), Fail> {
    let alloc = rt.alloc();
    let mut shelf = started(alloc, rt)?;
    let far = far_names(alloc, &mut shelf);
    let one = shelf.faults();
    let is_made = fs::create_dir(&rt, "store/floor").is_ok();
    let floor = fails_at_floor(alloc, &mut shelf);
    Ok((far, one, is_made, floor, shelf.faults()))
}

// A folder in the place of a blob can be neither read, nor written, nor removed as a file.
#[test]
fn failures_of_the_folder_are_counted(rt: HostRuntime) -> Result<(), Fail> {
    let expected = ([true; 3], 1, true, [true; 3], 4);
    assert!(rt; failures(rt)? == expected);
    assert!(rt; have_files(&rt, &["store/floor.new"], false));
    Ok(())
}

// What three reads of at most three bytes answer, and what the first gave.
fn three_reads<S: Source>(source: &mut S) -> ([Result<usize, Failed>; 3], [u8; 3]) {
    let mut buf = [0; 3];
    let first = source.read(&mut buf);
    let bytes = buf;
    let second = source.read(&mut buf);
    ([first, second, source.read(&mut buf)], bytes)
}

// The same of a name.
fn reads_of<P: Places>(
    alloc: Global,
    places: &mut P,
    name: &str,
) -> Result<([Result<usize, Failed>; 3], [u8; 3]), Refused> {
    let mut reader = places.open_source(alloc, name)?;
    let reads = three_reads(&mut reader);
    places.close_source(reader);
    Ok(reads)
}

fn opens_no_source<P: Places>(alloc: Global, places: &mut P, name: &str) -> bool {
    match places.open_source(alloc, name) {
        Ok(reader) => {
            places.close_source(reader);
            false
        }
        Err(why) => why == Refused::Failed,
    }
}

fn opens_no_sink<P: Places>(alloc: Global, places: &mut P, name: &str) -> bool {
    match places.open_sink(alloc, name) {
        Ok(writer) => {
            places.close_sink(name, writer);
            false
        }
        Err(why) => why == Refused::Failed,
    }
}

fn is_written<P: Places>(alloc: Global, places: &mut P) -> bool {
    write_to(alloc, places, "x", b"abcd").is_ok()
}

fn is_read<P: Places>(alloc: Global, places: &mut P) -> bool {
    match reads_of(alloc, places, "x") {
        Ok(reads) => reads == ([Ok(3), Ok(1), Ok(0)], *b"abc"),
        Err(_) => false,
    }
}

// Whether a name is written, is a file then, is read, and two others do not open; and the faults of that.
fn files_of(rt: HostRuntime) -> ([bool; 5], (u64, u64, u64)) {
    let alloc = rt.alloc();
    let mut places = FolderPlaces::new(rt);
    let written = is_written(alloc, &mut places);
    let there = file_is(&rt, "x", b"abcd");
    let read = is_read(alloc, &mut places);
    let source = opens_no_source(alloc, &mut places, "absent");
    let sink = opens_no_sink(alloc, &mut places, "no/folder");
    ([written, there, read, source, sink], faults_of(&places))
}

#[test]
fn places_are_the_files_of_the_current_folder(rt: HostRuntime) {
    assert!(rt; files_of(rt) == ([true; 5], (2, 0, 0)));
}

fn fails_once<P: Places>(alloc: Global, places: &mut P, name: &str) -> Result<bool, Refused> {
    let mut reader = places.open_source(alloc, name)?;
    let answer = reader.read(&mut [0; 3]);
    places.close_source(reader);
    Ok(answer == Err(Failed))
}

fn folder_fails(rt: HostRuntime) -> Result<(bool, (u64, u64, u64)), Refused> {
    let mut places = FolderPlaces::new(rt);
    let fails = fails_once(rt.alloc(), &mut places, ".")?;
    Ok((fails, faults_of(&places)))
}

#[test]
fn a_folder_opens_and_fails_when_it_is_read(rt: HostRuntime) -> Result<(), Fail> {
    assert!(rt; folder_fails(rt)? == (true, (0, 1, 0)));
    Ok(())
}

// A stream that gives and takes a byte, and then fails.
#[derive(Drop)]
struct Short {
    calls: u32,
}

impl Read for Short {
    fn read(&mut self, buf: &mut [u8]) -> io::Result<usize> {
        self.calls = self.calls.saturating_add(1);
        if self.calls > 1 || buf.is_empty() {
            return Err(Error::from(ErrorKind::Other));
        }
        buf[0] = b'a';
        Ok(1)
    }
}

impl Write for Short {
    fn write(&mut self, buf: &[u8]) -> io::Result<usize> {
        self.calls = self.calls.saturating_add(1);
        if self.calls > 2 {
            return Err(Error::from(ErrorKind::Other));
        }
        // The second write takes nothing.
        Ok(if self.calls == 1 { buf.len().min(1) } else { 0 })
    }

    fn flush(&mut self) -> io::Result<()> {
        Ok(())
    }
}

// What two reads of a source answer, and its faults.
fn two_reads<S: Source + Drop>(mut source: S) -> ([Result<usize, Failed>; 2], u64) {
    let mut buf = [0; 4];
    let answers = [source.read(&mut buf), source.read(&mut buf)];
    (answers, source.faults())
}

// What three writes to a sink answer, and its faults.
fn three_writes<S: Sink + Drop>(mut sink: S) -> ([Result<usize, Failed>; 3], u64) {
    let answers = [sink.write(b"ab"), sink.write(b"b"), sink.write(b"b")];
    (answers, sink.faults())
}

#[test]
fn errors_of_a_stream_are_counted(rt: HostRuntime) {
    let reads = two_reads(StreamSource::new(Short { calls: 0 }));
    assert!(rt; reads == ([Ok(1), Err(Failed)], 1));
    let writes = three_writes(StreamSink::new(Short { calls: 0 }));
    assert!(rt; writes == ([Ok(1), Err(Failed), Err(Failed)], 2));
}

fn first_read<S: Source + Drop>(mut source: S) -> (Result<usize, Failed>, u64) {
    (source.read(&mut [0; 4]), source.faults())
}

fn line_end<S: Sink + Drop>(mut sink: S) -> (Result<usize, Failed>, u64) {
    (sink.write(b"\n"), sink.faults())
}

#[test]
fn the_standard_streams_are_devices(rt: HostRuntime) {
    assert!(rt; first_read(InSource::new(rt.stdin())) == (Ok(0), 0));
    assert!(rt; line_end(OutSink::new(rt.stdout())) == (Ok(1), 0));
    assert!(rt; line_end(ErrSink::new(rt.stderr())) == (Ok(1), 0));
}
