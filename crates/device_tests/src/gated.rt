//! Worked examples of the devices with gates, on one thread, where nobody is at the other gate.
ghost use Rattle.std.specs.Prelude.{◌<◌, length, All, OnOk};

use crate::calls::{
    Answer, faults_of, four_writes, gives, has_no, lists, puts, removes, settles, write_to,
};
use std::alloc::{AllocError, Global};
use std::test::Fail;
use vault_gates::{Gate, GatePlaces, GateShelf, GateSink, GateSource, gates_that_look};
use vault_ports::{MemPlaces, MemShelf, MemSink};
use vault_traits::{Failed, Places, Refused, Shelf, Sink, Source};
use vault_types::{Kind, Memory, Name};

const FIRST: Name = Name {
    kind: Kind::Payload,
    number: 1,
};

const SECOND: Name = Name {
    kind: Kind::Payload,
    number: 2,
};

const TABLE: Name = Name {
    kind: Kind::Table,
    number: 1,
};

const FLOOR: Name = Name {
    kind: Kind::Floor,
    number: 7,
};

// A gate whose other one is nobody's, so that it refuses its call.
fn lone_gate(alloc: Global) -> Result<Gate, Memory> {
    let (gate, _) = gates_that_look(alloc, 3_000)?;
    Ok(gate)
}

// Puts a piece behind the others.
fn push_piece(pieces: &mut Vec<Vec<u8>>, alloc: Global, bytes: &[u8]) -> Result<(), AllocError>
    requires some { 0 < length bytes.now }
    requires others { All (λ p. 0 < length p.items) pieces.old.items }
    ensures { OnOk result (All (λ p. 0 < length p.items) pieces.new.items) }
{
    let piece = bytes.to_vec(alloc)?;
    pieces.push(piece)?;
    Ok(())
}

// A source of three pieces.
fn three_pieces(alloc: Global, nth: u64, gate: Gate) -> Result<GateSource, AllocError> {
    let mut pieces = Vec::new(alloc);
    push_piece(&mut pieces, alloc, b"one")?;
    push_piece(&mut pieces, alloc, b"fourteen bytes")?;
    push_piece(&mut pieces, alloc, b"last")?;
    Ok(GateSource::new(pieces, nth, gate))
}

// What reads of at most eight bytes answer, each in brackets, up to the end.
fn reads_of<S: Source>(alloc: Global, source: &mut S) -> Result<Vec<u8>, AllocError> {
    let mut all = Vec::new(alloc);
    let mut buf = [0; 8];
    for _ in 0..20 {
        match source.read(&mut buf) {
            Ok(0) => return Ok(all),
            Ok(n) => {
                all.push(b'[')?;
                all.extend_from_slice(&buf[..n])?;
                all.push(b']')?;
            }
            Err(Failed) => all.extend_from_slice(b"[failed]")?,
        }
    }
    Ok(all)
}

// The guarded read, what the reads answer, and how many failed.
const READS: &[(u64, &[u8], u64)] = &[
    (0, b"[one][fourteen][ bytes][last]", 0),
    (1, b"[failed][one][fourteen][ bytes][last]", 1),
    (3, b"[one][fourteen][failed][ bytes][last]", 1),
    (5, b"[one][fourteen][ bytes][last][failed]", 1),
    (6, b"[one][fourteen][ bytes][last]", 0),
];

fn reads_are(alloc: Global, rows: &[(u64, &[u8], u64)]) -> Result<bool, Fail> {
    for (nth, reads, faults) in rows {
        let mut source = three_pieces(alloc, *nth, lone_gate(alloc)?)?;
        if reads_of(alloc, &mut source)?.as_slice() != *reads || source.faults() != *faults {
            return Ok(false);
        }
    }
    Ok(true)
}

#[test]
fn a_source_gives_pieces_and_fails_at_its_guarded_read(rt: HostRuntime) -> Result<(), Fail> {
    assert!(rt; reads_are(rt.alloc(), READS)?);
    Ok(())
}

// What four writes answer with room for seven bytes, what was taken, and how many failed.
fn guarded_writes(alloc: Global) -> Result<([Answer; 4], Vec<u8>, u64), Fail> {
    let gate = lone_gate(alloc)?;
    let mut sink = GateSink::new(MemSink::with(alloc, 7)?, Some(gate));
    let answers = four_writes(&mut sink, b"hello");
    Ok((answers, sink.as_slice().to_vec(alloc)?, sink.faults()))
}

// The same of one write where no gate is.
fn open_write(alloc: Global) -> Result<(Answer, Vec<u8>, u64), Fail> {
    let mut sink = GateSink::new(MemSink::with(alloc, 7)?, None);
    let answer = sink.write(b"hello");
    let faults = sink.faults();
    Ok((answer, sink.into_vec(), faults))
}

#[test]
fn a_sink_fails_at_its_guarded_first_write_and_without_room(rt: HostRuntime) -> Result<(), Fail> {
    let (answers, bytes, faults) = guarded_writes(rt.alloc())?;
    assert!(rt; answers == [Err(Failed), Ok(5), Ok(2), Err(Failed)]);
    assert!(rt; bytes.as_slice() == b"hellohe".as_slice() && faults == 2);
    let (answer, bytes, faults) = open_write(rt.alloc())?;
    assert!(rt; bytes.as_slice() == b"hello".as_slice() && (answer, faults) == (Ok(5), 0));
    Ok(())
}

// Puts four blobs, two of them payloads, and tells which were refused.
fn put_four<S: Shelf>(alloc: Global, shelf: &mut S) -> [bool; 4] {
    let first = shelf.put(alloc, FIRST, b"a").is_err();
    let table = shelf.put(alloc, TABLE, b"bb").is_err();
    let floor = shelf.put_floor(7, &[7; 28]).is_err();
    let second = shelf.put(alloc, SECOND, b"ccc").is_err();
    [first, table, floor, second]
}

// The kind and number of the guarded put, which of the four are refused, and what is there then.
struct Guarded {
    kind: Kind,
    nth: u64,
    refused: [bool; 4],
    names: &'static [Name],
}

const GUARDED: &[Guarded] = &[
    Guarded {
        kind: Kind::Payload,
        nth: 1,
        refused: [true, false, false, false],
        names: &[TABLE, SECOND, FLOOR],
    },
    Guarded {
        kind: Kind::Payload,
        nth: 2,
        refused: [false, false, false, true],
        names: &[TABLE, FIRST, FLOOR],
    },
    Guarded {
        kind: Kind::Table,
        nth: 1,
        refused: [false, true, false, false],
        names: &[FIRST, SECOND, FLOOR],
    },
    Guarded {
        kind: Kind::Floor,
        nth: 1,
        refused: [false, false, true, false],
        names: &[TABLE, FIRST, SECOND],
    },
    Guarded {
        kind: Kind::Floor,
        nth: 2,
        refused: [false, false, false, false],
        names: &[TABLE, FIRST, SECOND, FLOOR],
    },
    Guarded {
        kind: Kind::Recipe,
        nth: 1,
        refused: [false, false, false, false],
        names: &[TABLE, FIRST, SECOND, FLOOR],
    },
];

fn refuses(alloc: Global, row: &Guarded) -> Result<bool, Fail> {
    let gate = lone_gate(alloc)?;
    let mut shelf = GateShelf::new(MemShelf::new(alloc), row.kind, row.nth, gate);
    let refused = put_four(alloc, &mut shelf);
    let faults = if row.refused == [false; 4] { 0 } else { 1 };
    let is_right = refused == row.refused && shelf.faults() == faults;
    let is_listed = lists(alloc, &mut shelf, row.names)? && settles(&mut shelf);
    let inner = shelf.into_inner();
    Ok(is_right && is_listed && inner.names(alloc)?.as_slice() == row.names)
}

fn all_refuse(alloc: Global, rows: &[Guarded]) -> Result<bool, Fail> {
    for row in rows {
        if !refuses(alloc, row)? {
            return Ok(false);
        }
    }
    Ok(true)
}

#[test]
fn a_shelf_fails_at_the_guarded_put_of_its_kind(rt: HostRuntime) -> Result<(), Fail> {
    assert!(rt; all_refuse(rt.alloc(), GUARDED)?);
    Ok(())
}

// A shelf of which the second put of a payload is guarded.
fn second_guarded(alloc: Global) -> Result<GateShelf, Fail> {
    let gate = lone_gate(alloc)?;
    Ok(GateShelf::new(MemShelf::new(alloc), Kind::Payload, 2, gate))
}

fn fails_to_put(alloc: Global, shelf: &mut GateShelf) -> bool {
    shelf.put(alloc, FIRST, b"new") == Err(Refused::Failed)
}

fn gets_of(shelf: &GateShelf) -> u64 {
    shelf.payload_gets()
}

// Whether the old blob is put, and the new one is not; the old one is given, by one read of a payload; and it goes.
fn old_blob_stays(alloc: Global) -> Result<([bool; 2], bool, u64, [bool; 2]), Fail> {
    let mut shelf = second_guarded(alloc)?;
    let put = puts(alloc, &mut shelf, FIRST, b"old");
    let fails = fails_to_put(alloc, &mut shelf);
    let given = gives(alloc, &mut shelf, FIRST, b"old");
    let gets = gets_of(&shelf);
    let removed = removes(&mut shelf, FIRST);
    let absent = has_no(alloc, &mut shelf, FIRST);
    Ok(([put, fails], given, gets, [removed, absent]))
}

#[test]
fn a_put_that_is_refused_leaves_the_old_blob(rt: HostRuntime) -> Result<(), Fail> {
    assert!(rt; old_blob_stays(rt.alloc())? == ([true; 2], true, 1, [true; 2]));
    Ok(())
}

// Places with one name.
fn places_of(alloc: Global, gate: Gate) -> Result<GatePlaces, Fail> {
    let mut files = Vec::new(alloc);
    files.push(("a".to_string(alloc)?, b"hello".to_vec(alloc)?))?;
    Ok(GatePlaces::new(MemPlaces::with(alloc, files, 100)?, gate))
}

// What reads of a name answer.
fn read_from<P: Places>(alloc: Global, places: &mut P, name: &str) -> Result<Vec<u8>, Refused> {
    let mut reader = places.open_source(alloc, name)?;
    let reads = reads_of(alloc, &mut reader);
    places.close_source(reader);
    Ok(reads?)
}

// Whether a piece is written under a name and is there.
fn keeps(alloc: Global, places: &mut GatePlaces, name: &str, piece: &[u8]) -> bool {
    let is_written = write_to(alloc, places, name, piece).is_ok();
    is_written && places.bytes(name) == Some(piece)
}

fn reads_as(alloc: Global, places: &mut GatePlaces, name: &str, reads: &[u8]) -> bool {
    match read_from(alloc, places, name) {
        Ok(found) => found.as_slice() == reads,
        Err(_) => false,
    }
}

fn has_none(alloc: Global, places: &mut GatePlaces, name: &str) -> bool {
    read_from(alloc, places, name).is_err()
}

type Faults = (u64, u64, u64);

// Whether two writers keep what is written, a name is read and another is not, and the faults behind each but the read.
fn through_gate(alloc: Global) -> Result<([bool; 4], [Faults; 3]), Fail> {
    let mut places = places_of(alloc, lone_gate(alloc)?)?;
    let first = keeps(alloc, &mut places, "b", b"fourteen bytes");
    let guarded = faults_of(&places);
    let second = keeps(alloc, &mut places, "c", b"more");
    let open = faults_of(&places);
    let read = reads_as(alloc, &mut places, "a", b"[hello]");
    let none = has_none(alloc, &mut places, "d");
    let all = faults_of(&places);
    Ok(([first, second, read, none], [guarded, open, all]))
}

#[test]
fn places_have_a_gate_for_their_first_writer_alone(rt: HostRuntime) -> Result<(), Fail> {
    let (done, faults) = through_gate(rt.alloc())?;
    assert!(rt; done == [true; 4]);
    assert!(rt; faults == [(0, 0, 1), (0, 0, 1), (1, 0, 1)]);
    Ok(())
}
