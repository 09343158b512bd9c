//! Guarded calls of two threads.
ghost use Rattle.std.specs.Prelude.{◌<◌, length, All, OnOk};

use std::alloc::{AllocError, Global};
use std::test::Fail;
use std::thread;
use std::thread::Threads;
use vault_gates::{Gate, GatePlaces, GateShelf, GateSink, GateSource, gates};
use vault_ports::{MemPlaces, MemShelf, MemSink};
use vault_traits::{Failed, Places, Refused, Shelf, Sink, Source};
use vault_types::{Kind, Memory, Name};

const FIRST: Name = Name {
    kind: Kind::Payload,
    number: 1,
};

const SECOND: Name = Name {
    kind: Kind::Payload,
    number: 2,
};

// Puts a piece behind the others.
fn push_piece(pieces: &mut Vec<Vec<u8>>, alloc: Global, bytes: &[u8]) -> Result<(), AllocError>
    requires some { 0 < length bytes.now }
    requires others { All (λ p. 0 < length p.items) pieces.old.items }
    ensures { OnOk result (All (λ p. 0 < length p.items) pieces.new.items) }
{
    let piece = bytes.to_vec(alloc)?;
    pieces.push(piece)?;
    Ok(())
}

// A source of three pieces, of which the second read is guarded.
fn three_pieces(alloc: Global, gate: Gate) -> Result<GateSource, AllocError> {
    let mut pieces = Vec::new(alloc);
    push_piece(&mut pieces, alloc, b"one")?;
    push_piece(&mut pieces, alloc, b"fourteen bytes")?;
    push_piece(&mut pieces, alloc, b"last")?;
    Ok(GateSource::new(pieces, 2, gate))
}

// Reads up to the end.
fn read_all<S: Source>(source: &mut S) {
    let mut buf = [0; 8];
    for _ in 0..20 {
        if source.read(&mut buf) == Ok(0) {
            return;
        }
    }
}

// Writes a piece to a new writer of a name, in up to three writes, and closes it.
fn write_to<P: Places>(
    alloc: Global,
    places: &mut P,
    name: &str,
    piece: &[u8],
) -> Result<(), Refused> {
    let mut writer = places.open_sink(alloc, name)?;
    let mut done = 0;
    for _ in 0..3 {
        if done < piece.len() {
            match writer.write(&piece[done..]) {
                Ok(n) => done += n,
                Err(Failed) => {}
            }
        }
    }
    places.close_sink(name, writer);
    Ok(())
}

fn places_of(alloc: Global, gate: Gate) -> Result<GatePlaces, Memory> {
    Ok(GatePlaces::new(MemPlaces::with(alloc, Vec::new(alloc), 100)?, gate))
}

// A guarded read in a thread of its own and a guarded put in this one: how many reads failed, and how many puts.
fn read_and_put<R: Threads>(rt: &R, alloc: Global) -> Result<(u64, u64), Memory> {
    let (one, two) = gates(alloc)?;
    let mut source = three_pieces(alloc, one)?;
    let mut shelf = GateShelf::new(MemShelf::new(alloc), Kind::Payload, 2, two);
    let Ok(reader) = thread::spawn(rt, move || {
        read_all(&mut source);
        source.faults()
    }) else {
        return Err(Memory);
    };
    let _ = shelf.put(alloc, FIRST, b"a");
    let _ = shelf.put(alloc, SECOND, b"ccc");
    Ok((reader.join(rt), shelf.faults()))
}

// A guarded write in a thread of its own, and one to places in this one: how many writes failed in each.
fn write_and_write<R: Threads>(rt: &R, alloc: Global) -> Result<(u64, u64), Fail> {
    let (one, two) = gates(alloc)?;
    let mut sink = GateSink::new(MemSink::with(alloc, 7)?, Some(one));
    let mut places = places_of(alloc, two)?;
    let Ok(writer) = thread::spawn(rt, move || {
        let _ = sink.write(b"hello");
        sink.faults()
    }) else {
        return Err(Memory.into());
    };
    write_to(alloc, &mut places, "b", b"hello")?;
    Ok((writer.join(rt), places.write_faults()))
}

#[test]
fn guarded_calls_of_two_threads_go_on(rt: HostRuntime) -> Result<(), Fail> {
    for _ in 0..20 {
        assert!(rt; read_and_put(&rt, rt.alloc())? == (0, 0));
        assert!(rt; write_and_write(&rt, rt.alloc())? == (0, 0));
    }
    Ok(())
}
