//! Calls of any device, and what they answer.
use std::alloc::Global;
use std::test::Fail;
use vault_traits::{Failed, Places, Refused, Shelf, Sink, Source};
use vault_types::{Kind, Name};

pub type Answer = Result<usize, Failed>;

// What four reads of at most eight bytes answer.
pub fn four_reads<S: Source>(source: &mut S) -> [Answer; 4] {
    let mut buf = [0; 8];
    let first = source.read(&mut buf);
    let second = source.read(&mut buf);
    let third = source.read(&mut buf);
    [first, second, third, source.read(&mut buf)]
}

// What a source gives in reads of at most eight bytes, also where some fail before the end.
pub fn read_all<S: Source>(alloc: Global, source: &mut S) -> Result<Vec<u8>, Refused> {
    let mut all = Vec::new(alloc);
    let mut buf = [0; 8];
    for _ in 0..20 {
        match source.read(&mut buf) {
            Ok(0) => return Ok(all),
            Ok(n) => all.extend_from_slice(&buf[..n])?,
            Err(Failed) => {}
        }
    }
    Ok(all)
}

// What four writes of five bytes answer.
pub fn four_writes<S: Sink>(sink: &mut S, piece: &[u8; 5]) -> [Answer; 4] {
    let first = sink.write(piece);
    let second = sink.write(piece);
    let third = sink.write(piece);
    [first, second, third, sink.write(piece)]
}

// Writes a piece to a new writer of a name, in up to twenty writes, and closes it.
pub fn write_to<P: Places>(
    alloc: Global,
    places: &mut P,
    name: &str,
    piece: &[u8],
) -> Result<(), Refused> {
    let mut writer = places.open_sink(alloc, name)?;
    let mut done = 0;
    for _ in 0..20 {
        if done < piece.len() {
            match writer.write(&piece[done..]) {
                Ok(n) => done += n,
                Err(Failed) => {}
            }
        }
    }
    places.close_sink(name, writer);
    Ok(())
}

// The faults of places, of their readers and of their writers.
pub fn faults_of<P: Places>(places: &P) -> (u64, u64, u64) {
    (places.faults(), places.read_faults(), places.write_faults())
}

pub fn lists<S: Shelf>(alloc: Global, shelf: &mut S, names: &[Name]) -> Result<bool, Fail> {
    Ok(shelf.list(alloc)?.as_slice() == names)
}

// Whether a blob is put, which is no floor.
pub fn puts<S: Shelf>(alloc: Global, shelf: &mut S, name: Name, bytes: &[u8]) -> bool {
    match name.kind {
        Kind::Floor => false,
        _ => shelf.put(alloc, name, bytes).is_ok(),
    }
}

pub fn has_no<S: Shelf>(alloc: Global, shelf: &mut S, name: Name) -> bool {
    matches!(shelf.get(alloc, name), Ok(None))
}

pub fn gives<S: Shelf>(alloc: Global, shelf: &mut S, name: Name, bytes: &[u8]) -> bool {
    match shelf.get(alloc, name) {
        Ok(Some(found)) => found.as_slice() == bytes,
        _ => false,
    }
}

pub fn removes<S: Shelf>(shelf: &mut S, name: Name) -> bool {
    shelf.remove(name).is_ok()
}

pub fn settles<S: Shelf>(shelf: &mut S) -> bool {
    shelf.settle().is_ok()
}
