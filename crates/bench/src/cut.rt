// Cutting by extremum, alone: the time in `feed` of all pieces of standard input.
use crate::watch::{Stop, Watch, rate};
use chunk_ae::Ae;
use folder_shelf::InSource;
use std::alloc::Global;
use vault_traits::Source;

// The bytes of pieces, how many chunks ended in them, and the nanoseconds that took.
#[derive(Clone, Copy)]
struct Pieces {
    bytes: u64,
    chunks: u64,
    took: u64,
}

fn feed(alloc: Global, chunker: &mut Ae, piece: &[u8]) -> Result<Vec<Vec<u8>>, Stop> {
    let mut chunks = Vec::new(alloc);
    chunker.feed(alloc, piece, &mut chunks)?;
    Ok(chunks)
}

// Of one piece, with no bytes at the end of the source.
fn next_piece(
    rt: HostRuntime,
    source: &mut InSource,
    room: &mut [u8],
    chunker: &mut Ae,
    watch: &mut Watch,
) -> Result<Pieces, Stop> {
    if room.is_empty() {
        return Err(Stop::Refused);
    }
    let n = source.read(room)?;
    let _reading = watch.lap(rt);
    let chunks = feed(rt.alloc(), chunker, &room[..n])?;
    let took = watch.lap(rt);
    Ok(Pieces {
        bytes: n as u64,
        chunks: chunks.len() as u64,
        took,
    })
}

fn add(all: Pieces, one: Pieces) -> Pieces {
    Pieces {
        bytes: all.bytes.saturating_add(one.bytes),
        chunks: all.chunks.saturating_add(one.chunks),
        took: all.took.saturating_add(one.took),
    }
}

fn cut(rt: HostRuntime) -> Result<Pieces, Stop> {
    let mut source = InSource::new(rt.stdin());
    let mut room = vec![in rt.alloc(); 0u8; 65_536]?;
    let mut chunker = Ae::new(4096, 65_536);
    let mut watch = Watch::start(rt)?;
    let mut all = Pieces {
        bytes: 0,
        chunks: 0,
        took: 0,
    };
    for _turn in 0..u64::MAX {
        let one = next_piece(
            rt,
            &mut source,
            room.as_mut_slice(),
            &mut chunker,
            &mut watch,
        )?;
        if one.bytes == 0 {
            break;
        }
        all = add(all, one);
    }
    watch.end()?;
    Ok(all)
}

pub fn run(rt: HostRuntime) -> Result<(), Stop> {
    let Pieces {
        bytes,
        chunks,
        took,
    } = cut(rt)?;
    let rate = rate(bytes, took);
    println!(rt; "cut: {bytes} bytes, {chunks} chunks, {rate} MB/s")?;
    Ok(())
}
