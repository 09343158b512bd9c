//! Streams that are cut, by size and by extremum, and chunks that are cut into segments.
use chunk_ae::{Ae, first_cut};
use chunk_fixed::Fixed;
use segmenter::{Cut, Segmenter};
use std::alloc::Global;
use std::test::Fail;
use vault_types::Memory;

fn are(chunks: &[Vec<u8>], expected: &[&[u8]]) -> bool {
    if chunks.len() != expected.len() {
        return false;
    }
    for place in 0..chunks.len() {
        if chunks[place].as_slice() != expected[place] {
            return false;
        }
    }
    true
}

// Whether so many chunks come before the end of a stream of these pieces, and these with it.
fn is_cut(
    alloc: Global,
    mut chunker: Fixed,
    pieces: &[&[u8]],
    before: usize,
    chunks: &[&[u8]],
) -> Result<bool, Fail> {
    let mut out = Vec::new(alloc);
    for piece in pieces {
        chunker.feed(alloc, piece, &mut out)?;
    }
    let count = out.len();
    chunker.finish(&mut out)?;
    Ok(count == before && are(out.as_slice(), chunks))
}

#[test]
fn a_stream_in_three_pieces_is_cut_by_four(rt: HostRuntime) -> Result<(), Fail> {
    let pieces = [b"ab".as_slice(), b"cdab", b"cdab"];
    let chunks = [b"abcd".as_slice(), b"abcd", b"ab"];
    assert!(rt; is_cut(rt.alloc(), Fixed::new(4), &pieces, 2, &chunks)?);
    Ok(())
}

#[test]
fn an_empty_stream_has_no_chunk(rt: HostRuntime) -> Result<(), Fail> {
    let pieces = [b"".as_slice()];
    assert!(rt; is_cut(rt.alloc(), Fixed::new(65_536), &pieces, 0, &[])?);
    Ok(())
}

// The chunks of these bytes, fed in pieces of `piece` bytes.
fn chunks_of(
    alloc: Global,
    mut chunker: Ae,
    bytes: &[u8],
    piece: usize,
) -> Result<Vec<Vec<u8>>, Memory> {
    let mut chunks = Vec::new(alloc);
    for part in bytes.chunks(piece.max(1)) {
        chunker.feed(alloc, part, &mut chunks)?;
    }
    chunker.finish(&mut chunks)?;
    Ok(chunks)
}

fn lens_of(alloc: Global, chunks: &[Vec<u8>]) -> Result<Vec<usize>, Memory> {
    let mut found = Vec::new(alloc);
    for chunk in chunks {
        found.push(chunk.len())?;
    }
    Ok(found)
}

// The lengths of the chunks of twenty equal bytes, fed in pieces of `piece` bytes.
fn lengths(alloc: Global, chunker: Ae, byte: u8, piece: usize) -> Result<Vec<usize>, Memory> {
    let chunks = chunks_of(alloc, chunker, &[byte; 20], piece)?;
    lens_of(alloc, chunks.as_slice())
}

// Twenty equal bytes, and the lengths of their chunks where a window of 4 and this greatest length cut them.
struct Equal {
    max: u32,
    byte: u8,
    lengths: &'static [usize],
}

const EQUALS: &[Equal] = &[
    Equal {
        max: 65_536,
        byte: 0,
        lengths: &[5, 5, 5, 5],
    },
    Equal {
        max: 65_536,
        byte: b'a',
        lengths: &[12, 8],
    },
    Equal {
        max: 10,
        byte: b'a',
        lengths: &[10, 10],
    },
];

fn equals_are(alloc: Global, rows: &[Equal], piece: usize) -> Result<bool, Fail> {
    for row in rows {
        if row.max <= 4 || row.max > 65_536 {
            return Err(Fail::from("greatest length"));
        }
        let found = lengths(alloc, Ae::new(4, row.max), row.byte, piece)?;
        if found.as_slice() != row.lengths {
            return Ok(false);
        }
    }
    Ok(true)
}

#[test]
fn chunks_end_a_window_behind_a_peak(rt: HostRuntime) -> Result<(), Fail> {
    for piece in [20, 7, 1] {
        assert!(rt;
            equals_are(rt.alloc(), EQUALS, piece)?,
            "in pieces of {piece}"
        );
    }
    Ok(())
}

// How many chunks came after each piece of so many zeros, and after the end.
fn counts(alloc: Global, mut chunker: Ae, pieces: &[usize]) -> Result<Vec<usize>, Fail> {
    let mut chunks = Vec::new(alloc);
    let mut found = Vec::new(alloc);
    for piece in pieces {
        let zeros = vec![in alloc; 0u8; *piece]?;
        chunker.feed(alloc, zeros.as_slice(), &mut chunks)?;
        found.push(chunks.len())?;
    }
    chunker.finish(&mut chunks)?;
    found.push(chunks.len())?;
    Ok(found)
}

#[test]
fn a_chunk_comes_as_soon_as_its_length_is_fixed(rt: HostRuntime) -> Result<(), Fail> {
    let found = counts(rt.alloc(), Ae::new(4, 65_536), &[4, 1, 5, 4])?;
    assert!(rt; found.as_slice() == [0, 1, 2, 2, 3].as_slice());
    Ok(())
}

#[test]
fn the_first_cut_is_the_first_length(rt: HostRuntime) {
    let zeros = [0; 20];
    let found = [
        first_cut(&zeros, 4, 10),
        first_cut(&[b'a'; 20], 4, 65_536),
        first_cut(&zeros[..3], 4, 10),
        first_cut(b"", 4, 10),
    ];
    assert!(rt; found == [5, 12, 3, 0]);
}

// Whether each chunk of these lengths begins a new segment.
fn segments(alloc: Global, size: u32, lens: &[u32]) -> Result<Vec<Cut>, Fail> {
    let mut segmenter = Segmenter::new(size);
    let mut found = Vec::new(alloc);
    for len in lens {
        if *len < 1 || *len > 65_536 {
            return Err(Fail::from("length"));
        }
        found.push(segmenter.push(*len))?;
    }
    Ok(found)
}

#[test]
fn a_segment_ends_before_what_does_not_fit(rt: HostRuntime) -> Result<(), Fail> {
    let found = segments(rt.alloc(), 10, &[4, 6, 1, 20, 1])?;
    let cuts = [
        Cut::Same,
        Cut::Same,
        Cut::NewBefore,
        Cut::NewBefore,
        Cut::NewBefore,
    ];
    assert!(rt; found.as_slice() == cuts.as_slice());
    Ok(())
}
