//! Fingerprints, as those of the standard.
use fingerprint_stage::{RunningSum, name, sum};
use std::alloc::Global;
use std::test::Fail;
use vault_types::Fp;

const EMPTY: Fp = Fp([
    0xda, 0x39, 0xa3, 0xee, 0x5e, 0x6b, 0x4b, 0x0d, 0x32, 0x55, 0xbf, 0xef, 0x95, 0x60, 0x18, 0x90,
    0xaf, 0xd8, 0x07, 0x09,
]);

const ABC: Fp = Fp([
    0xa9, 0x99, 0x3e, 0x36, 0x47, 0x06, 0x81, 0x6a, 0xba, 0x3e, 0x25, 0x71, 0x78, 0x50, 0xc2, 0x6c,
    0x9c, 0xd0, 0xd8, 0x9d,
]);

#[test]
fn sums_are_those_of_the_standard(rt: HostRuntime) {
    assert!(rt; [sum(b""), sum(b"abc")] == [EMPTY, ABC]);
}

// Whether the chunk of these bytes has them, their length and this fingerprint.
fn is_named(alloc: Global, bytes: &[u8], fp: Fp) -> Result<bool, Fail> {
    if bytes.is_empty() || bytes.len() > 65_536 {
        return Err(Fail::from("length"));
    }
    let chunk = name(bytes.to_vec(alloc)?);
    let is_right = chunk.fp() == fp
        && chunk.len() as usize == bytes.len()
        && chunk.bytes() == bytes;
    Ok(is_right && chunk.into_bytes().as_slice() == bytes)
}

#[test]
fn a_chunk_is_named_by_its_bytes(rt: HostRuntime) -> Result<(), Fail> {
    assert!(rt; is_named(rt.alloc(), b"abc", ABC)?);
    Ok(())
}

fn sum_of(pieces: &[&[u8]]) -> Fp {
    let mut running = RunningSum::new();
    for piece in pieces {
        running.add(piece);
    }
    running.finish()
}

#[test]
fn a_sum_may_come_in_pieces(rt: HostRuntime) {
    let pieces = [b"a".as_slice(), b"", b"bc"];
    assert!(rt; [sum_of(&pieces), sum_of(&[])] == [ABC, EMPTY]);
}
