// Made streams, by both calls.
use crate::both::{Case, Left, are_same, ran_in_threads, ran_on_one};
use std::alloc::Global;
use std::sync::Wait;
use std::test::Fail;
use std::thread::Threads;
use std::time::Clock;
use vault_ports::MemShelf;
use vault_traits::Source;
use workload::Generated;

// What a case leaves over an empty shelf in threads, where that is what it leaves on one thread.
fn left_by_both<H: Threads + Wait + Clock + Copy + Drop + Send>(
    host: H,
    alloc: Global,
    case: Case<'_>,
) -> Result<Left, Fail> {
    let one = ran_on_one(alloc, case, MemShelf::new(alloc))?;
    let other = ran_in_threads(host, alloc, case, MemShelf::new(alloc))?;
    if are_same(alloc, &one, &other)? {
        return Ok(other);
    }
    let words = case.words;
    Err(Fail::new(format!(in alloc; "at {words}: the runs are not the same")?))
}

// The first 64,000 bytes of a made version.
fn made_bytes(alloc: Global) -> Result<Vec<u8>, Fail> {
    let mut bytes = Vec::from_elem(alloc, 0u8, 64_000)?;
    match Generated::new(1, 1).read(bytes.as_mut_slice()) {
        Ok(64_000) => Ok(bytes),
        _ => Err(Fail::from("a version begins with a block that is longer")),
    }
}

const THOUSAND_CHUNKS: &[u8] = b"backup 1: 1000 chunks, 64000 bytes, ";

// Whether a backup of a thousand chunks by these words is as on one thread.
fn stores_a_thousand_chunks<H: Threads + Wait + Clock + Copy + Drop + Send>(
    host: H,
    alloc: Global,
    words: &str,
) -> Result<bool, Fail> {
    let mut files = Vec::new(alloc);
    files.push((String::from_str(alloc, "made")?, made_bytes(alloc)?))?;
    let case = Case {
        words,
        input: b"backup made chunk=fixed size=64\n",
        call: 0,
        files: files.as_slice(),
    };
    let left = left_by_both(host, alloc, case)?;
    Ok(left.status == 0 && left.out.as_slice().starts_with(THOUSAND_CHUNKS))
}

#[test]
fn chunks_pass_through_lines_of_one_place(rt: HostRuntime) -> Result<(), Fail> {
    assert!(rt; stores_a_thousand_chunks(rt, rt.alloc(), "batch --queue 1")?);
    assert!(rt; stores_a_thousand_chunks(rt, rt.alloc(), "batch --queue 1 --lanes 3")?);
    Ok(())
}

fn count_of_lines(text: &[u8]) -> usize {
    let mut lines = 0usize;
    for byte in text {
        if *byte == b'\n' {
            lines = lines.saturating_add(1);
        }
    }
    lines
}

// The status of a `fill` of five versions, which is as on one thread, and how many lines it prints.
fn fill_of_five<H: Threads + Wait + Clock + Copy + Drop + Send>(
    host: H,
    alloc: Global,
) -> Result<(u8, usize), Fail> {
    let case = Case {
        words: "fill --seed 7 --versions 5",
        input: b"",
        call: 0,
        files: &[],
    };
    let left = left_by_both(host, alloc, case)?;
    Ok((left.status, count_of_lines(left.out.as_slice())))
}

#[test]
fn made_versions_come_back(rt: HostRuntime) -> Result<(), Fail> {
    assert!(rt; fill_of_five(rt, rt.alloc())? == (0, 16));
    Ok(())
}
