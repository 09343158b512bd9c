//! What is decided for chunks of containers that are sparse, capped, or neither.
use fingerprint_stage::{Chunk, name, sum};
use fp_index::Index;
use rewrite_stage::{Decided, Decider};
use std::alloc::Global;
use std::test::Fail;
use vault_types::list::ListOf;
use vault_types::{Fp, How, Id, JobConfig, Memory, Rewrite, Table, TableRow};

// A chunk of four times the same letter.
fn chunk(alloc: Global, letter: u8) -> Result<Chunk, Memory> {
    let bytes = vec![in alloc; letter, letter, letter, letter]?;
    Ok(name(bytes))
}

fn fp_of(letter: u8) -> Fp {
    sum(&[letter; 4])
}

fn chunks(alloc: Global, letters: &[u8]) -> Result<Vec<Chunk>, Memory> {
    let mut chunks = Vec::new(alloc);
    for letter in letters {
        chunks.push(chunk(alloc, *letter)?)?;
    }
    Ok(chunks)
}

fn table(alloc: Global, id: Id, letters: &[u8]) -> Result<Table, Memory> {
    let mut rows = Vec::new(alloc);
    for letter in letters {
        rows.push(TableRow {
            fp: fp_of(*letter),
            len: 4,
        })?;
    }
    Ok(Table {
        id,
        rows: ListOf::from_vec(rows),
        payload_sum: sum(letters),
    })
}

// An index of containers of these letters.
fn index_of(alloc: Global, containers: &[(Id, &[u8])]) -> Result<Index, Memory> {
    let mut index = Index::from_tables(alloc, &[])?;
    for (id, letters) in containers {
        index.add_container(alloc, &table(alloc, *id, letters)?)?;
    }
    Ok(index)
}

fn decider_of(
    alloc: Global,
    containers: &[(Id, &[u8])],
    sparse: &[Id],
    rewrite: Rewrite,
    cap: u32,
) -> Result<Decider, Memory> {
    let mut config = JobConfig::standard();
    config.rewrite = rewrite;
    config.cap = cap;
    let index = index_of(alloc, containers)?;
    Ok(Decider::new(alloc, index, sparse.to_vec(alloc)?, config))
}

fn are(decided: &[Decided], hows: &[How]) -> bool {
    if decided.len() != hows.len() {
        return false;
    }
    for place in 0..decided.len() {
        if decided[place].how != hows[place] {
            return false;
        }
    }
    true
}

fn decides(
    alloc: Global,
    decider: &mut Decider,
    letters: &[u8],
    hows: &[How],
) -> Result<bool, Memory> {
    let decided = decider.segment(alloc, chunks(alloc, letters)?)?;
    Ok(are(decided.as_slice(), hows))
}

fn decides_with(
    alloc: Global,
    decider: &mut Decider,
    letters: &[u8],
    answers: &[Option<Id>],
    hows: &[How],
) -> Result<bool, Memory> {
    let decided = decider.segment_with(alloc, chunks(alloc, letters)?, answers)?;
    Ok(are(decided.as_slice(), hows))
}

fn ends_with(decider: Decider, letter: u8, id: Id) -> bool {
    decider.end().find(&fp_of(letter)) == Some(id)
}

#[test]
fn a_chunk_of_a_sparse_container_is_written_once(rt: HostRuntime) -> Result<(), Fail> {
    let alloc = rt.alloc();
    let mut decider = decider_of(alloc, &[(1, b"a")], &[1], Rewrite::Har, 16)?;
    let hows = [How::Write, How::Own, How::Own];
    assert!(rt; decides(alloc, &mut decider, b"aaa", &hows)?);
    assert!(rt; decides(alloc, &mut decider, b"a", &[How::Own])?);
    assert!(rt; ends_with(decider, b'a', 1));
    Ok(())
}

#[test]
fn a_capped_segment_refers_to_its_most_used_container(rt: HostRuntime) -> Result<(), Fail> {
    let alloc = rt.alloc();
    let mut decider = decider_of(alloc, &[(1, b"a"), (2, b"b")], &[], Rewrite::Cap, 1)?;
    let hows = [How::Write, How::Old(2), How::Old(2)];
    assert!(rt; decides(alloc, &mut decider, b"abb", &hows)?);
    let handed = [How::Write, How::Old(7)];
    assert!(rt; decides_with(alloc, &mut decider, b"cd", &[None, Some(7)], &handed)?);
    Ok(())
}
