// Data that is made up, the same in each run.
use crate::watch::Stop;
use fingerprint_stage::{Chunk, name};
use fp_index::Index;
use std::alloc::Global;
use vault_types::list::ListOf;
use vault_types::{Fp, Id, Memory, Table, TableRow};

/// The next number of a linear congruential generator.
pub fn next(state: u64) -> u64 {
    state
        .wrapping_mul(6_364_136_223_846_793_005)
        .wrapping_add(1_442_695_040_888_963_407)
}

/// A fingerprint that no other number gives. Its bytes are spread as those of a hash are.
pub fn fp_of(number: u64) -> Fp {
    let mut bytes = [0u8; 20];
    let (first, rest) = bytes.split_at_mut(8);
    first.copy_from_slice(&next(number).to_be_bytes());
    rest[..8].copy_from_slice(&number.to_be_bytes());
    Fp(bytes)
}

/// A table of so many rows, whose fingerprints are those of the numbers from `first` on.
pub fn table_of(alloc: Global, id: Id, first: u64, rows: u64) -> Result<Table, Memory> {
    let mut list = Vec::new(alloc);
    for i in 0..rows {
        list.push(TableRow {
            fp: fp_of(first.wrapping_add(i)),
            len: 4096,
        })?;
    }
    Ok(Table {
        id,
        rows: ListOf::from_vec(list),
        payload_sum: fp_of(id),
    })
}

/// An index of so many containers of so many rows each, whose fingerprints are those of the numbers from 0 on.
pub fn index_of(alloc: Global, containers: u64, rows: u64) -> Result<Index, Stop> {
    let mut index = Index::from_tables(alloc, &[])?;
    for place in 0..containers {
        let table = table_of(alloc, place.wrapping_add(1), place.wrapping_mul(rows), rows)?;
        index.add_container(alloc, &table)?;
    }
    Ok(index)
}

fn bytes_of(alloc: Global, number: u64, len: usize) -> Result<Vec<u8>, Stop> {
    let mut bytes = Vec::with_capacity(alloc, len.max(8))?;
    bytes.extend_from_slice(&number.to_be_bytes())?;
    bytes.resize(len.max(8), (number % 256) as u8)?;
    Ok(bytes)
}

/// A chunk of `len` bytes, 8 to 65,536, made of a number.
pub fn chunk_of(alloc: Global, number: u64, len: usize) -> Result<Chunk, Stop> {
    let bytes = bytes_of(alloc, number, len)?;
    if bytes.is_empty() || bytes.len() > 65_536 {
        return Err(Stop::Refused);
    }
    Ok(name(bytes))
}
