//! Feeds the decoders hostile bytes: every worked blob with each single byte changed to each other value, each cut, each
//! byte added, and under other numbers. Prints how many each blob came to, and any that was taken for a blob.
#![tactic(auto)]

mod blobs;

use crate::blobs::{EMPTY, FLOOR, HIGHER, PLAIN, SECOND, TABLE, THIRD};
use blob_parts::sum_of;
use container_store::decode_table;
use recipe_store::{decode_floor, decode_recipe};
use std::alloc::{AllocError, AllocFailed, Global};
use std::io;
use std::process::ExitCode;
use vault_types::{Memory, Set, Version};

/// There was no memory, or the host refused to print.
#[derive(Drop)]
enum Stop {
    Memory,
    Host,
}

impl From<Memory> for Stop {
    fn from(_: Memory) -> Self {
        Stop::Memory
    }
}

impl From<AllocError> for Stop {
    fn from(_: AllocError) -> Self {
        Stop::Memory
    }
}

impl<T: Drop> From<AllocFailed<T>> for Stop {
    fn from(_: AllocFailed<T>) -> Self {
        Stop::Memory
    }
}

impl From<io::Error> for Stop {
    fn from(_: io::Error) -> Self {
        Stop::Host
    }
}

/// What bytes are read as.
#[derive(Clone, Copy)]
enum As {
    Table(u64),
    Recipe(Set, Version),
    Floor(Set),
}

fn main(rt: HostRuntime) -> ExitCode {
    match run(rt) {
        Ok(()) => ExitCode::SUCCESS,
        Err(_) => ExitCode::FAILURE,
    }
}

fn run(rt: HostRuntime) -> Result<(), Stop> {
    all_of(rt, "table 1", &TABLE, As::Table(1), As::Table(2))?;
    all_of(
        rt,
        "recipe 1, format 1",
        &PLAIN,
        As::Recipe(0, 1),
        As::Recipe(0, 2),
    )?;
    all_of(
        rt,
        "recipe 1, format 2",
        &SECOND,
        As::Recipe(0, 1),
        As::Recipe(1, 1),
    )?;
    all_of(
        rt,
        "recipe 1 of set 3",
        &THIRD,
        As::Recipe(3, 1),
        As::Recipe(4, 1),
    )?;
    all_of(
        rt,
        "recipe of no bytes",
        &EMPTY,
        As::Recipe(0, 1),
        As::Recipe(0, 2),
    )?;
    all_of(rt, "floor 1", &FLOOR, As::Floor(0), As::Floor(1))?;
    all_of(rt, "floor 5 of set 3", &HIGHER, As::Floor(3), As::Floor(4))
}

// Whether the bytes are taken for a blob.
fn is_taken(alloc: Global, bytes: &[u8], kind: As) -> Result<bool, Memory> {
    match kind {
        As::Table(id) => Ok(decode_table(alloc, bytes, id)?.is_some()),
        As::Recipe(set, version) => Ok(decode_recipe(alloc, bytes, set, version)?.is_some()),
        As::Floor(set) => Ok(decode_floor(bytes, set).is_some()),
    }
}

// Reads the blob, and all that is made of it.
fn all_of(rt: HostRuntime, name: &str, blob: &[u8], kind: As, other: As) -> Result<(), Stop> {
    let alloc = rt.alloc();
    let own = is_taken(alloc, blob, kind)?;
    let foreign = is_taken(alloc, blob, other)?;
    let (changed, changed_taken) = each_changed(alloc, blob, kind)?;
    let (cut, cut_taken) = each_cut(alloc, blob, kind)?;
    let (longer, longer_taken) = each_longer(alloc, blob, kind)?;
    let (summed, summed_taken) = each_summed(alloc, blob, kind)?;
    println!(rt;
        "{name}: read {own}, under another number {foreign}; {changed} changed, {cut} cut, {longer} longer: {changed_taken}, {cut_taken} and {longer_taken} taken; with right sums {summed_taken} of {summed}"
    )?;
    Ok(())
}

// Each byte changed to each other value: how many, and how many are taken for a blob.
fn each_changed(alloc: Global, blob: &[u8], kind: As) -> Result<(u64, u64), Stop> {
    let mut bytes = blob.to_vec(alloc)?;
    let mut count = 0u64;
    let mut taken = 0u64;
    for i in 0..blob.len() {
        for value in 0..=255u8 {
            if value != blob[i] {
                change(&mut bytes, i, value);
                count = count.saturating_add(1);
                if is_taken(alloc, bytes.as_slice(), kind)? {
                    taken = taken.saturating_add(1);
                }
            }
        }
        change(&mut bytes, i, blob[i]);
    }
    Ok((count, taken))
}

// Each byte before the sum changed to each other value, and the sum made right. What is taken spells another value: no
// decoder could know that.
fn each_summed(alloc: Global, blob: &[u8], kind: As) -> Result<(u64, u64), Stop> {
    let mut count = 0u64;
    let mut taken = 0u64;
    let set = match kind {
        As::Table(_) => 0,
        As::Recipe(set, _) => set,
        As::Floor(set) => set,
    };
    let mut body = blob[..blob.len().saturating_sub(20)].to_vec(alloc)?;
    for i in 0..body.len() {
        for value in 0..=255u8 {
            if value != blob[i] {
                change(&mut body, i, value);
                let mut bytes = body.as_slice().to_vec(alloc)?;
                bytes.extend_from_slice(&sum_of(body.as_slice(), set))?;
                count = count.saturating_add(1);
                if is_taken(alloc, bytes.as_slice(), kind)? {
                    taken = taken.saturating_add(1);
                }
            }
        }
        change(&mut body, i, blob[i]);
    }
    Ok((count, taken))
}

// Sets a byte, where there is one.
fn change(bytes: &mut Vec<u8>, i: usize, value: u8) {
    if let Some(byte) = bytes.as_mut_slice().get_mut(i) {
        *byte = value;
    }
}

// Each front of the blob.
fn each_cut(alloc: Global, blob: &[u8], kind: As) -> Result<(u64, u64), Stop> {
    let mut count = 0u64;
    let mut taken = 0u64;
    for len in 0..blob.len() {
        count = count.saturating_add(1);
        if is_taken(alloc, &blob[..len], kind)? {
            taken = taken.saturating_add(1);
        }
    }
    Ok((count, taken))
}

// Each byte put in at each place.
fn each_longer(alloc: Global, blob: &[u8], kind: As) -> Result<(u64, u64), Stop> {
    let mut count = 0u64;
    let mut taken = 0u64;
    for at in 0..=blob.len() {
        for value in 0..=255u8 {
            let mut bytes = Vec::with_capacity(alloc, blob.len().saturating_add(1))?;
            bytes.extend_from_slice(&blob[..at])?;
            bytes.push(value)?;
            bytes.extend_from_slice(&blob[at..])?;
            count = count.saturating_add(1);
            if is_taken(alloc, bytes.as_slice(), kind)? {
                taken = taken.saturating_add(1);
            }
        }
    }
    Ok((count, taken))
}
