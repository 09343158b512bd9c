//! What tests see of a shelf.
use crate::sum;
use container_store::{get_table, load};
use recipe_store::get_recipe;
use std::alloc::Global;
use std::test::Fail;
use vault_ports::MemShelf;
use vault_types::{Answer, Fault, Fp, Id, Kind, Set, Version};

/// The names on a shelf, by kind and number, as `T1 P1 R1 F0`.
pub fn listing(alloc: Global, shelf: &MemShelf) -> Result<String, Fail> {
    let mut text = String::new(alloc);
    for name in &shelf.names(alloc)? {
        let kind = match name.kind {
            Kind::Table => "T",
            Kind::Payload => "P",
            Kind::Recipe => "R",
            Kind::Floor => "F",
        };
        if !text.is_empty() {
            text.push_str(" ")?;
        }
        text.push_str(kind)?;
        text.push_str(&format!(in alloc; "{}", name.number)?)?;
    }
    Ok(text)
}

// Adds the bytes of a container's chunk.
fn add_chunk(
    alloc: Global,
    shelf: &mut MemShelf,
    id: Id,
    fp: Fp,
    bytes: &mut Vec<u8>,
) -> Result<(), Fail> {
    let table = get_table(alloc, shelf, id)?;
    let payload = load(alloc, shelf, &table)?;
    let mut rest = payload.as_slice();
    for row in table.rows.as_slice() {
        let (chunk, behind) = rest
            .split_at_checked(row.len as usize)
            .ok_or("the payload is whole")?;
        if row.fp == fp {
            bytes.extend_from_slice(chunk)?;
            return Ok(());
        }
        rest = behind;
    }
    Err(Fail::from("the chunk is in its container"))
}

/// The bytes of a version on a shelf: those of the chunks that its recipe names.
pub fn bytes_of(
    alloc: Global,
    shelf: &mut MemShelf,
    set: Set,
    version: Version,
) -> Result<Vec<u8>, Fail> {
    let recipe = get_recipe(alloc, shelf, set, version)?;
    let mut bytes = Vec::new(alloc);
    for row in recipe.rows.as_slice() {
        add_chunk(alloc, shelf, row.id, row.fp, &mut bytes)?;
    }
    if recipe.whole != Some(sum(&bytes)) {
        return Err(Fail::from("the sum is that of the bytes"));
    }
    Ok(bytes)
}

/// What a deletion in set 0 answers.
pub fn removed(through: Version, floor: Version, reclaimed: u64) -> Result<Answer, Fault> {
    Ok(Answer::Removed {
        set: 0,
        through,
        floor,
        reclaimed,
    })
}
