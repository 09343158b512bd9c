// What tests put on a shelf, and what they find there.
use container_fill::Filler;
use container_store::Sealed;
use fingerprint_stage::name;
use recipe_store::get_floor;
use rewrite_stage::Decided;
use std::alloc::Global;
use std::test::Fail;
use vault_ports::{FaultShelf, MemShelf};
use vault_traits::Shelf;
use vault_types::{Fault, How, Kind, Memory, Name, Version, Why};

pub const TABLE: Name = Name {
    kind: Kind::Table,
    number: 1,
};

pub const PAYLOAD: Name = Name {
    kind: Kind::Payload,
    number: 1,
};

// The first version of set 3.
pub const RECIPE: Name = Name {
    kind: Kind::Recipe,
    number: 12_884_901_889,
};

pub const FLOOR: Name = Name {
    kind: Kind::Floor,
    number: 3,
};

pub fn damaged(name: Name, why: Why) -> Option<Fault> {
    Some(Fault::Damaged {
        kind: name.kind,
        number: name.number,
        why,
    })
}

// Container 1, of one chunk.
pub fn one_chunk(alloc: Global) -> Result<Sealed, Fail> {
    let mut filler = Filler::new(alloc, 1, 4);
    let chunk = name(b"abcd".to_vec(alloc)?);
    filler.push(
        alloc,
        Decided {
            chunk,
            how: How::Write,
        },
    )?;
    Ok(filler.finish().last.ok_or("no container")?.seal())
}

pub fn shelf_with(alloc: Global, name: Name, blob: &[u8]) -> Result<MemShelf, Memory> {
    let mut blobs = Vec::new(alloc);
    blobs.push((name, blob.to_vec(alloc)?))?;
    MemShelf::with(alloc, blobs)
}

// A shelf of which the calls of these numbers fail.
pub fn faulty(
    alloc: Global,
    inner: MemShelf,
    fail: &[u64],
    keep: bool,
) -> Result<FaultShelf, Memory> {
    Ok(FaultShelf::new(inner, fail.to_vec(alloc)?, keep))
}

pub fn lists(alloc: Global, shelf: &MemShelf, names: &[Name]) -> bool {
    match shelf.names(alloc) {
        Ok(found) => found.as_slice() == names,
        Err(_) => false,
    }
}

pub fn holds(shelf: &MemShelf, name: Name, blob: &[u8]) -> bool {
    shelf.blob(name) == Some(blob)
}

// Whether so many calls failed, and these names are left.
pub fn ends_with(alloc: Global, shelf: FaultShelf, faults: u64, names: &[Name]) -> bool {
    let failed = shelf.faults();
    lists(alloc, &shelf.into_inner(), names) && failed == faults
}

pub fn floor_of<S: Shelf>(alloc: Global, shelf: &mut S) -> Result<Version, Fault> {
    get_floor(alloc, shelf, 3)
}
