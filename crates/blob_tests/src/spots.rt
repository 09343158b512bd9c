// Rows of two containers, and rows that are refused.
ghost use Rattle.std.specs.Prelude.{◌<◌, ◌^◌, length, IfOk, OnOk};
ghost use Rattle.row_spots.specs.Spots.{AreRuled};

use blob_parts::{push_sum, push_u32, push_u64};
use container_store::decode_table;
use row_spots::{Unplaced, spots_of};
use std::alloc::Global;
use std::collections::BTreeMap;
use std::test::Fail;
use vault_types::{Fp, Id, Memory, Row, Spot, Table};

fn numbered(number: u8) -> Fp {
    Fp([number; 20])
}

// The blob of a table: the numbers of its fingerprints, each with a length.
fn table_blob(alloc: Global, id: Id, chunks: &[(u8, u32)]) -> Result<Vec<u8>, Memory>
    requires { length chunks.now < 2 ^ 32 }
{
    let mut blob = b"DTB1".to_vec(alloc)?;
    push_u64(&mut blob, id)?;
    push_u32(&mut blob, chunks.len() as u32)?;
    for (number, len) in chunks {
        blob.extend_from_slice(&numbered(*number).0)?;
        push_u32(&mut blob, *len)?;
    }
    blob.extend_from_slice(&numbered(0).0)?;
    push_sum(&mut blob, 0)?;
    Ok(blob)
}

// Adds the table that the blob of these chunks spells.
fn add_table(
    alloc: Global,
    tables: &mut BTreeMap<Id, Table>,
    id: Id,
    chunks: &[(u8, u32)],
) -> Result<(), Fail>
    requires few { length chunks.now < 2 ^ 32 }
    requires rules { AreRuled tables.old.entries }
    ensures { OnOk result (AreRuled tables.new.entries) }
{
    let blob = table_blob(alloc, id, chunks)?;
    match decode_table(alloc, blob.as_slice(), id)? {
        Some(table) => {
            tables.insert(id, table)?;
            Ok(())
        }
        None => Err(Fail::from("no table")),
    }
}

// Containers 3 and 8. Both have the chunks 1 and 2, in another order and with other lengths.
fn two_tables(alloc: Global) -> Result<BTreeMap<Id, Table>, Fail>
    ensures { IfOk result (λ tables. AreRuled tables.entries) }
{
    let mut tables = BTreeMap::new(alloc);
    add_table(alloc, &mut tables, 3, &[(1, 10), (2, 20), (4, 65536)])?;
    add_table(alloc, &mut tables, 8, &[(2, 5), (1, 7), (9, 1)])?;
    Ok(tables)
}

// A row, by the id of its container, the number of its fingerprint, and its length.
type Brief = (Id, u8, u32);

// Rows, and the spot of each by its id, its first byte and its length.
const ROWS: &[Brief] = &[
    (8, 9, 1),
    (3, 4, 65536),
    (8, 2, 5),
    (3, 2, 20),
    (3, 1, 10),
    (8, 1, 7),
    (3, 4, 65536),
];

const SPOTS: &[(Id, u32, u32)] = &[
    (8, 12, 1),
    (3, 30, 65536),
    (8, 0, 5),
    (3, 10, 20),
    (3, 0, 10),
    (8, 5, 7),
    (3, 30, 65536),
];

fn rows_of(alloc: Global, briefs: &[Brief]) -> Result<Vec<Row>, Memory> {
    let mut rows = Vec::new(alloc);
    for (id, number, len) in briefs {
        rows.push(Row {
            fp: numbered(*number),
            id: *id,
            len: *len,
        })?;
    }
    Ok(rows)
}

// The spots of the rows, or why they have none.
fn placed(alloc: Global, briefs: &[Brief]) -> Result<Result<Vec<Spot>, Unplaced>, Fail> {
    let rows = rows_of(alloc, briefs)?;
    if rows.len() > 100 {
        return Err(Fail::from("too many rows"));
    }
    let tables = two_tables(alloc)?;
    Ok(spots_of(alloc, &tables, rows.as_slice()))
}

fn spots(alloc: Global, briefs: &[Brief]) -> Result<Vec<(Id, u32, u32)>, Fail> {
    let mut spots = Vec::new(alloc);
    for spot in placed(alloc, briefs)?? {
        spots.push((spot.id, spot.at, spot.len))?;
    }
    Ok(spots)
}

#[test]
fn rows_of_two_containers_have_their_spots(rt: HostRuntime) -> Result<(), Fail> {
    assert!(rt; spots(rt.alloc(), ROWS)?.as_slice() == SPOTS);
    assert!(rt; spots(rt.alloc(), &[])?.is_empty());
    Ok(())
}

const GOOD: Brief = (3, 1, 10);

const FOREIGN: Brief = (3, 9, 1);

const LONGER: Brief = (8, 1, 10);

const UNKNOWN: Brief = (5, 1, 10);

// Rows, and the index of the first one without a chunk.
const REFUSED: &[(&[Brief], u32)] = &[
    (&[FOREIGN], 0),
    (&[GOOD, LONGER], 1),
    (&[GOOD, GOOD, UNKNOWN], 2),
    (&[GOOD, UNKNOWN, FOREIGN], 1),
];

fn are_refused(alloc: Global, refused: &[(&[Brief], u32)]) -> Result<bool, Fail> {
    for (briefs, index) in refused {
        if placed(alloc, briefs)?.err() != Some(Unplaced::BadRow(*index)) {
            return Ok(false);
        }
    }
    Ok(true)
}

#[test]
fn the_first_row_without_a_chunk_is_told(rt: HostRuntime) -> Result<(), Fail> {
    assert!(rt; are_refused(rt.alloc(), REFUSED)?);
    Ok(())
}
