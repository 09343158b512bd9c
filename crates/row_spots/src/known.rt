//! The tables that rows named so far, each by its fingerprints.
ghost use Rattle.std.specs.Prelude.{◌≡◌, nat_eq, option_and_then, IfOk, OnOk, IfSome, IfNone, IsSomeAnd};
ghost use Rattle.std.specs.Map.{lookup};
ghost use Rattle.vault_types.specs.Names.{same_fp};
ghost use Rattle.row_spots.specs.Spots.{spot_in, HasPlace, AreRuled};
ghost use Rattle.row_spots.specs.Offsets.{fitting_spot, ArePlaces, AreKnownPlaces};

use crate::offsets::{ChunkSpan, ChunkSpans};
use std::alloc::Global;
use std::collections::{BTreeMap, HashMap};
use vault_types::{Id, Memory, Row, Spot, Table};

// The chunks of the table at an id: none where there is no table.
fn places_at(alloc: Global, tables: &BTreeMap<Id, Table>, id: Id) -> Result<ChunkSpans, Memory>
    requires { AreRuled tables.now.entries }
    ensures { IfOk result (ArePlaces tables.now.entries id) }
{
    match tables.get(&id) {
        Some(table) => ChunkSpans::of_rows(alloc, table.rows.as_slice()),
        None => Ok(ChunkSpans::new(alloc)),
    }
}

// Has the table at an id known.
fn make_known(
    alloc: Global,
    tables: &BTreeMap<Id, Table>,
    known: &mut HashMap<Id, ChunkSpans>,
    id: Id,
) -> Result<(), Memory>
    requires rules { AreRuled tables.now.entries }
    requires known { AreKnownPlaces tables.now.entries known.old.entries }
    ensures there { OnOk result
        (IsSomeAnd (lookup (nat_eq id) known.new.entries) (ArePlaces tables.now.entries id)) }
    ensures known { OnOk result (AreKnownPlaces tables.now.entries known.new.entries) }
{
    if !known.contains_key(&id) {
        known.insert(id, places_at(alloc, tables, id)?)?;
    }
    Ok(())
}

// The chunk that a row names, where its table is known and has it.
fn place_of(known: &HashMap<Id, ChunkSpans>, row: &Row) -> Option<ChunkSpan>
    ensures { result
        ≡ option_and_then (lookup (same_fp row.now.fp)) (lookup (nat_eq row.now.id) known.now.entries) }
{
    known.get(&row.id)?.get(&row.fp)
}

// The spot of a row, where its chunk is there with its length.
fn fitting(place: Option<ChunkSpan>, row: &Row) -> Option<Spot>
    ensures { result ≡ fitting_spot row.now place }
{
    let place = place?;
    if place.len == row.len {
        Some(Spot {
            id: row.id,
            at: place.at,
            len: row.len,
        })
    } else {
        None
    }
}

/// Where the chunk of a row lies, if its table has it with its length.
pub fn spot_of(
    alloc: Global,
    tables: &BTreeMap<Id, Table>,
    known: &mut HashMap<Id, ChunkSpans>,
    row: &Row,
) -> Result<Option<Spot>, Memory>
    requires rules { AreRuled tables.now.entries }
    requires known { AreKnownPlaces tables.now.entries known.old.entries }
    ensures spot { IfOk result (λ spot. IfSome spot (λ s. s ≡ spot_in tables.now.entries row.now)) }
    ensures placed { IfOk result (λ spot. IfSome spot (λ _. HasPlace tables.now.entries row.now)) }
    ensures absent { IfOk result (λ spot. IfNone spot (HasPlace tables.now.entries row.now → ⊥)) }
    ensures known { OnOk result (AreKnownPlaces tables.now.entries known.new.entries) }
{
    make_known(alloc, tables, known, row.id)?;
    Ok(fitting(place_of(known, row), row))
}
