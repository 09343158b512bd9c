// What is kept of recipes until the tables are read.
ghost use Rattle.std.specs.Prelude.{◌≡◌, ◌<◌, ◌^◌, ◌++◌, ◌∷◌, [], ℕ, List, length, map, Some, None, IfOk, OnOk, IfSome, IfNone, if◌then◌else◌};
ghost use Rattle.std.specs.Map.{lookup};
ghost use Rattle.vault_types.specs.declared.Recipe.{Recipe as Recipes};
ghost use Rattle.vault_types.specs.Lists.{set_of};
ghost use Rattle.keeper_open.specs.declared.notes.Chunk.{Chunk as Chunks};
ghost use Rattle.keeper_open.specs.declared.notes.RowPlace.{RowPlace as Places};
ghost use Rattle.keeper_open.specs.Reading.{chunk_of_row, same_chunk, placed_rows, number_of, has_chunk, left_of, IsNotAfter, IsLesserOf, AreFirst, ArePlacesBefore, AreBelow, AreNoted};

use keeper_catalog::distinct_ids;
use set_markers::SetMarkers;
use std::alloc::Global;
use std::collections::{BTreeSet, HashMap};
use vault_types::{Fp, Id, Memory, Name, Recipe, Row, TableRow};

/// A chunk in a container, as a row names it.
#[derive(Clone, Copy, Debug, PartialEq, Eq, Hash)]
pub struct Chunk {
    pub fp: Fp,
    pub id: Id,
    pub len: u32,
}

/// A row of a recipe: the recipe's number, and the row's from 0 on.
#[derive(Clone, Copy, Debug, PartialEq, Eq)]
pub struct RowPlace {
    pub number: u64,
    pub row: u32,
}

/// What is kept of the recipes that were read: the markers, the ids that they name, and for each chunk that they name
/// where it is named first.
#[derive(Drop)]
pub struct Notes {
    pub markers: SetMarkers,
    pub ids: BTreeSet<Id>,
    pub places: HashMap<Chunk, RowPlace>,
}

impl Notes {
    pub fn new(alloc: Global) -> Notes
        ensures { AreNoted result [] }
    {
        Notes {
            markers: SetMarkers::new(alloc),
            ids: BTreeSet::new(alloc),
            places: HashMap::new(alloc),
        }
    }
}

/// Notes a recipe.
pub fn note(alloc: Global, notes: &mut Notes, recipe: &Recipe) -> Result<(), Memory>
    requires { length recipe.now.rows < 2 ^ 32 }
    ensures { (before : List Recipes) → AreBelow before (number_of recipe.now) → AreNoted notes.old before
        → OnOk result (AreNoted notes.new (before ++ recipe.now ∷ [])) }
{
    let rows = recipe.rows.as_slice();
    let ids = distinct_ids(alloc, rows)?;
    notes.markers.reserve(ids.len())?;
    notes
        .markers
        .commit(recipe.set, recipe.version, ids.as_slice());
    add_ids(&mut notes.ids, ids.as_slice())?;
    let number = Name::recipe(recipe.set, recipe.version).number;
    add_rows(&mut notes.places, number, rows)?;
    Ok(())
}

fn add_ids(all: &mut BTreeSet<Id>, ids: &[Id]) -> Result<(), Memory>
    ensures { (before : List ℕ) → all.old.keys ≡ set_of before
        → OnOk result (all.new.keys ≡ set_of (before ++ ids.now)) }
{
    for id in ids {
        all.insert(*id)?;
    }
    Ok(())
}

/// The ids of a set, ascending.
pub fn list_of(alloc: Global, ids: &BTreeSet<Id>) -> Result<Vec<Id>, Memory>
    ensures { IfOk result (λ list. list.items ≡ ids.now.keys) }
{
    let mut list = Vec::new(alloc);
    for id in ids {
        list.push(*id)?;
    }
    Ok(list)
}

fn add_rows(places: &mut HashMap<Chunk, RowPlace>, number: u64, rows: &[Row]) -> Result<(), Memory>
    requires { length rows.now < 2 ^ 32 }
    ensures { (before : List (Chunks × Places)) → AreFirst places.old.entries before
        → ArePlacesBefore before (record { number = number; row = 0 })
        → OnOk result (AreFirst places.new.entries (before ++ placed_rows number 0 rows.now)) }
{
    for (at, row) in rows.iter().enumerate() {
        let place = RowPlace {
            number,
            row: at as u32,
        };
        add_row(places, chunk_of(row), place)?;
    }
    Ok(())
}

fn chunk_of(row: &Row) -> Chunk
    ensures { result ≡ chunk_of_row row.now }
{
    Chunk {
        fp: row.fp,
        id: row.id,
        len: row.len,
    }
}

// Keeps the place of a chunk that has none.
fn add_row(
    places: &mut HashMap<Chunk, RowPlace>,
    chunk: Chunk,
    place: RowPlace,
) -> Result<(), Memory>
    ensures { (before : List (Chunks × Places)) → AreFirst places.old.entries before
        → ArePlacesBefore before place
        → OnOk result (AreFirst places.new.entries (before ++ (chunk, place) ∷ [])) }
{
    if !places.contains_key(&chunk) {
        places.insert(chunk, place)?;
    }
    Ok(())
}

/// Takes the chunks out that a table of container `id` has.
pub fn strike(places: &mut HashMap<Chunk, RowPlace>, id: Id, rows: &[TableRow])
    ensures { (k : Chunks)
        → lookup (same_chunk k) places.new.entries
        ≡ left_of (has_chunk id rows.now k) (lookup (same_chunk k) places.old.entries) }
{
    for row in rows {
        let chunk = Chunk {
            fp: row.fp,
            id,
            len: row.len,
        };
        places.remove(&chunk);
    }
}

/// The least place that is left.
pub fn least(places: &HashMap<Chunk, RowPlace>) -> Option<RowPlace>
    ensures none { IfNone result ((k : Chunks) → lookup (same_chunk k) places.now.entries ≡ None) }
    ensures some { IfSome result (λ p. (k : Chunks) × (lookup (same_chunk k) places.now.entries ≡ Some p)) }
    ensures least { IfSome result (λ p. (k : Chunks) (q : Places)
        → lookup (same_chunk k) places.now.entries ≡ Some q → IsNotAfter p q) }
{
    let mut best = None;
    for place in places.values() {
        best = Some(lesser_of(best, *place));
    }
    best
}

fn lesser_of(best: Option<RowPlace>, place: RowPlace) -> RowPlace
    ensures { IsLesserOf best place result }
{
    match best {
        None => place,
        Some(other) => lesser(other, place),
    }
}

fn lesser(a: RowPlace, b: RowPlace) -> RowPlace
    ensures { IsLesserOf (Some a) b result }
{
    if a.number < b.number || (a.number == b.number && a.row <= b.row) {
        a
    } else {
        b
    }
}
