//! Pins, and the payloads of pinned containers.
ghost use Rattle.std.specs.Prelude.{◌≡◌, ◌<◌, ◌^◌, ◌++◌, ◌∷◌, [], ℕ, List, All, map, length, true, false, slice_get, IfOk, OnOk, OnErr, Err, IfSome, IfNone, IsSome, IsSomeAnd, Some, Contains};
ghost use Rattle.std.specs.List.{AllByRecursion};
ghost use Rattle.vault_types.specs.Lists.{has};
ghost use Rattle.vault_types.specs.Marks.{Mark, marked_ids};
ghost use Rattle.vault_types.specs.Tables.{Container};
ghost use Rattle.vault_types.specs.State.{KeptVersion, version_of};
ghost use Rattle.vault_types.specs.Events.{Core, Pin, after_pin, with_pins};
ghost use Rattle.vault_traits.specs.Counts.{counted};
ghost use Rattle.set_markers.specs.SetMarkers.{AreMarkersOfSets};
ghost use Rattle.restore_pins.specs.Pins.{numbers};
ghost use Rattle.vault_traits.specs.Causes.{HasCauses};
ghost use Rattle.vault_types.specs.BlobDamage.{IsPayloadOf, IsPayloadDamage};
ghost use Rattle.row_spots.specs.declared.Unplaced.TheVariants as unplaced;
ghost use Rattle.row_spots.specs.Spots.{spot_in, HasPlace, AreRuled};
ghost use Rattle.keeper_catalog.specs.Catalog.{memo_of};
ghost use Rattle.keeper_catalog.specs.View.{Keeps, HasCore};
ghost use Rattle.keeper_core.specs.Calls.{IsUnplaced, Lists, unplaced_fault};
ghost use Rattle.keeper_core.specs.Pins.{PinsVersion};

use crate::keeper::Keeper;
use keeper_catalog::{Catalog, distinct_ids};
use recipe_store::get_recipe;
use restore_pins::PinNo;
use row_spots::{Unplaced, spots_of};
use set_markers::SetMarkers;
use std::alloc::Global;
use vault_traits::Shelf;
use vault_types::{Fault, Fp, Id, Kind, Name, Row, Set, Spot, Version, Why};

/// A pinned version: its pin, its length in bytes, where its chunks lie in the order of the version, and the SHA-1 of its
/// bytes, where its recipe has it.
#[derive(Drop)]
pub struct Pinned {
    pub no: PinNo,
    pub length: u64,
    pub spots: Vec<Spot>,
    pub whole: Option<Fp>,
}

// The place of the first row, from 0, whose container no version names.
fn first_unnamed(markers: &SetMarkers, rows: &[Row]) -> Option<u32>
    requires { length rows.now < 2 ^ 32 }
    ensures none { IfNone result ((marks : List Mark) → AreMarkersOfSets markers.now marks
        → All (λ r. has r.id (marked_ids marks) ≡ true) rows.now) }
    ensures some { IfSome result (λ i. (marks : List Mark) → AreMarkersOfSets markers.now marks
        → IsSomeAnd (slice_get rows.now i) (λ r. has r.id (marked_ids marks) ≡ false)) }
{
    let mut number = 0u32;
    for row in rows {
        if !markers.named(row.id) {
            return Some(number);
        }
        number += 1;
    }
    None
}

// Where the chunks of rows lie, each in a container that a version names.
pub(crate) fn spots_in(
    alloc: Global,
    catalog: &Catalog,
    rows: &[Row],
) -> Result<Vec<Spot>, Unplaced>
    requires few { length rows.now < 2 ^ 32 }
    requires rules { AreRuled (memo_of catalog.now).tables }
    ensures named { OnOk result ((marks : List Mark) → AreMarkersOfSets (memo_of catalog.now).markers marks
        → All (λ r. has r.id (marked_ids marks) ≡ true) rows.now) }
    ensures spots { IfOk result (λ spots. spots.items ≡ map (spot_in (memo_of catalog.now).tables) rows.now) }
    ensures placed { OnOk result (AllByRecursion (HasPlace (memo_of catalog.now).tables) rows.now) }
    ensures bad { (i : ℕ) → result ≡ Err (unplaced.BadRow i) → (marks : List Mark)
        → AreMarkersOfSets (memo_of catalog.now).markers marks
        → IsSomeAnd (slice_get rows.now i) (IsUnplaced (memo_of catalog.now).tables marks) }
{
    if let Some(row) = first_unnamed(&catalog.markers, rows) {
        return Err(Unplaced::BadRow(row));
    }
    spots_of(alloc, &catalog.tables, rows)
}

// The fault of a pin whose rows have no spots.
pub(crate) fn fault_of(set: Set, version: Version, unplaced: Unplaced) -> Fault
    ensures { result ≡ unplaced_fault set version unplaced }
{
    match unplaced {
        Unplaced::Memory => Fault::Memory,
        Unplaced::BadRow(row) => Fault::Damaged {
            kind: Kind::Recipe,
            number: Name::recipe(set, version).number,
            why: Why::BadRow(row),
        },
    }
}

impl<S: Shelf> Keeper<S> {
    /// Pins a version that is kept: its containers stay on the shelf until the release. `StoreFault`, where the shelf failed;
    /// `Damaged`, where the recipe is absent or is spelled as none, or where one of its rows is not in the table of its
    /// container with its length; `Memory`. After an `Err` nothing is pinned, and all is as before.
    pub fn pin(&mut self, alloc: Global, set: Set, version: Version) -> Result<Pinned, Fault>
        ensures { PinsVersion set version self.old self.new result }
    {
        let recipe = get_recipe(alloc, &mut self.shelf, set, version)?;
        let rows = recipe.rows.as_slice();
        let spots = match spots_in(alloc, &self.catalog, rows) {
            Ok(spots) => spots,
            Err(unplaced) => return Err(fault_of(set, version, unplaced)),
        };
        let ids = distinct_ids(alloc, rows)?;
        let no = self.pins.pin(alloc, version, ids)?;
        Ok(Pinned {
            no,
            length: recipe.length,
            spots,
            whole: recipe.whole,
        })
    }

    /// The payload of a container that a pin lists, by one get of it. `StoreFault`, where the shelf failed; `Damaged`, where
    /// it is absent or has another length or SHA-1 than its table says; `Memory`. After an `Err`, too, all is as before.
    pub fn load(&mut self, alloc: Global, no: &PinNo, id: Id) -> Result<Vec<u8>, Fault>
        requires { (K : Core) × (c : Container) × Keeps self.old K × Lists K.pins no.now id c }
        ensures given { IfOk result (λ bytes. IsSome self.old.told.blobs → (K : Core) (c : Container)
            → Keeps self.old K → Lists K.pins no.now id c → c.payload ≡ Some bytes.items) }
        ensures whole { IfOk result (λ bytes. (K : Core) (c : Container) → Keeps self.old K
            → Lists K.pins no.now id c → IsPayloadOf c.table bytes.items) }
        ensures keeps { (K : Core) → Keeps self.old K → Keeps self.new K }
        ensures same { (self.new.memo ≡ self.old.memo) × (self.new.index ≡ self.old.index)
            × (self.new.pins ≡ self.old.pins) × (self.new.job ≡ self.old.job)
            × (self.new.pending ≡ self.old.pending) }
        ensures shelf { (self.new.told.blobs ≡ self.old.told.blobs)
            × (self.new.told.history ≡ self.old.told.history)
            × (self.new.told.gets ≡ counted self.old.told.gets) }
        ensures causes { (K : Core) (c : Container) → Keeps self.old K → Lists K.pins no.now id c
            → HasCauses self.old.told.faults self.new.told.faults
            (IsPayloadDamage self.old.told.blobs c.table) result }
    {
        let _no = no;
        match self.catalog.tables.get(&id) {
            Some(table) => container_store::load(alloc, &mut self.shelf, table),
            None => unreachable!(),
        }
    }
}
