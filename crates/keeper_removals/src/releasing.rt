//! The release of a pin.
ghost use Rattle.std.specs.Prelude.{◌≡◌, ◌≤◌, ◌<◌, ◌+◌, ◌-◌, ◌*◌, ◌^◌, ◌&&◌, ◌⊎◌, ◌++◌, not, List, length, vec_capacity, nat_eq, IsTrue, IsSome, Contains};
ghost use Rattle.vault_types.specs.declared.Name.{Name as Named};
ghost use Rattle.vault_types.specs.Lists.{has};
ghost use Rattle.vault_types.specs.Marks.{Mark, marked_ids};
ghost use Rattle.vault_types.specs.Shelf.{blob_at};
ghost use Rattle.vault_types.specs.Events.{Core, IsNear, after_release, pins_without};
ghost use Rattle.vault_traits.specs.Crash.{LeavesNowIfTold, LeavesOnlyIfTold};
ghost use Rattle.set_markers.specs.SetMarkers.{AreMarkersOfSets};
ghost use Rattle.restore_pins.specs.Pins.{numbers, listed_ids, without_pin, AreListsOf};
ghost use Rattle.state_laws.specs.Parts.{HeldIfTold};
ghost use Rattle.keeper_catalog.specs.Catalog.{memo_of, IsMemoOf, HasRoom};
ghost use Rattle.deletion_laws.specs.Releasing.{IsReleased};
ghost use Rattle.keeper_removals.specs.Releases.{ReleasesPin};
ghost use Rattle.keeper_removals.specs.Removals.{Leaves, Releasing};

use crate::leaving::let_go;
use deletion_laws::clean_from;
use keeper_catalog::Catalog;
use restore_pins::{PinNo, Pins};
use set_markers::SetMarkers;
use std::collections::BTreeMap;
use vault_traits::Shelf;
use vault_types::{Id, Name, Table};

// Lets a container go that no version names and no pin lists.
fn let_one_go(
    markers: &SetMarkers,
    pins: &Pins,
    tables: &mut BTreeMap<Id, Table>,
    strays: &mut Vec<Name>,
    id: Id,
)
    requires { length strays.old.items + 2 * length tables.old.entries ≤ vec_capacity strays.old }
    ensures left { (marks : List Mark) → AreMarkersOfSets markers.now marks
        → Leaves (λ k. nat_eq k id && (not (has k (marked_ids marks)) && not (has k (listed_ids pins.now))))
        tables.old.entries tables.new.entries strays.old.items strays.new.items }
    ensures room { length strays.new.items + 2 * length tables.new.entries
        ≤ length strays.old.items + 2 * length tables.old.entries }
    ensures capacity { vec_capacity strays.old ≤ vec_capacity strays.new }
{
    if markers.named(id) || pins.holds(id) {
        return;
    }
    let_go(tables, strays, id);
}

// Lets those of these containers go that no version names and no pin lists, the last one first.
fn let_unneeded_go(
    markers: &SetMarkers,
    pins: &Pins,
    tables: &mut BTreeMap<Id, Table>,
    strays: &mut Vec<Name>,
    ids: &[Id],
)
    requires { length strays.old.items + 2 * length tables.old.entries ≤ vec_capacity strays.old }
    ensures left { (marks : List Mark) → AreMarkersOfSets markers.now marks
        → Leaves (λ k. has k ids.now && (not (has k (marked_ids marks)) && not (has k (listed_ids pins.now))))
        tables.old.entries tables.new.entries strays.old.items strays.new.items }
    ensures room { length strays.new.items + 2 * length tables.new.entries
        ≤ length strays.old.items + 2 * length tables.old.entries }
    ensures capacity { vec_capacity strays.old ≤ vec_capacity strays.new }
{
    let mut left = ids.len();
    while left > 0 {
        left -= 1;
        let_one_go(markers, pins, tables, strays, ids[left]);
    }
}

/// Releases the pin of this number, which these pins gave. Each container that it listed, that no version names and no
/// other pin lists goes from memory, and its names are removed from the shelf; those whose removal failed are strays.
/// Takes no memory.
pub fn release_pin<S: Shelf>(shelf: &mut S, catalog: &mut Catalog, pins: &mut Pins, no: PinNo)
    requires given { IsTrue (has no (numbers pins.old)) }
    requires can { (K : Core) × Releasing (memo_of catalog.old) pins.old K }
    requires room { HasRoom (memo_of catalog.old) }
    ensures { ReleasesPin no (memo_of catalog.old) (memo_of catalog.new) pins.old pins.new
        (S.told shelf.old) (S.told shelf.new) }
{
    let start = catalog.strays.len();
    let ids = pins.release(no);
    let_unneeded_go(
        &catalog.markers,
        pins,
        &mut catalog.tables,
        &mut catalog.strays,
        &ids,
    );
    clean_from(shelf, &mut catalog.strays, start);
}
