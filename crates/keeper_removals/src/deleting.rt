//! The deletion of versions.
ghost use Rattle.std.specs.Prelude.{◌≡◌, ◌≤◌, ◌<◌, ◌+◌, ◌-◌, ◌*◌, ◌^◌, ◌&&◌, ◌⊎◌, not, List, map, length, vec_capacity, nat_eq, true, IsSome, IfOk, OnOk, OnErr, Some, None, Contains, ℕ, slice_set, slice_index_or};
ghost use Rattle.vault_types.specs.declared.Name.{Name as Named};
ghost use Rattle.vault_types.specs.declared.Table.{Table as TableOf};
ghost use Rattle.vault_types.specs.declared.Pending.TheVariants as pending;
ghost use Rattle.vault_types.specs.Lists.{has};
ghost use Rattle.vault_types.specs.Marks.{Mark, marks_above, freed_ids};
ghost use Rattle.vault_types.specs.State.{empty_dataset};
ghost use Rattle.vault_types.specs.Shelf.{blob_at, recipe_name};
ghost use Rattle.vault_types.specs.Delete.{delete, reclaimed_ids};
ghost use Rattle.vault_types.specs.Events.{Core, IsNear, after_delete, after_refused, delete_change};
ghost use Rattle.vault_traits.specs.Crash.{LeavesNowIfTold, LeavesOnlyIfTold};
ghost use Rattle.vault_traits.specs.Causes.{HasStoreFault};
ghost use Rattle.fp_index.specs.Index.{IsIndexOf, without_id};
ghost use Rattle.set_markers.specs.SetMarkers.{AreMarkersOfSets};
ghost use Rattle.restore_pins.specs.Pins.{listed_ids};
ghost use Rattle.state_laws.specs.Parts.{HeldIfTold};
ghost use Rattle.vault_types.specs.RecipeForms.{KeepsRecipes};
ghost use Rattle.keeper_catalog.specs.Catalog.{memo_of, set_info, IsMemoOf, HasRoom};
ghost use Rattle.deletion_laws.specs.Deleting.{IsDeleting, IsGone, AreStraysAfter, without_ids};
ghost use Rattle.keeper_removals.specs.Deletes.{DeletesVersions};
ghost use Rattle.keeper_removals.specs.Removals.{Removing, Rises, Leaves, LeavesRecipes, IsTableIn, IsKnown};

use crate::leaving::let_go;
use deletion_laws::clean_from;
use fp_index::Index;
use keeper_catalog::{Catalog, SetInfo};
use keeper_parts::raise_floor;
use restore_pins::Pins;
use set_markers::SetMarkers;
use std::collections::BTreeMap;
use vault_traits::Shelf;
use vault_types::{Fault, Id, Name, Set, Table, Version};

// Takes the versions of a set below a floor from the markers, and the ids that lose their last name by it into the list
// that is kept for them.
fn take_freed(markers: &mut SetMarkers, freed: &mut Vec<Id>, set: Set, floor: Version)
    requires { length markers.old.ids ≤ vec_capacity freed.old }
    ensures freed { (marks : List Mark) → AreMarkersOfSets markers.old marks
        → freed.new.items ≡ freed_ids set floor marks }
    ensures markers { (marks : List Mark) → AreMarkersOfSets markers.old marks
        → AreMarkersOfSets markers.new (marks_above set floor marks) }
    ensures room { vec_capacity freed.old ≤ vec_capacity freed.new }
{
    freed.clear();
    markers.take_below(set, floor, freed);
}

// Takes a container out of the index; unless a pin lists it, it goes from memory too.
fn forget_container(
    index: &mut Index,
    pins: &Pins,
    tables: &mut BTreeMap<Id, Table>,
    strays: &mut Vec<Name>,
    id: Id,
)
    requires { length strays.old.items + 2 * length tables.old.entries ≤ vec_capacity strays.old }
    ensures left { Leaves (λ k. nat_eq k id && not (has k (listed_ids pins.now))) tables.old.entries
        tables.new.entries strays.old.items strays.new.items }
    ensures index { (known : List TableOf) → IsTableIn tables.old.entries id known → IsIndexOf index.old known
        → IsIndexOf index.new (without_id id known) }
    ensures room { length strays.new.items + 2 * length tables.new.entries
        ≤ length strays.old.items + 2 * length tables.old.entries }
    ensures capacity { vec_capacity strays.old ≤ vec_capacity strays.new }
{
    let Some(table) = tables.get(&id) else {
        return;
    };
    index.drop_container(table);
    if pins.holds(id) {
        return;
    }
    let_go(tables, strays, id);
}

// The same for each of these ids, the last one first.
fn forget_containers(
    index: &mut Index,
    pins: &Pins,
    tables: &mut BTreeMap<Id, Table>,
    strays: &mut Vec<Name>,
    ids: &[Id],
)
    requires { length strays.old.items + 2 * length tables.old.entries ≤ vec_capacity strays.old }
    ensures left { Leaves (λ k. has k ids.now && not (has k (listed_ids pins.now))) tables.old.entries
        tables.new.entries strays.old.items strays.new.items }
    ensures index { (known : List TableOf)
        → ((id : ℕ) → has id ids.now ≡ true → IsKnown tables.old.entries known id) → IsIndexOf index.old known
        → IsIndexOf index.new (without_ids ids.now known) }
    ensures room { length strays.new.items + 2 * length tables.new.entries
        ≤ length strays.old.items + 2 * length tables.old.entries }
    ensures capacity { vec_capacity strays.old ≤ vec_capacity strays.new }
{
    let mut left = ids.len();
    while left > 0 {
        left -= 1;
        forget_container(index, pins, tables, strays, ids[left]);
    }
}

// Adds the names of the recipes below a floor to the strays, from the last one down to the one at the old floor.
fn leave_recipes(strays: &mut Vec<Name>, set: Set, old: Version, floor: Version)
    requires range { old ≤ floor }
    requires room { length strays.old.items + (floor - old) ≤ vec_capacity strays.old }
    ensures left { LeavesRecipes set old floor strays.old.items strays.new.items }
    ensures count { length strays.new.items ≤ length strays.old.items + (floor - old) }
    ensures capacity { vec_capacity strays.old ≤ vec_capacity strays.new }
{
    let mut version = floor;
    while version > old {
        version -= 1;
        let _ = strays.push(Name::recipe(set, version));
    }
}

// Notes the new floor of a set, and returns the old one.
fn note_floor(sets: &mut [SetInfo], set: Set, floor: Version) -> Version
    requires { set < length sets.old }
    ensures was { result ≡ (slice_index_or sets.old set (set_info empty_dataset)).floor }
    ensures sets { sets.new
        ≡ slice_set sets.old set
        (record (slice_index_or sets.old set (set_info empty_dataset)) { floor = floor }) }
{
    let info = &mut sets[set as usize];
    let old = info.floor;
    info.floor = floor;
    old
}

// What is in memory behind the floor's write: the set's floor is raised, and what lost its last name is neither in the
// index nor, unless a pin lists it, in memory. The names that go with it are strays.
fn forget_versions(
    catalog: &mut Catalog,
    index: &mut Index,
    pins: &Pins,
    set: Set,
    floor: Version,
) -> u64
    requires can { (K : Core) × (n : ℕ) × Removing (memo_of catalog.old) index.old pins.now K set n
        × Rises K set n floor }
    requires room { HasRoom (memo_of catalog.old) }
    ensures removed { (K : Core) (n : ℕ) → Removing (memo_of catalog.old) index.old pins.now K set n
        → Rises K set n floor → result ≡ length (reclaimed_ids K.state (delete K.state set n)) }
    ensures memo { (K : Core) (n : ℕ) → Removing (memo_of catalog.old) index.old pins.now K set n
        → Rises K set n floor
        → IsMemoOf (memo_of catalog.new) (after_delete set n catalog.new.strays.items K) }
    ensures index { (K : Core) (n : ℕ) → Removing (memo_of catalog.old) index.old pins.now K set n
        → Rises K set n floor → IsIndexOf index.new (map (λ c. c.table) (delete K.state set n).containers) }
    ensures strays { (K : Core) (n : ℕ) → Removing (memo_of catalog.old) index.old pins.now K set n
        → Rises K set n floor → AreStraysAfter K set n catalog.new.strays.items }
    ensures room { HasRoom (memo_of catalog.new) }
{
    take_freed(&mut catalog.markers, &mut catalog.freed, set, floor);
    forget_containers(
        index,
        pins,
        &mut catalog.tables,
        &mut catalog.strays,
        &catalog.freed,
    );
    let old = note_floor(&mut catalog.sets, set, floor);
    leave_recipes(&mut catalog.strays, set, old, floor);
    let count = catalog.freed.len() as u64;
    catalog.freed.clear();
    count
}

/// Deletes the versions of a set through one that is below its latest: it raises the set's floor, settles, and then
/// removes what is not needed behind it, the recipes first. Returns how many containers lost their last name; those
/// that a pin lists stay until its release. Names whose removal failed are strays. `StoreFault`, where the floor may be
/// written and nothing in memory changed. Takes no memory, and reads nothing.
pub fn delete_versions<S: Shelf>(
    shelf: &mut S,
    catalog: &mut Catalog,
    index: &mut Index,
    pins: &Pins,
    set: Set,
    through: Version,
) -> Result<u64, Fault>
    requires can { (K : Core) × Removing (memo_of catalog.old) index.old pins.now K set through }
    requires room { HasRoom (memo_of catalog.old) }
    ensures { DeletesVersions set through pins.now (memo_of catalog.old) (memo_of catalog.new) index.old
        index.new
        (S.told shelf.old) (S.told shelf.new) result }
{
    let floor = through + 1;
    if floor <= catalog.sets[set as usize].floor {
        clean_from(shelf, &mut catalog.strays, 0);
        return Ok(0);
    }
    raise_floor(shelf, set, floor)?;
    let count = forget_versions(catalog, index, pins, set, floor);
    clean_from(shelf, &mut catalog.strays, 0);
    Ok(count)
}
