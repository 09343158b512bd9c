// Reading floors, recipes and tables.
ghost use Rattle.std.specs.Prelude.{◌≡◌, ◌≤◌, ◌*◌, ◌^◌, [], ℕ, List, length, map, IfOk, IfSome};
ghost use Rattle.vault_types.specs.declared.Fault.TheVariants as fault;
ghost use Rattle.vault_types.specs.declared.Recipe.{Recipe as Recipes};
ghost use Rattle.vault_types.specs.declared.Table.{Table as Tables};
ghost use Rattle.vault_types.specs.Blobs.{IsVersion};
ghost use Rattle.vault_types.specs.Lists.{IsAscending};
ghost use Rattle.vault_traits.specs.Shelf.{IsAsBefore, IsListing};
ghost use Rattle.vault_traits.specs.Causes.{HasCauses};
ghost use Rattle.vault_types.specs.BlobDamage.{IsFloorIn, IsFloorDamage, IsRecipeDamage};
ghost use Rattle.vault_types.specs.FirstDamage.{ReadsRecipe, IsDamageOf};
ghost use Rattle.keeper_open.specs.Reading.{SetRead, AreFloors, IsVersionDamage, IsSetRead, IsSetDamage, AreSets, all_recipes, AreNoted, NotesMore, IsFirstTable, IsFound};

use crate::listing::{is_listed, last_due};
use crate::notes::{Chunk, Notes, RowPlace, note, strike};
use container_store::get_table;
use fp_index::Index;
use keeper_catalog::SetInfo;
use recipe_store::{get_floor, get_recipe};
use std::alloc::Global;
use std::collections::{BTreeMap, HashMap};
use vault_traits::Shelf;
use vault_types::list::ListOf;
use vault_types::{Fault, Id, Kind, Name, Recipe, Set, Table, Version, Why};

/// The floors of the 256 sets.
pub fn read_floors<S: Shelf>(
    alloc: Global,
    shelf: &mut S,
    names: &[Name],
) -> Result<Vec<Version>, Fault>
    requires listing { IfSome (S.told shelf.old).blobs (λ m. IsListing m names.now) }
    ensures read { IfOk result (λ floors. AreFloors (S.told shelf.old).blobs 0 floors.items
        × (length floors.items ≡ 256)) }
    ensures kept { IsAsBefore (S.told shelf.old) (S.told shelf.new) }
    ensures gets { (S.told shelf.new).gets ≡ (S.told shelf.old).gets }
    ensures causes { HasCauses (S.told shelf.old).faults (S.told shelf.new).faults
        (IsDamageOf (S.told shelf.old).blobs) result }
{
    let mut floors = Vec::new(alloc);
    for number in 0..256u32 {
        let floor = floor_in(alloc, shelf, names, number as u8)?;
        floors.push(floor)?;
    }
    Ok(floors)
}

fn floor_in<S: Shelf>(
    alloc: Global,
    shelf: &mut S,
    names: &[Name],
    set: Set,
) -> Result<Version, Fault>
    requires listing { IfSome (S.told shelf.old).blobs (λ m. IsListing m names.now) }
    ensures found { IfOk result (λ floor. IsFloorIn (S.told shelf.old).blobs set floor) }
    ensures kept { IsAsBefore (S.told shelf.old) (S.told shelf.new) }
    ensures gets { (S.told shelf.new).gets ≡ (S.told shelf.old).gets }
    ensures causes { HasCauses (S.told shelf.old).faults (S.told shelf.new).faults
        (IsFloorDamage (S.told shelf.old).blobs set) result }
{
    if is_listed(names, Name::floor(set)) {
        get_floor(alloc, shelf, set)
    } else {
        Ok(1)
    }
}

/// The sets with these floors. Their recipes are noted.
pub fn read_sets<S: Shelf>(
    alloc: Global,
    shelf: &mut S,
    names: &[Name],
    floors: &[Version],
    notes: &mut Notes,
) -> Result<Vec<SetInfo>, Fault>
    requires listing { IfSome (S.told shelf.old).blobs (λ m. IsListing m names.now) }
    requires floors { AreFloors (S.told shelf.old).blobs 0 floors.now }
    requires count { length floors.now ≡ 256 }
    ensures read { IfOk result (λ sets. (ds : List SetRead) × (map (λ d. d.info) ds ≡ sets.items)
        × (length ds ≡ 256) × AreSets (S.told shelf.old).blobs 0 ds
        × (AreNoted notes.old [] → AreNoted notes.new (all_recipes ds))) }
    ensures kept { IsAsBefore (S.told shelf.old) (S.told shelf.new) }
    ensures gets { (S.told shelf.new).gets ≡ (S.told shelf.old).gets }
    ensures causes { HasCauses (S.told shelf.old).faults (S.told shelf.new).faults
        (IsDamageOf (S.told shelf.old).blobs) result }
{
    let mut sets = Vec::new(alloc);
    for number in 0..256u32 {
        let floor = floors[number as usize];
        let info = read_set(alloc, shelf, names, number as u8, floor, notes)?;
        sets.push(info)?;
    }
    Ok(sets)
}

fn read_set<S: Shelf>(
    alloc: Global,
    shelf: &mut S,
    names: &[Name],
    set: Set,
    floor: Version,
    notes: &mut Notes,
) -> Result<SetInfo, Fault>
    requires listing { IfSome (S.told shelf.old).blobs (λ m. IsListing m names.now) }
    requires floor { IsFloorIn (S.told shelf.old).blobs set floor }
    ensures read { IfOk result (λ info. (rs : List Recipes) × IsSetRead (S.told shelf.old).blobs set info rs
        × (info.floor ≡ floor) × NotesMore notes.old notes.new (set * 2 ^ 32) rs) }
    ensures kept { IsAsBefore (S.told shelf.old) (S.told shelf.new) }
    ensures gets { (S.told shelf.new).gets ≡ (S.told shelf.old).gets }
    ensures causes { HasCauses (S.told shelf.old).faults (S.told shelf.new).faults
        (IsSetDamage (S.told shelf.old).blobs set floor) result }
{
    let latest = last_due(names, set, floor);
    let mut next = 1;
    let mut sparse = ListOf::from_vec(Vec::new(alloc));
    for version in floor..latest + 1 {
        let recipe = read_version(alloc, shelf, names, set, version, next)?;
        note(alloc, notes, &recipe)?;
        next = recipe.next;
        sparse = recipe.sparse;
    }
    Ok(SetInfo {
        floor,
        latest,
        next,
        sparse,
    })
}

// The recipe of a version, whose first free id is not below `low`.
fn read_version<S: Shelf>(
    alloc: Global,
    shelf: &mut S,
    names: &[Name],
    set: Set,
    version: Version,
    low: Id,
) -> Result<Recipe, Fault>
    requires listing { IfSome (S.told shelf.old).blobs (λ m. IsListing m names.now) }
    ensures found { IfOk result (λ r. ReadsRecipe (S.told shelf.old).blobs set version r × (low ≤ r.next)) }
    ensures kept { IsAsBefore (S.told shelf.old) (S.told shelf.new) }
    ensures gets { (S.told shelf.new).gets ≡ (S.told shelf.old).gets }
    ensures causes { HasCauses (S.told shelf.old).faults (S.told shelf.new).faults
        (IsVersionDamage (S.told shelf.old).blobs set version low) result }
{
    let recipe = recipe_in(alloc, shelf, names, set, version)?;
    if recipe.next < low {
        let why = Why::Lower {
            before: low,
            found: recipe.next,
        };
        return Err(damaged(Name::recipe(set, version), why));
    }
    Ok(recipe)
}

fn recipe_in<S: Shelf>(
    alloc: Global,
    shelf: &mut S,
    names: &[Name],
    set: Set,
    version: Version,
) -> Result<Recipe, Fault>
    requires listing { IfSome (S.told shelf.old).blobs (λ m. IsListing m names.now) }
    ensures found { IfOk result (ReadsRecipe (S.told shelf.old).blobs set version) }
    ensures kept { IsAsBefore (S.told shelf.old) (S.told shelf.new) }
    ensures gets { (S.told shelf.new).gets ≡ (S.told shelf.old).gets }
    ensures causes { HasCauses (S.told shelf.old).faults (S.told shelf.new).faults
        (IsRecipeDamage (S.told shelf.old).blobs set version) result }
{
    let name = Name::recipe(set, version);
    if is_listed(names, name) {
        get_recipe(alloc, shelf, set, version)
    } else {
        Err(damaged(name, Why::Absent))
    }
}

fn damaged(name: Name, why: Why) -> Fault
    ensures { result ≡ fault.Damaged name.kind name.number why }
{
    Fault::Damaged {
        kind: name.kind,
        number: name.number,
        why,
    }
}

/// The tables by id, their index, and the chunks that recipes name and no table has.
#[derive(Drop)]
pub struct Found {
    pub tables: BTreeMap<Id, Table>,
    pub index: Index,
    pub places: HashMap<Chunk, RowPlace>,
}

/// The tables of these containers.
pub fn read_tables<S: Shelf>(
    alloc: Global,
    shelf: &mut S,
    ids: &[Id],
    places: HashMap<Chunk, RowPlace>,
) -> Result<Found, Fault>
    requires { IsAscending ids.now }
    ensures read { IfOk result (λ found. (ts : List Tables)
        × IsFound (S.told shelf.old).blobs ids.now places.entries found ts) }
    ensures kept { IsAsBefore (S.told shelf.old) (S.told shelf.new) }
    ensures gets { (S.told shelf.new).gets ≡ (S.told shelf.old).gets }
    ensures causes { HasCauses (S.told shelf.old).faults (S.told shelf.new).faults
        (IsFirstTable (S.told shelf.old).blobs ids.now) result }
{
    let mut tables = BTreeMap::new(alloc);
    let mut index = Index::from_tables(alloc, &[])?;
    let mut places = places;
    for id in ids {
        let table = get_table(alloc, shelf, *id)?;
        index.add_container(alloc, &table)?;
        strike(&mut places, *id, table.rows.as_slice());
        tables.insert(*id, table)?;
    }
    Ok(Found {
        tables,
        index,
        places,
    })
}
