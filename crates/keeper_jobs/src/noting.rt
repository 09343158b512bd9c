//! What is in memory before and behind a commit.
ghost use Rattle.std.specs.Prelude.{◌≡◌, ◌≤◌, ◌<◌, ◌+◌, ◌-◌, ◌*◌, ◌++◌, ◌∷◌, [], List, map, length, IfOk, OnErr, slice_set, slice_index_or, vec_capacity, true, not};
ghost use Rattle.std.specs.List.{AllByRecursion};
ghost use Rattle.vault_types.specs.declared.Name.{Name as Named};
ghost use Rattle.vault_types.specs.declared.Table.{Table as TableOf};
ghost use Rattle.vault_types.specs.State.{empty_dataset};
ghost use Rattle.vault_types.specs.Blobs.{IsRecipe, recipe_bytes};
ghost use Rattle.vault_types.specs.Lists.{set_of};
ghost use Rattle.vault_types.specs.Marks.{Mark, marks_of};
ghost use Rattle.vault_types.specs.Shelf.{recipe_name};
ghost use Rattle.fp_index.specs.Index.{IsIndexOf};
ghost use Rattle.set_markers.specs.SetMarkers.{AreMarkersOfSets};
ghost use Rattle.keeper_catalog.specs.Catalog.{memo_of, set_info, HasRoom};
ghost use Rattle.keeper_jobs.specs.Jobs.{tables_from, AreKeyed, is_committed, uncommitted};

use crate::indexing::add_tables;
use crate::room::make_room;
use fp_index::Index;
use keeper_catalog::{Catalog, JobInfo, SetInfo, distinct_ids};
use recipe_store::encode_recipe;
use std::alloc::Global;
use vault_types::{Id, Kind, Memory, Name, Recipe, Set, Version};

// Room for the ids that a deletion may free once these are named too.
fn make_spare(catalog: &mut Catalog, more: usize) -> Result<(), Memory>
    ensures same { (catalog.new.sets ≡ catalog.old.sets) × (catalog.new.tables ≡ catalog.old.tables)
        × (catalog.new.markers ≡ catalog.old.markers) × (catalog.new.strays ≡ catalog.old.strays) }
    ensures made { IfOk result (λ _. length catalog.new.markers.ids + more ≤ vec_capacity catalog.new.freed) }
    ensures room { vec_capacity catalog.old.freed ≤ vec_capacity catalog.new.freed }
{
    let ids = catalog.markers.count().checked_add(more).ok_or(Memory)?;
    catalog.freed.clear();
    catalog.freed.reserve(ids)?;
    Ok(())
}

/// Takes all memory of a commit: the ids that the recipe names, its blob, the room in the lists and the markers, the
/// places in the index, and the recipe's name as a stray. After `Memory` all but the room is as before.
pub fn prepare(
    alloc: Global,
    catalog: &mut Catalog,
    index: &mut Index,
    job: JobInfo,
    recipe: &Recipe,
) -> Result<(Vec<Id>, Vec<u8>), Memory>
    requires sets { length catalog.old.sets.items ≤ 256 }
    requires room { HasRoom (memo_of catalog.old) }
    requires rules { IsRecipe recipe.now }
    requires range { job.first ≤ job.next }
    requires keyed { AreKeyed catalog.old.tables.entries }
    ensures ids { IfOk result (λ r. r.0.items ≡ set_of (map (λ q. q.id) recipe.now.rows)) }
    ensures blob { IfOk result (λ r. r.1.items ≡ recipe_bytes recipe.now) }
    ensures strays { IfOk result
        (λ _.
        catalog.new.strays.items
        ≡ catalog.old.strays.items ++ recipe_name recipe.now.set recipe.now.version ∷ []) }
    ensures same { (catalog.new.sets.items ≡ catalog.old.sets.items)
        × (catalog.new.tables.entries ≡ catalog.old.tables.entries) }
    ensures markers { (marks : List Mark) → AreMarkersOfSets catalog.old.markers marks
        → AreMarkersOfSets catalog.new.markers marks }
    ensures places { IfOk result (λ r. length r.0.items ≤ catalog.new.markers.room) }
    ensures spare { IfOk result
        (λ r. length catalog.new.markers.ids + length r.0.items ≤ vec_capacity catalog.new.freed) }
    ensures room { HasRoom (memo_of catalog.new) }
    ensures as_before { OnErr result (catalog.new.strays.items ≡ catalog.old.strays.items) }
    ensures added { IfOk result (λ _. (known : List TableOf) → IsIndexOf index.old known
        → IsIndexOf index.new
        (known ++ tables_from catalog.old.tables.entries job.first (job.next - job.first))) }
    ensures unchanged { OnErr result ((known : List TableOf) → AllByRecursion (λ t. t.id < job.first) known
        → IsIndexOf index.old known → IsIndexOf index.new known) }
{
    let ids = distinct_ids(alloc, recipe.rows.as_slice())?;
    catalog.markers.reserve(ids.len())?;
    make_spare(catalog, ids.len())?;
    make_room(catalog, 1)?;
    let blob = encode_recipe(alloc, recipe)?;
    add_tables(alloc, index, &catalog.tables, job.first, job.next)?;
    let _ = catalog
        .strays
        .push(Name::recipe(recipe.set, recipe.version));
    Ok((ids, blob))
}

// Whether the name is the recipe's, or one of a container of the job.
fn is_committed(recipe: Name, first: Id, next: Id, name: &Name) -> bool
    ensures { result ≡ is_committed recipe first next name.now }
{
    if *name == recipe {
        return true;
    }
    let of_container = match name.kind {
        Kind::Table => true,
        Kind::Payload => true,
        Kind::Recipe => false,
        Kind::Floor => false,
    };
    of_container && first <= name.number && name.number < next
}

// Takes the names that are needed from now on out of the strays.
fn drop_committed(strays: &mut Vec<Name>, recipe: Name, first: Id, next: Id)
    ensures left { strays.new.items ≡ uncommitted recipe first next strays.old.items }
    ensures room { vec_capacity strays.new ≡ vec_capacity strays.old }
{
    strays.retain(|name| !is_committed(recipe, first, next, name));
}

/// What is in memory once the recipe is committed: its set has it, its containers are named, and neither its name nor
/// theirs is a stray. Takes no memory.
pub fn note_commit(catalog: &mut Catalog, job: JobInfo, recipe: Recipe, ids: &[Id])
    requires in_range { job.set < length catalog.old.sets.items }
    requires places { length ids.now ≤ catalog.old.markers.room }
    ensures sets { catalog.new.sets.items
        ≡ slice_set catalog.old.sets.items job.set
        (record {
          floor = (slice_index_or catalog.old.sets.items job.set (set_info empty_dataset)).floor;
          latest = recipe.version;
          next = recipe.next;
          sparse = recipe.sparse;
        }) }
    ensures strays { catalog.new.strays.items
        ≡ uncommitted (recipe_name job.set recipe.version) job.first job.next catalog.old.strays.items }
    ensures markers { (marks : List Mark) → AreMarkersOfSets catalog.old.markers marks
        → AreMarkersOfSets catalog.new.markers (marks ++ marks_of job.set recipe.version ids.now) }
    ensures same { catalog.new.tables.entries ≡ catalog.old.tables.entries }
    ensures room { (vec_capacity catalog.new.strays ≡ vec_capacity catalog.old.strays)
        × (vec_capacity catalog.new.freed ≡ vec_capacity catalog.old.freed) }
{
    let name = Name::recipe(job.set, recipe.version);
    let Recipe {
        version,
        next,
        sparse,
        ..
    } = recipe;
    catalog.markers.commit(job.set, version, ids);
    drop_committed(&mut catalog.strays, name, job.first, job.next);
    let info = &mut catalog.sets[job.set as usize];
    info.latest = version;
    info.next = next;
    info.sparse = sparse;
}
