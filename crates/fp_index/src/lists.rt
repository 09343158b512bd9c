//! The lists of containers by fingerprint.
ghost use Rattle.std.specs.Prelude.{◌≡◌, List, [], OnOk, IsTrue, if◌then◌else◌};
ghost use Rattle.vault_types.specs.declared.Fp.{Fp as Key};
ghost use Rattle.vault_types.specs.Lists.{with_number, IsAscending};
ghost use Rattle.vault_types.specs.Names.{same_fp};
ghost use Rattle.fp_index.specs.Lists.{ids_in, row_has, without, AllAscend, HasRoomFor, TakesId, TakesRows};

use std::alloc::Global;
use std::collections::HashMap;
use vault_types::{Fp, Id, Memory, TableRow};

/// Makes room at a fingerprint for a container.
fn make_room_at(
    alloc: Global,
    containers: &mut HashMap<Fp, Vec<Id>>,
    id: Id,
    fp: &Fp,
) -> Result<(), Memory>
    ensures same { (f : Key) → ids_in containers.new.entries f ≡ ids_in containers.old.entries f }
    ensures room { OnOk result (TakesId containers.new.entries id fp.now) }
    ensures others { (f : Key) → TakesId containers.old.entries id f → TakesId containers.new.entries id f }
{
    match containers.get_mut(fp) {
        Some(ids) => ids.reserve(1)?,
        None => {
            let ids = Vec::with_capacity(alloc, 1)?;
            containers.insert(*fp, ids)?;
        }
    }
    Ok(())
}

/// Makes room for a container at the fingerprint of each row.
pub fn make_room(
    alloc: Global,
    containers: &mut HashMap<Fp, Vec<Id>>,
    id: Id,
    rows: &[TableRow],
) -> Result<(), Memory>
    ensures same { (f : Key) → ids_in containers.new.entries f ≡ ids_in containers.old.entries f }
    ensures room { OnOk result (TakesRows containers.new.entries id rows.now) }
{
    for row in rows {
        make_room_at(alloc, containers, id, &row.fp)?;
    }
    Ok(())
}

/// Puts an id in its place in an ascending list, unless it is there.
fn insert_id(ids: &mut Vec<Id>, id: Id)
    requires ascend { IsAscending ids.old.items }
    requires room { HasRoomFor id ids.old }
    ensures { ids.new.items ≡ with_number id ids.old.items }
{
    if let Err(at) = ids.binary_search(&id) {
        let _ = ids.insert(at, id);
    }
}

/// Takes an id out of an ascending list.
fn remove_id(ids: &mut Vec<Id>, id: Id)
    requires { IsAscending ids.old.items }
    ensures { ids.new.items ≡ without id ids.old.items }
{
    if let Ok(at) = ids.binary_search(&id) {
        ids.remove(at);
    }
}

/// Adds a container at a fingerprint, where there is room for it.
fn add_id(containers: &mut HashMap<Fp, Vec<Id>>, id: Id, fp: &Fp)
    requires ascend { AllAscend containers.old.entries }
    requires room { TakesId containers.old.entries id fp.now }
    ensures ids { (f : Key)
        → ids_in containers.new.entries f
        ≡ (if same_fp fp.now f then with_number id (ids_in containers.old.entries f)
        else ids_in containers.old.entries f) }
    ensures room { (f : Key) → TakesId containers.old.entries id f → TakesId containers.new.entries id f }
{
    if let Some(ids) = containers.get_mut(fp) {
        insert_id(ids, id);
    }
}

/// Adds a container at the fingerprint of each row, where there is room for it.
pub fn add_rows(containers: &mut HashMap<Fp, Vec<Id>>, id: Id, rows: &[TableRow])
    requires ascend { AllAscend containers.old.entries }
    requires room { TakesRows containers.old.entries id rows.now }
    ensures { (f : Key)
        → ids_in containers.new.entries f
        ≡ (if row_has f rows.now then with_number id (ids_in containers.old.entries f)
        else ids_in containers.old.entries f) }
{
    for row in rows {
        add_id(containers, id, &row.fp);
    }
}

/// Takes a container out of the list at a fingerprint, and says whether that list is empty now.
fn empties(containers: &mut HashMap<Fp, Vec<Id>>, id: Id, fp: &Fp) -> bool
    requires { AllAscend containers.old.entries }
    ensures ids { (f : Key)
        → ids_in containers.new.entries f
        ≡ (if same_fp fp.now f then without id (ids_in containers.old.entries f)
        else ids_in containers.old.entries f) }
    ensures emptied { IsTrue result → ids_in containers.new.entries fp.now ≡ [] }
{
    match containers.get_mut(fp) {
        Some(ids) => {
            remove_id(ids, id);
            ids.is_empty()
        }
        None => false,
    }
}

/// Takes a container out at a fingerprint. A list that is empty then goes.
fn take_id(containers: &mut HashMap<Fp, Vec<Id>>, id: Id, fp: &Fp)
    requires { AllAscend containers.old.entries }
    ensures { (f : Key)
        → ids_in containers.new.entries f
        ≡ (if same_fp fp.now f then without id (ids_in containers.old.entries f)
        else ids_in containers.old.entries f) }
{
    if empties(containers, id, fp) {
        containers.remove(fp);
    }
}

/// Takes a container out at the fingerprint of each row.
pub fn take_rows(containers: &mut HashMap<Fp, Vec<Id>>, id: Id, rows: &[TableRow])
    requires { AllAscend containers.old.entries }
    ensures { (f : Key)
        → ids_in containers.new.entries f
        ≡ (if row_has f rows.now then without id (ids_in containers.old.entries f)
        else ids_in containers.old.entries f) }
{
    for row in rows {
        take_id(containers, id, &row.fp);
    }
}
