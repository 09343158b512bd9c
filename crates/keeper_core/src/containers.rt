//! The containers that versions name: which there are, and their blobs.
ghost use Rattle.std.specs.Prelude.{◌≡◌, ◌≤◌, ◌<◌, ℕ, true, List, IfOk, IfSome, IfNone, IsSome, Some, None, option_map};
ghost use Rattle.vault_types.specs.Lists.{has};
ghost use Rattle.vault_types.specs.Marks.{Mark, marked_ids};
ghost use Rattle.vault_types.specs.Tables.{Container, IsTable};
ghost use Rattle.vault_types.specs.State.{container_in, named};
ghost use Rattle.vault_types.specs.Shelf.{payload_name, Has};
ghost use Rattle.vault_types.specs.BlobDamage.{IsTableDamage};
ghost use Rattle.vault_types.specs.Events.{Core};
ghost use Rattle.set_markers.specs.SetMarkers.{AreMarkersOfSets};
ghost use Rattle.vault_traits.specs.Counts.{counted};
ghost use Rattle.vault_traits.specs.Causes.{HasCauses, IsUndamaged};
ghost use Rattle.vault_traits.specs.Shelf.{IsAsBefore};
ghost use Rattle.keeper_catalog.specs.Catalog.{memo_of, table_at};
ghost use Rattle.keeper_catalog.specs.View.{Keeps};
ghost use Rattle.keeper_core.specs.NextNamed.{IsNextAbove};

use crate::keeper::Keeper;
use blob_parts::fault_of;
use container_store::get_table;
use keeper_catalog::Catalog;
use std::alloc::Global;
use std::collections::BTreeMap;
use std::ops::Bound;
use vault_traits::Shelf;
use vault_types::list::ListOf;
use vault_types::{Fault, Id, Kind, Memory, Name, Table, TableRow};

// The least id above one that has a table in memory.
fn next_table(tables: &BTreeMap<Id, Table>, above: Id) -> Option<Id>
    ensures some { IfSome result (λ n. (above < n)
        × ((m : ℕ) → above < m → IsSome (table_at tables.now.entries m) → n ≤ m)) }
    ensures none { IfNone result ((m : ℕ) → above < m → table_at tables.now.entries m ≡ None) }
{
    match tables
        .range((Bound::Excluded(above), Bound::Unbounded))
        .next()
    {
        Some((id, _)) => Some(*id),
        None => None,
    }
}

// The least id above one that has a mark. Each that has one has its table in memory.
fn next_marked(catalog: &Catalog, above: Id) -> Option<Id>
    ensures { (marks : List Mark) → AreMarkersOfSets (memo_of catalog.now).markers marks
        → ((m : ℕ) → has m (marked_ids marks) ≡ true → IsSome (table_at (memo_of catalog.now).tables m))
        → IsNextAbove (marked_ids marks) above result }
{
    let mut passed = above;
    while let Some(id) = next_table(&catalog.tables, passed) {
        if catalog.markers.named(id) {
            return Some(id);
        }
        passed = id;
    }
    None
}

// A copy of a table.
fn copy_of_table(alloc: Global, table: &Table) -> Result<Table, Memory>
    ensures { IfOk result (λ copy. copy ≡ table.now) }
{
    let rows: Vec<TableRow> = table.rows.as_slice().iter().copied().collect(alloc)?;
    Ok(Table {
        id: table.id,
        rows: ListOf::from_vec(rows),
        payload_sum: table.payload_sum,
    })
}

// The payload of a container as the shelf has it.
fn get_payload<S: Shelf>(alloc: Global, shelf: &mut S, id: Id) -> Result<Option<Vec<u8>>, Fault>
    ensures found { IfOk result
        (λ found. Has (S.told shelf.old).blobs (payload_name id) (option_map (λ bytes. bytes.items) found)) }
    ensures kept { IsAsBefore (S.told shelf.old) (S.told shelf.new) }
    ensures gets { (S.told shelf.new).gets ≡ counted (S.told shelf.old).gets }
    ensures causes { HasCauses (S.told shelf.old).faults (S.told shelf.new).faults IsUndamaged result }
{
    let name = Name {
        kind: Kind::Payload,
        number: id,
    };
    match shelf.get(alloc, name) {
        Ok(found) => Ok(found),
        Err(refused) => Err(fault_of(shelf, refused)),
    }
}

impl<S: Shelf> Keeper<S> {
    /// The least id above one that a version names; none exactly where there is none. Takes no memory.
    pub fn named_after(&self, above: Id) -> Option<Id>
        ensures { (K : Core) → Keeps self.now K → IsNextAbove (named K.state) above result }
    {
        next_marked(&self.catalog, above)
    }

    /// The table of a container that a version names. It is read again, and what is given is the one in memory: `StoreFault`,
    /// where the shelf failed; `Damaged`, where the table is absent or is spelled as none of this id; `Memory`. After an
    /// `Err`, too, all is as before.
    pub fn table(&mut self, alloc: Global, id: Id) -> Result<Table, Fault>
        requires { (K : Core) × (c : Container) × Keeps self.old K
            × (container_in K.state.containers id ≡ Some c) }
        ensures given { IfOk result (λ t. (K : Core) (c : Container) → Keeps self.old K
            → container_in K.state.containers id ≡ Some c → t ≡ c.table) }
        ensures rules { IfOk result IsTable }
        ensures keeps { (K : Core) → Keeps self.old K → Keeps self.new K }
        ensures same { (self.new.memo ≡ self.old.memo) × (self.new.index ≡ self.old.index)
            × (self.new.pins ≡ self.old.pins) × (self.new.job ≡ self.old.job)
            × (self.new.pending ≡ self.old.pending) }
        ensures shelf { (self.new.told.blobs ≡ self.old.told.blobs)
            × (self.new.told.history ≡ self.old.told.history)
            × (self.new.told.gets ≡ self.old.told.gets) }
        ensures causes { HasCauses self.old.told.faults self.new.told.faults
            (IsTableDamage self.old.told.blobs id) result }
    {
        let _read = get_table(alloc, &mut self.shelf, id)?;
        match self.catalog.tables.get(&id) {
            Some(table) => Ok(copy_of_table(alloc, table)?),
            None => unreachable!(),
        }
    }

    /// The rows of the table of a container that a version names, as they are in memory. Takes no memory.
    pub fn rows_of(&self, id: Id) -> &[TableRow]
        requires { (K : Core) × (c : Container) × Keeps self.now K
            × (container_in K.state.containers id ≡ Some c) }
        ensures { (K : Core) (c : Container) → Keeps self.now K
            → container_in K.state.containers id ≡ Some c → result.now ≡ c.table.rows }
    {
        match self.catalog.tables.get(&id) {
            Some(table) => table.rows.as_slice(),
            None => unreachable!(),
        }
    }

    /// The payload of a container, where the shelf has one, by one get of it; nothing of it is checked. `StoreFault`, where
    /// the shelf failed; `Memory`. After an `Err`, too, all is as before.
    pub fn fetch(&mut self, alloc: Global, id: Id) -> Result<Option<Vec<u8>>, Fault>
        ensures found { IfOk result
            (λ found. Has self.old.told.blobs (payload_name id) (option_map (λ bytes. bytes.items) found)) }
        ensures payload { IfOk result (λ found. IsSome self.old.told.blobs → (K : Core) (c : Container)
            → Keeps self.old K → container_in K.state.containers id ≡ Some c
            → option_map (λ bytes. bytes.items) found ≡ c.payload) }
        ensures keeps { (K : Core) → Keeps self.old K → Keeps self.new K }
        ensures same { (self.new.memo ≡ self.old.memo) × (self.new.index ≡ self.old.index)
            × (self.new.pins ≡ self.old.pins) × (self.new.job ≡ self.old.job)
            × (self.new.pending ≡ self.old.pending) }
        ensures shelf { (self.new.told.blobs ≡ self.old.told.blobs)
            × (self.new.told.history ≡ self.old.told.history)
            × (self.new.told.gets ≡ counted self.old.told.gets) }
        ensures causes { HasCauses self.old.told.faults self.new.told.faults IsUndamaged result }
    {
        get_payload(alloc, &mut self.shelf, id)
    }
}
