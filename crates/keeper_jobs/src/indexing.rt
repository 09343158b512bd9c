//! The tables of a job, in the index and in memory.
ghost use Rattle.std.specs.Prelude.{◌≡◌, ◌≤◌, ◌<◌, ◌-◌, ◌++◌, ◌&&◌, ℕ, suc, ◌+◌, List, nat_le, nat_lt, if◌then◌else◌, OnOk, OnErr, None, length};
ghost use Rattle.std.specs.List.{AllByRecursion};
ghost use Rattle.vault_types.specs.declared.Table.{Table as TableOf};
ghost use Rattle.fp_index.specs.Index.{IsIndexOf};
ghost use Rattle.keeper_catalog.specs.Catalog.{table_at};
ghost use Rattle.keeper_jobs.specs.Jobs.{tables_at, tables_from, AreKeyed};

use fp_index::Index;
use std::alloc::Global;
use std::collections::BTreeMap;
use vault_types::{Id, Memory, Table};

// Adds the table at an id, if there is one.
fn add_at(
    alloc: Global,
    index: &mut Index,
    tables: &BTreeMap<Id, Table>,
    id: Id,
) -> Result<(), Memory>
    ensures added { OnOk result ((known : List TableOf) → IsIndexOf index.old known
        → IsIndexOf index.new (known ++ tables_at tables.now.entries id)) }
    ensures unchanged { OnErr result ((known : List TableOf) → IsIndexOf index.old known
        → IsIndexOf index.new known) }
{
    let Some(table) = tables.get(&id) else {
        return Ok(());
    };
    index.add_container(alloc, table)
}

/// Adds the tables of these ids to the index. After `Memory` it finds what it found before.
pub fn add_tables(
    alloc: Global,
    index: &mut Index,
    tables: &BTreeMap<Id, Table>,
    first: Id,
    next: Id,
) -> Result<(), Memory>
    requires range { first ≤ next }
    requires keyed { AreKeyed tables.now.entries }
    ensures added { OnOk result ((known : List TableOf) → IsIndexOf index.old known
        → IsIndexOf index.new (known ++ tables_from tables.now.entries first (next - first))) }
    ensures unchanged { OnErr result ((known : List TableOf) → AllByRecursion (λ t. t.id < first) known
        → IsIndexOf index.old known → IsIndexOf index.new known) }
{
    for id in first..next {
        let Ok(()) = add_at(alloc, index, tables, id) else {
            drop_tables(index, tables, first, id);
            return Err(Memory);
        };
    }
    Ok(())
}

// Takes the table at an id out of the index, if there is one.
fn drop_at(index: &mut Index, tables: &BTreeMap<Id, Table>, id: Id)
    requires { AreKeyed tables.now.entries }
    ensures { (known : List TableOf) (low n : ℕ) → AllByRecursion (λ t. t.id < low) known → low ≤ id
        → IsIndexOf index.old (known ++ tables_from tables.now.entries id (suc n))
        → IsIndexOf index.new (known ++ tables_from tables.now.entries (id + 1) n) }
{
    let Some(table) = tables.get(&id) else {
        return;
    };
    index.drop_container(table);
}

/// Takes the tables of these ids out of the index, which has them and no other of these ids. Takes no memory.
pub fn drop_tables(index: &mut Index, tables: &BTreeMap<Id, Table>, first: Id, next: Id)
    requires range { first ≤ next }
    requires keyed { AreKeyed tables.now.entries }
    ensures dropped { (known : List TableOf) → AllByRecursion (λ t. t.id < first) known
        → IsIndexOf index.old (known ++ tables_from tables.now.entries first (next - first))
        → IsIndexOf index.new known }
{
    for id in first..next {
        drop_at(index, tables, id);
    }
}

/// Lets the tables of these ids go from memory. Takes no memory.
pub fn forget_tables(tables: &mut BTreeMap<Id, Table>, first: Id, next: Id)
    requires range { first ≤ next }
    ensures gone { (id : ℕ)
        → table_at tables.new.entries id
        ≡ (if nat_le first id && nat_lt id next then None else table_at tables.old.entries id) }
    ensures fewer { length tables.new.entries ≤ length tables.old.entries }
{
    for id in first..next {
        tables.remove(&id);
    }
}
