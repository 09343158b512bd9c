//! The put of a job's next container.
ghost use Rattle.std.specs.Prelude.{◌≡◌, ◌<◌, ◌≤◌, ◌⊎◌, ◌+◌, ◌^◌, ◌++◌, ℕ, false, nat_eq, if◌then◌else◌, OnOk, OnErr, IfSome, IsSome, Some, None, length};
ghost use Rattle.vault_types.specs.Shelf.{HasContainer, blob_at, recipe_name};
ghost use Rattle.vault_types.specs.Events.{Core, IsNear};
ghost use Rattle.vault_traits.specs.Crash.{LeavesNowIfTold, LeavesOnlyIfTold};
ghost use Rattle.vault_traits.specs.Causes.{HasCauses, IsUndamaged};
ghost use Rattle.state_laws.specs.Parts.{HeldIfTold, with_strays};
ghost use Rattle.keeper_catalog.specs.Catalog.{memo_of, table_at, HasRoom};
ghost use Rattle.keeper_jobs.specs.Jobs.{names_of};
ghost use Rattle.keeper_jobs.specs.Puts.{PutsSealed};

use crate::room::make_room;
use container_store::Sealed;
use keeper_catalog::{Catalog, JobInfo};
use keeper_parts::put_container;
use std::alloc::Global;
use vault_traits::Shelf;
use vault_types::list::ListOf;
use vault_types::{Fault, Fp, Id, Kind, Memory, Name, Table};

// Takes the room for a container, notes its two names as strays, and takes a place for its table.
fn note_container(alloc: Global, catalog: &mut Catalog, id: Id) -> Result<(), Memory>
    requires sets { length catalog.old.sets.items ≤ 256 }
    requires room { HasRoom (memo_of catalog.old) }
    requires fresh { table_at catalog.old.tables.entries id ≡ None }
    ensures strays { (catalog.new.strays.items ≡ catalog.old.strays.items)
        ⊎ (catalog.new.strays.items ≡ catalog.old.strays.items ++ names_of id) }
    ensures noted { OnOk result (catalog.new.strays.items ≡ catalog.old.strays.items ++ names_of id) }
    ensures taken { OnOk result (IsSome (table_at catalog.new.tables.entries id)) }
    ensures tables { (k : ℕ) → nat_eq k id ≡ false
        → table_at catalog.new.tables.entries k ≡ table_at catalog.old.tables.entries k }
    ensures none { OnErr result (table_at catalog.new.tables.entries id ≡ None) }
    ensures same { (catalog.new.sets.items ≡ catalog.old.sets.items)
        × (catalog.new.markers ≡ catalog.old.markers) }
    ensures room { HasRoom (memo_of catalog.new) }
{
    make_room(catalog, 4)?;
    let _ = catalog.strays.push(Name {
        kind: Kind::Payload,
        number: id,
    });
    let _ = catalog.strays.push(Name {
        kind: Kind::Table,
        number: id,
    });
    let empty = Table {
        id,
        rows: ListOf::from_vec(Vec::new(alloc)),
        payload_sum: Fp([0; 20]),
    };
    catalog.tables.insert(id, empty)?;
    Ok(())
}

/// Puts the next container of a job: its payload and then its table. From its first shelf call on, also after a refusal,
/// both names are strays; the job has the container, and the memory its table, only at `Ok`. `StoreFault`, `Memory`.
pub fn put_sealed<S: Shelf>(
    alloc: Global,
    shelf: &mut S,
    catalog: &mut Catalog,
    job: &mut JobInfo,
    sealed: Sealed,
) -> Result<(), Fault>
    requires next { sealed.table.id ≡ job.old.next }
    requires low { sealed.table.id + 1 < 2 ^ 64 }
    requires sets { length catalog.old.sets.items ≤ 256 }
    requires room { HasRoom (memo_of catalog.old) }
    requires fresh { table_at catalog.old.tables.entries sealed.table.id ≡ None }
    ensures { PutsSealed sealed job.old job.new (memo_of catalog.old) (memo_of catalog.new)
        (S.told shelf.old) (S.told shelf.new) result }
{
    let id = sealed.table().id;
    note_container(alloc, catalog, id)?;
    match put_container(alloc, shelf, &sealed) {
        Ok(()) => {
            let (table, _) = sealed.into_parts();
            let _ = catalog.tables.insert(id, table);
            job.next += 1;
            Ok(())
        }
        Err(fault) => {
            catalog.tables.remove(&id);
            Err(fault)
        }
    }
}
