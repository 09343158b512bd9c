//! Containers on a shelf: a table says which chunks a container has, and a payload has their bytes.
#![tactic(auto)]

ghost use Rattle.std.specs.Prelude.{◌≡◌, [], ◌≤◌, IfSome, IfNone, ◌⊎◌, ◌++◌, flat_map, List, ℕ, Option, Some, None, IfOk, OnOk, Ok, IsErrOf};
ghost use Rattle.vault_types.specs.declared.Fault.TheVariants as fault;
ghost use Rattle.vault_types.specs.declared.Table.{Table as Tables};
ghost use Rattle.vault_types.specs.Tables.{IsTable, payload_len};
ghost use Rattle.vault_types.specs.Blobs.{table_bytes, table_row_bytes, SpellsTable};
ghost use Rattle.vault_types.specs.Shelf.{table_name, payload_name, Has};
ghost use Rattle.vault_traits.specs.Counts.{HasFailed, counted};
ghost use Rattle.vault_traits.specs.Shelf.{IsAsBefore, IsWritten};
ghost use Rattle.vault_traits.specs.Causes.{HasCauses, IsUndamaged};
ghost use Rattle.vault_traits.specs.Writes.{AreWritten, MayBeWrittenInTurn};
ghost use Rattle.container_store.specs.Sealing.{payload_of};
ghost use Rattle.vault_types.specs.BlobDamage.{IsNoTable, IsTableDamage, IsWrongPayload, IsPayloadDamage, IsPayloadOf, IsLoaded};

mod reading;
mod sealed;

use crate::reading::{payload_len, read_table};
use blob_parts::{Unread, fault_of, push_sum, push_u32, push_u64};
pub use sealed::Sealed;
use sha1::Sha1;
use std::alloc::{AllocError, Global};
use vault_traits::{Failed, Shelf};
use vault_types::{Fault, Fp, Id, Kind, Memory, Name, Table, TableRow, Why};

/// The blob of a table.
pub fn encode_table(alloc: Global, table: &Table) -> Result<Vec<u8>, Memory>
    requires { IsTable table.now }
    ensures { IfOk result (λ bytes. bytes.items ≡ table_bytes table.now) }
{
    let rows = table.rows.as_slice();
    let mut blob = Vec::with_capacity(alloc, 56 + 24 * rows.len())?;
    blob.extend_from_slice(b"DTB1")?;
    push_u64(&mut blob, table.id)?;
    push_u32(&mut blob, rows.len() as u32)?;
    push_rows(&mut blob, rows)?;
    blob.extend_from_slice(&table.payload_sum.0)?;
    push_sum(&mut blob, 0)?;
    Ok(blob)
}

fn push_rows(blob: &mut Vec<u8>, rows: &[TableRow]) -> Result<(), AllocError>
    ensures { OnOk result (blob.new.items ≡ blob.old.items ++ flat_map table_row_bytes rows.now) }
{
    for row in rows {
        blob.extend_from_slice(&row.fp.0)?;
        push_u32(blob, row.len)?;
    }
    Ok(())
}

/// The table of container `id` that the bytes spell, or none exactly where they spell none of this id.
pub fn decode_table(alloc: Global, bytes: &[u8], id: Id) -> Result<Option<Table>, Memory>
    ensures found { (t : _) → result ≡ Ok (Some t) → SpellsTable id bytes.now t }
    ensures none { result ≡ Ok None → IsNoTable id bytes.now }
{
    match read_table(alloc, bytes, id) {
        Ok(table) => Ok(Some(table)),
        Err(Unread::Spelling) => Ok(None),
        Err(Unread::Memory) => Err(Memory),
    }
}

/// Puts the payload and then the table. `StoreFault`, `Memory`.
pub fn put<S: Shelf>(alloc: Global, shelf: &mut S, sealed: &Sealed) -> Result<(), Fault>
    ensures ok { OnOk result
        (AreWritten (S.told shelf.old).blobs (S.told shelf.new).blobs (S.told shelf.old).history
        (S.told shelf.new).history
        (payload_name sealed.now.table.id) (Some (payload_of sealed.now)) (table_name sealed.now.table.id)
        (Some (table_bytes sealed.now.table))) }

    // After an `Err` the table is not there unless the payload is.
    ensures at_most { MayBeWrittenInTurn (S.told shelf.old).blobs (S.told shelf.new).blobs
        (S.told shelf.old).history (S.told shelf.new).history
        (payload_name sealed.now.table.id) (Some (payload_of sealed.now)) (table_name sealed.now.table.id)
        (Some (table_bytes sealed.now.table)) }

    // For want of memory nothing was written, or the payload alone.
    ensures memory { IsErrOf result fault.Memory → IsAsBefore (S.told shelf.old) (S.told shelf.new)
        ⊎ IsWritten (S.told shelf.old).blobs (S.told shelf.new).blobs (S.told shelf.old).history
        (S.told shelf.new).history (payload_name sealed.now.table.id) (Some (payload_of sealed.now)) }
    ensures gets { (S.told shelf.new).gets ≡ (S.told shelf.old).gets }
    ensures causes { HasCauses (S.told shelf.old).faults (S.told shelf.new).faults IsUndamaged result }
{
    let table = sealed.table();
    let blob = encode_table(alloc, table)?;
    put_two(alloc, shelf, table.id, sealed.payload(), blob.as_slice())
}

fn put_two<S: Shelf>(
    alloc: Global,
    shelf: &mut S,
    id: Id,
    payload: &[u8],
    table: &[u8],
) -> Result<(), Fault>
    ensures ok { OnOk result
        (AreWritten (S.told shelf.old).blobs (S.told shelf.new).blobs (S.told shelf.old).history
        (S.told shelf.new).history
        (payload_name id) (Some payload.now) (table_name id) (Some table.now)) }

    // After an `Err` the table is not there unless the payload is.
    ensures at_most { MayBeWrittenInTurn (S.told shelf.old).blobs (S.told shelf.new).blobs
        (S.told shelf.old).history (S.told shelf.new).history
        (payload_name id) (Some payload.now) (table_name id) (Some table.now) }

    // For want of memory nothing was written, or the payload alone.
    ensures memory { IsErrOf result fault.Memory → IsAsBefore (S.told shelf.old) (S.told shelf.new)
        ⊎ IsWritten (S.told shelf.old).blobs (S.told shelf.new).blobs (S.told shelf.old).history
        (S.told shelf.new).history (payload_name id) (Some payload.now) }
    ensures gets { (S.told shelf.new).gets ≡ (S.told shelf.old).gets }
    ensures causes { HasCauses (S.told shelf.old).faults (S.told shelf.new).faults IsUndamaged result }
{
    if let Err(refused) = shelf.put(alloc, name_of(Kind::Payload, id), payload) {
        return Err(fault_of(shelf, refused));
    }
    match shelf.put(alloc, name_of(Kind::Table, id), table) {
        Ok(()) => Ok(()),
        Err(refused) => Err(fault_of(shelf, refused)),
    }
}

/// The table of a container, as the shelf has it. `StoreFault`, `Damaged`, `Memory`.
pub fn get_table<S: Shelf>(alloc: Global, shelf: &mut S, id: Id) -> Result<Table, Fault>
    ensures found { IfOk result (λ t. (bytes : List ℕ)
        × Has (S.told shelf.old).blobs (table_name id) (Some bytes) × SpellsTable id bytes t) }
    ensures kept { IsAsBefore (S.told shelf.old) (S.told shelf.new) }
    ensures gets { (S.told shelf.new).gets ≡ (S.told shelf.old).gets }
    ensures causes { HasCauses (S.told shelf.old).faults (S.told shelf.new).faults
        (IsTableDamage (S.told shelf.old).blobs id) result }
{
    let bytes = match shelf.get(alloc, name_of(Kind::Table, id)) {
        Ok(Some(bytes)) => bytes,
        Ok(None) => return Err(damaged(Kind::Table, id, Why::Absent)),
        Err(refused) => return Err(fault_of(shelf, refused)),
    };
    match decode_table(alloc, bytes.as_slice(), id)? {
        Some(table) => Ok(table),
        None => Err(damaged(Kind::Table, id, Why::Spelling)),
    }
}

/// The payload of a container, by one get. Its length and its sum are those of the table. `StoreFault`, `Damaged`,
/// `Memory`.
pub fn load<S: Shelf>(alloc: Global, shelf: &mut S, table: &Table) -> Result<Vec<u8>, Fault>
    requires { IsTable table.now }
    ensures loaded { IfOk result (λ bytes. IsLoaded (S.told shelf.old).blobs table.now bytes.items) }
    ensures kept { IsAsBefore (S.told shelf.old) (S.told shelf.new) }
    ensures gets { (S.told shelf.new).gets ≡ counted (S.told shelf.old).gets }
    ensures causes { HasCauses (S.told shelf.old).faults (S.told shelf.new).faults
        (IsPayloadDamage (S.told shelf.old).blobs table.now) result }
{
    let bytes = match shelf.get(alloc, name_of(Kind::Payload, table.id)) {
        Ok(Some(bytes)) => bytes,
        Ok(None) => return Err(damaged(Kind::Payload, table.id, Why::Absent)),
        Err(refused) => return Err(fault_of(shelf, refused)),
    };
    match payload_fault(table, bytes.as_slice()) {
        None => Ok(bytes),
        Some(why) => Err(damaged(Kind::Payload, table.id, why)),
    }
}

fn damaged(kind: Kind, number: Id, why: Why) -> Fault
    ensures { result ≡ fault.Damaged kind number why }
{
    Fault::Damaged { kind, number, why }
}

// What is wrong with the bytes as a payload of this table.
fn payload_fault(table: &Table, bytes: &[u8]) -> Option<Why>
    requires { IsTable table.now }
    ensures wrong { IfSome result (IsWrongPayload table.now bytes.now) }
    ensures right { IfNone result (IsPayloadOf table.now bytes.now) }
{
    let want = payload_len(table.rows.as_slice());
    let found = bytes.len() as u64;
    if found != want {
        return Some(Why::Length { want, found });
    }
    let sum = Fp(Sha1::digest(bytes));
    if sum != table.payload_sum {
        return Some(Why::Sum {
            want: table.payload_sum,
            found: sum,
        });
    }
    None
}

/// Takes the table out and then the payload. The payload's removal isn't tried where that of the table failed. Takes no
/// memory.
pub fn remove<S: Shelf>(shelf: &mut S, id: Id) -> Result<(), Failed>
    ensures ok { OnOk result
        (AreWritten (S.told shelf.old).blobs (S.told shelf.new).blobs (S.told shelf.old).history
        (S.told shelf.new).history
        (table_name id) None (payload_name id) None) }
    ensures at_most { MayBeWrittenInTurn (S.told shelf.old).blobs (S.told shelf.new).blobs
        (S.told shelf.old).history (S.told shelf.new).history
        (table_name id) None (payload_name id) None }
    ensures gets { (S.told shelf.new).gets ≡ (S.told shelf.old).gets }
    ensures cause { HasFailed (S.told shelf.old).faults (S.told shelf.new).faults result }
{
    shelf.remove(name_of(Kind::Table, id))?;
    shelf.remove(name_of(Kind::Payload, id))
}

fn name_of(kind: Kind, number: u64) -> Name
    ensures { result ≡ record { kind = kind; number = number } }
{
    Name { kind, number }
}

/// Each table has one spelling, and no spelling of a table begins another of the same container.
pub fn tables_are_told_apart()
    ensures one { (id : ℕ) (t : Tables) (a b : List ℕ) → SpellsTable id a t → SpellsTable id b t → a ≡ b }
    ensures apart { (id : ℕ) (t u : Tables) (a b more : List ℕ) → SpellsTable id a t → SpellsTable id b u
        → a ++ more ≡ b → (t ≡ u) × (more ≡ []) }
{}
