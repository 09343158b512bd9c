// Stores whose payloads are damaged.
ghost use Rattle.std.specs.Prelude.{◌≢◌, IfOk};
ghost use Rattle.vault_types.specs.Tables.{IsTable};

use container_store::encode_table;
use keeper_driver::jobs::seal;
use keeper_driver::store::started;
use keeper_driver::sum;
use std::alloc::Global;
use std::test::Fail;
use vault_ports::MemShelf;
use vault_traits::Shelf;
use vault_types::{Fault, Id, Kind, Name, Table};

/// What is done to a payload.
#[derive(Clone, Copy, Debug, PartialEq)]
pub enum Change {
    IsGone,
    HasOneByteMore,
    HasAnotherByte,
    // and its table has its SHA-1
    HasAnotherChunk,
}

pub fn payload_name(id: Id) -> Name
    ensures { result.kind ≢ Kind.Floor }
{
    Name {
        kind: Kind::Payload,
        number: id,
    }
}

fn table_name(id: Id) -> Name
    ensures { result.kind ≢ Kind.Floor }
{
    Name {
        kind: Kind::Table,
        number: id,
    }
}

/// The payload of a container: three chunks of four bytes, each with a letter for its id.
pub fn payload_of(id: Id) -> [u8; 12] {
    let letter = b'a' + (id % 26) as u8;
    [
        b'1', b'1', b'1', letter, b'2', b'2', b'2', letter, b'3', b'3', b'3', letter,
    ]
}

/// A shelf with a store of one version for each container, the ids of which are 1, 2 and so on.
pub fn store_of(alloc: Global, containers: u8) -> Result<MemShelf, Fail> {
    let mut store = started(alloc, MemShelf::new(alloc))?;
    for id in 1..u64::from(containers) + 1 {
        let payload = payload_of(id);
        store.back_up(alloc, 0, b"", &[&payload])?;
    }
    Ok(store.close())
}

// The table of a container, with the SHA-1 of other bytes.
fn table_with_sum(alloc: Global, id: Id, bytes: &[u8]) -> Result<Table, Fault>
    ensures { IfOk result IsTable }
{
    let (table, _) = seal(alloc, id, &payload_of(id))?.into_parts();
    Ok(Table {
        payload_sum: sum(bytes),
        ..table
    })
}

/// Changes a payload of such a store.
pub fn damage_payload(
    alloc: Global,
    shelf: &mut MemShelf,
    id: Id,
    change: Change,
) -> Result<(), Fail> {
    let mut bytes = payload_of(id).to_vec(alloc)?;
    match change {
        Change::IsGone => {
            shelf.remove(payload_name(id))?;
            return Ok(());
        }
        Change::HasOneByteMore => bytes.push(b'x')?,
        Change::HasAnotherByte => bytes[5] = b'x',
        Change::HasAnotherChunk => {
            bytes[5] = b'x';
            let blob = encode_table(alloc, &table_with_sum(alloc, id, &bytes)?)?;
            shelf.put(alloc, table_name(id), &blob)?;
        }
    }
    shelf.put(alloc, payload_name(id), &bytes)?;
    Ok(())
}
