// A container that is ready to be put.
ghost use Rattle.std.specs.Prelude.{◌≡◌, Some};
ghost use Rattle.vault_types.specs.Tables.{IsTable, IsWhole};
ghost use Rattle.container_store.specs.Sealing.{container, payload_of, IsSealed};

use std::marker::Model;
use vault_types::Table;

/// A container that is ready to be put: its table has a spelling, and its payload is the chunks that the table
/// names, one after the other.
#[derive(Drop)]
pub struct Sealed {
    table: Table,
    payload: Vec<u8>,
}

impl Model for Sealed {
    ghost use Rattle.vault_types.specs.Tables.{Container};
    ghost use Rattle.container_store.specs.Sealing.{container, IsSealed};

    ghost Value = { Container };

    ghost view = { λ s. container s.table s.payload.items };

    ghost invariant = { λ s. IsSealed s.table s.payload.items };
}

impl Sealed {
    pub fn new(table: Table, payload: Vec<u8>) -> Sealed
        requires table { IsTable table }
        requires whole { IsWhole table payload.items }
        ensures { result ≡ container table payload.items }
    {
        Sealed { table, payload }
    }

    pub fn table(&self) -> &Table
        ensures is { result.now ≡ self.now.table }
        ensures rules { IsTable self.now.table }
    {
        &self.table
    }

    pub fn payload(&self) -> &[u8]
        ensures is { result.now ≡ payload_of self.now }
        ensures there { self.now.payload ≡ Some result.now }
        ensures whole { IsWhole self.now.table result.now }
    {
        self.payload.as_slice()
    }

    /// The table and the payload.
    pub fn into_parts(self) -> (Table, Vec<u8>)
        ensures is { self ≡ container result.0 result.1.items }
        ensures rules { IsSealed result.0 result.1.items }
    {
        let Sealed { table, payload } = self;
        (table, payload)
    }
}
