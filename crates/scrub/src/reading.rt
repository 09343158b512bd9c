//! The next container, as it is read.
ghost use Rattle.std.specs.Prelude.{◌≡◌};
ghost use Rattle.payload_health.specs.Health.{health_of};
ghost use Rattle.scrub.specs.Walking.{ReadsNext};

use crate::check::Check;
use keeper_core::Keeper;
use payload_health::Health;
use std::alloc::Global;
use std::marker::Model;
use vault_traits::Shelf;
use vault_types::list::ListOf;
use vault_types::{Fault, Id, Table};

/// A container as it was read: its table, and its payload where the shelf has one.
#[derive(Drop)]
pub(crate) struct ReadContainer {
    table: Table,
    payload: Option<Vec<u8>>,
}

impl Model for ReadContainer {
    ghost use Rattle.std.specs.Prelude.{option_map};
    ghost use Rattle.vault_types.specs.Tables.{Container, IsTable};

    ghost Value = { Container };

    ghost view = { λ r. record { table = r.table; payload = option_map (λ bytes. bytes.items) r.payload } };

    ghost invariant = { λ r. IsTable r.table };
}

impl ReadContainer {
    /// The id of the container.
    pub(crate) fn id(&self) -> Id
        ensures { result ≡ self.now.table.id }
    {
        self.table.id
    }

    /// How the payload is, by the check.
    pub(crate) fn health<C: Check>(&self, check: &C) -> Health
        ensures { result ≡ health_of self.now.table self.now.payload }
    {
        match &self.payload {
            Some(bytes) => check.check(&self.table, Some(bytes.as_slice())),
            None => check.check(&self.table, None),
        }
    }
}

/// Reads the next container above an id that a version names; none where there is none. `StoreFault`, `Damaged` of its
/// table, `Memory`. In each case the store is as before.
pub(crate) fn read_next<S: Shelf>(
    alloc: Global,
    keeper: &mut Keeper<S>,
    above: Id,
) -> Result<Option<ReadContainer>, Fault>
    ensures { ReadsNext keeper.old keeper.new above result }
{
    keeper.keeps_some_core();
    let Some(id) = keeper.named_after(above) else {
        return Ok(None);
    };
    let table = keeper.table(alloc, id)?;
    let payload = keeper.fetch(alloc, id)?;
    Ok(Some(ReadContainer { table, payload }))
}
