//! What a keeper tells of its versions and containers.
ghost use Rattle.std.specs.Prelude.{◌≡◌, ◌<◌, ◌^◌, option_map};
ghost use Rattle.vault_types.specs.State.{is_kept, is_full, container_in};
ghost use Rattle.vault_types.specs.Tables.{payload_len};
ghost use Rattle.vault_types.specs.Events.{Core};
ghost use Rattle.keeper_catalog.specs.View.{Keeps};

use crate::keeper::Keeper;
use vault_traits::Shelf;
use vault_types::{Id, Limits, Set, TableRow, Version};

impl<S: Shelf> Keeper<S> {
    /// Whether the version is kept.
    pub fn kept(&self, set: Set, version: Version) -> bool
        ensures { (K : Core) → Keeps self.now K → result ≡ is_kept K.state set version }
    {
        self.floor(set) <= version && version <= self.latest(set)
    }

    /// Whether the set may have no version more, or the next ids not as many containers as a version may have chunks.
    pub fn full(&self, set: Set, limits: &Limits) -> bool
        ensures { (K : Core) → Keeps self.now K → result ≡ is_full K.state set limits.now }
    {
        let next = u128::from(self.next_id());
        limits.last <= self.latest(set)
            || next + u128::from(limits.chunks) > 9_223_372_036_854_775_808
    }

    /// How many bytes the payload of a container has that a version names; none of another one, also where a pin lists it
    /// or the open job has put it. Takes no memory.
    pub fn payload_len(&self, id: Id) -> Option<u32>
        ensures { (K : Core) → Keeps self.now K
            → result ≡ option_map (λ c. payload_len c.table.rows) (container_in K.state.containers id) }
    {
        if !self.catalog.markers.named(id) {
            return None;
        }
        match self.catalog.tables.get(&id) {
            Some(table) => Some(payload_len(table.rows.as_slice())),
            None => unreachable!(),
        }
    }
}

fn payload_len(rows: &[TableRow]) -> u32
    requires { payload_len rows.now < 2 ^ 32 }
    ensures { result ≡ payload_len rows.now }
{
    rows.iter().map(|row| row.len).sum()
}
