// A container that is filled, and not summed yet.
ghost use Rattle.std.specs.Prelude.{◌≡◌};

use crate::open::Open;
use container_store::Sealed;
use std::marker::Model;
use vault_types::Id;

/// A container that takes no chunk more, and whose payload is not summed yet. Contracts see it as the container.
#[derive(Drop)]
pub struct Unsealed {
    pub(crate) open: Open,
    pub(crate) id: Id,
}

impl Model for Unsealed {
    ghost use Rattle.std.specs.Prelude.{◌≤◌, map};
    ghost use Rattle.vault_types.specs.Names.{named_chunk};
    ghost use Rattle.vault_types.specs.Tables.{Container};
    ghost use Rattle.vault_types.specs.Fill.{new_container};

    ghost Value = { Container };

    ghost view = { λ u. new_container u.id (map named_chunk u.open) };

    ghost invariant = { λ u. 1 ≤ u.id };
}

impl Unsealed {
    /// The container as it is put, with the SHA-1 of its payload. No memory.
    pub fn seal(self) -> Sealed
        ensures { result ≡ self }
    {
        let Unsealed { open, id } = self;
        open.seal(id)
    }
}
