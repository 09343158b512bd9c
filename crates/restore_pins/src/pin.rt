//! One pin.
ghost use Rattle.std.specs.Prelude.{◌≡◌, nat_eq, position, IfOk};
ghost use Rattle.std.specs.List.{list_any};
ghost use Rattle.vault_types.specs.Lists.{has};

use std::alloc::Global;
use std::collections::HashSet;
use std::marker::Model;
use vault_types::{Id, Memory, Version};

/// A pinned version: its ids as they were given, and the set of them.
#[derive(Drop)]
pub struct Pin {
    number: u64,
    version: Version,
    ids: Vec<Id>,
    set: HashSet<Id>,
}

impl Model for Pin {
    ghost use Rattle.std.specs.Prelude.{◌≡◌, ℕ, nat_eq};
    ghost use Rattle.std.specs.HashSet.{contains};
    ghost use Rattle.vault_types.specs.Lists.{has};
    ghost use Rattle.restore_pins.specs.Pins.{Listed};

    ghost Value = { Listed };

    ghost view = { λ p. record { number = p.number; version = p.version; ids = p.ids.items } };

    ghost invariant = { λ p. (c : ℕ) → contains nat_eq p.set c ≡ has c p.ids.items };
}

impl Pin {
    /// A pin of this number.
    pub fn new(alloc: Global, number: u64, version: Version, ids: Vec<Id>) -> Result<Pin, Memory>
        ensures { IfOk result (λ pin. pin ≡ record { number = number; version = version; ids = ids.items }) }
    {
        let mut set = HashSet::with_capacity(alloc, ids.len())?;
        for id in &ids {
            set.insert(*id)?;
        }
        Ok(Pin {
            number,
            version,
            ids,
            set,
        })
    }

    /// Its number.
    pub fn number(&self) -> u64
        ensures { result ≡ self.now.number }
    {
        self.number
    }

    /// Whether it lists a container.
    pub fn lists(&self, id: Id) -> bool
        ensures { result ≡ has id self.now.ids }
    {
        self.set.contains(&id)
    }

    /// Its ids as they were given.
    pub fn into_ids(self) -> Vec<Id>
        ensures { result.items ≡ self.ids }
    {
        self.ids
    }
}

/// Whether one of the pins lists a container.
pub fn any_lists(pins: &[Pin], id: Id) -> bool
    ensures { result ≡ list_any (λ p. has id p.ids) pins.now }
{
    pins.iter().any(|pin| pin.lists(id))
}

/// Where the pin of this number stands.
pub fn place(pins: &[Pin], number: u64) -> Option<usize>
    ensures { result ≡ position (λ p. nat_eq p.number number) pins.now }
{
    pins.iter().position(|pin| pin.number() == number)
}
