//! A keeper with one pin, and with two.
ghost use Rattle.std.specs.Prelude.{◌≡◌, ℕ, List, None, IfOk};
ghost use Rattle.vault_types.specs.declared.Spot.{Spot as Place};
ghost use Rattle.keeper_driver.specs.Drafts.{HasNoJob};
ghost use Rattle.keeper_driver.specs.Pinning.{IsPinning};

use crate::store::Store;
use keeper_core::{Keeper, Pinned};
use std::alloc::Global;
use std::marker::Model;
use vault_traits::Shelf;
use vault_types::{Answer, Fault, Set, Version};

/// A keeper that has no open job, and a pin of it.
#[derive(Drop)]
pub struct One<S: Shelf> {
    keeper: Keeper<S>,
    pinned: Pinned,
}

impl<S: Shelf> Model for One<S> {
    ghost use Rattle.keeper_driver.specs.Pinning.{IsPinning};

    ghost Value = { Unit {0} };

    ghost view = { λ s. tt };

    ghost invariant = { λ s. IsPinning s.keeper s.pinned.no s.pinned.spots.items };
}

/// A keeper that has no open job, and two pins of it.
#[derive(Drop)]
pub struct Two<S: Shelf> {
    keeper: Keeper<S>,
    first: Pinned,
    second: Pinned,
}

impl<S: Shelf> Model for Two<S> {
    ghost use Rattle.std.specs.Prelude.{◌≢◌};
    ghost use Rattle.keeper_driver.specs.Pinning.{IsPinning};

    ghost Value = { Unit {0} };

    ghost view = { λ s. tt };

    ghost invariant = { λ s. IsPinning s.keeper s.first.no s.first.spots.items
        × IsPinning s.keeper s.second.no s.second.spots.items × (s.second.no ≢ s.first.no) };
}

// Pins a version. Other pins stay, and have another number.
fn pin<S: Shelf>(
    alloc: Global,
    keeper: &mut Keeper<S>,
    set: Set,
    version: Version,
) -> Result<Pinned, Fault>
    requires { HasNoJob keeper.old }
    ensures pinned { IfOk result (λ p. IsPinning keeper.new p.no p.spots.items) }
    ensures others { IfOk result (λ p. (n : ℕ) (spots : List Place) → IsPinning keeper.old n spots
        → IsPinning keeper.new n spots × (p.no ≡ n → ⊥)) }
{
    match keeper.pin(alloc, set, version) {
        Ok(pinned) => Ok(pinned),
        Err(fault) => Err(fault),
    }
}

// Deletes the versions of a set through one.
fn delete<S: Shelf>(keeper: &mut Keeper<S>, set: Set, through: Version) -> Result<Answer, Fault>
    requires { keeper.old.job ≡ None }
    ensures { (n : ℕ) (spots : List Place) → IsPinning keeper.old n spots → IsPinning keeper.new n spots }
{
    match keeper.delete_through(set, through) {
        Ok(answer) => Ok(answer),
        Err(fault) => Err(fault),
    }
}

// The payload of the first container that a pin lists. `Usage` where it lists none.
fn load<S: Shelf>(alloc: Global, keeper: &mut Keeper<S>, pinned: &Pinned) -> Result<Vec<u8>, Fault>
    requires { IsPinning keeper.old pinned.now.no pinned.now.spots.items }
    ensures { IsPinning keeper.new pinned.now.no pinned.now.spots.items }
{
    match pinned.spots.as_slice() {
        [] => Err(Fault::Usage),
        [spot, ..] => keeper.load(alloc, &pinned.no, spot.id),
    }
}

// Ends a pin. Those with another number stay.
fn release<S: Shelf>(keeper: &mut Keeper<S>, pinned: Pinned)
    requires { IsPinning keeper.old pinned.no pinned.spots.items }
    ensures idle { HasNoJob keeper.new }
    ensures others { (n : ℕ) (spots : List Place) → (n ≡ pinned.no → ⊥) → IsPinning keeper.old n spots
        → IsPinning keeper.new n spots }
{
    let Pinned { no, .. } = pinned;
    keeper.release(no);
}

impl<S: Shelf + Drop> One<S> {
    /// Pins a version.
    pub fn new(
        alloc: Global,
        store: Store<S>,
        set: Set,
        version: Version,
    ) -> Result<One<S>, Fault> {
        let mut keeper = store.into_keeper();
        let pinned = pin(alloc, &mut keeper, set, version)?;
        Ok(One { keeper, pinned })
    }

    /// Pins a version besides.
    pub fn with(self, alloc: Global, set: Set, version: Version) -> Result<Two<S>, Fault> {
        let One {
            mut keeper,
            pinned: first,
        } = self;
        let second = pin(alloc, &mut keeper, set, version)?;
        Ok(Two {
            keeper,
            first,
            second,
        })
    }

    /// What the pin was told of its version.
    pub fn pinned(&self) -> &Pinned {
        &self.pinned
    }

    /// Deletes the versions of a set through one.
    pub fn delete(&mut self, set: Set, through: Version) -> Result<Answer, Fault> {
        delete(&mut self.keeper, set, through)
    }

    /// The payload of the first container that the pin lists.
    pub fn load(&mut self, alloc: Global) -> Result<Vec<u8>, Fault> {
        load(alloc, &mut self.keeper, &self.pinned)
    }

    /// Ends the pin.
    pub fn release(self) -> Store<S> {
        let One { mut keeper, pinned } = self;
        release(&mut keeper, pinned);
        Store::new(keeper)
    }

    /// Hands out the shelf, where the pin is not released.
    pub fn close(self) -> S {
        let One { keeper, .. } = self;
        keeper.close()
    }
}

impl<S: Shelf + Drop> Two<S> {
    /// Deletes the versions of a set through one.
    pub fn delete(&mut self, set: Set, through: Version) -> Result<Answer, Fault> {
        delete(&mut self.keeper, set, through)
    }

    /// Ends the first pin.
    pub fn release(self) -> One<S> {
        let Two {
            mut keeper,
            first,
            second,
        } = self;
        release(&mut keeper, first);
        One {
            keeper,
            pinned: second,
        }
    }

    /// Hands out the shelf, where the pins are not released.
    pub fn close(self) -> S {
        let Two { keeper, .. } = self;
        keeper.close()
    }
}
