//! A keeper between jobs, as tests call it: each call ends the job that it begins, so a call has no condition.
ghost use Rattle.keeper_driver.specs.Drafts.{HasNoJob};

use crate::jobs::{abort, back_up, begin, delete, fill};
use crate::sum;
use keeper_core::Keeper;
use std::alloc::Global;
use std::marker::Model;
use std::test::Fail;
use vault_traits::Shelf;
use vault_types::{Answer, Fault, Id, Limits, Set, Version};

/// A keeper that has no open job. Contracts see nothing of it.
#[derive(Drop)]
pub struct Store<S: Shelf> {
    keeper: Keeper<S>,
}

impl<S: Shelf> Model for Store<S> {
    ghost use Rattle.keeper_driver.specs.Drafts.{HasNoJob};

    ghost Value = { Unit {0} };

    ghost view = { λ s. tt };

    ghost invariant = { λ s. HasNoJob s.keeper };
}

/// What a job is told at its beginning, and the container of a chunk in the index that it is lent.
pub type Look = (Version, Id, Option<Id>);

impl<S: Shelf> Store<S> {
    /// A keeper that has no open job.
    pub fn new(keeper: Keeper<S>) -> Store<S>
        requires { HasNoJob keeper }
    {
        Store { keeper }
    }

    /// Its keeper.
    pub fn into_keeper(self) -> Keeper<S>
        ensures { HasNoJob result }
    {
        let Store { keeper } = self;
        keeper
    }

    /// Opens the store on a shelf; else why it does not open, and the shelf.
    pub fn start(alloc: Global, shelf: S) -> Result<Store<S>, (Fault, S)> {
        match Keeper::start(alloc, shelf) {
            Ok(keeper) => Ok(Store { keeper }),
            Err((fault, shelf)) => Err((fault, shelf)),
        }
    }

    /// Backs up kept chunks of 4 bytes each, and behind them what goes into new containers, in chunks of 4 bytes.
    pub fn back_up(
        &mut self,
        alloc: Global,
        set: Set,
        kept: &[u8],
        payloads: &[&[u8]],
    ) -> Result<(), Fault> {
        back_up(alloc, &mut self.keeper, set, kept, payloads)
    }

    /// Begins a job that puts containers of these payloads, and ends it without a commit.
    pub fn leave(&mut self, alloc: Global, set: Set, payloads: &[&[u8]]) -> Result<(), Fault> {
        let mut draft = begin(alloc, &mut self.keeper, set)?;
        match fill(alloc, &mut self.keeper, &mut draft, b"", payloads) {
            Ok(()) => {
                abort(&mut self.keeper, draft);
                Ok(())
            }
            Err(fault) => {
                abort(&mut self.keeper, draft);
                Err(fault)
            }
        }
    }

    /// Begins a job and ends it.
    pub fn look(&mut self, alloc: Global, set: Set, chunk: &[u8]) -> Result<Look, Fault> {
        let draft = begin(alloc, &mut self.keeper, set)?;
        let look = (draft.version, draft.next, draft.index.find(&sum(chunk)));
        abort(&mut self.keeper, draft);
        Ok(look)
    }

    /// Takes back what a refused write may have left, where that is due.
    pub fn mend(&mut self) -> Result<(), Fault> {
        match self.keeper.mend() {
            Ok(()) => Ok(()),
            Err(fault) => Err(fault),
        }
    }

    /// Deletes the versions of a set through one.
    pub fn delete(&mut self, set: Set, through: Version) -> Result<Answer, Fault> {
        delete(&mut self.keeper, set, through)
    }

    /// How many rows the recipe of a version has.
    pub fn rows(&mut self, alloc: Global, set: Set, version: Version) -> Result<usize, Fault> {
        match self.keeper.recipe(alloc, set, version) {
            Ok(recipe) => Ok(recipe.rows.as_slice().len()),
            Err(fault) => Err(fault),
        }
    }

    /// The floor, the latest version and the next id of set 0.
    pub fn summary(&self) -> (Version, Version, Id) {
        (
            self.keeper.floor(0),
            self.keeper.latest(0),
            self.keeper.next_id(),
        )
    }

    /// How many bytes the payload of a named container has.
    pub fn payload_len(&self, id: Id) -> Option<u32> {
        self.keeper.payload_len(id)
    }

    /// Whether a version of set 0 is kept.
    pub fn kept(&self, version: Version) -> bool {
        self.keeper.kept(0, version)
    }

    /// Whether set 0 is full.
    pub fn full(&self, limits: &Limits) -> bool {
        self.keeper.full(0, limits)
    }

    /// Hands out the shelf.
    pub fn close(self) -> S {
        let Store { keeper } = self;
        keeper.close()
    }
}

/// Opens the store on a shelf where a store is.
pub fn started<S: Shelf + Drop>(alloc: Global, shelf: S) -> Result<Store<S>, Fail> {
    match Store::start(alloc, shelf) {
        Ok(store) => Ok(store),
        Err((_, _)) => Err(Fail::from("the store opens")),
    }
}
