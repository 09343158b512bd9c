//! The store that the program's words run on: a keeper with no job and no pin, whose calls run lines.
#![tactic(auto)]

use command_runner::ShelfStore;
use keeper_core::Keeper;
use script_laws::StateKeeper;
use script_runner::LineStore;
use serial_backup::backup_line;
use serial_delete::delete_plain;
use serial_migrate::migrate_plain;
use serial_restore::restore_plain;
use std::alloc::Global;
use std::marker::Model;
use vault_traits::{Shelf, Sink, Source};
use vault_types::{Answer, Fault, Id, JobConfig, Limits, Recipe, Set, Version};

/// A keeper between two lines.
#[derive(Drop)]
pub struct KeeperStore<S: Shelf> {
    keeper: Keeper<S>,
}

impl<S: Shelf> Model for KeeperStore<S> {
    ghost use Rattle.std.specs.Coded.{codes};
    ghost use Rattle.std.specs.Prelude.{◌≡◌, [], None};
    ghost use Rattle.vault_traits.specs.Codes.{coded_blobs, coded_history};
    ghost use Rattle.keeper_catalog.specs.View.{View};

    ghost Value = { View };

    ghost coded = { Prim.hlevel (codes, coded_blobs, coded_history) };

    ghost view = { λ k. k.keeper };

    ghost invariant = { λ k. (k.keeper.job ≡ None) × (k.keeper.pins ≡ []) };
}

impl<S: Shelf> KeeperStore<S> {
    ghost use Rattle.std.specs.Prelude.{◌≡◌, [], None};

    /// A store of a keeper that has no job and no pin.
    pub fn from_keeper(keeper: Keeper<S>) -> KeeperStore<S>
        requires { (keeper.job ≡ None) × (keeper.pins ≡ []) }
        ensures { result ≡ keeper }
    {
        KeeperStore { keeper }
    }

    /// The keeper, which has no job and no pin.
    pub fn into_keeper(self) -> Keeper<S>
        ensures keeper { result ≡ self }
        ensures rest { (result.job ≡ None) × (result.pins ≡ []) }
    {
        self.keeper
    }
}

impl<S: Shelf> StateKeeper for KeeperStore<S> {
    ghost use Rattle.keeper_core.specs.Keeping.{IsStateOf, IsKnownStray};
    ghost use Rattle.keeper_store.specs.Kept.{kept_of, known_of};

    ghost shelf = { λ k. k.told };

    ghost keeps = { λ k S other. IsStateOf k S other };

    ghost strays = { λ k n. IsKnownStray k n };

    ghost keeps_is = { λ k S other keep. kept_of k S other keep };

    ghost strays_known = { λ k S other keep n stray. known_of k S other keep n stray };
}

impl<S: Shelf> LineStore for KeeperStore<S> {
    fn full(&self, set: Set, limits: &Limits) -> bool {
        self.keeper.full(set, limits)
    }

    fn kept(&self, set: Set, version: Version) -> bool {
        self.keeper.kept(set, version)
    }

    fn floor(&self, set: Set) -> Version {
        self.keeper.floor(set)
    }

    fn latest(&self, set: Set) -> Version {
        self.keeper.latest(set)
    }

    fn next_id(&self) -> Id {
        self.keeper.next_id()
    }

    fn back_up<I: Source>(
        &mut self,
        alloc: Global,
        set: Set,
        source: &mut I,
        config: &JobConfig,
        limits: &Limits,
    ) -> Result<Answer, Fault> {
        backup_line(alloc, &mut self.keeper, set, source, config, limits)
    }

    fn restore<O: Sink>(
        &mut self,
        alloc: Global,
        set: Set,
        version: Version,
        slots: u32,
        sink: &mut O,
    ) -> Result<Answer, Fault> {
        restore_plain(alloc, &mut self.keeper, set, version, slots, sink)
    }

    fn delete(&mut self, set: Set, through: Version) -> Result<Answer, Fault> {
        delete_plain(&mut self.keeper, set, through)
    }
}

impl<S: Shelf> ShelfStore<S> for KeeperStore<S> {
    fn start(alloc: Global, shelf: S) -> Result<Self, (Fault, S)> {
        match Keeper::start(alloc, shelf) {
            Ok(keeper) => Ok(KeeperStore { keeper }),
            Err(back) => Err(back),
        }
    }

    fn recipe(&mut self, alloc: Global, set: Set, version: Version) -> Result<Recipe, Fault> {
        if !self.keeper.kept(set, version) {
            return Err(Fault::NotKept {
                set,
                version,
                floor: self.keeper.floor(set),
                latest: self.keeper.latest(set),
            });
        }
        self.keeper.recipe(alloc, set, version)
    }

    fn migrate(&mut self, alloc: Global) -> Result<Answer, Fault> {
        migrate_plain(alloc, &mut self.keeper)
    }

    fn close(self) -> S {
        self.keeper.close()
    }
}
