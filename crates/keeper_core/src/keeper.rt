//! The keeper, and the events of a job.
ghost use Rattle.std.specs.Prelude.{◌≡◌, ◌↔◌, true, max, fold, map, IsSome};
ghost use Rattle.vault_types.specs.State.{floor_of, latest_of, next_of};
ghost use Rattle.vault_types.specs.Events.{Core};
ghost use Rattle.keeper_catalog.specs.View.{Keeps, HasCore};

use fp_index::Index;
use keeper_catalog::{Catalog, JobInfo, SetInfo};
use restore_pins::Pins;
use std::marker::Model;
use std::snapshot::Snapshot;
use vault_traits::Shelf;
use vault_types::{Id, Pending, Set, Version};

// The index, here or lent to the open job.
#[derive(Drop)]
pub(crate) enum Stand {
    Here(Index),
    Lent(JobInfo, Snapshot<Index>),
}

/// A store on its shelf. Contracts see what the shelf tells, what is in memory, the index, the pins, the open job, and
/// whether a mending is due; and that some core is kept: over a shelf that tells its blobs the one that they stand for.
#[derive(Drop)]
pub struct Keeper<S: Shelf> {
    pub(crate) shelf: S,
    pub(crate) catalog: Catalog,
    pub(crate) pins: Pins,
    pub(crate) stand: Stand,
    pub(crate) pending: Pending,
}

impl<S: Shelf> Model for Keeper<S> {
    ghost use Rattle.std.specs.Coded.{codes};
    ghost use Rattle.vault_traits.specs.Codes.{coded_blobs, coded_history};
    ghost use Rattle.keeper_catalog.specs.Catalog.{memo_of, HasRoom};
    ghost use Rattle.keeper_catalog.specs.View.{View, HasCore};
    ghost use Rattle.keeper_core.specs.Stands.{index_of, job_of};

    ghost Value = { View };

    ghost coded = { Prim.hlevel (codes, coded_blobs, coded_history) };

    ghost view = { λ k.
        record {
          told = S.told k.shelf;
          memo = memo_of k.catalog;
          index = index_of k.stand;
          pins = k.pins;
          job = job_of k.stand;
          pending = k.pending;
        } };

    ghost invariant = { λ k.
        HasCore
        (record {
          told = S.told k.shelf;
          memo = memo_of k.catalog;
          index = index_of k.stand;
          pins = k.pins;
          job = job_of k.stand;
          pending = k.pending;
        })
        × HasRoom (memo_of k.catalog) };
}

/// What a job is told at its beginning: its set, the number that its version will have, the id of its first container,
/// the sparse list of the set's latest version, and the index, which it gives back at its end.
#[derive(Drop)]
pub struct Begun {
    pub set: Set,
    pub version: Version,
    pub next: Id,
    pub sparse: Vec<Id>,
    pub index: Index,
}

// The greatest `next` of the sets.
pub(crate) fn next_of_sets(sets: &[SetInfo]) -> Id
    ensures { result ≡ fold max 1 (map (λ s. s.next) sets.now) }
{
    sets.iter().fold(1, |next, info| next.max(info.next))
}

impl<S: Shelf> Keeper<S> {
    /// The lowest version that the set keeps.
    pub fn floor(&self, set: Set) -> Version
        ensures { (K : Core) → Keeps self.now K → result ≡ floor_of K.state set }
    {
        self.catalog.sets[set as usize].floor
    }

    /// The latest version of the set, 0 where it has none.
    pub fn latest(&self, set: Set) -> Version
        ensures { (K : Core) → Keeps self.now K → result ≡ latest_of K.state set }
    {
        self.catalog.sets[set as usize].latest
    }

    /// The id of the next container that a job of any set puts.
    pub fn next_id(&self) -> Id
        ensures { (K : Core) → Keeps self.now K → result ≡ next_of K.state }
    {
        next_of_sets(&self.catalog.sets)
    }

    /// For a caller's proof, which can't open a keeper and read its invariant: some core is kept. Does nothing.
    pub fn keeps_some_core(&self)
        ensures { HasCore self.now }
    {
        let _stand = &self.stand;
    }

    /// Whether a job is open.
    pub fn in_job(&self) -> bool
        ensures { (result ≡ true) ↔ IsSome self.now.job }
    {
        match &self.stand {
            Stand::Here(_) => false,
            Stand::Lent(_, _) => true,
        }
    }
}
