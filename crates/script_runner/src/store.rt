// What a run of lines needs of a store.
ghost use Rattle.std.specs.Prelude.{◌≡◌, ◌≤◌, Option};
ghost use Rattle.vault_types.specs.Events.{Change};
ghost use Rattle.vault_types.specs.State.{State, is_full, is_kept, floor_of, latest_of, next_of};
ghost use Rattle.vault_types.specs.JobRanges.{IsInRange};
ghost use Rattle.store_model.specs.Calls.{BacksUpLine, DeletesLine, RestoresLine};

use script_laws::StateKeeper;
use std::alloc::Global;
use vault_traits::{Sink, Source};
use vault_types::{Answer, Fault, Id, JobConfig, Limits, Set, Version};

/// A store between two lines: it has no job and no pin. Each call that runs a line does what the line means.
pub trait LineStore: StateKeeper {
    /// Whether the set may have no version more.
    fn full(&self, set: Set, limits: &Limits) -> bool
        ensures { (S : State) (other : Option Change) → Self.keeps self.now S other
            → result ≡ is_full S set limits.now };

    /// Whether the version is kept.
    fn kept(&self, set: Set, version: Version) -> bool
        ensures { (S : State) (other : Option Change) → Self.keeps self.now S other
            → result ≡ is_kept S set version };

    /// The lowest version that the set keeps.
    fn floor(&self, set: Set) -> Version
        ensures { (S : State) (other : Option Change) → Self.keeps self.now S other
            → result ≡ floor_of S set };

    /// The latest version of the set, 0 where it has none.
    fn latest(&self, set: Set) -> Version
        ensures { (S : State) (other : Option Change) → Self.keeps self.now S other
            → result ≡ latest_of S set };

    /// The id of the next container.
    fn next_id(&self) -> Id
        ensures { (S : State) (other : Option Change) → Self.keeps self.now S other → result ≡ next_of S };

    /// Backs up what the source has left, as the set's next version.
    fn back_up<I: Source>(
        &mut self,
        alloc: Global,
        set: Set,
        source: &mut I,
        config: &JobConfig,
        limits: &Limits,
    ) -> Result<Answer, Fault>
        requires config { IsInRange config.now }
        requires low { 1 ≤ limits.now.chunks }
        requires high { limits.now.chunks ≤ 4194304 }
        requires last { limits.now.last ≤ 4294967294 }
        ensures { BacksUpLine (Self.keeps self.old) (Self.keeps self.new) (Self.strays self.old)
            (Self.strays self.new) limits.now set config.now (Self.shelf self.old) (Self.shelf self.new)
            (I.told source.old) (I.told source.new) result };

    /// Restores a version to the sink, with room for so many payloads.
    fn restore<O: Sink>(
        &mut self,
        alloc: Global,
        set: Set,
        version: Version,
        slots: u32,
        sink: &mut O,
    ) -> Result<Answer, Fault>
        requires some { 1 ≤ slots }
        requires few { slots ≤ 64 }
        ensures { RestoresLine (Self.keeps self.old) (Self.keeps self.new) (Self.strays self.old)
            (Self.strays self.new) set version slots (Self.shelf self.old) (Self.shelf self.new)
            (O.told sink.old) (O.told sink.new) result };

    /// Deletes the versions of a set through one.
    fn delete(&mut self, set: Set, through: Version) -> Result<Answer, Fault>
        ensures { DeletesLine (Self.keeps self.old) (Self.keeps self.new) (Self.strays self.old)
            (Self.strays self.new) set through (Self.shelf self.old) (Self.shelf self.new) result };
}
