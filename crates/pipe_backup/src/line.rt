//! A backup's line in threads: what a backup ensures is what the line is to do, in each state that the keeper keeps.
ghost use Rattle.std.specs.Prelude.{◌≡◌, ◌≤◌, ℕ, List, None};
ghost use Rattle.vault_types.specs.Events.{Pin};
ghost use Rattle.vault_types.specs.JobRanges.{IsInRange};
ghost use Rattle.pin_laws.specs.Following.{Follows};
ghost use Rattle.store_model.specs.Calls.{BacksUpLine};
ghost use Rattle.keeper_core.specs.Keeping.{IsStateWith, IsKnownStray};

use crate::{Course, backup_piped};
use keeper_core::Keeper;
use std::alloc::Global;
use std::sync::Wait;
use std::thread::{Scope, Threads};
use std::time::Clock;
use vault_traits::{Shelf, Source};
use vault_types::{Answer, Fault, JobConfig, Limits, Set};

/// Backs what the source has left up into a set of the store, as its next version, by stages in threads of the scope. The
/// source comes back. `Full`, exactly where the set may have no version more or the ids may run out, and then nothing is
/// done; else `Memory`, `StoreFault`, `ReadFault`, `TooMany`. After an `Err` the versions and the pins are as before; only a
/// `StoreFault` may leave the new version on the shelf, until the next mending takes it back.
pub fn backup_line_piped<
    's,
    E: 's,
    R: Threads + Wait + Clock + Copy + Drop + Send + 's,
    S: Shelf,
    I: Source + Drop + Send + 's,
>(
    rt: R,
    alloc: Global,
    scope: &'s Scope<'s, E>,
    keeper: &mut Keeper<S>,
    set: Set,
    source: I,
    config: &JobConfig,
    limits: &Limits,
    course: Course,
) -> (I, Result<Answer, Fault>)
    requires no_job { keeper.old.job ≡ None }
    requires config { IsInRange config.now }
    requires low { 1 ≤ limits.now.chunks }
    requires high { limits.now.chunks ≤ 4194304 }
    requires last { limits.now.last ≤ 4294967294 }
    requires queue { 1 ≤ course.queue }
    requires lanes { (1 ≤ course.lanes) × (course.lanes ≤ 8) }
    ensures line { (pins : List Pin) → BacksUpLine (IsStateWith keeper.old pins) (IsStateWith keeper.new pins)
        (IsKnownStray keeper.old) (IsKnownStray keeper.new) limits.now set config.now
        keeper.old.told keeper.new.told (I.told source) (I.told result.0) result.1 }
    ensures same { (keeper.new.job ≡ None) × (keeper.new.pins ≡ keeper.old.pins) }

    // Each pin stays, with its containers.
    ensures follows { (number : ℕ) → Follows keeper.old keeper.new number }
{
    keeper.keeps_some_core();
    backup_piped(
        rt, alloc, scope, keeper, set, source, config, limits, course,
    )
}
