// The command `restore` of a whole version, in threads.
ghost use Rattle.std.specs.Prelude.{◌≤◌};
ghost use Rattle.vault_types.specs.declared.Limits.{Limits as LimitsOf};
ghost use Rattle.vault_traits.specs.Told.{PlacesTold};
ghost use Rattle.store_model.specs.Courses.{RunsRestore};
ghost use Rattle.store_model.specs.World.{world};
ghost use Rattle.command_runner.specs.Going.{GoesOn};

use command_runner::{Ended, answer_from, ended_early, ended_on_report, one_answer, open_for_one};
use keeper_store::KeeperStore;
use piped_restore::restore_piped;
use std::alloc::Global;
use std::sync::Wait;
use std::thread::{Scope, Threads};
use std::time::Clock;
use vault_traits::{Shelf, Sink, Source};
use vault_types::{Set, Version};

// Restores a version to `out`; the report is on `report`.
pub(crate) fn run_restore<
    's,
    E: 's,
    T: Threads + Wait + Clock + Copy + Drop + Send + 's,
    S: Shelf,
    I: Source,
    O: Sink + Drop + Send + 's,
    R: Sink,
>(
    rt: T,
    alloc: Global,
    scope: &'s Scope<'s, E>,
    set: Set,
    version: Version,
    cache: u32,
    shelf: S,
    input: I,
    out: O,
    report: &mut R,
) -> Ended<S, I, O>
    requires some { 1 ≤ cache }
    requires few { cache ≤ 64 }
    ensures { (limits : LimitsOf) (places : PlacesTold) → GoesOn (RunsRestore set version cache limits)
        (world (S.told shelf) places (I.told input) (O.told out) (R.told report.old))
        (world (S.told result.shelf) places (I.told result.input) (O.told result.out) (R.told report.new))
        result.answers.items result.fault result.status }
{
    let (store, room) = match open_for_one::<S, KeeperStore<S>>(alloc, shelf) {
        Ok(opened) => opened,
        Err((fault, shelf)) => return ended_early(alloc, fault, shelf, input, out, report),
    };
    let (store, out, outcome) = restore_piped(rt, alloc, scope, store, set, version, cache, out);
    ended_on_report(
        store,
        one_answer(room, answer_from(outcome)),
        input,
        out,
        report,
    )
}
