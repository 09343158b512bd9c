// The command `backup` in threads.
ghost use Rattle.std.specs.Prelude.{◌≤◌};
ghost use Rattle.vault_types.specs.JobRanges.{IsInRange};
ghost use Rattle.vault_traits.specs.Told.{PlacesTold};
ghost use Rattle.store_model.specs.Courses.{RunsBackup};
ghost use Rattle.store_model.specs.Ranges.{AreLimits};
ghost use Rattle.store_model.specs.World.{world};
ghost use Rattle.command_runner.specs.Going.{GoesOn};

use command_runner::{Ended, answer_from, ended_early, ended_on_out, one_answer, open_for_one};
use keeper_store::KeeperStore;
use pipe_backup::Course;
use piped_script::back_up_piped;
use std::alloc::Global;
use std::sync::Wait;
use std::thread::{Scope, Threads};
use std::time::Clock;
use vault_traits::{Shelf, Sink, Source};
use vault_types::{JobConfig, Limits, Set};

// Backs the input up; the report is on `out`.
pub(crate) fn run_backup<
    's,
    E: 's,
    T: Threads + Wait + Clock + Copy + Drop + Send + 's,
    S: Shelf,
    I: Source + Drop + Send + 's,
    O: Sink,
    R: Sink,
>(
    rt: T,
    alloc: Global,
    scope: &'s Scope<'s, E>,
    set: Set,
    config: &JobConfig,
    course: Course,
    limits: &Limits,
    shelf: S,
    input: I,
    out: O,
    report: &mut R,
) -> Ended<S, I, O>
    requires config { IsInRange config.now }
    requires limits { AreLimits limits.now }
    requires queue { 1 ≤ course.queue }
    requires lanes { (1 ≤ course.lanes) × (course.lanes ≤ 8) }
    ensures { (places : PlacesTold) → GoesOn (RunsBackup set config.now limits.now)
        (world (S.told shelf) places (I.told input) (O.told out) (R.told report.old))
        (world (S.told result.shelf) places (I.told result.input) (O.told result.out) (R.told report.new))
        result.answers.items result.fault result.status }
{
    let (store, room) = match open_for_one::<S, KeeperStore<S>>(alloc, shelf) {
        Ok(opened) => opened,
        Err((fault, shelf)) => return ended_early(alloc, fault, shelf, input, out, report),
    };
    let (store, input, outcome) = back_up_piped(
        rt, alloc, scope, store, set, input, config, limits, course,
    );
    ended_on_out(store, one_answer(room, answer_from(outcome)), input, out)
}
