// The script of `fill` in threads, over places of its own.
ghost use Rattle.std.specs.Prelude.{true, ◌≤◌};
ghost use Rattle.vault_traits.specs.Told.{PlacesTold};
ghost use Rattle.store_model.specs.Filling.{RunsFill};
ghost use Rattle.store_model.specs.Ranges.{AreLimits};
ghost use Rattle.store_model.specs.World.{world};
ghost use Rattle.command_runner.specs.Going.{GoesOn};

use crate::opened::run_over;
use command_runner::{Ended, ended_early, ended_fill, script_and_places};
use pipe_backup::Course;
use std::alloc::Global;
use std::sync::Wait;
use std::thread::{Scope, Threads};
use std::time::Clock;
use vault_traits::{Shelf, Sink, Source};
use vault_types::{Fault, Limits, Memory};

// Runs the script of `fill`. The report and the sums of what was restored are on `out`.
pub(crate) fn run_fill<
    's,
    E: 's,
    T: Threads + Wait + Clock + Copy + Drop + Send + 's,
    S: Shelf,
    I: Source,
    O: Sink,
    R: Sink,
>(
    rt: T,
    alloc: Global,
    scope: &'s Scope<'s, E>,
    seed: u64,
    versions: u32,
    course: Course,
    limits: &Limits,
    shelf: S,
    input: I,
    out: O,
    report: &mut R,
) -> Ended<S, I, O>
    requires few { versions ≤ 64 }
    requires limits { AreLimits limits.now }
    requires queue { 1 ≤ course.queue }
    requires lanes { (1 ≤ course.lanes) × (course.lanes ≤ 8) }
    ensures { (places : PlacesTold) → GoesOn (RunsFill true seed versions limits.now)
        (world (S.told shelf) places (I.told input) (O.told out) (R.told report.old))
        (world (S.told result.shelf) places (I.told result.input) (O.told result.out) (R.told report.new))
        result.answers.items result.fault result.status }
{
    let (lines, made) = match script_and_places(alloc, seed, versions) {
        Ok(made) => made,
        Err(Memory) => return ended_early(alloc, Fault::Memory, shelf, input, out, report),
    };
    let mut made = made;
    let script = lines.as_slice();
    let ran = run_over(rt, alloc, scope, script, course, limits, shelf, &mut made);
    ended_fill(alloc, script, &made, ran, input, out, report)
}
