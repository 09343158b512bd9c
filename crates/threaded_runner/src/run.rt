// A run of the program's words.
ghost use Rattle.std.specs.Prelude.{false, ◌≡◌, ◌≤◌, map, string_bytes};
ghost use Rattle.store_model.specs.Run.{IsRun};
ghost use Rattle.store_model.specs.Ranges.{AreLimits};
ghost use Rattle.store_model.specs.World.{world};
ghost use Rattle.command_runner.specs.Unbuilt.{Unbuilt};
ghost use Rattle.command_runner.specs.Going.{BatchGoes};
ghost use Rattle.command_runner.specs.Completes.{IsCompleteRun};

use crate::backing::run_backup;
use crate::beside::run_beside;
use crate::filling::run_fill;
use crate::restoring::run_restore;
use command_runner::{Ended, ended_early, ended_lines, run_command};
use keeper_store::KeeperStore;
use pipe_backup::Course;
use pipe_run::StackSizes;
use script_input::read_lines;
use script_words::read_words;
use std::alloc::Global;
use std::sync::Wait;
use std::thread::{Scope, Threads};
use std::time::Clock;
use vault_traits::{Places, Shelf, Sink, Source};
use vault_types::{Command, Fault, Limits};

// The course of a backup with so much room in its lines, and so many lanes.
fn course_of(queue: u32, lanes: u32) -> Course
    ensures queue { result.queue ≡ queue }
    ensures lanes { result.lanes ≡ lanes }
{
    Course {
        queue,
        lanes,
        stacks: StackSizes::usual(),
        seal: None,
    }
}

// Reads the script from the input, and runs its lines, with so many restores beside them at most.
fn run_batch<
    's,
    E: 's,
    T: Threads + Wait + Clock + Copy + Drop + Send + 's,
    S: Shelf,
    P: Places,
    I: Source,
    O: Sink,
    R: Sink,
>(
    rt: T,
    alloc: Global,
    scope: &'s Scope<'s, E>,
    course: Course,
    workers: u32,
    limits: &Limits,
    shelf: S,
    places: &mut P,
    input: I,
    out: O,
    report: &mut R,
) -> Ended<S, I, O>
where
    P::Reader: Drop + 's,
    P::Writer: Drop + 's,
    requires limits { AreLimits limits.now }
    requires queue { 1 ≤ course.queue }
    requires lanes { (1 ≤ course.lanes) × (course.lanes ≤ 8) }
    requires workers { 1 ≤ workers }
    ensures { BatchGoes false limits.now
        (world (S.told shelf) (P.told places.old) (I.told input) (O.told out) (R.told report.old))
        (world (S.told result.shelf) (P.told places.new)
        (I.told result.input) (O.told result.out) (R.told report.new))
        result.answers.items result.fault result.status }
{
    let mut input = input;
    match read_lines(alloc, &mut input, limits) {
        Err(fault) => ended_early(alloc, fault, shelf, input, out, report),
        Ok(lines) => {
            let ran = run_beside(
                rt,
                alloc,
                scope,
                lines.as_slice(),
                course,
                workers,
                limits,
                shelf,
                places,
            );
            ended_lines(alloc, ran, input, out, report)
        }
    }
}

// Runs the command that the words are.
fn run_words<
    's,
    E: 's,
    T: Threads + Wait + Clock + Copy + Drop + Send + 's,
    S: Shelf,
    P: Places,
    I: Source + Drop + Send + 's,
    O: Sink + Drop + Send + 's,
    R: Sink,
>(
    rt: T,
    alloc: Global,
    scope: &'s Scope<'s, E>,
    words: &[String],
    limits: &Limits,
    shelf: S,
    places: &mut P,
    input: I,
    out: O,
    report: &mut R,
) -> Ended<S, I, O>
where
    P::Reader: Drop + 's,
    P::Writer: Drop + 's,
    requires { AreLimits limits.now }
    ensures { IsRun false Unbuilt (map string_bytes words.now) limits.now
        (world (S.told shelf) (P.told places.old) (I.told input) (O.told out) (R.told report.old))
        (world (S.told result.shelf) (P.told places.new)
        (I.told result.input) (O.told result.out) (R.told report.new))
        result.answers.items result.fault result.status }
{
    let command = match read_words(alloc, words) {
        Err(fault) => return ended_early(alloc, fault, shelf, input, out, report),
        Ok(command) => command,
    };
    match command {
        Command::Backup {
            set,
            config,
            queue,
            lanes,
            sample,
        } => match sample {
            None => run_backup(
                rt,
                alloc,
                scope,
                set,
                &config,
                course_of(queue, lanes),
                limits,
                shelf,
                input,
                out,
                report,
            ),
            Some(_) => ended_early(alloc, Fault::Usage, shelf, input, out, report),
        },
        Command::Restore {
            set,
            version,
            cache,
            area,
        } => match area {
            None => run_restore(
                rt, alloc, scope, set, version, cache, shelf, input, out, report,
            ),
            Some(_) => ended_early(alloc, Fault::Usage, shelf, input, out, report),
        },
        Command::Batch {
            queue,
            lanes,
            workers,
        } => run_batch(
            rt,
            alloc,
            scope,
            course_of(queue, lanes),
            workers,
            limits,
            shelf,
            places,
            input,
            out,
            report,
        ),
        Command::Fill {
            seed,
            versions,
            queue,
            lanes,
            ..
        } => run_fill(
            rt,
            alloc,
            scope,
            seed,
            versions,
            course_of(queue, lanes),
            limits,
            shelf,
            input,
            out,
            report,
        ),
        command => run_command::<S, KeeperStore<S>, P, I, O, R>(
            alloc, command, limits, shelf, places, input, out, report,
        ),
    }
}

/// Runs the command that the words are; the streams of backups pass through stages in threads of the scope, the bytes of a
/// restore are put together in one, and restores of a script run in threads beside its later lines; a stage whose thread is
/// refused runs in this one. What ends the run before its first line is told on `report`: `Usage` where the words are no
/// command, or one that is not built yet; the faults of reading a script; and those of opening the shelf. A line that is
/// refused has its fault as its answer. The report is on `out`, and on `report` where `out` gets a version; one that could
/// not be written is a `WriteFault`, and what was done stands.
pub fn run_threaded<
    's,
    E: 's,
    T: Threads + Wait + Clock + Copy + Drop + Send + 's,
    S: Shelf,
    P: Places,
    I: Source + Drop + Send + 's,
    O: Sink + Drop + Send + 's,
    R: Sink,
>(
    rt: T,
    alloc: Global,
    scope: &'s Scope<'s, E>,
    words: &[String],
    limits: &Limits,
    shelf: S,
    places: &mut P,
    input: I,
    out: O,
    report: &mut R,
) -> Ended<S, I, O>
where
    P::Reader: Drop + 's,
    P::Writer: Drop + 's,
    requires { AreLimits limits.now }
    ensures run { IsRun false Unbuilt (map string_bytes words.now) limits.now
        (world (S.told shelf) (P.told places.old) (I.told input) (O.told out) (R.told report.old))
        (world (S.told result.shelf) (P.told places.new)
        (I.told result.input) (O.told result.out) (R.told report.new))
        result.answers.items result.fault result.status }
    ensures complete { IsCompleteRun (map string_bytes words.now) limits.now
        (world (S.told shelf) (P.told places.old) (I.told input) (O.told out) (R.told report.old))
        (world (S.told result.shelf) (P.told places.new)
        (I.told result.input) (O.told result.out) (R.told report.new))
        result.answers.items result.fault }
{
    run_words(
        rt, alloc, scope, words, limits, shelf, places, input, out, report,
    )
}
