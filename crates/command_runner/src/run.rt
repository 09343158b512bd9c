// A run of the program's words.
ghost use Rattle.std.specs.Prelude.{true, ◌≡◌, ℕ, List, Some, map, string_bytes};
ghost use Rattle.vault_types.specs.Words.{command_of};
ghost use Rattle.store_model.specs.Run.{IsRun};
ghost use Rattle.store_model.specs.Ranges.{AreLimits};
ghost use Rattle.store_model.specs.World.{world};
ghost use Rattle.command_runner.specs.Unbuilt.{Unbuilt};
ghost use Rattle.command_runner.specs.Going.{BatchGoes};
ghost use Rattle.command_runner.specs.Completes.{IsCompleteRun};

use crate::ending::{Ended, ended_early};
use crate::filling::run_fill;
use crate::migrating::run_migrate;
use crate::one_line::{run_backup, run_delete, run_restore};
use crate::opened::run_over;
use crate::scripts::ended_lines;
use crate::showing::run_show;
use crate::store::ShelfStore;
use script_input::read_lines;
use script_words::read_words;
use std::alloc::Global;
use vault_traits::{Places, Shelf, Sink, Source};
use vault_types::{Command, Fault, Limits};

// Reads the script from the input, and runs its lines.
fn run_batch<S: Shelf, K: ShelfStore<S>, P: Places, I: Source, O: Sink, R: Sink>(
    alloc: Global,
    limits: &Limits,
    shelf: S,
    places: &mut P,
    input: I,
    out: O,
    report: &mut R,
) -> Ended<S, I, O>
    requires { AreLimits limits.now }
    ensures { BatchGoes true limits.now
        (world (S.told shelf) (P.told places.old) (I.told input) (O.told out) (R.told report.old))
        (world (S.told result.shelf) (P.told places.new)
        (I.told result.input) (O.told result.out) (R.told report.new))
        result.answers.items result.fault result.status }
{
    let mut input = input;
    match read_lines(alloc, &mut input, limits) {
        Err(fault) => ended_early(alloc, fault, shelf, input, out, report),
        Ok(lines) => {
            let ran = run_over::<S, K, P>(alloc, lines.as_slice(), limits, shelf, places);
            ended_lines(alloc, ran, input, out, report)
        }
    }
}

/// Runs a command. What ends the run before its first line is told on `report`: `Usage` where it is one that is not built
/// yet; the faults of reading a script; and those of opening the shelf. A line that is refused has its fault as its answer.
pub fn run_command<S: Shelf, K: ShelfStore<S>, P: Places, I: Source, O: Sink, R: Sink>(
    alloc: Global,
    command: Command,
    limits: &Limits,
    shelf: S,
    places: &mut P,
    input: I,
    out: O,
    report: &mut R,
) -> Ended<S, I, O>
    requires limits { AreLimits limits.now }
    requires read { (words : List (List ℕ)) × (command_of words ≡ Some command) }
    ensures { (words : List (List ℕ)) → command_of words ≡ Some command → IsRun true Unbuilt words limits.now
        (world (S.told shelf) (P.told places.old) (I.told input) (O.told out) (R.told report.old))
        (world (S.told result.shelf) (P.told places.new)
        (I.told result.input) (O.told result.out) (R.told report.new))
        result.answers.items result.fault result.status }
{
    match command {
        Command::Backup {
            set,
            config,
            sample,
            ..
        } => match sample {
            None => run_backup::<S, K, I, O, R>(
                alloc, set, &config, limits, shelf, input, out, report,
            ),
            Some(_) => ended_early(alloc, Fault::Usage, shelf, input, out, report),
        },
        Command::Restore {
            set,
            version,
            cache,
            area,
        } => match area {
            None => run_restore::<S, K, I, O, R>(
                alloc, set, version, cache, shelf, input, out, report,
            ),
            Some(_) => ended_early(alloc, Fault::Usage, shelf, input, out, report),
        },
        Command::Delete { set, through } => run_delete::<S, K, I, O, R>(
            alloc, set, through, shelf, input, out, report,
        ),
        Command::Show { set, version } => run_show::<S, K, I, O, R>(
            alloc, set, version, shelf, input, out, report,
        ),
        Command::Batch { .. } => run_batch::<S, K, P, I, O, R>(
            alloc, limits, shelf, places, input, out, report,
        ),
        Command::Fill { seed, versions, .. } => run_fill::<S, K, I, O, R>(
            alloc, seed, versions, limits, shelf, input, out, report,
        ),
        Command::Migrate => run_migrate::<S, K, I, O, R>(alloc, shelf, input, out, report),
        Command::Scrub { .. } => ended_early(alloc, Fault::Usage, shelf, input, out, report),
    }
}

// Runs the command that the words are.
fn run_read<S: Shelf, K: ShelfStore<S>, P: Places, I: Source, O: Sink, R: Sink>(
    alloc: Global,
    words: &[String],
    limits: &Limits,
    shelf: S,
    places: &mut P,
    input: I,
    out: O,
    report: &mut R,
) -> Ended<S, I, O>
    requires { AreLimits limits.now }
    ensures { IsRun true Unbuilt (map string_bytes words.now) limits.now
        (world (S.told shelf) (P.told places.old) (I.told input) (O.told out) (R.told report.old))
        (world (S.told result.shelf) (P.told places.new)
        (I.told result.input) (O.told result.out) (R.told report.new))
        result.answers.items result.fault result.status }
{
    match read_words(alloc, words) {
        Err(fault) => ended_early(alloc, fault, shelf, input, out, report),
        Ok(command) => run_command::<S, K, P, I, O, R>(
            alloc, command, limits, shelf, places, input, out, report,
        ),
    }
}

/// Runs the command that the words are. What ends the run before its first line is told on `report`: `Usage` where the
/// words are no command, or one that is not built yet; the faults of reading a script; and those of opening the shelf.
/// A line that is refused has its fault as its answer. The report is on `out`, and on `report` where `out` gets a version;
/// one that could not be written is a `WriteFault`, and what was done stands.
pub fn run_words<S: Shelf, K: ShelfStore<S>, P: Places, I: Source, O: Sink, R: Sink>(
    alloc: Global,
    words: &[String],
    limits: &Limits,
    shelf: S,
    places: &mut P,
    input: I,
    out: O,
    report: &mut R,
) -> Ended<S, I, O>
    requires { AreLimits limits.now }
    ensures run { IsRun true Unbuilt (map string_bytes words.now) limits.now
        (world (S.told shelf) (P.told places.old) (I.told input) (O.told out) (R.told report.old))
        (world (S.told result.shelf) (P.told places.new)
        (I.told result.input) (O.told result.out) (R.told report.new))
        result.answers.items result.fault result.status }
    ensures complete { IsCompleteRun (map string_bytes words.now) limits.now
        (world (S.told shelf) (P.told places.old) (I.told input) (O.told out) (R.told report.old))
        (world (S.told result.shelf) (P.told places.new)
        (I.told result.input) (O.told result.out) (R.told report.new))
        result.answers.items result.fault }
{
    run_read::<S, K, P, I, O, R>(alloc, words, limits, shelf, places, input, out, report)
}
