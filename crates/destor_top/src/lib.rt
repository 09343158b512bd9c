//! The program over any shelf, places and streams: it reads the words of a command, opens the store on the shelf, runs the
//! command, and prints what came of it.
#![tactic(auto)]

ghost use Rattle.std.specs.Prelude.{true, false, ◌≤◌, map, string_bytes};
ghost use Rattle.store_model.specs.Ranges.{AreLimits};
ghost use Rattle.store_model.specs.Run.{IsRun};
ghost use Rattle.store_model.specs.World.{world};
ghost use Rattle.destor_top.specs.Reached.{Reached, IsCompleteRun};

pub use command_runner::Ended;
use command_runner::{ended_early, run_words};
use keeper_store::KeeperStore;
use script_words::read_words;
use scrub_runner::{run_scrub, run_scrub_plain};
use std::alloc::Global;
use std::sync::Wait;
use std::thread::{Scope, Threads};
use std::time::Clock;
use threaded_runner::run_threaded;
use vault_traits::{Places, Shelf, Sink, Source};
use vault_types::{Command, Limits};

/// Runs the command that the words are, over the store on the shelf, with its data from `input` and to `out`; a script
/// names places for its sources and outputs. What ends the run before its first line is told on `report`: `Usage` where
/// the words are no command, or one that is not built yet; `ReadFault`, `ScriptTooLong` and `BadLine` of a script; and
/// `StoreFault`, `Damaged` and `Memory` of the opening, which writes nothing. A line that is refused has its fault as its
/// answer, and leaves the versions of the store. The report is on `out`, and on `report` where `out` gets a version; one
/// that could not be written is a `WriteFault`, and what was done stands.
pub fn run_plain<S: Shelf, P: Places, I: Source + Send, O: Sink + Send, R: Sink>(
    alloc: Global,
    words: &[String],
    limits: &Limits,
    shelf: S,
    places: &mut P,
    input: I,
    out: O,
    report: &mut R,
) -> Ended<S, I, O>
    requires chunks { 1 ≤ limits.now.chunks }
    requires chunks_high { limits.now.chunks ≤ 4194304 }
    requires last { 1 ≤ limits.now.last }
    requires last_high { limits.now.last ≤ 4294967294 }
    requires script { 1 ≤ limits.now.script }
    requires script_high { limits.now.script ≤ 1048576 }
    ensures run { IsRun true Reached (map string_bytes words.now) limits.now
        (world (S.told shelf) (P.told places.old) (I.told input) (O.told out) (R.told report.old))
        (world (S.told result.shelf) (P.told places.new)
        (I.told result.input) (O.told result.out) (R.told report.new))
        result.answers.items result.fault result.status }
    ensures complete { IsCompleteRun (map string_bytes words.now) limits.now
        (world (S.told shelf) (P.told places.old) (I.told input) (O.told out) (R.told report.old))
        (world (S.told result.shelf) (P.told places.new)
        (I.told result.input) (O.told result.out) (R.told report.new))
        result.answers.items result.fault }
{
    let command = match read_words(alloc, words) {
        Err(fault) => return ended_early(alloc, fault, shelf, input, out, report),
        Ok(command) => command,
    };
    match command {
        Command::Scrub { .. } => run_scrub_plain(alloc, shelf, input, out, report),
        _ => run_words::<S, KeeperStore<S>, P, I, O, R>(
            alloc, words, limits, shelf, places, input, out, report,
        ),
    }
}

/// Runs the command that the words are, as `run_plain` does; the streams of backups pass through stages in threads of the
/// scope, by the command's settings `queue` and `lanes`; the bytes of a single restore are put together in a thread; and
/// the restores of a script run in threads beside its later lines, so many at most as `workers` says. A stage whose thread is refused runs in this one. What differs is that the
/// faults of a script's lines may be counted in another order than that of the lines.
pub fn run<
    's,
    E: 's,
    T: Threads + Wait + Clock + Copy + Drop + Send + 's,
    S: Shelf,
    P: Places,
    I: Source + Drop + Send + 's,
    O: Sink + Drop + Send + 's,
    R: Sink,
>(
    rt: T,
    alloc: Global,
    scope: &'s Scope<'s, E>,
    words: &[String],
    limits: &Limits,
    shelf: S,
    places: &mut P,
    input: I,
    out: O,
    report: &mut R,
) -> Ended<S, I, O>
where
    P::Reader: Drop + 's,
    P::Writer: Drop + 's,
    requires { AreLimits limits.now }
    ensures run { IsRun false Reached (map string_bytes words.now) limits.now
        (world (S.told shelf) (P.told places.old) (I.told input) (O.told out) (R.told report.old))
        (world (S.told result.shelf) (P.told places.new)
        (I.told result.input) (O.told result.out) (R.told report.new))
        result.answers.items result.fault result.status }
    ensures complete { IsCompleteRun (map string_bytes words.now) limits.now
        (world (S.told shelf) (P.told places.old) (I.told input) (O.told out) (R.told report.old))
        (world (S.told result.shelf) (P.told places.new)
        (I.told result.input) (O.told result.out) (R.told report.new))
        result.answers.items result.fault }
{
    let command = match read_words(alloc, words) {
        Err(fault) => return ended_early(alloc, fault, shelf, input, out, report),
        Ok(command) => command,
    };
    match command {
        Command::Scrub { workers } => {
            run_scrub(&rt, alloc, scope, workers, shelf, input, out, report)
        }
        _ => run_threaded(
            rt, alloc, scope, words, limits, shelf, places, input, out, report,
        ),
    }
}
