// Scripts over a keeper, with at most two restores beside their lines.
ghost use Rattle.std.specs.Prelude.{◌≡◌};

use keeper_core::Keeper;
use keeper_run::run_lines;
use pipe_backup::Course;
use pipe_run::StackSizes;
use script_input::read_lines;
use script_words::answer_text;
use std::alloc::Global;
use std::sync::Wait;
use std::test::Fail;
use std::thread;
use std::thread::{Scope, Threads};
use std::time::Clock;
use vault_gates::{GatePlaces, GateShelf, gates};
use vault_ports::{MemPlaces, MemShelf, MemSource};
use vault_traits::{Places, Shelf};
use vault_types::{Answer, Kind, Limits};

/// A file's name and its bytes.
pub type File = (&'static str, &'static [u8]);

const LIMITS: Limits = Limits {
    chunks: 4_194_304,
    last: 4_294_967_294,
    script: 1_048_576,
};

/// What a script left.
#[derive(Drop)]
pub struct Left<S, P> {
    pub answers: Vec<Answer>,
    pub shelf: S,
    pub places: P,
}

/// Whether the report line of an answer is this one.
pub fn is_line(answer: &Answer, line: &[u8]) -> bool {
    let mut text = [0; 256];
    let len = answer_text(answer, &mut text);
    &text[..len] == line
}

/// The report lines of answers.
pub fn lines_of(alloc: Global, answers: &[Answer]) -> Result<Vec<u8>, Fail> {
    let mut lines = Vec::new(alloc);
    for answer in answers {
        let mut text = [0; 256];
        let len = answer_text(answer, &mut text);
        lines.extend_from_slice(&text[..len])?;
    }
    Ok(lines)
}

fn course() -> Course
    ensures queue { result.queue ≡ 4 }
    ensures lanes { result.lanes ≡ 2 }
{
    Course {
        queue: 4,
        lanes: 2,
        stacks: StackSizes::usual(),
        seal: None,
    }
}

// Runs a script over a shelf that opens, in threads of the scope.
fn run_in<
    's,
    X: 's,
    S: Shelf + Drop,
    P: Places + Drop,
    R: Threads + Wait + Clock + Copy + Drop + Send + 's,
>(
    rt: R,
    alloc: Global,
    scope: &'s Scope<'s, X>,
    script: &[u8],
    shelf: S,
    places: P,
) -> Result<Left<S, P>, Fail>
where
    P::Reader: Drop + 's,
    P::Writer: Drop + 's,
{
    let mut input = MemSource::new(script.to_vec(alloc)?, 100);
    let Ok(lines) = read_lines(alloc, &mut input, &LIMITS) else {
        return Err(Fail::from("the script is read"));
    };
    let Ok(mut keeper) = Keeper::start(alloc, shelf) else {
        return Err(Fail::from("the store opens"));
    };
    let mut places = places;
    let ran = run_lines(
        rt,
        alloc,
        scope,
        &LIMITS,
        &mut keeper,
        &mut places,
        lines.as_slice(),
        course(),
        2,
    );
    let Ok(answers) = ran else {
        return Err(Fail::from("there is memory"));
    };
    Ok(Left {
        answers,
        shelf: keeper.close(),
        places,
    })
}

fn places_of(alloc: Global, files: &[File]) -> Result<MemPlaces, Fail> {
    let mut all = Vec::new(alloc);
    for (name, bytes) in files {
        all.push((String::from_str(alloc, name)?, bytes.to_vec(alloc)?))?;
    }
    Ok(MemPlaces::with(alloc, all, 1_000)?)
}

/// Runs a script over a shelf that opens, and these files.
pub fn run_over<S: Shelf + Drop, R: Threads + Wait + Clock + Copy + Drop + Send>(
    rt: R,
    alloc: Global,
    script: &[u8],
    files: &[File],
    shelf: S,
) -> Result<Left<S, MemPlaces>, Fail> {
    let places = places_of(alloc, files)?;
    thread::scope(
        thread::scope_env(),
        &rt,
        |scope| -> Result<Left<S, MemPlaces>, Fail> {
            run_in(rt, alloc, scope, script, shelf, places)
        },
    )
}

/// Runs a script over an empty shelf and these files. The first write of its first restore waits for the
/// put of a floor, of this number, and that put for the write.
pub fn run_gated<R: Threads + Wait + Clock + Copy + Drop + Send>(
    rt: R,
    alloc: Global,
    script: &[u8],
    files: &[File],
    floor: u64,
) -> Result<Left<GateShelf, GatePlaces>, Fail> {
    let (writes, floors) = gates(alloc)?;
    let places = GatePlaces::new(places_of(alloc, files)?, writes);
    let shelf = GateShelf::new(MemShelf::new(alloc), Kind::Floor, floor, floors);
    thread::scope(
        thread::scope_env(),
        &rt,
        |scope| -> Result<Left<GateShelf, GatePlaces>, Fail> {
            run_in(rt, alloc, scope, script, shelf, places)
        },
    )
}
