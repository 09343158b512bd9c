// Opens the store and runs the lines of a script over places, with the streams of backups in threads, and with restores in
// threads beside later lines.
ghost use Rattle.std.specs.Prelude.{false, ◌≤◌, IfOk, IfErr};
ghost use Rattle.std.specs.List.{AllByRecursion};
ghost use Rattle.store_model.specs.Outputs.{AreApartLines};
ghost use Rattle.store_model.specs.Ranges.{AreLimits, IsLineInRange};
ghost use Rattle.command_runner.specs.Going.{HasRun, HasNotOpened};

use command_runner::ShelfStore;
use keeper_run::run_lines;
use keeper_store::KeeperStore;
use pipe_backup::Course;
use std::alloc::Global;
use std::sync::Wait;
use std::thread::{Scope, Threads};
use std::time::Clock;
use vault_traits::{Places, Shelf};
use vault_types::{Answer, Fault, Limits, Line, Memory};

// Opens the store, runs the lines over the places, and gives their answers and the shelf.
pub(crate) fn run_beside<
    's,
    E: 's,
    T: Threads + Wait + Clock + Copy + Drop + Send + 's,
    S: Shelf,
    P: Places,
>(
    rt: T,
    alloc: Global,
    scope: &'s Scope<'s, E>,
    lines: &[Line],
    course: Course,
    workers: u32,
    limits: &Limits,
    shelf: S,
    places: &mut P,
) -> Result<(Vec<Answer>, S), (Fault, S)>
where
    P::Reader: Drop + 's,
    P::Writer: Drop + 's,
    requires apart { AreApartLines lines.now }
    requires ranges { AllByRecursion IsLineInRange lines.now }
    requires limits { AreLimits limits.now }
    requires queue { 1 ≤ course.queue }
    requires lanes { (1 ≤ course.lanes) × (course.lanes ≤ 8) }
    requires workers { 1 ≤ workers }
    ensures ok { IfOk result (λ done. HasRun false (S.told shelf) limits.now lines.now (P.told places.old)
        (P.told places.new) done.0.items (S.told done.1)) }
    ensures err { IfErr result (λ e. HasNotOpened (S.told shelf) (P.told places.old) (P.told places.new)
        e.0 (S.told e.1)) }
{
    let store = match KeeperStore::start(alloc, shelf) {
        Ok(store) => store,
        Err(refused) => return Err(refused),
    };
    let mut keeper = store.into_keeper();
    match run_lines(
        rt,
        alloc,
        scope,
        limits,
        &mut keeper,
        places,
        lines,
        course,
        workers as usize,
    ) {
        Err(Memory) => Err((Fault::Memory, keeper.close())),
        Ok(answers) => Ok((answers, keeper.close())),
    }
}
