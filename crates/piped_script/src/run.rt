// A run of lines.
ghost use Rattle.std.specs.Prelude.{◌≡◌, ◌≤◌, true, Option, IsSome, IfOk, IfErr, None};
ghost use Rattle.std.specs.List.{AllByRecursion};
ghost use Rattle.vault_types.specs.Events.{Change};
ghost use Rattle.vault_types.specs.Script.{Sources};
ghost use Rattle.vault_types.specs.State.{State};
ghost use Rattle.store_model.specs.Outputs.{AreApartLines, AreFedBy};
ghost use Rattle.store_model.specs.Room.{NeedsRoom, NeedRoom};
ghost use Rattle.store_model.specs.Script.{RunsLines};
ghost use Rattle.store_model.specs.Steps.{StepsLine};
ghost use Rattle.store_model.specs.Ranges.{IsLineInRange, AreLimits};
ghost use Rattle.keeper_catalog.specs.View.{View};
ghost use Rattle.keeper_core.specs.Keeping.{IsStateOf, IsKnownStray};

use crate::backing::backup_line;
use keeper_store::KeeperStore;
use pipe_backup::Course;
use script_runner::{Done, delete_line, restore_line};
use std::alloc::Global;
use std::sync::Wait;
use std::thread::{Scope, Threads};
use std::time::Clock;
use vault_traits::{Places, Shelf};
use vault_types::{Answer, Limits, Line, Memory};

// Runs a line. The store comes back.
fn one_line<'s, E: 's, R: Threads + Wait + Clock + Copy + Drop + Send + 's, S: Shelf, P: Places>(
    rt: R,
    alloc: Global,
    scope: &'s Scope<'s, E>,
    store: KeeperStore<S>,
    line: &Line,
    places: &mut P,
    limits: &Limits,
    course: Course,
) -> (KeeperStore<S>, Answer)
where
    P::Reader: Drop + 's,
    requires range { IsLineInRange line.now }
    requires limits { AreLimits limits.now }
    requires queue { 1 ≤ course.queue }
    requires lanes { (1 ≤ course.lanes) × (course.lanes ≤ 8) }
    ensures room { (S : State) (other : Option Change) → IsStateOf store S other
        → IsSome (P.told places.old).files → NeedsRoom P.room S line.now result.1 }
    ensures steps { StepsLine (λ (k : View). k.told) IsStateOf IsKnownStray limits.now
        (record { keeper = store; places = P.told places.old })
        line.now result.1 (record { keeper = result.0; places = P.told places.new }) }
{
    let mut store = store;
    match line {
        Line::Backup { set, name, config } => backup_line(
            rt, alloc, scope, store, *set, name, config, places, limits, course,
        ),
        Line::Restore {
            set,
            version,
            name,
            cache,
        } => {
            let answer = restore_line(
                alloc, &mut store, *set, *version, name, *cache, places, limits,
            );
            (store, answer)
        }
        Line::Delete { set, through } => {
            let answer = delete_line(&mut store, *set, *through, places, limits);
            (store, answer)
        }
    }
}

/// Runs the lines one after another, each over the places that it names; the stream of a backup passes through stages in
/// threads of the scope. Each answers, and a refused one leaves the store's versions; `Memory` comes before the first, and
/// then nothing has changed. Where the sinks of the places have room for so many bytes, one fails only where the version is
/// longer.
pub fn script_piped<
    's,
    E: 's,
    R: Threads + Wait + Clock + Copy + Drop + Send + 's,
    S: Shelf,
    P: Places,
>(
    rt: R,
    alloc: Global,
    scope: &'s Scope<'s, E>,
    store: KeeperStore<S>,
    lines: &[Line],
    places: &mut P,
    limits: &Limits,
    course: Course,
) -> Result<Done<KeeperStore<S>>, (Memory, KeeperStore<S>)>
where
    P::Reader: Drop + 's,
    requires apart { AreApartLines lines.now }
    requires ranges { AllByRecursion IsLineInRange lines.now }
    requires limits { AreLimits limits.now }
    requires queue { 1 ≤ course.queue }
    requires lanes { (1 ≤ course.lanes) × (course.lanes ≤ 8) }
    ensures runs { IfOk result (λ done. RunsLines true (λ S. IsStateOf store S None)
        (λ S. IsKnownStray store) limits.now lines.now done.answers.items store.told done.store.told
        (P.told places.old) (P.told places.new)) }
    ensures room { IfOk result (λ done. (S : State) (sources : Sources) → IsStateOf store S None
        → AreFedBy (P.told places.old).files sources lines.now → IsSome (P.told places.old).files
        → NeedRoom P.room sources S lines.now done.answers.items) }
    ensures memory { IfErr result (λ e. (e.1 ≡ store) × (P.told places.new ≡ P.told places.old)) }
{
    let Ok(mut answers) = Vec::with_capacity(alloc, lines.len()) else {
        return Err((Memory, store));
    };
    let mut store = store;
    for line in lines {
        let (behind, answer) = one_line(rt, alloc, scope, store, line, places, limits, course);
        store = behind;
        match answers.push(answer) {
            Ok(()) => {}
            Err(_) => unreachable!(),
        }
    }
    Ok(Done { store, answers })
}
