// A line that backs a source up.
ghost use Rattle.std.specs.Prelude.{◌≡◌, ◌≤◌, ℕ, List, vec_capacity};
ghost use Rattle.vault_types.specs.declared.Answer.{Answer as AnswerNow};
ghost use Rattle.vault_types.specs.declared.Line.{Line};
ghost use Rattle.vault_types.specs.declared.Line.TheVariants as line;
ghost use Rattle.vault_types.specs.JobRanges.{IsInRange};
ghost use Rattle.store_model.specs.Ranges.{AreLimits};
ghost use Rattle.store_model.specs.Steps.{Moment, read_numbered};
ghost use Rattle.keeper_catalog.specs.View.{View};
ghost use Rattle.beside_steps.specs.Holding.{Holds};
ghost use Rattle.beside_jobs.specs.Under.{IsUnder};
ghost use Rattle.beside_jobs.specs.Beside.{Reached, RunsThere, AnswersBeside};

use crate::stream::stream_beside;
use beside_steps::Beside;
use keeper_core::Keeper;
use pipe_backup::Course;
use std::alloc::Global;
use std::sync::Wait;
use std::thread::{Scope, Threads};
use std::time::Clock;
use vault_traits::{Places, Refused, Shelf};
use vault_types::text::Text;
use vault_types::{Answer, Fault, JobConfig, Limits, Set};

// A fault of a source, with the number that the places give it.
fn with_read_number(fault: Fault, number: u64) -> Fault
    ensures { result ≡ read_numbered number fault }
{
    match fault {
        Fault::ReadFault(_) => Fault::ReadFault(number),
        other => other,
    }
}

/// A line that backs a source up, whose stream passes through stages in threads, while the restores that run get their
/// payloads.
pub fn backup_beside<
    's,
    X: 's,
    S: Shelf,
    P: Places,
    R: Threads + Wait + Clock + Copy + Drop + Send + 's,
>(
    rt: R,
    alloc: Global,
    scope: &'s Scope<'s, X>,
    keeper: &mut Keeper<S>,
    running: &mut Vec<Beside<S, P::Writer>>,
    set: Set,
    name: &Text,
    config: &JobConfig,
    places: &mut P,
    limits: &Limits,
    course: Course,
) -> Answer
where
    P::Reader: Drop + 's,
    P::Writer: Drop,
    requires config { IsInRange config.now }
    requires limits { AreLimits limits.now }
    requires queue { 1 ≤ course.queue }
    requires lanes { (1 ≤ course.lanes) × (course.lanes ≤ 8) }
    requires restores { (r : Reached) × (r.places ≡ P.told places.old)
        × RunsThere r running.old.items keeper.old }
    ensures answers { (r : Reached) → r.limits ≡ limits.now → r.places ≡ P.told places.old
        → RunsThere r running.old.items keeper.old
        → AnswersBeside r running.new.items (line.Backup set name.now config.now) result
        (record { keeper = keeper.new; places = P.told places.new }) }
    ensures holds { Holds keeper.new (P.told places.new).files running.new.items }
    ensures room { vec_capacity running.new ≡ vec_capacity running.old }
{
    keeper.keeps_some_core();
    if keeper.full(set, limits) {
        return Answer::Refused(Fault::Full {
            set,
            latest: keeper.latest(set),
            next: keeper.next_id(),
        });
    }
    match places.open_source(alloc, name.as_str()) {
        Err(Refused::Failed) => Answer::Refused(Fault::PlaceFault(places.faults())),
        Err(Refused::Memory) => Answer::Refused(Fault::Memory),
        Ok(source) => {
            let (source, result) = stream_beside(
                rt, alloc, scope, keeper, running, set, source, config, limits, course,
            );
            places.close_source(source);
            match result {
                Ok(answer) => answer,
                Err(fault) => Answer::Refused(with_read_number(fault, places.read_faults())),
            }
        }
    }
}
