// A backup in threads, over a keeper between two lines.
ghost use Rattle.std.specs.Prelude.{◌≤◌};
ghost use Rattle.vault_types.specs.declared.Line.TheVariants as line;
ghost use Rattle.vault_types.specs.JobRanges.{IsInRange};
ghost use Rattle.store_model.specs.Calls.{BacksUpLine};
ghost use Rattle.store_model.specs.Ranges.{AreLimits};
ghost use Rattle.store_model.specs.Steps.{StepsLine};
ghost use Rattle.keeper_catalog.specs.View.{View};
ghost use Rattle.keeper_core.specs.Keeping.{IsStateOf, IsKnownStray};

use keeper_store::KeeperStore;
use pipe_backup::{Course, backup_line_piped};
use script_runner::{close_backup, open_backup};
use std::alloc::Global;
use std::sync::Wait;
use std::thread::{Scope, Threads};
use std::time::Clock;
use vault_traits::{Places, Shelf, Source};
use vault_types::text::Text;
use vault_types::{Answer, Fault, JobConfig, Limits, Set};

/// Backs what the source has left up into a set of the store, as its next version, by stages in threads of the scope. The
/// store and the source come back. It answers and leaves what a backup's line is to do.
pub fn back_up_piped<
    's,
    E: 's,
    R: Threads + Wait + Clock + Copy + Drop + Send + 's,
    S: Shelf,
    I: Source + Drop + Send + 's,
>(
    rt: R,
    alloc: Global,
    scope: &'s Scope<'s, E>,
    store: KeeperStore<S>,
    set: Set,
    source: I,
    config: &JobConfig,
    limits: &Limits,
    course: Course,
) -> (KeeperStore<S>, I, Result<Answer, Fault>)
    requires config { IsInRange config.now }
    requires limits { AreLimits limits.now }
    requires queue { 1 ≤ course.queue }
    requires lanes { (1 ≤ course.lanes) × (course.lanes ≤ 8) }
    ensures { BacksUpLine (λ S other. IsStateOf store S other) (λ S other. IsStateOf result.0 S other)
        (λ n. IsKnownStray store n) (λ n. IsKnownStray result.0 n) limits.now set config.now store.told
        result.0.told (I.told source) (I.told result.1) result.2 }
{
    let mut keeper = store.into_keeper();
    let (source, outcome) = backup_line_piped(
        rt,
        alloc,
        scope,
        &mut keeper,
        set,
        source,
        config,
        limits,
        course,
    );
    (KeeperStore::from_keeper(keeper), source, outcome)
}

// A line that backs a source up by stages in threads of the scope. The store comes back.
pub(crate) fn backup_line<
    's,
    E: 's,
    R: Threads + Wait + Clock + Copy + Drop + Send + 's,
    S: Shelf,
    P: Places,
>(
    rt: R,
    alloc: Global,
    scope: &'s Scope<'s, E>,
    store: KeeperStore<S>,
    set: Set,
    name: &Text,
    config: &JobConfig,
    places: &mut P,
    limits: &Limits,
    course: Course,
) -> (KeeperStore<S>, Answer)
where
    P::Reader: Drop + 's,
    requires config { IsInRange config.now }
    requires limits { AreLimits limits.now }
    requires queue { 1 ≤ course.queue }
    requires lanes { (1 ≤ course.lanes) × (course.lanes ≤ 8) }
    ensures { StepsLine (λ (k : View). k.told) IsStateOf IsKnownStray limits.now
        (record { keeper = store; places = P.told places.old })
        (line.Backup set name.now config.now) result.1
        (record { keeper = result.0; places = P.told places.new }) }
{
    match open_backup(alloc, &store, set, name, places, limits) {
        Err(answer) => (store, answer),
        Ok(source) => {
            let (store, source, outcome) = back_up_piped(
                rt, alloc, scope, store, set, source, config, limits, course,
            );
            let answer = close_backup(places, source, outcome);
            (store, answer)
        }
    }
}
