// Commands of one line.
ghost use Rattle.std.specs.Prelude.{◌≡◌, ◌≤◌};
ghost use Rattle.vault_types.specs.JobRanges.{IsInRange};
ghost use Rattle.vault_types.specs.declared.Limits.{Limits as LimitsOf};
ghost use Rattle.vault_traits.specs.Told.{PlacesTold};
ghost use Rattle.store_model.specs.Courses.{RunsBackup, RunsRestore, RunsDelete};
ghost use Rattle.store_model.specs.Ranges.{AreLimits};
ghost use Rattle.store_model.specs.World.{world};
ghost use Rattle.command_runner.specs.Going.{GoesOn};

use crate::ending::{
    Ended, answer_from, ended_early, ended_on_out, ended_on_report, one_answer, open_for_one,
};
use crate::store::ShelfStore;
use std::alloc::Global;
use vault_traits::{Shelf, Sink, Source};
use vault_types::{JobConfig, Limits, Set, Version};

// Backs the input up; the report is on `out`.
pub(crate) fn run_backup<S: Shelf, K: ShelfStore<S>, I: Source, O: Sink, R: Sink>(
    alloc: Global,
    set: Set,
    config: &JobConfig,
    limits: &Limits,
    shelf: S,
    input: I,
    out: O,
    report: &mut R,
) -> Ended<S, I, O>
    requires config { IsInRange config.now }
    requires limits { AreLimits limits.now }
    ensures { (places : PlacesTold) → GoesOn (RunsBackup set config.now limits.now)
        (world (S.told shelf) places (I.told input) (O.told out) (R.told report.old))
        (world (S.told result.shelf) places (I.told result.input) (O.told result.out) (R.told report.new))
        result.answers.items result.fault result.status }
{
    let (store, room) = match open_for_one::<S, K>(alloc, shelf) {
        Ok(opened) => opened,
        Err((fault, shelf)) => return ended_early(alloc, fault, shelf, input, out, report),
    };
    let (mut store, mut input) = (store, input);
    let result = store.back_up(alloc, set, &mut input, config, limits);
    ended_on_out(store, one_answer(room, answer_from(result)), input, out)
}

// Restores a version to `out`; the report is on `report`.
pub(crate) fn run_restore<S: Shelf, K: ShelfStore<S>, I: Source, O: Sink, R: Sink>(
    alloc: Global,
    set: Set,
    version: Version,
    cache: u32,
    shelf: S,
    input: I,
    out: O,
    report: &mut R,
) -> Ended<S, I, O>
    requires some { 1 ≤ cache }
    requires few { cache ≤ 64 }
    ensures { (limits : LimitsOf) (places : PlacesTold) → GoesOn (RunsRestore set version cache limits)
        (world (S.told shelf) places (I.told input) (O.told out) (R.told report.old))
        (world (S.told result.shelf) places (I.told result.input) (O.told result.out) (R.told report.new))
        result.answers.items result.fault result.status }
{
    let (store, room) = match open_for_one::<S, K>(alloc, shelf) {
        Ok(opened) => opened,
        Err((fault, shelf)) => return ended_early(alloc, fault, shelf, input, out, report),
    };
    let (mut store, mut out) = (store, out);
    let result = store.restore(alloc, set, version, cache, &mut out);
    ended_on_report(
        store,
        one_answer(room, answer_from(result)),
        input,
        out,
        report,
    )
}

// Deletes versions; the report is on `out`.
pub(crate) fn run_delete<S: Shelf, K: ShelfStore<S>, I: Source, O: Sink, R: Sink>(
    alloc: Global,
    set: Set,
    through: Version,
    shelf: S,
    input: I,
    out: O,
    report: &mut R,
) -> Ended<S, I, O>
    ensures { (limits : LimitsOf) (places : PlacesTold) → GoesOn (RunsDelete set through limits)
        (world (S.told shelf) places (I.told input) (O.told out) (R.told report.old))
        (world (S.told result.shelf) places (I.told result.input) (O.told result.out) (R.told report.new))
        result.answers.items result.fault result.status }
{
    let (store, room) = match open_for_one::<S, K>(alloc, shelf) {
        Ok(opened) => opened,
        Err((fault, shelf)) => return ended_early(alloc, fault, shelf, input, out, report),
    };
    let mut store = store;
    let result = store.delete(set, through);
    ended_on_out(store, one_answer(room, answer_from(result)), input, out)
}
