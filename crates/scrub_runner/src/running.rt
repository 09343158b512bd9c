// A scrub of the store on a shelf.
ghost use Rattle.vault_traits.specs.Told.{PlacesTold};
ghost use Rattle.store_model.specs.World.{world};
ghost use Rattle.command_runner.specs.Going.{GoesOn};
ghost use Rattle.scrub_model.specs.Scrubbing.{RunsScrub};

use crate::ending::{ended_done, ended_refused};
use command_runner::{Ended, ended_early, open_for_one};
use keeper_store::KeeperStore;
use scrub::{Plain, scrub, scrub_plain};
use std::alloc::Global;
use std::sync::Wait;
use std::thread::{Scope, Threads};
use vault_traits::{Shelf, Sink, Source};

/// Checks the payload of each container that a version names against its table, one after the other. On `out` are a line for
/// each that is damaged and the report; where all of that was written and something is damaged, the first damage is the
/// fault, and its line is on `report`. The store is as before.
pub fn run_scrub_plain<S: Shelf, I: Source, O: Sink, R: Sink>(
    alloc: Global,
    shelf: S,
    input: I,
    out: O,
    report: &mut R,
) -> Ended<S, I, O>
    ensures { (places : PlacesTold) → GoesOn RunsScrub
        (world (S.told shelf) places (I.told input) (O.told out) (R.told report.old))
        (world (S.told result.shelf) places (I.told result.input) (O.told result.out) (R.told report.new))
        result.answers.items result.fault result.status }
{
    let (store, room) = match open_for_one::<S, KeeperStore<S>>(alloc, shelf) {
        Ok(opened) => opened,
        Err((fault, shelf)) => return ended_early(alloc, fault, shelf, input, out, report),
    };
    let mut keeper = store.into_keeper();
    keeper.keeps_some_core();
    match scrub_plain(alloc, &mut keeper, &Plain) {
        Ok(found) => ended_done(keeper.close(), room, &found, input, out, report),
        Err(fault) => ended_refused(keeper.close(), room, fault, input, out),
    }
}

/// The same, with so many checks at a time, 1 to 8, each in a thread of the scope; one whose thread is refused is made in this
/// thread.
pub fn run_scrub<'s, E: 's, T: Threads + Wait, S: Shelf, I: Source, O: Sink, R: Sink>(
    rt: &T,
    alloc: Global,
    scope: &'s Scope<'s, E>,
    workers: u32,
    shelf: S,
    input: I,
    out: O,
    report: &mut R,
) -> Ended<S, I, O>
    ensures { (places : PlacesTold) → GoesOn RunsScrub
        (world (S.told shelf) places (I.told input) (O.told out) (R.told report.old))
        (world (S.told result.shelf) places (I.told result.input) (O.told result.out) (R.told report.new))
        result.answers.items result.fault result.status }
{
    let (store, room) = match open_for_one::<S, KeeperStore<S>>(alloc, shelf) {
        Ok(opened) => opened,
        Err((fault, shelf)) => return ended_early(alloc, fault, shelf, input, out, report),
    };
    let mut keeper = store.into_keeper();
    keeper.keeps_some_core();
    match scrub(rt, alloc, scope, &mut keeper, &Plain, workers) {
        Ok(found) => ended_done(keeper.close(), room, &found, input, out, report),
        Err(fault) => ended_refused(keeper.close(), room, fault, input, out),
    }
}
