// A restore, whose stage runs in a thread.
ghost use Rattle.std.specs.Prelude.{◌≡◌, ◌≤◌, ◌∷◌, [], true, List};
ghost use Rattle.vault_types.specs.Events.{Core, Pin};
ghost use Rattle.vault_types.specs.State.{is_kept};
ghost use Rattle.store_model.specs.Calls.{RestoresLine};
ghost use Rattle.keeper_catalog.specs.View.{Keeps};
ghost use Rattle.keeper_core.specs.Keeping.{IsStateWith, IsKnownStray};
ghost use Rattle.piped_restore.specs.Running.{RunsAlone};

use keeper_core::Keeper;
use restore_stage::Reply;
use running_restore::{PlannedRestore, RunningRestore};
use stage_threads::{BackOff, StageThread};
use std::alloc::Global;
use std::sync::Wait;
use std::thread::{Scope, Threads};
use std::time::Clock;
use vault_traits::{Shelf, Sink};
use vault_types::{Answer, Fault, Set, Turn, Version};

// Gives a restore that runs alone its payloads, until its reply has come.
fn run_to_reply<S: Shelf, O: Sink + Drop, R: Threads + Wait + Clock>(
    rt: &R,
    alloc: Global,
    keeper: &mut Keeper<S>,
    running: &mut RunningRestore<S, O>,
) -> Reply
    requires alone { RunsAlone keeper.old running.old }
    requires unreplied { running.old.replied ≡ [] }
    ensures alone { RunsAlone keeper.new running.new }
    ensures reply { running.new.replied ≡ result ∷ [] }
    ensures same { running.new ≡ record running.old {
      got = running.new.got;
      met = running.new.met;
      sent = running.new.sent;
      replied = running.new.replied;
    } }
{
    let mut back_off = BackOff::new();
    for _ in rt.forever() {
        if let Some(reply) = running.reply(rt) {
            return reply;
        }
        match running.feed(rt, alloc, keeper) {
            Turn::Moved => back_off.reset(),
            _ => back_off.wait(rt),
        }
    }
    unreachable!()
}

// Restores a version that is kept.
fn run_kept<
    's,
    X: 's,
    S: Shelf,
    O: Sink + Drop + Send + 's,
    R: Threads + Wait + Clock + Copy + Drop + Send + 's,
>(
    rt: R,
    alloc: Global,
    scope: &'s Scope<'s, X>,
    keeper: &mut Keeper<S>,
    set: Set,
    version: Version,
    slots: u32,
    sink: O,
) -> (Result<Answer, Fault>, O)
    requires some { 1 ≤ slots }
    requires few { slots ≤ 64 }
    requires kept { (K : Core) → Keeps keeper.old K → true ≡ is_kept K.state set version }
    ensures line { (pins : List Pin)
        → RestoresLine (IsStateWith keeper.old pins) (IsStateWith keeper.new pins)
        (IsKnownStray keeper.old) (IsKnownStray keeper.new) set version slots keeper.old.told keeper.new.told
        (O.told sink) (O.told result.1) result.0 }
    ensures rest { (keeper.new.job ≡ keeper.old.job) × (keeper.new.pins ≡ keeper.old.pins) }
{
    keeper.keeps_some_core();
    match PlannedRestore::new(alloc, keeper, set, version, slots) {
        Err(fault) => (Err(fault), sink),
        Ok(planned) => {
            let (restore, stage, room) = planned.ready(sink);
            let worker = StageThread::start(rt, room, scope, stage);
            let mut running = RunningRestore::run(restore, worker);
            let reply = run_to_reply(&rt, alloc, keeper, &mut running);
            running.end(&rt, keeper, reply)
        }
    }
}

/// Restores a version: its bytes, all of them, go to the sink, which comes back. The caller's thread
/// loads the payloads, and a thread of the scope puts the bytes together and writes them; where that
/// thread is refused, this one does. The version is pinned meanwhile, and its pin is released in every
/// case. No other order of loads takes fewer of them with so many slots, 1 to 64, each of which holds
/// one payload.
///
/// `NotKept`, exactly where the version is not kept, and then nothing was done; `StoreFault`, where
/// the shelf failed; `WriteFault`, where the sink failed; `Damaged`, where the recipe or a payload is
/// absent or wrong, or where the bytes have another SHA-1 than the recipe says; `Memory`. After an
/// `Err` the sink has taken a front of the bytes.
pub fn restore_in_thread<
    's,
    X: 's,
    S: Shelf,
    O: Sink + Drop + Send + 's,
    R: Threads + Wait + Clock + Copy + Drop + Send + 's,
>(
    rt: R,
    alloc: Global,
    scope: &'s Scope<'s, X>,
    keeper: &mut Keeper<S>,
    set: Set,
    version: Version,
    slots: u32,
    sink: O,
) -> (Result<Answer, Fault>, O)
    requires some { 1 ≤ slots }
    requires few { slots ≤ 64 }
    ensures line { (pins : List Pin)
        → RestoresLine (IsStateWith keeper.old pins) (IsStateWith keeper.new pins)
        (IsKnownStray keeper.old) (IsKnownStray keeper.new) set version slots keeper.old.told keeper.new.told
        (O.told sink) (O.told result.1) result.0 }
    ensures rest { (keeper.new.job ≡ keeper.old.job) × (keeper.new.pins ≡ keeper.old.pins) }
{
    keeper.keeps_some_core();
    if !keeper.kept(set, version) {
        let fault = Fault::NotKept {
            set,
            version,
            floor: keeper.floor(set),
            latest: keeper.latest(set),
        };
        return (Err(fault), sink);
    }
    run_kept(rt, alloc, scope, keeper, set, version, slots, sink)
}
