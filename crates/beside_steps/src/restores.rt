// A restore beside lines: its beginning, its turns, and its end.
ghost use Rattle.std.specs.Prelude.{◌≡◌, ◌≤◌, ◌++◌, ◌∷◌, [], true, false, List, IfOk, IfErr, OnErr, IfSome};
ghost use Rattle.vault_types.specs.declared.Line.TheVariants as line;
ghost use Rattle.vault_types.specs.Events.{Core};
ghost use Rattle.vault_types.specs.State.{is_kept};
ghost use Rattle.vault_traits.specs.Files.{IsThere};
ghost use Rattle.store_model.specs.Steps.{StepsLine, write_numbered};
ghost use Rattle.beside_laws.specs.Running.{with_answer};
ghost use Rattle.beside_laws.specs.Steps.{EndsRestore};
ghost use Rattle.beside_runner.specs.Turns.{IsBegun};
ghost use Rattle.keeper_catalog.specs.View.{Keeps};
ghost use Rattle.keeper_core.specs.Keeping.{IsKnownStray};
ghost use Rattle.restore_turns.specs.Entry.{IsStateBeside};
ghost use Rattle.running_restore.specs.Feeding.{HasFed};
ghost use Rattle.running_restore.specs.Views.{IsRunning};
ghost use Rattle.beside_steps.specs.Holding.{BesideView, Holds, IsOne, IsSameButReply, past_of};

use crate::beside::Beside;
use keeper_core::Keeper;
use restore_stage::Reply;
use running_restore::{PlannedRestore, RunningRestore};
use stage_threads::StageThread;
use std::alloc::Global;
use std::sync::Wait;
use std::thread::{Scope, Threads};
use std::time::Clock;
use vault_traits::{Places, Refused, Shelf, Sink};
use vault_types::text::Text;
use vault_types::{Answer, Fault, Limits, Memory, Set, Turn, Version};

// A fault of a sink, with the number that the places give it.
fn with_write_number(fault: Fault, number: u64) -> Fault
    ensures { result ≡ write_numbered number fault }
{
    match fault {
        Fault::WriteFault(_) => Fault::WriteFault(number),
        other => other,
    }
}

// The same text.
fn copy_text(alloc: Global, text: &Text) -> Result<Text, Memory>
    ensures { IfOk result (λ copy. copy ≡ text.now) }
{
    let mut string = String::new(alloc);
    string.push_str(text.as_str())?;
    Ok(Text::from_string(string))
}

// Opens the sink of a version that is kept, pins the version, and starts the restore.
fn begin_kept<'s, X: 's, S: Shelf, P: Places, R: Wait + Clock + Copy + Drop + Send + 's>(
    rt: R,
    alloc: Global,
    scope: &'s Scope<'s, X>,
    keeper: &mut Keeper<S>,
    set: Set,
    version: Version,
    name: Text,
    slots: u32,
    places: &mut P,
    limits: &Limits,
    at: usize,
) -> Result<Beside<S, P::Writer>, Answer>
where
    P::Writer: Drop + 's,
    requires some { 1 ≤ slots }
    requires few { slots ≤ 64 }
    requires kept { (K : Core) → Keeps keeper.old K → true ≡ is_kept K.state set version }
    ensures begun { IfOk result (λ e. IsBegun (λ k. k.told) IsStateBeside IsKnownStray
        (record { keeper = keeper.old; places = P.told places.old })
        (line.Restore set version name slots) at
        (record { keeper = keeper.new; places = P.told places.new }) (past_of e)) }
    ensures refused { IfErr result (λ a. StepsLine (λ k. k.told) IsStateBeside IsKnownStray limits.now
        (record { keeper = keeper.old; places = P.told places.old })
        (line.Restore set version name slots) a
        (record { keeper = keeper.new; places = P.told places.new })) }
    ensures holds { IfOk result (λ e. (es : List BesideView) → Holds keeper.old (P.told places.old).files es
        → Holds keeper.new (P.told places.new).files (es ++ e ∷ [])) }
    ensures still { OnErr result ((es : List BesideView) → Holds keeper.old (P.told places.old).files es
        → Holds keeper.new (P.told places.new).files es) }
{
    let sink = match places.open_sink(alloc, name.as_str()) {
        Err(Refused::Failed) => {
            return Err(Answer::Refused(Fault::PlaceFault(places.faults())));
        }
        Err(Refused::Memory) => return Err(Answer::Refused(Fault::Memory)),
        Ok(sink) => sink,
    };
    match PlannedRestore::new(alloc, keeper, set, version, slots) {
        Ok(planned) => {
            let (restore, stage, room) = planned.ready(sink);
            let worker = StageThread::start(rt, room, scope, stage);
            Ok(Beside {
                restore: RunningRestore::run(restore, worker),
                name,
                place: at,
                ended: false,
            })
        }
        Err(fault) => {
            places.close_sink(name.as_str(), sink);
            Err(Answer::Refused(with_write_number(fault, places.write_faults())))
        }
    }
}

/// A line that restores a version: it runs from now on, or it is refused.
pub fn begin_restore<'s, X: 's, S: Shelf, P: Places, R: Wait + Clock + Copy + Drop + Send + 's>(
    rt: R,
    alloc: Global,
    scope: &'s Scope<'s, X>,
    keeper: &mut Keeper<S>,
    set: Set,
    version: Version,
    name: &Text,
    slots: u32,
    places: &mut P,
    limits: &Limits,
    at: usize,
) -> Result<Beside<S, P::Writer>, Answer>
where
    P::Writer: Drop + 's,
    requires some { 1 ≤ slots }
    requires few { slots ≤ 64 }
    ensures begun { IfOk result (λ e. IsBegun (λ k. k.told) IsStateBeside IsKnownStray
        (record { keeper = keeper.old; places = P.told places.old })
        (line.Restore set version name.now slots) at
        (record { keeper = keeper.new; places = P.told places.new }) (past_of e)) }
    ensures refused { IfErr result (λ a. StepsLine (λ k. k.told) IsStateBeside IsKnownStray limits.now
        (record { keeper = keeper.old; places = P.told places.old })
        (line.Restore set version name.now slots) a
        (record { keeper = keeper.new; places = P.told places.new })) }
    ensures holds { IfOk result (λ e. (es : List BesideView) → Holds keeper.old (P.told places.old).files es
        → Holds keeper.new (P.told places.new).files (es ++ e ∷ [])) }
    ensures still { OnErr result ((es : List BesideView) → Holds keeper.old (P.told places.old).files es
        → Holds keeper.new (P.told places.new).files es) }
{
    if !keeper.kept(set, version) {
        return Err(Answer::Refused(Fault::NotKept {
            set,
            version,
            floor: keeper.floor(set),
            latest: keeper.latest(set),
        }));
    }
    match copy_text(alloc, name) {
        Ok(copy) => begin_kept(
            rt, alloc, scope, keeper, set, version, copy, slots, places, limits, at,
        ),
        Err(Memory) => Err(Answer::Refused(Fault::Memory)),
    }
}

/// A turn of a restore that runs, for which payloads are loaded.
pub fn feed_restore<S: Shelf, O: Sink + Drop, R: Wait>(
    rt: &R,
    alloc: Global,
    keeper: &mut Keeper<S>,
    entry: &mut Beside<S, O>,
) -> Turn
    requires { IsRunning keeper.old entry.old.restore }
    ensures fed { HasFed keeper.old keeper.new entry.old.restore entry.new.restore }
    ensures running { IsRunning keeper.new entry.new.restore }
    ensures rest { (entry.new.name ≡ entry.old.name) × (entry.new.place ≡ entry.old.place)
        × (entry.new.ended ≡ entry.old.ended) }
{
    entry.restore.feed(rt, alloc, keeper)
}

/// The reply of a restore that runs, where it has come and was not taken before.
pub fn take_reply<S: Shelf, O: Sink + Drop, R: Wait>(
    rt: &R,
    entry: &mut Beside<S, O>,
) -> Option<Reply>
    requires { entry.old.ended ≡ false → entry.old.restore.replied ≡ [] }
    ensures reply { IfSome result (λ y. entry.new.restore.replied ≡ y ∷ []) }
    ensures same { IsSameButReply entry.old entry.new }
{
    if entry.ended {
        return None;
    }
    match entry.restore.reply(rt) {
        None => None,
        Some(reply) => {
            entry.ended = true;
            Some(reply)
        }
    }
}

/// Ends a restore with its reply: its pin is released, and its sink is closed.
pub fn end_restore<S: Shelf, P: Places, R: Threads + Wait + Clock>(
    rt: &R,
    keeper: &mut Keeper<S>,
    places: &mut P,
    limits: &Limits,
    entry: Beside<S, P::Writer>,
    reply: Reply,
) -> Answer
where
    P::Writer: Drop,
    requires one { IsOne keeper.old (P.told places.old).files entry }
    requires reply { entry.restore.replied ≡ reply ∷ [] }
    requires there { IsThere (P.told places.old).files entry.name }
    ensures ends { EndsRestore (λ k. k.told) IsStateBeside IsKnownStray limits.now
        (record { keeper = keeper.old; places = P.told places.old }) (with_answer result (past_of entry))
        (record { keeper = keeper.new; places = P.told places.new }) }
    ensures holds { (first others : List BesideView)
        → Holds keeper.old (P.told places.old).files (first ++ entry ∷ others)
        → Holds keeper.new (P.told places.new).files (first ++ others) }
{
    let _limits = limits;
    let Beside { restore, name, .. } = entry;
    let (result, sink) = restore.end(rt, keeper, reply);
    places.close_sink(name.as_str(), sink);
    match result {
        Ok(answer) => answer,
        Err(fault) => Answer::Refused(with_write_number(fault, places.write_faults())),
    }
}
