// A run of lines.
ghost use Rattle.std.specs.Prelude.{◌≡◌, ◌≤◌, ℕ, true, List, Option, None, IsSome, IfOk, IfErr};
ghost use Rattle.std.specs.List.{AllByRecursion};
ghost use Rattle.vault_types.specs.Events.{Change};
ghost use Rattle.vault_types.specs.Script.{Sources};
ghost use Rattle.vault_types.specs.State.{State};
ghost use Rattle.vault_types.specs.declared.JobConfig.{JobConfig as JobConfigNow};
ghost use Rattle.vault_types.specs.declared.Line.TheVariants as line;
ghost use Rattle.vault_types.specs.JobRanges.{IsInRange};
ghost use Rattle.store_model.specs.Calls.{backup_answer};
ghost use Rattle.store_model.specs.Outputs.{AreApartLines, AreFedBy};
ghost use Rattle.store_model.specs.Room.{NeedsRoom, NeedRoom};
ghost use Rattle.store_model.specs.Script.{RunsLines};
ghost use Rattle.store_model.specs.Steps.{StepsLine, read_numbered, write_numbered};
ghost use Rattle.store_model.specs.Ranges.{IsLineInRange, AreLimits};
ghost use Rattle.script_runner.specs.Sources.{HasOpenedSource, HasClosedSource};

use crate::store::LineStore;
use std::alloc::Global;
use vault_traits::{Places, Refused};
use vault_types::text::Text;
use vault_types::{Answer, Fault, JobConfig, Limits, Line, Memory, Set, Version};

/// What a run of lines gives back: the store, and one answer for each line.
#[derive(Drop)]
pub struct Done<K: LineStore> {
    pub store: K,
    pub answers: Vec<Answer>,
}

// A fault of a source, with the number that the places give it.
fn with_read_number(fault: Fault, number: u64) -> Fault
    ensures { result ≡ read_numbered number fault }
{
    match fault {
        Fault::ReadFault(_) => Fault::ReadFault(number),
        other => other,
    }
}

// A fault of a sink, with the number that the places give it.
fn with_write_number(fault: Fault, number: u64) -> Fault
    ensures { result ≡ write_numbered number fault }
{
    match fault {
        Fault::WriteFault(_) => Fault::WriteFault(number),
        other => other,
    }
}

/// Opens the source of a line that backs it up; or the answer, where the set is full or the source could not be opened.
pub fn open_backup<K: LineStore, P: Places>(
    alloc: Global,
    store: &K,
    set: Set,
    name: &Text,
    places: &mut P,
    limits: &Limits,
) -> Result<P::Reader, Answer>
    ensures opened { IfOk result (λ r. HasOpenedSource (P.told places.old) (P.told places.new) name.now
        (P.Reader.told r)) }
    ensures refused { IfErr result (λ answer. (config : JobConfigNow)
        → StepsLine K.shelf K.keeps K.strays limits.now
        (record { keeper = store.now; places = P.told places.old }) (line.Backup set name.now config) answer
        (record { keeper = store.now; places = P.told places.new })) }
{
    if store.full(set, limits) {
        return Err(Answer::Refused(Fault::Full {
            set,
            latest: store.latest(set),
            next: store.next_id(),
        }));
    }
    match places.open_source(alloc, name.as_str()) {
        Err(Refused::Failed) => Err(Answer::Refused(Fault::PlaceFault(places.faults()))),
        Err(Refused::Memory) => Err(Answer::Refused(Fault::Memory)),
        Ok(source) => Ok(source),
    }
}

/// Closes the source of a backup that gave this: what its line answers.
pub fn close_backup<P: Places>(
    places: &mut P,
    source: P::Reader,
    outcome: Result<Answer, Fault>,
) -> Answer
    ensures closed { HasClosedSource (P.told places.old) (P.told places.new) (P.Reader.told source) }
    ensures answer { result ≡ backup_answer (P.told places.new).read_faults outcome }
{
    places.close_source(source);
    match outcome {
        Ok(answer) => answer,
        Err(fault) => Answer::Refused(with_read_number(fault, places.read_faults())),
    }
}

// A line that backs a source up.
fn backup_line<K: LineStore, P: Places>(
    alloc: Global,
    store: &mut K,
    set: Set,
    name: &Text,
    config: &JobConfig,
    places: &mut P,
    limits: &Limits,
) -> Answer
    requires config { IsInRange config.now }
    requires limits { AreLimits limits.now }
    ensures { StepsLine K.shelf K.keeps K.strays limits.now
        (record { keeper = store.old; places = P.told places.old })
        (line.Backup set name.now config.now) result
        (record { keeper = store.new; places = P.told places.new }) }
{
    match open_backup(alloc, &*store, set, name, places, limits) {
        Err(answer) => answer,
        Ok(source) => {
            let mut source = source;
            let outcome = store.back_up(alloc, set, &mut source, config, limits);
            close_backup(places, source, outcome)
        }
    }
}

/// A line that restores a version, over the place that it names.
pub fn restore_line<K: LineStore, P: Places>(
    alloc: Global,
    store: &mut K,
    set: Set,
    version: Version,
    name: &Text,
    slots: u32,
    places: &mut P,
    limits: &Limits,
) -> Answer
    requires some { 1 ≤ slots }
    requires few { slots ≤ 64 }
    ensures room { (S : State) (other : Option Change) → K.keeps store.old S other
        → IsSome (P.told places.old).files
        → NeedsRoom P.room S (line.Restore set version name.now slots) result }
    ensures steps { StepsLine K.shelf K.keeps K.strays limits.now
        (record { keeper = store.old; places = P.told places.old })
        (line.Restore set version name.now slots) result
        (record { keeper = store.new; places = P.told places.new }) }
{
    if !store.kept(set, version) {
        return Answer::Refused(Fault::NotKept {
            set,
            version,
            floor: store.floor(set),
            latest: store.latest(set),
        });
    }
    match places.open_sink(alloc, name.as_str()) {
        Err(Refused::Failed) => Answer::Refused(Fault::PlaceFault(places.faults())),
        Err(Refused::Memory) => Answer::Refused(Fault::Memory),
        Ok(mut sink) => {
            let result = store.restore(alloc, set, version, slots, &mut sink);
            places.close_sink(name.as_str(), sink);
            match result {
                Ok(answer) => answer,
                Err(fault) => Answer::Refused(with_write_number(fault, places.write_faults())),
            }
        }
    }
}

/// A line that deletes versions. It leaves the places.
pub fn delete_line<K: LineStore, P: Places>(
    store: &mut K,
    set: Set,
    through: Version,
    places: &P,
    limits: &Limits,
) -> Answer
    ensures { StepsLine K.shelf K.keeps K.strays limits.now
        (record { keeper = store.old; places = P.told places.now })
        (line.Delete set through) result (record { keeper = store.new; places = P.told places.now }) }
{
    match store.delete(set, through) {
        Ok(answer) => answer,
        Err(fault) => Answer::Refused(fault),
    }
}

fn one_line<K: LineStore, P: Places>(
    alloc: Global,
    store: &mut K,
    line: &Line,
    places: &mut P,
    limits: &Limits,
) -> Answer
    requires range { IsLineInRange line.now }
    requires limits { AreLimits limits.now }
    ensures room { (S : State) (other : Option Change) → K.keeps store.old S other
        → IsSome (P.told places.old).files → NeedsRoom P.room S line.now result }
    ensures steps { StepsLine K.shelf K.keeps K.strays limits.now
        (record { keeper = store.old; places = P.told places.old })
        line.now result (record { keeper = store.new; places = P.told places.new }) }
{
    match line {
        Line::Backup { set, name, config } => backup_line(
            alloc, store, *set, name, config, places, limits,
        ),
        Line::Restore {
            set,
            version,
            name,
            cache,
        } => restore_line(alloc, store, *set, *version, name, *cache, places, limits),
        Line::Delete { set, through } => delete_line(store, *set, *through, places, limits),
    }
}

/// Runs the lines one after another, each over the places that it names. Each answers, and a refused one leaves the
/// store's versions; `Memory` comes before the first, and then nothing has changed. Where the sinks of the places have
/// room for so many bytes, one fails only where the version is longer.
pub fn script_plain<K: LineStore, P: Places>(
    alloc: Global,
    store: K,
    lines: &[Line],
    places: &mut P,
    limits: &Limits,
) -> Result<Done<K>, (Memory, K)>
    requires apart { AreApartLines lines.now }
    requires ranges { AllByRecursion IsLineInRange lines.now }
    requires limits { AreLimits limits.now }
    ensures runs { IfOk result
        (λ done.
        RunsLines true (λ S. K.keeps store S None) (λ S. K.strays store) limits.now lines.now
        done.answers.items (K.shelf store) (K.shelf done.store) (P.told places.old)
        (P.told places.new)) }
    ensures room { IfOk result (λ done. (S : State) (sources : Sources) → K.keeps store S None
        → AreFedBy (P.told places.old).files sources lines.now → IsSome (P.told places.old).files
        → NeedRoom P.room sources S lines.now done.answers.items) }
    ensures memory { IfErr result (λ e. (e.1 ≡ store) × (P.told places.new ≡ P.told places.old)) }
{
    let mut store = store;
    let Ok(mut answers) = Vec::with_capacity(alloc, lines.len()) else {
        return Err((Memory, store));
    };
    for line in lines {
        let answer = one_line(alloc, &mut store, line, places, limits);
        match answers.push(answer) {
            Ok(()) => {}
            Err(_) => unreachable!(),
        }
    }
    Ok(Done { store, answers })
}
