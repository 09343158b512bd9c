// A restore that is planned.
ghost use Rattle.std.specs.Prelude.{◌≡◌, ◌≤◌, ℕ, List, true, IfOk, IfErr, Err};
ghost use Rattle.vault_types.specs.declared.Fault.{Fault as FaultNow};
ghost use Rattle.vault_types.specs.Events.{Core, Pin};
ghost use Rattle.vault_types.specs.State.{is_kept};
ghost use Rattle.vault_traits.specs.Told.{SinkTold};
ghost use Rattle.store_model.specs.Calls.{RestoresLine};
ghost use Rattle.keeper_catalog.specs.View.{Keeps};
ghost use Rattle.keeper_core.specs.Keeping.{IsStateWith, IsKnownStray};
ghost use Rattle.pin_laws.specs.Following.{Follows};
ghost use Rattle.running_restore.specs.Planning.{BeginsAt, IsAtRest};

use crate::planning::{plan_loads, whole_of};
use keeper_core::{Keeper, Pinned};
use restore_assembler::Copier;
use restore_pins::PinNo;
use restore_stage::{Assembler, Loaded, Reply};
use stage_queue::{Middle, Rx, Tx, line};
use stage_threads::StageRoom;
use std::alloc::Global;
use std::marker::Model;
use std::snapshot::Snapshot;
use vault_traits::{Shelf, Sink};
use vault_types::{Fault, Id, Memory, Set, Version};

/// The two lines of a restore: payloads go to its stage, and the reply comes back.
#[derive(Drop)]
pub(crate) struct Lines {
    pub(crate) loads: Middle<Loaded>,
    pub(crate) to: Tx<Loaded>,
    pub(crate) from: Rx<Loaded>,
    pub(crate) replies: Middle<Reply>,
    pub(crate) back: Tx<Reply>,
    pub(crate) reply: Rx<Reply>,
}

impl Lines {
    ghost use Rattle.running_restore.specs.Views.{AreNew};

    // New lines, the one with room for two payloads.
    fn new(alloc: Global) -> Result<Lines, Memory>
        ensures { IfOk result (λ l. AreNew l.loads l.replies l.to l.from l.back l.reply) }
    {
        let (loads, to, from) = line(alloc, 2)?;
        let (replies, back, reply) = line(alloc, 1)?;
        Ok(Lines {
            loads,
            to,
            from,
            replies,
            back,
            reply,
        })
    }
}

/// A restore under its pin, with all memory that it needs. Contracts see the keeper from before its
/// pin and from behind it, its version, the number of its pin, its loads and its copier.
#[derive(Drop)]
pub struct PlannedRestore<S: Shelf, O: Sink + Drop> {
    pub(crate) set: Set,
    pub(crate) version: Version,
    pub(crate) slots: u32,
    pub(crate) no: PinNo,
    pub(crate) bytes: u64,
    pub(crate) ids: Vec<Id>,
    pub(crate) copier: Copier,
    pub(crate) lines: Lines,
    pub(crate) room: StageRoom<Assembler<O>>,
    pub(crate) before: Snapshot<Keeper<S>>,
    pub(crate) behind: Snapshot<Keeper<S>>,
}

impl<S: Shelf, O: Sink + Drop> Model for PlannedRestore<S, O> {
    ghost use Rattle.std.specs.Coded.{codes};
    ghost use Rattle.vault_traits.specs.Codes.{coded_blobs, coded_history};
    ghost use Rattle.running_restore.specs.Views.{PlannedView, AreNew};
    ghost use Rattle.restore_turns.specs.Started.{IsPlanned};

    ghost Value = { PlannedView };

    ghost coded = { Prim.hlevel (codes, coded_blobs, coded_history) };

    ghost view = { λ p. record {
      from = p.before.value;
      behind = p.behind.value;
      set = p.set;
      version = p.version;
      slots = p.slots;
      number = p.no;
      ids = p.ids.items;
      bytes = p.bytes;
      copying = p.copier;
    } };

    ghost invariant = { λ p. IsPlanned p.before.value p.behind.value p.set p.version p.slots p.no
        p.ids.items p.bytes p.copier
        × AreNew p.lines.loads p.lines.replies p.lines.to p.lines.from p.lines.back p.lines.reply };
}

impl<S: Shelf, O: Sink + Drop> PlannedRestore<S, O> {
    /// Pins a version that is kept, and takes all memory of its restore, which will have so many
    /// slots, 1 to 64, each of which holds one payload. `StoreFault`, where the shelf failed;
    /// `Damaged`, where the recipe is absent or wrong; `Memory`. After an `Err` nothing more is
    /// pinned, and the versions and the strays are as before.
    pub fn new(
        alloc: Global,
        keeper: &mut Keeper<S>,
        set: Set,
        version: Version,
        slots: u32,
    ) -> Result<PlannedRestore<S, O>, Fault>
        requires some { 1 ≤ slots }
        requires few { slots ≤ 64 }
        requires kept { (K : Core) → Keeps keeper.old K → true ≡ is_kept K.state set version }
        ensures ok { IfOk result (λ p. BeginsAt keeper.old keeper.new set version slots p) }

        // A refusal is what the call on one thread would have given, and leaves the pins.
        ensures err { IfErr result (λ f. (pins : List Pin) (told : SinkTold)
            → RestoresLine (IsStateWith keeper.old pins) (IsStateWith keeper.new pins)
            (IsKnownStray keeper.old) (IsKnownStray keeper.new) set version slots keeper.old.told
            keeper.new.told told told (Err f)) }
        ensures rest { IfErr result (λ f. IsAtRest keeper.old keeper.new) }
        ensures follows { (number : ℕ) → Follows keeper.old keeper.new number }
    {
        keeper.keeps_some_core();
        let lines = Lines::new(alloc)?;
        let room = StageRoom::new(alloc)?;
        let before = Snapshot::of(&*keeper);
        let Pinned {
            no,
            length,
            spots,
            whole,
        } = keeper.pin(alloc, set, version)?;
        let behind = Snapshot::of(&*keeper);
        let whole = whole_of(set, version, whole);
        match plan_loads(alloc, spots, whole, slots) {
            Ok((ids, copier)) => Ok(PlannedRestore {
                set,
                version,
                slots,
                no,
                bytes: length,
                ids,
                copier,
                lines,
                room,
                before,
                behind,
            }),
            Err(Memory) => {
                keeper.release(no);
                Err(Fault::Memory)
            }
        }
    }
}
