// A restore that is ready to run.
ghost use Rattle.std.specs.Prelude.{◌≡◌};
ghost use Rattle.running_restore.specs.Views.{Starts};

use crate::planned::{Lines, PlannedRestore};
use keeper_core::Keeper;
use restore_pins::PinNo;
use restore_stage::{Assembler, Loaded, Reply};
use stage_queue::{Middle, Rx, Tx};
use stage_threads::StageRoom;
use std::marker::Model;
use std::snapshot::Snapshot;
use vault_traits::{Shelf, Sink};
use vault_types::{Id, Set, Version};

/// A restore that is ready to run, without its stage. Contracts see it as it will run.
#[derive(Drop)]
pub struct ReadyRestore<S: Shelf, O: Sink + Drop> {
    pub(crate) set: Set,
    pub(crate) version: Version,
    pub(crate) slots: u32,
    pub(crate) no: PinNo,
    pub(crate) ids: Vec<Id>,
    pub(crate) loads: Middle<Loaded>,
    pub(crate) to: Tx<Loaded>,
    pub(crate) replies: Middle<Reply>,
    pub(crate) reply: Rx<Reply>,
    pub(crate) first: Snapshot<Assembler<O>>,
    pub(crate) before: Snapshot<Keeper<S>>,
    pub(crate) behind: Snapshot<Keeper<S>>,
}

impl<S: Shelf, O: Sink + Drop> Model for ReadyRestore<S, O> {
    ghost use Rattle.std.specs.Prelude.{◌++◌, [], false, None};
    ghost use Rattle.std.specs.Coded.{codes};
    ghost use Rattle.vault_traits.specs.Codes.{coded_blobs, coded_history};
    ghost use Rattle.running_restore.specs.Views.{RunningView, IsTied};

    ghost Value = { RunningView };

    ghost coded = { Prim.hlevel (codes, coded_blobs, coded_history) };

    ghost view = { λ r. record {
      from = r.before.value;
      behind = r.behind.value;
      set = r.set;
      version = r.version;
      slots = r.slots;
      number = r.no;
      ids = r.ids.items;
      first = r.first.value;
      got = 0;
      met = None;
      sent = r.to.sent ++ [];
      replied = r.reply.taken;
    } };

    ghost invariant = { λ r. IsTied r.loads r.replies r.to r.reply false
        (record {
          from = r.before.value;
          behind = r.behind.value;
          set = r.set;
          version = r.version;
          slots = r.slots;
          number = r.no;
          ids = r.ids.items;
          first = r.first.value;
          got = 0;
          met = None;
          sent = r.to.sent ++ [];
          replied = r.reply.taken;
        }) };
}

impl<S: Shelf, O: Sink + Drop> PlannedRestore<S, O> {
    /// Makes its stage, over a sink, with the room for the stage's thread. No memory.
    pub fn ready(self, sink: O) -> (ReadyRestore<S, O>, Assembler<O>, StageRoom<Assembler<O>>)
        ensures starts { Starts self (O.told sink) result.0 }
        ensures stage { result.1 ≡ result.0.first }
    {
        let PlannedRestore {
            set,
            version,
            slots,
            no,
            bytes,
            ids,
            copier,
            lines,
            room,
            before,
            behind,
        } = self;
        let Lines {
            loads,
            to,
            from,
            replies,
            back,
            reply,
        } = lines;
        let stage = Assembler::new(copier, bytes, from, sink, back);
        let first = Snapshot::of(&stage);
        let restore = ReadyRestore {
            set,
            version,
            slots,
            no,
            ids,
            loads,
            to,
            replies,
            reply,
            first,
            before,
            behind,
        };
        (restore, stage, room)
    }
}
