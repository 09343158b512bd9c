//! The end of a restore that runs beside other lines: payloads come in over a line, and the bytes
//! of the version go out to a sink. It is a machine that is driven by turns (`stage_threads`).
#![tactic(auto)]

ghost use Rattle.std.specs.Prelude.{◌≡◌, ◌++◌, ℕ, List, [], Some};
ghost use Rattle.std.specs.List.{AllByRecursion};
ghost use Rattle.vault_types.specs.declared.Step.{Step};
ghost use Rattle.restore_assembler.specs.Copying.{wanted};
ghost use Rattle.restore_stage.specs.Assembling.{Assembling, IsOff, IsRight, SeesItem, ids, load_ids};
ghost use Rattle.restore_stage.specs.declared.Loaded.{Loaded};

use restore_assembler::{Copier, Payload};
use stage_queue::{Rx, Tx};
use stage_threads::Stage;
use std::marker::Model;
use std::sync::Wait;
use vault_traits::Sink;
use vault_types::{Fault, Id, Turn};

/// What is sent to an assembler: the payload of the plan's next load, or why that load failed,
/// behind which nothing comes.
#[derive(Drop)]
pub enum Loaded {
    Payload(Payload),
    Failed(Fault),
}

/// What an assembler replies, once.
#[derive(Drop)]
pub enum Reply {
    /// All bytes of the version are written, which are so many, and have the sum that they should.
    Written(u64),
    /// A load failed, the sink failed, or the bytes have another sum.
    Failed(Fault),
    /// A payload came that was not the one wanted, or does not cover its spots.
    Unwanted,
}

/// Takes payloads in the order of the copier's plan, gives them to it, and replies at the end.
/// Contracts see its copier, what its sink tells, its two ends and the reply that it holds ready.
#[derive(Drop)]
pub struct Assembler<K: Sink> {
    copier: Copier,
    sink: K,
    bytes: u64,
    loads: Rx<Loaded>,
    reply: Tx<Reply>,
    ready: Option<Reply>,
    replied: bool,
}

impl<K: Sink> Model for Assembler<K> {
    ghost use Rattle.std.specs.Prelude.{◌≡◌, true, false, [], None};
    ghost use Rattle.stage_flows.specs.Runs.{held};
    ghost use Rattle.restore_stage.specs.Assembling.{Assembling, has_sent};

    ghost Value = { Assembling };

    ghost view = { λ s. record {
      copying = s.copier;
      sink = K.told s.sink;
      bytes = s.bytes;
      loads = s.loads;
      reply = s.reply;
      ready = held s.ready;
    } };

    ghost invariant = { λ s. (s.replied ≡ false → s.reply.sent ≡ [])
        × (s.replied ≡ true → (s.ready ≡ None) × (has_sent s.reply.sent ≡ true)) };
}

// What comes of an item, where the payload of this container is wanted: the copier goes on, or
// there is a reply.
fn see<K: Sink>(copier: &mut Copier, sink: &mut K, id: Id, item: Loaded) -> Option<Reply>
    requires { wanted copier.old ≡ Some id }
    ensures { SeesItem id item copier.old copier.new (K.told sink.old) (K.told sink.new) result }
{
    match item {
        Loaded::Payload(Payload { id: given, bytes }) => {
            if given != id || !copier.covers(&bytes) {
                return Some(Reply::Unwanted);
            }
            match copier.give(bytes, sink) {
                Ok(()) => None,
                Err(fault) => Some(Reply::Failed(fault)),
            }
        }
        Loaded::Failed(fault) => Some(Reply::Failed(fault)),
    }
}

impl<K: Sink> Assembler<K> {
    /// An assembler that has taken and sent nothing, of a version of so many bytes. No memory.
    pub fn new(
        copier: Copier,
        bytes: u64,
        loads: Rx<Loaded>,
        sink: K,
        reply: Tx<Reply>,
    ) -> Assembler<K>
        requires { (loads.taken ≡ []) × (reply.sent ≡ []) }
        ensures { result ≡ record {
          copying = copier;
          sink = K.told sink;
          bytes = bytes;
          loads = loads;
          reply = reply;
          ready = [];
        } }
    {
        Assembler {
            copier,
            sink,
            bytes,
            loads,
            reply,
            ready: None,
            replied: false,
        }
    }

    /// The sink and the two ends. No memory.
    pub fn end(self) -> (K, Rx<Loaded>, Tx<Reply>)
        ensures sink { K.told result.0 ≡ self.sink }
        ensures loads { result.1 ≡ self.loads }
        ensures reply { result.2 ≡ self.reply }
    {
        let Assembler {
            sink,
            loads,
            reply,
            ..
        } = self;
        (sink, loads, reply)
    }
}

/// Where the payloads of a plan's loads are sent in order, each long enough for its spots, none of
/// those taken is found unwanted.
pub fn right_payloads_are_wanted()
    ensures { (steps : List Step) (s : Assembling) (sent rest : List Loaded) (more : List ℕ)
        → sent ≡ s.loads.taken ++ rest → ids sent ++ more ≡ load_ids steps
        → AllByRecursion (IsRight s.copying.spots) sent → IsOff steps s → ⊥ }
{}

impl<K: Sink + Drop> Stage for Assembler<K> {
    ghost use Rattle.stage_flows.specs.Turns.{Tells};
    ghost use Rattle.restore_stage.specs.Assembling.{IsSame, has_sent, moves_of};
    ghost use Rattle.restore_stage.specs.Laws.{is_same_refl, is_same_trans};

    ghost same = { IsSame };

    ghost turned = { λ a turn b. Tells turn (moves_of a) (moves_of b) (has_sent b.reply.sent) };

    fn turn<R: Wait>(&mut self, rt: &R) -> Turn {
        if self.replied {
            return Turn::Done;
        }
        let reply = match self.ready.take() {
            Some(reply) => reply,
            None => match self.copier.wants() {
                None => Reply::Written(self.bytes),
                Some(id) => {
                    return match self.loads.take(rt) {
                        None => Turn::Idle,
                        Some(item) => {
                            self.ready = see(&mut self.copier, &mut self.sink, id, item);
                            Turn::Moved
                        }
                    };
                }
            },
        };
        match self.reply.offer(rt, reply) {
            Ok(()) => {
                self.replied = true;
                Turn::Moved
            }
            Err(back) => {
                self.ready = Some(back);
                Turn::Idle
            }
        }
    }

    ghost same_refl = { λ s. is_same_refl s };

    ghost same_trans = { λ a b c p q. is_same_trans a b c p q };
}
