//! The stage of a backup that names chunks.
#![tactic(auto)]

ghost use Rattle.std.specs.Prelude.{◌≡◌, [], ◌∷◌, ◌++◌, ◌+◌, filter, length, None};
ghost use Rattle.vault_types.specs.Stages.{is_chunk, as_parts, named_items};
ghost use Rattle.stage_flows.specs.Runs.{held};
ghost use Rattle.stage_flows.specs.Turns.{Tells, is_done};
ghost use Rattle.hash_stage.specs.Hashing.{IsHashed, with_names};

use fingerprint_stage::{Chunk, name};
use stage_flows::{Bytes, Last, last_item, parted, refill};
use stage_queue::{Rx, Tx};
use stage_threads::Stage;
use std::marker::Model;
use std::sync::Wait;
use stop_word::Holder;
use vault_types::{Flow, Turn};

// The chunk of some bytes, where they can be one.
fn named(bytes: Bytes) -> Option<Flow<Chunk>>
    ensures { held result ≡ as_parts (filter is_chunk (bytes ∷ [])) }
{
    let bytes = bytes.into_vec();
    if bytes.is_empty() || bytes.len() > 65_536 {
        return None;
    }
    Some(Flow::Part(name(bytes)))
}

/// Names the chunks that it takes, and sends them on. It drops bytes that can be no chunk.
/// Contracts see its ends, what it holds ready, the last item that it took, and its holder.
#[derive(Drop)]
pub struct HashStage {
    from: Rx<Flow<Bytes>>,
    to: Tx<Flow<Chunk>>,
    ready: Option<Flow<Chunk>>,
    over: Option<Last>,
    holder: Holder,
}

impl Model for HashStage {
    ghost use Rattle.std.specs.Prelude.{◌++◌};
    ghost use Rattle.stage_flows.specs.Runs.{held};
    ghost use Rattle.hash_stage.specs.Hashing.{Hashing, IsHashed};

    ghost Value = { Hashing };

    ghost view = { λ s. record {
      from = s.from;
      to = s.to;
      ready = held s.ready;
      over = s.over;
      holder = s.holder;
    } };

    ghost invariant = { λ s. IsHashed s.from.taken (s.to.sent ++ held s.ready) s.over };
}

impl HashStage {
    /// A stage that took nothing. No memory.
    pub fn new(from: Rx<Flow<Bytes>>, out: Tx<Flow<Chunk>>, holder: Holder) -> HashStage
        requires { (from.taken ≡ []) × (out.sent ≡ []) }
        ensures { result ≡ record { from = from; to = out; ready = []; over = None; holder = holder } }
    {
        HashStage {
            from,
            to: out,
            ready: None,
            over: None,
            holder,
        }
    }

    /// The ends and the holder. No memory.
    pub fn end(self) -> (Rx<Flow<Bytes>>, Tx<Flow<Chunk>>, Holder)
        ensures ends { (result.0 ≡ self.from) × (result.1 ≡ self.to) × (result.2 ≡ self.holder) }
        ensures hashed { IsHashed result.0.taken (result.1.sent ++ self.ready) self.over }
        ensures sent { with_names (result.1.sent ++ self.ready) ≡ named_items result.0.taken }
    {
        let HashStage {
            from,
            to,
            holder,
            ..
        } = self;
        (from, to, holder)
    }
}

impl Stage for HashStage {
    ghost use Rattle.std.specs.Prelude.{refl};
    ghost use Rattle.std.proofs.Common.{◌∙◌};

    ghost same = { λ a b. (a.from.line ≡ b.from.line) × (a.to.line ≡ b.to.line) × (a.holder ≡ b.holder) };

    ghost turned = { λ a turn b. Tells turn (length a.from.taken + length a.to.sent) (length b.from.taken + length b.to.sent) (is_done b.over b.ready) };

    fn turn<R: Wait>(&mut self, rt: &R) -> Turn {
        if let Some(item) = self.ready.take() {
            return match self.to.offer(rt, item) {
                Ok(()) => Turn::Moved,
                Err(back) => {
                    refill(&mut self.ready, Some(back));
                    Turn::Idle
                }
            };
        }
        if self.over.is_some() {
            return Turn::Done;
        }
        match self.from.take(rt) {
            None => Turn::Idle,
            Some(item) => {
                match parted(item) {
                    Ok(bytes) => refill(&mut self.ready, named(bytes)),
                    Err(last) => {
                        self.over = Some(last);
                        refill(&mut self.ready, Some(last_item(last)));
                    }
                }
                Turn::Moved
            }
        }
    }

    ghost same_refl = { λ s. (refl, refl, refl) };

    ghost same_trans = { λ a b c p q. (p.0 ∙ q.0, p.1 ∙ q.1, p.2 ∙ q.2) };
}
