//! A stage that seals containers.
#![tactic(auto)]

ghost use Rattle.std.specs.Prelude.{◌≡◌, [], ◌∷◌, ◌++◌, ◌+◌, length, None, List, Option};
ghost use Rattle.vault_types.specs.Tables.{Container};
ghost use Rattle.stage_flows.specs.Runs.{held, run};
ghost use Rattle.stage_flows.specs.Turns.{Tells, is_done};

use container_fill::Unsealed;
use container_store::Sealed;
use stage_flows::{Last, last_item, parted, refill};
use stage_queue::{Rx, Tx};
use stage_threads::Stage;
use std::marker::Model;
use std::sync::Wait;
use vault_types::{Flow, Turn};

/// Sums the payloads of the containers that it takes, and sends the containers on, sealed, in order.
/// It takes no memory and cannot fail. Contracts see its ends, what it holds ready, and the last item
/// that it took.
#[derive(Drop)]
pub struct SealStage {
    from: Rx<Flow<Unsealed>>,
    to: Tx<Flow<Sealed>>,
    ready: Option<Flow<Sealed>>,
    over: Option<Last>,
}

impl Model for SealStage {
    ghost use Rattle.std.specs.Prelude.{◌++◌};
    ghost use Rattle.stage_flows.specs.Runs.{held};
    ghost use Rattle.seal_stage.specs.Sealing.{Sealing, AreSealed};

    ghost Value = { Sealing };

    ghost view = { λ s. record { from = s.from; to = s.to; ready = held s.ready; over = s.over } };

    ghost invariant = { λ s. AreSealed s.from.taken (s.to.sent ++ held s.ready) s.over };
}

impl SealStage {
    /// A stage that took nothing. No memory.
    pub fn new(from: Rx<Flow<Unsealed>>, out: Tx<Flow<Sealed>>) -> SealStage
        requires { (from.taken ≡ []) × (out.sent ≡ []) }
        ensures { result ≡ record { from = from; to = out; ready = []; over = None } }
    {
        SealStage {
            from,
            to: out,
            ready: None,
            over: None,
        }
    }

    /// The ends. No memory.
    pub fn end(self) -> (Rx<Flow<Unsealed>>, Tx<Flow<Sealed>>)
        ensures ends { (result.0 ≡ self.from) × (result.1 ≡ self.to) }
        ensures sent { result.1.sent ++ self.ready ≡ result.0.taken }
        ensures over { (containers : List Container) × (result.0.taken ≡ run containers self.over) }
    {
        let SealStage { from, to, .. } = self;
        (from, to)
    }
}

impl Stage for SealStage {
    ghost use Rattle.std.specs.Prelude.{refl};
    ghost use Rattle.std.proofs.Common.{◌∙◌};

    ghost same = { λ a b. (a.from.line ≡ b.from.line) × (a.to.line ≡ b.to.line) };

    ghost turned = { λ a turn b. Tells turn (length a.from.taken + length a.to.sent) (length b.from.taken + length b.to.sent) (is_done b.over b.ready) };

    fn turn<R: Wait>(&mut self, rt: &R) -> Turn {
        if let Some(item) = self.ready.take() {
            return match self.to.offer(rt, item) {
                Ok(()) => Turn::Moved,
                Err(back) => {
                    refill(&mut self.ready, Some(back));
                    Turn::Idle
                }
            };
        }
        if self.over.is_some() {
            return Turn::Done;
        }
        match self.from.take(rt) {
            None => Turn::Idle,
            Some(item) => {
                match parted(item) {
                    Ok(unsealed) => refill(&mut self.ready, Some(Flow::Part(unsealed.seal()))),
                    Err(last) => {
                        self.over = Some(last);
                        refill(&mut self.ready, Some(last_item(last)));
                    }
                }
                Turn::Moved
            }
        }
    }

    ghost same_refl = { λ s. (refl, refl) };

    ghost same_trans = { λ a b c p q. (p.0 ∙ q.0, p.1 ∙ q.1) };
}
