//! A stage that sums what passes.
#![tactic(auto)]

ghost use Rattle.std.specs.Prelude.{◌≡◌, ℕ, List, [], ◌∷◌, ◌++◌, ◌+◌, length, None, Option};
ghost use Rattle.std.specs.List.{concat};
ghost use Rattle.vault_types.specs.Names.{fp};
ghost use Rattle.stage_flows.specs.declared.Last.{Last as Lasts};
ghost use Rattle.stage_flows.specs.Runs.{held, run};
ghost use Rattle.stage_flows.specs.Turns.{Tells, is_done};

use fingerprint_stage::RunningSum;
use stage_flows::{Bytes, Last, last_item, parted, refill};
use stage_queue::{Rx, Tx};
use stage_threads::Stage;
use std::marker::Model;
use std::sync::Wait;
use vault_types::{Flow, Fp, Turn};

/// Sends the bytes that it takes on as they are, and sums them. It takes no memory and cannot fail.
/// Contracts see its ends, what it holds ready, and the last item that it took.
#[derive(Drop)]
pub struct SumStage {
    from: Rx<Flow<Bytes>>,
    to: Tx<Flow<Bytes>>,
    ready: Option<Flow<Bytes>>,
    over: Option<Last>,
    sum: RunningSum,
}

impl Model for SumStage {
    ghost use Rattle.std.specs.Prelude.{◌++◌};
    ghost use Rattle.stage_flows.specs.Runs.{held};
    ghost use Rattle.sum_stage.specs.Summing.{Summing, IsSummed};

    ghost Value = { Summing };

    ghost view = { λ s. record { from = s.from; to = s.to; ready = held s.ready; over = s.over } };

    ghost invariant = { λ s. IsSummed s.from.taken (s.to.sent ++ held s.ready) s.over s.sum };
}

impl SumStage {
    /// A stage that took nothing. No memory.
    pub fn new(from: Rx<Flow<Bytes>>, out: Tx<Flow<Bytes>>) -> SumStage
        requires { (from.taken ≡ []) × (out.sent ≡ []) }
        ensures { result ≡ record { from = from; to = out; ready = []; over = None } }
    {
        SumStage {
            from,
            to: out,
            ready: None,
            over: None,
            sum: RunningSum::new(),
        }
    }

    /// The ends, and the SHA-1 of all bytes that were taken. No memory.
    pub fn end(self) -> (Rx<Flow<Bytes>>, Tx<Flow<Bytes>>, Fp)
        ensures ends { (result.0 ≡ self.from) × (result.1 ≡ self.to) }
        ensures sent { result.1.sent ++ self.ready ≡ result.0.taken }
        ensures sum { (parts : List (List ℕ)) × (result.0.taken ≡ run parts self.over)
            × (result.2 ≡ fp (concat parts)) }
    {
        let SumStage { from, to, sum, .. } = self;
        (from, to, sum.finish())
    }
}

impl Stage for SumStage {
    ghost use Rattle.std.specs.Prelude.{refl};
    ghost use Rattle.std.proofs.Common.{◌∙◌};

    ghost same = { λ a b. (a.from.line ≡ b.from.line) × (a.to.line ≡ b.to.line) };

    ghost turned = { λ a turn b. Tells turn (length a.from.taken + length a.to.sent) (length b.from.taken + length b.to.sent) (is_done b.over b.ready) };

    fn turn<R: Wait>(&mut self, rt: &R) -> Turn {
        if let Some(item) = self.ready.take() {
            return match self.to.offer(rt, item) {
                Ok(()) => Turn::Moved,
                Err(back) => {
                    refill(&mut self.ready, Some(back));
                    Turn::Idle
                }
            };
        }
        if self.over.is_some() {
            return Turn::Done;
        }
        match self.from.take(rt) {
            None => Turn::Idle,
            Some(item) => {
                match parted(item) {
                    Ok(bytes) => {
                        self.sum.add(bytes.as_slice());
                        refill(&mut self.ready, Some(Flow::Part(bytes)));
                    }
                    Err(last) => {
                        self.over = Some(last);
                        refill(&mut self.ready, Some(last_item(last)));
                    }
                }
                Turn::Moved
            }
        }
    }

    ghost same_refl = { λ s. (refl, refl) };

    ghost same_trans = { λ a b c p q. (p.0 ∙ q.0, p.1 ∙ q.1) };
}
