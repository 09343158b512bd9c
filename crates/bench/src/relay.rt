// A stage that passes numbers on.
ghost use Rattle.std.specs.Prelude.{◌≡◌, [], ◌++◌};

use stage_queue::{Rx, Tx};
use stage_threads::Stage;
use std::marker::Model;
use std::sync::Wait;
use vault_types::Turn;

/// Passes on what it takes, up to the first `None`. Contracts see its two ends and what it holds ready.
#[derive(Drop)]
pub struct RelayStage {
    from: Rx<Option<u64>>,
    to: Tx<Option<u64>>,
    ready: Option<Option<u64>>,
    over: bool,
}

impl Model for RelayStage {
    ghost use Rattle.std.specs.Prelude.{◌≡◌, ◌++◌};
    ghost use Rattle.bench.specs.Relay.{Relaying, held, has_end};

    ghost Value = { Relaying };

    ghost view = { λ s. record { from = s.from; to = s.to; ready = held s.ready } };

    ghost invariant = { λ s. (s.to.sent ++ held s.ready ≡ s.from.taken) × (s.over ≡ has_end s.from.taken) };
}

impl RelayStage {
    pub fn new(from: Rx<Option<u64>>, to: Tx<Option<u64>>) -> RelayStage
        requires unused { (from.taken ≡ []) × (to.sent ≡ []) }
        ensures { (result.from ≡ from) × (result.to ≡ to) × (result.ready ≡ []) }
    {
        RelayStage {
            from,
            to,
            ready: None,
            over: false,
        }
    }

    pub fn end(self) -> (Rx<Option<u64>>, Tx<Option<u64>>)
        ensures ends { (result.0 ≡ self.from) × (result.1 ≡ self.to) }
        ensures sent { result.1.sent ++ self.ready ≡ result.0.taken }
    {
        let RelayStage { from, to, .. } = self;
        (from, to)
    }
}

impl Stage for RelayStage {
    ghost use Rattle.std.specs.Prelude.{refl};
    ghost use Rattle.std.proofs.Common.{◌∙◌};
    ghost use Rattle.bench.specs.Relay.{Tells};

    ghost same = { λ a b. (a.from.line ≡ b.from.line) × (a.to.line ≡ b.to.line) };

    ghost turned = { Tells };

    fn turn<R: Wait>(&mut self, rt: &R) -> Turn {
        if let Some(item) = self.ready.take() {
            return match self.to.offer(rt, item) {
                Ok(()) => Turn::Moved,
                Err(back) => {
                    self.ready = Some(back);
                    Turn::Idle
                }
            };
        }
        if self.over {
            return Turn::Done;
        }
        match self.from.take(rt) {
            None => Turn::Idle,
            Some(item) => {
                self.over = item.is_none();
                self.ready = Some(item);
                Turn::Moved
            }
        }
    }

    ghost same_refl = { λ s. (refl, refl) };

    ghost same_trans = { λ a b c p q. (p.0 ∙ q.0, p.1 ∙ q.1) };
}
