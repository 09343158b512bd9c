//! The stage of a backup that reads.
#![tactic(auto)]

ghost use Rattle.std.specs.Prelude.{◌≡◌, ◌<◌, ◌≤◌, ◌+◌, ◌*◌, ◌^◌, [], ◌∷◌, ◌++◌, length, None, Some, IfOk, IfErr, MatchResult, true, false};
ghost use Rattle.std.specs.List.{concat};
ghost use Rattle.vault_types.specs.declared.Flow.TheVariants.{Part};
ghost use Rattle.vault_traits.specs.Told.{Gives};
ghost use Rattle.stage_flows.specs.Runs.{held, item_of, is_stop};
ghost use Rattle.stage_flows.specs.Turns.{Tells, is_done};
ghost use Rattle.source_reads.specs.Reading.{HasRead, Advances, WentOn, IsOwnEnd};

use source_reads::next_read;
use stage_flows::{Bytes, Last, last_item, refill};
use stage_queue::Tx;
use stage_threads::Stage;
use std::alloc::Global;
use std::marker::Model;
use std::sync::Wait;
use stop_word::Holder;
use vault_traits::Source;
use vault_types::{Fault, Flow, Turn};

/// Reads its source to the end, 65,536 bytes at most at a time, and sends what it read. Before each
/// read it looks at the stop word. Contracts see its source, its limit, its end, what it holds
/// ready, the last item, how many bytes it has read, and its holder.
#[derive(Drop)]
pub struct ReadStage<I: Source> {
    alloc: Global,
    source: I,
    limit: u32,
    read: u64,
    to: Tx<Flow<Bytes>>,
    ready: Option<Flow<Bytes>>,
    over: Option<Last>,
    holder: Holder,
}

impl<I: Source> Model for ReadStage<I> {
    ghost use Rattle.std.specs.Prelude.{◌++◌};
    ghost use Rattle.stage_flows.specs.Runs.{held};
    ghost use Rattle.source_reads.specs.Reading.{Reading, HasRead};

    ghost Value = { Reading I };

    ghost view = { λ s. record {
      source = s.source;
      limit = s.limit;
      to = s.to;
      ready = held s.ready;
      over = s.over;
      read = s.read;
      holder = s.holder;
    } };

    ghost invariant = { λ s. HasRead s.limit s.read (s.to.sent ++ held s.ready) s.over s.holder.saw };
}

impl<I: Source> ReadStage<I> {
    /// A stage that read nothing. No memory.
    pub fn new(
        alloc: Global,
        source: I,
        limit: u32,
        out: Tx<Flow<Bytes>>,
        holder: Holder,
    ) -> ReadStage<I>
        requires { (out.sent ≡ []) × (holder.saw ≡ false) }
        ensures { result ≡ record {
          source = source;
          limit = limit;
          to = out;
          ready = [];
          over = None;
          read = 0;
          holder = holder;
        } }
    {
        ReadStage {
            alloc,
            source,
            limit,
            read: 0,
            to: out,
            ready: None,
            over: None,
            holder,
        }
    }

    /// The source, the end and the holder. No memory.
    pub fn end(self) -> (I, Tx<Flow<Bytes>>, Holder)
        ensures ends { (result.0 ≡ self.source) × (result.1 ≡ self.to) × (result.2 ≡ self.holder) }
        ensures sent { HasRead self.limit self.read (result.1.sent ++ self.ready) self.over result.2.saw }
    {
        let ReadStage {
            source,
            to,
            holder,
            ..
        } = self;
        (source, to, holder)
    }
}

impl<I: Source + Drop> Stage for ReadStage<I> {
    ghost use Rattle.std.specs.Prelude.{refl};
    ghost use Rattle.std.proofs.Common.{◌∙◌};
    ghost use Rattle.stop_word.specs.Holders.{HolderState};
    ghost use Rattle.source_reads.proofs.Going.{Advances_refl, Advances_trans};

    ghost same = { λ a b. (a.limit ≡ b.limit) × (a.to.line ≡ b.to.line)
        × (a.holder.family ≡ b.holder.family) × (a.holder.number ≡ b.holder.number)
        × (a.holder.raised ≡ b.holder.raised)
        × Advances (I.told a.source) (a.to.sent ++ a.ready) (I.told b.source) (b.to.sent ++ b.ready) };

    ghost turned = { λ a turn b. Tells turn (length (a.to.sent ++ a.ready) + length a.to.sent) (length (b.to.sent ++ b.ready) + length b.to.sent) (is_done b.over b.ready) };

    fn turn<R: Wait>(&mut self, rt: &R) -> Turn {
        if let Some(item) = self.ready.take() {
            return match self.to.offer(rt, item) {
                Ok(()) => Turn::Moved,
                Err(back) => {
                    refill(&mut self.ready, Some(back));
                    Turn::Idle
                }
            };
        }
        if self.over.is_some() {
            return Turn::Done;
        }
        if self.read > u64::from(self.limit) * 65_536 {
            let limit = self.limit;
            self.over = Some(Last::Failed(Fault::TooMany { limit }));
            refill(
                &mut self.ready,
                Some(Flow::Failed(Fault::TooMany { limit })),
            );
            return Turn::Moved;
        }
        if self.holder.look() {
            self.over = Some(Last::Stopped);
            refill(&mut self.ready, Some(Flow::Stopped));
            return Turn::Moved;
        }
        match next_read(self.alloc, &mut self.source) {
            Ok(bytes) => {
                self.read += bytes.as_slice().len() as u64;
                refill(&mut self.ready, Some(Flow::Part(bytes)));
            }
            Err(last) => {
                self.over = Some(last);
                refill(&mut self.ready, Some(last_item(last)));
            }
        }
        Turn::Moved
    }

    ghost same_refl = { λ s. (refl, refl, refl, refl, refl, Advances_refl (I.told s.source) (s.to.sent ++ s.ready)) };

    ghost same_trans = { λ a b c p q. (p.0 ∙ q.0, p.1 ∙ q.1, p.2 ∙ q.2, p.3 ∙ q.3, p.4 ∙ q.4, Advances_trans (I.told a.source) (I.told b.source) (I.told c.source) (a.to.sent ++ a.ready) (b.to.sent ++ b.ready) (c.to.sent ++ c.ready) p.5 q.5) };
}
