// The stage with its lines.
ghost use Rattle.std.specs.Prelude.{◌≡◌, ◌+◌, ℕ, List, [], ◌∷◌, ◌++◌, length, Some, None, All, ◌<◌, ◌||◌, ◌&&◌, true, false};
ghost use Rattle.std.specs.Option.{is_some};
ghost use Rattle.vault_types.specs.declared.Cutting.{Cutting as Way};
ghost use Rattle.stage_lanes.specs.Steps.{lines_of, all_sent};
ghost use Rattle.stage_flows.specs.Turns.{Tells};
ghost use Rattle.vault_types.specs.JobRanges.{IsCuttable};
ghost use Rattle.stage_rules.specs.Chunking.{read_of, last_of};
ghost use Rattle.chunk_stage.specs.Stage.{HasChunked};

use crate::cutting::{Given, step};
use stage_flows::{Bytes, Last, parted, refill};
use stage_lanes::Dealer;
use stage_queue::{Rx, Tx};
use stage_threads::Stage;
use std::alloc::Global;
use std::marker::Model;
use std::sync::Wait;
use stop_word::Holder;
use stream_cutter::Cutter;
use vault_types::{Cutting, Fault, Flow, Turn};

// The last item that an item is, if it is one.
fn last_in(item: &Result<Bytes, Last>) -> Option<Last>
    ensures { result ≡ last_of item.now }
{
    match item {
        Ok(_) => None,
        Err(last) => Some(*last),
    }
}

// Raises the word for a fault of the stage's own, if there is one.
fn raise_for(holder: &mut Holder, own: Option<Fault>)
    ensures { holder.new ≡ record holder.old { raised = holder.old.raised || is_some own } }
{
    match own {
        Some(fault) => holder.raise(&fault),
        None => {
            let _ = &holder;
        }
    }
}

// What a stage that took an item deals next.
fn advance(
    alloc: Global,
    cutter: &mut Option<Cutter>,
    count: &mut u32,
    limit: u32,
    dealer: &mut Dealer<Bytes>,
    holder: &mut Holder,
    item: Result<Bytes, Last>,
)
    requires { (c : Way) × (reads : List (List ℕ))
        × HasChunked c limit reads None cutter.old count.old dealer.old holder.old.raised
        × (dealer.old.later.items ≡ []) }
    ensures chunked { (c : Way) (reads : List (List ℕ))
        → HasChunked c limit reads None cutter.old count.old dealer.old holder.old.raised
        → HasChunked c limit (reads ++ read_of item) (last_of item) cutter.new count.new dealer.new holder.new.raised }
    ensures lanes { dealer.new.lanes.items ≡ dealer.old.lanes.items }
    ensures holder { (holder.new.family ≡ holder.old.family) × (holder.new.number ≡ holder.old.number)
        × (holder.new.saw ≡ holder.old.saw) }
{
    let Some(open) = cutter.take() else {
        return;
    };
    let (next, given) = step(alloc, open, count, limit, item);
    let Given { parts, last, own } = given;
    refill(cutter, next);
    raise_for(holder, own);
    dealer.give(parts, last);
}

/// Cuts the bytes that it takes into chunks, at most so many, and deals them to its lanes in turn.
/// Contracts see its settings, its ends, the last item that it took, whether all that it has to send so
/// far was sent, and its holder.
#[derive(Drop)]
pub struct ChunkStage {
    alloc: Global,
    cutting: Cutting,
    limit: u32,
    from: Rx<Flow<Bytes>>,
    dealer: Dealer<Bytes>,
    cutter: Option<Cutter>,
    count: u32,
    over: Option<Last>,
    holder: Holder,
}

impl Model for ChunkStage {
    ghost use Rattle.chunk_stage.specs.Views.{Chunking};
    ghost use Rattle.chunk_stage.specs.Stage.{HasTaken};
    ghost use Rattle.stage_lanes.specs.Dealing.{is_through};

    ghost Value = { Chunking };

    ghost view = { λ s. record {
      cutting = s.cutting;
      limit = s.limit;
      from = s.from;
      lanes = s.dealer.lanes.items;
      over = s.over;
      through = is_through s.dealer;
      holder = s.holder;
    } };

    ghost invariant = { λ s. HasTaken s.cutting s.limit s.from.taken s.over s.cutter s.count s.dealer s.holder.raised };
}

impl ChunkStage {
    ghost use Rattle.chunk_stage.specs.Stage.{IsBack};

    /// A stage that took nothing. No memory.
    pub fn new(
        alloc: Global,
        cutting: Cutting,
        limit: u32,
        from: Rx<Flow<Bytes>>,
        lanes: Vec<Tx<Flow<Bytes>>>,
        holder: Holder,
    ) -> ChunkStage
        requires cuttable { IsCuttable cutting }
        requires taken { from.taken ≡ [] }
        requires some { 0 < length lanes.items }
        requires sent { All (λ t. t.sent ≡ []) lanes.items }
        requires raised { holder.raised ≡ false }
        ensures { result ≡ record {
          cutting = cutting;
          limit = limit;
          from = from;
          lanes = lanes.items;
          over = None;
          through = true;
          holder = holder;
        } }
    {
        let dealer = Dealer::new(alloc, lanes);
        ChunkStage {
            alloc,
            cutting,
            limit,
            from,
            dealer,
            cutter: Some(Cutter::new(cutting)),
            count: 0,
            over: None,
            holder,
        }
    }

    /// The ends and the holder. No memory.
    pub fn end(self) -> (Rx<Flow<Bytes>>, Vec<Tx<Flow<Bytes>>>, Holder)
        ensures ends { (result.0 ≡ self.from) × (result.1.items ≡ self.lanes) × (result.2 ≡ self.holder) }
        ensures back { IsBack self.cutting self.limit result.0.taken self.over result.1.items result.2.raised }
    {
        let ChunkStage {
            from,
            dealer,
            holder,
            ..
        } = self;
        (from, dealer.end(), holder)
    }
}

impl Stage for ChunkStage {
    ghost use Rattle.std.specs.Prelude.{refl, map};
    ghost use Rattle.std.proofs.Common.{◌∙◌};

    ghost same = { λ a b. (a.cutting ≡ b.cutting) × (a.limit ≡ b.limit) × (a.from.line ≡ b.from.line)
        × (lines_of a.lanes ≡ lines_of b.lanes) × (a.holder.family ≡ b.holder.family)
        × (a.holder.number ≡ b.holder.number) × (a.holder.saw ≡ b.holder.saw) };

    ghost turned = { λ a turn b. Tells turn (length a.from.taken + all_sent a.lanes) (length b.from.taken + all_sent b.lanes) (is_some b.over && b.through) };

    fn turn<R: Wait>(&mut self, rt: &R) -> Turn {
        match self.dealer.turn(rt) {
            Turn::Moved => return Turn::Moved,
            Turn::Idle => return Turn::Idle,
            Turn::Done => {}
        }
        if self.over.is_some() {
            return Turn::Done;
        }
        match self.from.take(rt) {
            None => Turn::Idle,
            Some(item) => {
                let item = parted(item);
                self.over = last_in(&item);
                advance(
                    self.alloc,
                    &mut self.cutter,
                    &mut self.count,
                    self.limit,
                    &mut self.dealer,
                    &mut self.holder,
                    item,
                );
                Turn::Moved
            }
        }
    }

    ghost same_refl = { λ s. (refl, refl, refl, refl, refl, refl, refl) };

    ghost same_trans = { λ a b c p q. (p.0 ∙ q.0, p.1 ∙ q.1, p.2 ∙ q.2, p.3 ∙ q.3, p.4 ∙ q.4, p.5 ∙ q.5, p.6 ∙ q.6) };
}
