// The stage with its lines.
ghost use Rattle.std.specs.Prelude.{◌≡◌, ◌≢◌, ◌≤◌, ◌+◌, ◌||◌, ◌&&◌, ℕ, List, [], ◌++◌, None, true, false, MatchOption};
ghost use Rattle.std.specs.Option.{is_some};
ghost use Rattle.vault_types.specs.declared.Fp.{Fp as Print};
ghost use Rattle.vault_types.specs.declared.Turn.TheVariants.{Moved, Done};
ghost use Rattle.vault_types.specs.Names.{NamedChunk};
ghost use Rattle.vault_types.specs.Decide.{Rules};
ghost use Rattle.stage_lanes.specs.Steps.{lines_of, ends_of, all_sent, all_taken};
ghost use Rattle.stage_flows.specs.Turns.{Tells};
ghost use Rattle.stage_rules.specs.Chunking.{IsOwnFault};
ghost use Rattle.segment_gather.specs.Gathering.{index_of, answers_of};
ghost use Rattle.vault_types.specs.declared.How.{How as Hows};
ghost use Rattle.segment_gather.specs.Segmented.{parts_of};
ghost use Rattle.stage_rules.specs.Deciding.{IsDecidedBy, IsDeciding};
ghost use Rattle.decide_stage.specs.Deciding.{HasJudged, GoesOn, ShortAt, chunk_of, last_in};
ghost use Rattle.stage_flows.specs.Runs.{memory};

use crate::judging::{Given, take_chunk, take_end};
use fingerprint_stage::Chunk;
use fp_index::Index;
use rewrite_stage::Decided;
use segment_gather::Gatherer;
use stage_flows::Last;
use stage_lanes::{Dealer, Picker};
use stage_queue::{Rx, Tx};
use stage_threads::Stage;
use std::alloc::Global;
use std::marker::Model;
use std::sync::Wait;
use stop_word::Holder;
use vault_types::{Fault, Flow, Id, JobConfig, Turn};

// Raises the word for a fault of the stage's own, if there is one.
fn raise_for(holder: &mut Holder, own: Option<Fault>)
    ensures { holder.new ≡ record holder.old { raised = holder.old.raised || is_some own } }
{
    match own {
        Some(fault) => holder.raise(&fault),
        None => {
            let _ = &holder;
        }
    }
}

// Whether no last item came.
fn is_open(last: &Option<Last>) -> bool
    ensures { MatchOption last.now (result ≡ true) (λ l. result ≡ false) }
{
    match last {
        None => true,
        Some(_) => false,
    }
}

// What an item comes to, where the stage goes on.
fn judge(
    alloc: Global,
    gatherer: &mut Gatherer,
    count: &mut u32,
    limit: u32,
    item: Result<Chunk, Last>,
) -> Given
    requires { count.old ≤ limit }
    ensures index { index_of gatherer.new ≡ index_of gatherer.old }
    ensures judged { (r : Rules) (chunks : List NamedChunk) (gone : List (NamedChunk × Hows))
        → GoesOn true r limit chunks None gone None gatherer.old count.old
        → IsDecidedBy (answers_of gatherer.old) r limit (chunks ++ chunk_of item) (last_in item) (gone ++ parts_of result.parts.items) result.last
        × (result.last ≡ None
        → GoesOn true r limit (chunks ++ chunk_of item) (last_in item) (gone ++ parts_of result.parts.items) None gatherer.new count.new)
        × IsDeciding (answers_of gatherer.old) r limit (chunks ++ chunk_of item) (last_in item) (gone ++ parts_of result.parts.items) result.last
        × (result.last ≡ memory
        → ShortAt (answers_of gatherer.old) r limit (chunks ++ chunk_of item) (gone ++ parts_of result.parts.items)) }
    ensures own { IsOwnFault result.own (last_in item) result.last }
{
    match item {
        Ok(chunk) => take_chunk(alloc, gatherer, count, limit, chunk),
        Err(Last::End) => take_end(alloc, gatherer),
        Err(last) => Given {
            parts: Vec::new(alloc),
            last: Some(last),
            own: None,
        },
    }
}

// What a stage that took an item gives next.
fn advance(
    alloc: Global,
    goes: &mut bool,
    gatherer: &mut Gatherer,
    count: &mut u32,
    limit: u32,
    dealer: &mut Dealer<Decided>,
    holder: &mut Holder,
    item: Result<Chunk, Last>,
)
    requires { (index : List (Print × List ℕ)) × (r : Rules) × (chunks : List NamedChunk)
        × HasJudged index r limit chunks None goes.old gatherer.old count.old dealer.old holder.old.raised × (dealer.old.later.items ≡ []) }
    ensures judged { (index : List (Print × List ℕ)) (r : Rules) (chunks : List NamedChunk)
        → HasJudged index r limit chunks None goes.old gatherer.old count.old dealer.old holder.old.raised
        → HasJudged index r limit (chunks ++ chunk_of item) (last_in item) goes.new gatherer.new count.new dealer.new holder.new.raised }
    ensures lanes { dealer.new.lanes.items ≡ dealer.old.lanes.items }
    ensures index { index_of gatherer.new ≡ index_of gatherer.old }
    ensures holder { (holder.new.family ≡ holder.old.family) × (holder.new.number ≡ holder.old.number)
        × (holder.new.saw ≡ holder.old.saw) }
{
    if !*goes {
        return;
    }
    let given = judge(alloc, gatherer, count, limit, item);
    let Given { parts, last, own } = given;
    *goes = is_open(&last);
    raise_for(holder, own);
    dealer.give(parts, last);
}

// Up to this length of a segment, in bytes, the next segment is gathered while the decisions on one
// before it are sent.
const AHEAD: u32 = 16_777_216;

// Whether a stage takes more where its dealer came to this: where nothing waits, and also where a
// line is full, but no decisions wait behind others.
fn takes_more(dealt: Turn, segment: u32, dealer: &Dealer<Decided>) -> bool
    requires { dealt ≡ Done → (dealer.now.later.items ≡ []) }
    ensures room { result ≡ true → (dealer.now.later.items ≡ []) }
    ensures idle { result ≡ true → dealt ≢ Moved }
    ensures done { result ≡ false → dealt ≢ Done }
{
    match dealt {
        Turn::Moved => false,
        Turn::Idle => segment <= AHEAD && dealer.has_room(),
        Turn::Done => true,
    }
}

/// Takes named chunks from its lanes in turn, decides for each segment that is complete, and sends the
/// decisions; while those on one segment wait for a line, it gathers the next one, unless segments are
/// long. Contracts see its settings, the index that it was lent, its ends, the last item that it
/// took, whether all that it has to send so far was sent, and its holder.
#[derive(Drop)]
pub struct DecideStage {
    alloc: Global,
    limit: u32,
    config: JobConfig,
    // as it was handed in, for the contracts alone: a stage with a `Snapshot` in it isn't shown to
    // be `Send`
    sparse: Vec<Id>,
    picker: Picker<Chunk>,
    goes: bool,
    gatherer: Gatherer,
    count: u32,
    dealer: Dealer<Decided>,
    holder: Holder,
}

impl Model for DecideStage {
    ghost use Rattle.segment_gather.specs.Gathering.{index_of};
    ghost use Rattle.decide_stage.specs.Views.{Deciding};
    ghost use Rattle.stage_lanes.specs.Dealing.{is_through};
    ghost use Rattle.decide_stage.specs.Deciding.{HasTaken};

    ghost Value = { Deciding };

    ghost view = { λ s. record {
      limit = s.limit;
      rules = record { sparse = s.sparse.items; config = s.config };
      index = index_of s.gatherer;
      lanes = s.picker.lanes.items;
      outs = s.dealer.lanes.items;
      over = s.picker.last;
      through = is_through s.dealer;
      holder = s.holder;
    } };

    ghost invariant = { λ s. HasTaken (record {
      sparse = s.sparse.items;
      config = s.config;
    }) s.limit s.picker s.goes s.gatherer s.count s.dealer s.holder.raised };
}

impl DecideStage {
    ghost use Rattle.std.specs.Prelude.{◌<◌, length, All};
    ghost use Rattle.fp_index.specs.Index.{found_in};
    ghost use Rattle.decide_stage.specs.Deciding.{IsBack};

    /// A stage that took nothing, over this index and the list of sparse containers of the version
    /// before, with a copy of that list. No memory.
    pub fn new(
        alloc: Global,
        index: Index,
        sparse: Vec<Id>,
        copy: Vec<Id>,
        config: JobConfig,
        limit: u32,
        lanes: Vec<Rx<Flow<Chunk>>>,
        outs: Vec<Tx<Flow<Decided>>>,
        holder: Holder,
    ) -> DecideStage
        requires copy { copy.items ≡ sparse.items }
        requires some { (0 < length lanes.items) × (0 < length outs.items) }
        requires taken { All (λ r. r.taken ≡ []) lanes.items }
        requires sent { All (λ t. t.sent ≡ []) outs.items }
        requires raised { holder.raised ≡ false }
        ensures { result ≡ record {
          limit = limit;
          rules = record { sparse = sparse.items; config = config };
          index = index;
          lanes = lanes.items;
          outs = outs.items;
          over = None;
          through = true;
          holder = holder;
        } }
    {
        let gatherer = Gatherer::new(alloc, index, sparse, config);
        let picker = Picker::new(lanes);
        let dealer = Dealer::new(alloc, outs);
        DecideStage {
            alloc,
            limit,
            config,
            sparse: copy,
            picker,
            goes: true,
            gatherer,
            count: 0,
            dealer,
            holder,
        }
    }

    /// The index as it was lent, the ends and the holder. No memory.
    pub fn end(self) -> (Index, Vec<Rx<Flow<Chunk>>>, Vec<Tx<Flow<Decided>>>, Holder)
        ensures ends { (result.0 ≡ self.index) × (result.1.items ≡ self.lanes)
            × (result.2.items ≡ self.outs) × (result.3 ≡ self.holder) }
        ensures back { IsBack (found_in self.index) self.rules self.limit result.1.items self.over result.2.items result.3.raised }
    {
        let DecideStage {
            picker,
            gatherer,
            dealer,
            holder,
            ..
        } = self;
        (gatherer.end(), picker.end(), dealer.end(), holder)
    }
}

impl Stage for DecideStage {
    ghost use Rattle.std.specs.Prelude.{refl};
    ghost use Rattle.std.proofs.Common.{◌∙◌};

    ghost same = { λ a b. (a.limit ≡ b.limit) × (a.rules ≡ b.rules) × (a.index ≡ b.index)
        × (ends_of a.lanes ≡ ends_of b.lanes) × (lines_of a.outs ≡ lines_of b.outs)
        × (a.holder.family ≡ b.holder.family) × (a.holder.number ≡ b.holder.number)
        × (a.holder.saw ≡ b.holder.saw) };

    ghost turned = { λ a turn b. Tells turn (all_taken a.lanes + all_sent a.outs) (all_taken b.lanes + all_sent b.outs) (is_some b.over && b.through) };

    fn turn<R: Wait>(&mut self, rt: &R) -> Turn {
        let dealt = self.dealer.turn(rt);
        if !takes_more(dealt, self.config.segment, &self.dealer) || self.picker.is_over() {
            return dealt;
        }
        match self.picker.take(rt) {
            None => Turn::Idle,
            Some(item) => {
                advance(
                    self.alloc,
                    &mut self.goes,
                    &mut self.gatherer,
                    &mut self.count,
                    self.limit,
                    &mut self.dealer,
                    &mut self.holder,
                    item,
                );
                Turn::Moved
            }
        }
    }

    ghost same_refl = { λ s. (refl, refl, refl, refl, refl, refl, refl, refl) };

    ghost same_trans = { λ a b c p q. (p.0 ∙ q.0, p.1 ∙ q.1, p.2 ∙ q.2, p.3 ∙ q.3, p.4 ∙ q.4, p.5 ∙ q.5, p.6 ∙ q.6, p.7 ∙ q.7) };
}
