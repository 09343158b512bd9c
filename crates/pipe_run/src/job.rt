// A job that runs.
ghost use Rattle.std.specs.Prelude.{◌≡◌, ◌∷◌, ◌++◌, [], List, Some, true, IfSome, IfNone};
ghost use Rattle.fp_index.specs.Index.{found_in};
ghost use Rattle.rewrite_stage.specs.declared.Decided.{Decided as Decision};
ghost use Rattle.stage_flows.specs.declared.Last.{Last as Lasts};
ghost use Rattle.stage_flows.specs.Runs.{run};
ghost use Rattle.pipe_run.specs.Jobs.{IsJobBack};

use crate::JobRoom;
use crate::ending::{Back, end_job, next_item, rest};
use chunk_stage::ChunkStage;
use decide_stage::DecideStage;
use fp_index::Index;
use pipe_lanes::{Lane, start_all, turn_all};
use pipe_threads::{Single, StackSizes, start_single, turn_single};
use read_stage::ReadStage;
use rewrite_stage::Decided;
use stage_flows::Bytes;
use stage_queue::{Middle, Rx};
use stage_threads::together;
use std::marker::Model;
use std::sync::Wait;
use std::thread::{Scope, Threads};
use std::time::Clock;
use stop_word::Holder;
use sum_stage::SumStage;
use vault_traits::Source;
use vault_types::{Fault, Flow, Fp, JobConfig, Turn};

/// The stages of a job in their threads, and kept where the threads were refused. Contracts see its
/// source and its index as they were handed in, its settings, what was taken of it, and whether it
/// was stopped.
#[derive(Drop)]
pub struct Job<I: Source + Drop> {
    pub(crate) reads: Middle<Flow<Bytes>>,
    pub(crate) sums: Middle<Flow<Bytes>>,
    pub(crate) ends: Middle<Flow<Decided>>,
    pub(crate) single: Single<I>,
    pub(crate) lanes: Vec<Lane>,
    pub(crate) far: Rx<Flow<Decided>>,
    pub(crate) own: Holder,
    // room for all holders on their way back
    pub(crate) back: Vec<Holder>,
}

impl<I: Source + Drop> Model for Job<I> {
    ghost use Rattle.std.specs.Prelude.{vec_capacity, vec_len};
    ghost use Rattle.pipe_run.specs.Jobs.{JobView};
    ghost use Rattle.pipe_run.specs.Running.{IsRunning};

    ghost Value = { JobView I };

    ghost view = { λ j. record {
      source = j.single.read.first.source;
      cutting = j.single.chunk.first.cutting;
      rules = j.single.decide.first.rules;
      limit = j.single.decide.first.limit;
      index = j.single.decide.first.index;
      taken = j.far.taken;
      stopped = j.own.raised;
    } };

    ghost invariant = { λ j. IsRunning j.reads j.sums j.ends j.single.read.first j.single.sum.first j.single.chunk.first j.single.decide.first j.lanes.items j.far.line j.own (vec_len j.back) (vec_capacity j.back) j.back.items };
}

impl<I: Source + Drop> Job<I> {
    ghost use Rattle.std.specs.Prelude.{false};
    ghost use Rattle.vault_types.specs.JobRanges.{IsCuttable};

    /// Starts the stages of a job, or keeps those whose threads are refused. No memory.
    pub fn start<'s, E: 's, R: Wait + Clock + Copy + Drop + Send + 's>(
        rt: R,
        room: JobRoom<I>,
        scope: &'s Scope<'s, E>,
        source: I,
        index: Index,
        config: JobConfig,
        limit: u32,
    ) -> Job<I>
    where
        I: Send + 's,
        requires { IsCuttable config.cutting }
        ensures { result ≡ record {
          source = source;
          cutting = config.cutting;
          rules = record { sparse = room; config = config };
          limit = limit;
          index = index;
          taken = [];
          stopped = false;
        } }
    {
        Job::start_on(
            rt,
            room,
            scope,
            source,
            index,
            config,
            limit,
            StackSizes::usual(),
        )
    }

    /// The same, in threads with stacks of such sizes: the host refuses one that is too large.
    pub fn start_on<'s, E: 's, R: Wait + Clock + Copy + Drop + Send + 's>(
        rt: R,
        room: JobRoom<I>,
        scope: &'s Scope<'s, E>,
        source: I,
        index: Index,
        config: JobConfig,
        limit: u32,
        stacks: StackSizes,
    ) -> Job<I>
    where
        I: Send + 's,
        requires { IsCuttable config.cutting }
        ensures { result ≡ record {
          source = source;
          cutting = config.cutting;
          rules = record { sparse = room; config = config };
          limit = limit;
          index = index;
          taken = [];
          stopped = false;
        } }
    {
        let JobRoom {
            alloc,
            reads,
            read_to,
            sum_from,
            sums,
            sum_to,
            chunk_from,
            ends,
            outs,
            far,
            near,
            rooms,
            lane_ends,
            mut lanes,
            read_holder,
            chunk_holder,
            decide_holder,
            own,
            back,
            sparse,
            copy,
            single,
        } = room;
        let read = ReadStage::new(alloc, source, limit, read_to, read_holder);
        let sum = SumStage::new(sum_from, sum_to);
        let chunk = ChunkStage::new(alloc, config.cutting, limit, chunk_from, near, chunk_holder);
        let decide = DecideStage::new(
            alloc,
            index,
            sparse,
            copy,
            config,
            limit,
            lane_ends,
            outs,
            decide_holder,
        );
        let single = start_single(rt, single, scope, stacks, read, sum, chunk, decide);
        start_all(rt, scope, rooms, &mut lanes, stacks.lanes);
        Job {
            reads,
            sums,
            ends,
            single,
            lanes,
            far,
            own,
            back,
        }
    }

    /// One turn of each kept stage.
    pub fn turn_rest<R: Wait>(&mut self, rt: &R) -> Turn
        ensures { self.new ≡ self.old }
    {
        let lanes = turn_all(rt, &mut self.lanes);
        let single = turn_single(rt, &mut self.single);
        together(lanes, single)
    }

    /// The next item that comes out, if there is one. No memory.
    pub fn take<R: Wait>(&mut self, rt: &R) -> Option<Flow<Decided>>
        ensures taken { IfSome result (λ x. self.new ≡ record self.old { taken = self.old.taken ++ x ∷ [] }) }
        ensures none { IfNone result (self.new ≡ self.old) }
    {
        self.far.take(rt)
    }

    /// The next item that comes out. It waits for it, and gives the kept stages turns meanwhile. No
    /// memory.
    pub fn next<R: Wait + Clock>(&mut self, rt: &R) -> Flow<Decided>
        ensures { self.new ≡ record self.old { taken = self.old.taken ++ result ∷ [] } }
    {
        next_item(rt, self)
    }

    /// Raises the stop word. No memory.
    pub fn stop(&mut self, fault: &Fault)
        ensures { self.new ≡ record self.old { stopped = true } }
    {
        self.own.raise(fault);
    }

    /// The source, the index as it was lent, the sum of all bytes, and whether the word was raised,
    /// after the last item was taken. No memory.
    pub fn end<R: Threads + Wait + Clock>(mut self, rt: &R) -> (I, Index, Fp, bool)
        requires last { (parts : List Decision) × (l : Lasts) × (self.taken ≡ run parts (Some l)) }
        ensures index { result.1 ≡ self.index }
        ensures back { IsJobBack self.cutting (found_in self.index) self.rules self.limit (I.told self.source) (I.told result.0) self.taken result.2 self.stopped result.3 }
    {
        rest(rt, &mut self);
        let Job {
            reads,
            sums,
            ends,
            single,
            lanes,
            far,
            own,
            back,
        } = self;
        let Back {
            source,
            index,
            sum,
            raised,
        } = end_job(rt, reads, sums, ends, single, lanes, far, own, back);
        (source, index, sum, raised)
    }
}
