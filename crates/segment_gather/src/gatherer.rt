// Chunks on their way to be decided.
ghost use Rattle.std.specs.Prelude.{◌≡◌, ℕ, List, [], ◌∷◌, ◌++◌, map, IfOk, OnOk};
ghost use Rattle.vault_types.specs.declared.How.{How as Hows};
ghost use Rattle.vault_types.specs.declared.Fp.{Fp as Print};
ghost use Rattle.vault_types.specs.Names.{NamedChunk, named_chunk};
ghost use Rattle.vault_types.specs.Decide.{Rules, decisions_of};
ghost use Rattle.rewrite_stage.specs.Deciding.{HasDecided, looked_up};
ghost use Rattle.segment_gather.specs.Segmented.{parts_of};
ghost use Rattle.segment_gather.specs.Gathering.{HasGathered, HasDecidedAll, chunks_in, places_of, index_of, answers_of};

use fingerprint_stage::Chunk;
use fp_index::Index;
use rewrite_stage::{Decided, Decider};
use segmenter::{Cut, Segmenter};
use std::alloc::Global;
use std::mem;
use vault_types::{Id, JobConfig, Memory};

/// Gathers chunks into segments, and decides each that is complete.
#[derive(Drop)]
pub struct Gatherer {
    segmenter: Segmenter,
    segment: Vec<Chunk>,
    decider: Decider,
}

// Decides a segment.
fn decide_segment(
    alloc: Global,
    decider: &mut Decider,
    segment: Vec<Chunk>,
) -> Result<Vec<Decided>, Memory>
    ensures index { decider.new.index ≡ decider.old.index }
    ensures chunks { IfOk result (λ ds. chunks_in (parts_of ds.items) ≡ map named_chunk segment.items) }
    ensures places { (r : Rules) (places : List (Print × Hows)) → HasDecided decider.old r places
        → IfOk result
        (λ ds. places ++ places_of (parts_of ds.items) ≡ decisions_of r places (looked_up decider.old.index segment.items)) }
    ensures decided { (r : Rules) (places : List (Print × Hows)) → HasDecided decider.old r places
        → OnOk result (HasDecided decider.new r (decisions_of r places (looked_up decider.old.index segment.items))) }
{
    decider.segment(alloc, segment)
}

impl Gatherer {
    /// A gatherer that took no chunk.
    pub fn new(alloc: Global, index: Index, sparse: Vec<Id>, config: JobConfig) -> Gatherer
        ensures gathered { HasGathered result (record { sparse = sparse.items; config = config }) [] [] }
        ensures index { index_of result ≡ index }
    {
        Gatherer {
            segmenter: Segmenter::new(config.segment),
            segment: Vec::new(alloc),
            decider: Decider::new(alloc, index, sparse, config),
        }
    }

    /// Takes the next chunk, and gives out the decisions on the segment that it completes. After
    /// `Memory` only `end` may be called.
    pub fn take(&mut self, alloc: Global, chunk: Chunk) -> Result<Vec<Decided>, Memory>
        ensures gathered { (r : Rules) (chunks : List NamedChunk) (gone : List (NamedChunk × Hows))
            → HasGathered self.old r chunks gone
            → IfOk result
            (λ ds. HasGathered self.new r (chunks ++ named_chunk chunk ∷ []) (gone ++ parts_of ds.items)) }
        ensures index { index_of self.new ≡ index_of self.old }
    {
        match self.segmenter.push(chunk.len()) {
            Cut::Same => {
                self.segment.push(chunk)?;
                return Ok(Vec::new(alloc));
            }
            Cut::NewBefore => {
                let segment = mem::replace(&mut self.segment, Vec::new(alloc));
                let decided = decide_segment(alloc, &mut self.decider, segment)?;
                self.segment.push(chunk)?;
                return Ok(decided);
            }
        }
    }

    /// The decisions on what is left.
    pub fn finish(&mut self, alloc: Global) -> Result<Vec<Decided>, Memory>
        ensures decided { (r : Rules) (chunks : List NamedChunk) (gone : List (NamedChunk × Hows))
            → HasGathered self.old r chunks gone
            → IfOk result (λ ds. HasDecidedAll (answers_of self.old) r chunks (gone ++ parts_of ds.items)) }
        ensures index { index_of self.new ≡ index_of self.old }
    {
        let segment = mem::replace(&mut self.segment, Vec::new(alloc));
        decide_segment(alloc, &mut self.decider, segment)
    }

    /// The index as it was handed in.
    pub fn end(self) -> Index
        ensures { result ≡ index_of self }
    {
        let Gatherer { decider, .. } = self;
        decider.end()
    }
}
