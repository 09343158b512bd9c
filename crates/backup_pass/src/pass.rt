// A pass over a stream.
ghost use Rattle.std.specs.Prelude.{◌≡◌, ◌≤◌, ◌<◌, ◌+◌, ◌^◌, List, ℕ, OnOk, IfOk, IfErr, map, filter, length, option_to_list, [], ◌∷◌, ◌++◌};
ghost use Rattle.vault_types.specs.Cuts.{cuts, settled};
ghost use Rattle.vault_types.specs.Names.{NamedChunk, named_chunk, fp};
ghost use Rattle.vault_types.specs.Tables.{Container};
ghost use Rattle.vault_types.specs.Decide.{Rules, decide};
ghost use Rattle.vault_types.specs.Fill.{fill};
ghost use Rattle.vault_types.specs.Stages.{is_chunk};
ghost use Rattle.fp_index.specs.Index.{found_in};
ghost use Rattle.container_fill.specs.Filling.{IsFilledBy};
ghost use Rattle.backup_pass.specs.Placing.{HasPlaced, answers_of, index_of};
ghost use Rattle.backup_pass.specs.Passing.{HasPassed, IsPassFault, answers_in, index_in, bytes_of_all};
ghost use Rattle.vault_types.specs.JobRanges.{IsCuttable};

use crate::Placer;
use container_fill::Filled;
use container_store::Sealed;
use fingerprint_stage::{Chunk, RunningSum, name};
use fp_index::Index;
use std::alloc::Global;
use stream_cutter::Cutter;
use vault_types::{Fault, Fp, Id, JobConfig, Memory};

/// A backup's pass over its stream.
#[derive(Drop)]
pub struct Pass {
    chunker: Cutter,
    sum: RunningSum,
    count: u32,
    limit: u32,
    placer: Placer,
}

/// What a pass comes to: the rows and the last container, and the SHA-1 of the stream.
#[derive(Drop)]
pub struct Passed {
    pub filled: Filled,
    pub whole: Fp,
}

// The chunk of some bytes, where they can be one.
fn chunk_of(bytes: Vec<u8>) -> Option<Chunk>
    ensures { option_to_list result ≡ filter is_chunk (bytes.items ∷ []) }
{
    if bytes.is_empty() || bytes.len() > 65_536 {
        return None;
    }
    Some(name(bytes))
}

// Counts one chunk more, up to the limit.
fn count_one(count: &mut u32, limit: u32) -> Result<(), Fault>
    ensures ok { OnOk result ((count.new ≡ count.old + 1) × (count.new ≤ limit)) }
    ensures err { IfErr result (λ f. (f ≡ Fault.TooMany limit) × (limit ≤ count.old)) }
{
    if *count >= limit {
        return Err(Fault::TooMany { limit });
    }
    *count += 1;
    Ok(())
}

// Names chunks and places them.
fn place_all(
    alloc: Global,
    placer: &mut Placer,
    count: &mut u32,
    limit: u32,
    chunks: Vec<Vec<u8>>,
    out: &mut Vec<Sealed>,
) -> Result<(), Fault>
    ensures placed { (r : Rules) (first : ℕ) (taken : List NamedChunk) (gone : List Container)
        → HasPlaced placer.old r first taken (gone ++ out.old.items)
        → OnOk result
        (HasPlaced placer.new r first
        (taken ++ map named_chunk (filter is_chunk (bytes_of_all chunks.items)))
        (gone ++ out.new.items)) }
    ensures index { index_of placer.new ≡ index_of placer.old }
    ensures count { OnOk result (count.new ≡ count.old + length chunks.items) }
    ensures within { count.old ≤ limit → OnOk result (count.new ≤ limit) }
    ensures causes { IfErr result (IsPassFault limit (count.old + length chunks.items)) }
{
    for bytes in chunks {
        count_one(count, limit)?;
        match chunk_of(bytes) {
            Some(chunk) => placer.take(alloc, chunk, out)?,
            None => {}
        }
    }
    Ok(())
}

// Places the last chunks, and ends the placer, which gives its index back.
fn place_last(
    alloc: Global,
    placer: Placer,
    mut count: u32,
    limit: u32,
    chunks: Vec<Vec<u8>>,
    out: &mut Vec<Sealed>,
) -> (Index, Result<Filled, Fault>)
    ensures index { result.0 ≡ index_of placer }
    ensures filled { (r : Rules) (first : ℕ) (taken : List NamedChunk) (gone : List Container)
        → HasPlaced placer r first taken (gone ++ out.old.items)
        → IfOk result.1
        (λ f.
        IsFilledBy (option_to_list f.last) f.rows f.next f.containers f.written first
        (gone ++ out.new.items)
        (length (taken ++ map named_chunk (filter is_chunk (bytes_of_all chunks.items))))
        (fill first (taken ++ map named_chunk (filter is_chunk (bytes_of_all chunks.items)))
        (decide (answers_of placer) r
        (taken ++ map named_chunk (filter is_chunk (bytes_of_all chunks.items))))
        r.config.container)) }
    ensures within { count ≤ limit → OnOk result.1 (count + length chunks.items ≤ limit) }
    ensures causes { IfErr result.1 (IsPassFault limit (count + length chunks.items)) }
{
    let mut placer = placer;
    match place_all(alloc, &mut placer, &mut count, limit, chunks, out) {
        Err(fault) => (placer.end(), Err(fault)),
        Ok(()) => {
            let (index, filled) = placer.finish(alloc, out);
            match filled {
                Ok(filled) => (index, Ok(filled)),
                Err(Memory) => (index, Err(Fault::Memory)),
            }
        }
    }
}

impl Pass {
    /// A pass that was fed nothing, for at most `limit` chunks. It cuts by a size from 1 to 65,536, or by a window from 1
    /// below a greatest length up to 65,536; the next free container id is from 1 to 2^63, the container size from 1 to
    /// 4,194,304.
    pub fn new(
        alloc: Global,
        index: Index,
        sparse: Vec<Id>,
        next: Id,
        config: JobConfig,
        limit: u32,
    ) -> Pass
        requires cuttable { IsCuttable config.cutting }
        requires low { 1 ≤ next }
        requires high { next ≤ 2 ^ 63 }
        requires some { 1 ≤ config.container }
        requires most { config.container ≤ 4194304 }
        ensures passed { HasPassed result (record { sparse = sparse.items; config = config }) limit next []
            [] }
        ensures index { index_in result ≡ index }
    {
        Pass {
            chunker: Cutter::new(config.cutting),
            sum: RunningSum::new(),
            count: 0,
            limit,
            placer: Placer::new(alloc, index, sparse, next, config),
        }
    }

    /// Takes the next piece of the stream. Containers that are full are appended to `out`. `TooMany`, `Memory`; after an
    /// `Err` only `end` may be called.
    pub fn feed(&mut self, alloc: Global, piece: &[u8], out: &mut Vec<Sealed>) -> Result<(), Fault>
        ensures passed { (r : Rules) (limit first : ℕ) (x : List ℕ) (gone : List Container)
            → HasPassed self.old r limit first x (gone ++ out.old.items)
            → OnOk result (HasPassed self.new r limit first (x ++ piece.now) (gone ++ out.new.items)) }
        ensures index { index_in self.new ≡ index_in self.old }
        ensures causes { (r : Rules) (limit first : ℕ) (x : List ℕ) (gone : List Container)
            → HasPassed self.old r limit first x gone
            → IfErr result (IsPassFault limit (length (settled (x ++ piece.now) r.config.cutting))) }
    {
        self.sum.add(piece);
        let mut chunks = Vec::new(alloc);
        self.chunker.feed(alloc, piece, &mut chunks)?;
        place_all(
            alloc,
            &mut self.placer,
            &mut self.count,
            self.limit,
            chunks,
            out,
        )
    }

    /// Takes the end of the stream, and gives the index back: all containers are those before, those in `out` and the
    /// last one of `filled`. `TooMany`, `Memory`.
    pub fn finish(self, alloc: Global, out: &mut Vec<Sealed>) -> (Index, Result<Passed, Fault>)
        ensures index { result.0 ≡ index_in self }
        ensures passed { (r : Rules) (limit first : ℕ) (x : List ℕ) (gone : List Container)
            → HasPassed self r limit first x (gone ++ out.old.items)
            → IfOk result.1 (λ p. (p.whole ≡ fp x) × (length (cuts x r.config.cutting) ≤ limit)
            × IsFilledBy (option_to_list p.filled.last) p.filled.rows p.filled.next p.filled.containers
            p.filled.written first (gone ++ out.new.items)
            (length (map named_chunk (cuts x r.config.cutting)))
            (fill first (map named_chunk (cuts x r.config.cutting))
            (decide (answers_in self) r (map named_chunk (cuts x r.config.cutting)))
            r.config.container)) }
        ensures causes { (r : Rules) (limit first : ℕ) (x : List ℕ) (gone : List Container)
            → HasPassed self r limit first x gone
            → IfErr result.1 (IsPassFault limit (length (cuts x r.config.cutting))) }
    {
        let Pass {
            chunker,
            sum,
            count,
            limit,
            placer,
        } = self;
        let mut chunks = Vec::new(alloc);
        match chunker.finish(&mut chunks) {
            Err(Memory) => (placer.end(), Err(Fault::Memory)),
            Ok(()) => {
                let (index, filled) = place_last(alloc, placer, count, limit, chunks, out);
                match filled {
                    Err(fault) => (index, Err(fault)),
                    Ok(filled) => {
                        let whole = sum.finish();
                        (index, Ok(Passed { filled, whole }))
                    }
                }
            }
        }
    }

    /// How many chunks it takes at most.
    pub fn limit(&self) -> u32
        ensures { result ≡ self.now.limit }
    {
        self.limit
    }

    /// The index as it was handed in.
    pub fn end(self) -> Index
        ensures { result ≡ index_in self }
    {
        let Pass { placer, .. } = self;
        placer.end()
    }
}
