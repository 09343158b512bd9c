//! Deciding, segment by segment.
ghost use Rattle.std.specs.Prelude.{◌≡◌, ◌++◌, ◌∷◌, [], ℕ, List, map, None, slice_index_or, IfOk, OnOk};
ghost use Rattle.std.specs.List.Sorted.{IsNonDecreasing};
ghost use Rattle.vault_types.specs.declared.Fp.{Fp as Key};
ghost use Rattle.vault_types.specs.declared.How.{How as Stored};
ghost use Rattle.vault_types.specs.Lists.{has};
ghost use Rattle.vault_types.specs.Names.{fp as fp_of};
ghost use Rattle.vault_types.specs.Decide.{Rules, is_written, how as how_of, caps as caps_of, avoids_sparse as avoids_of, counted_id, decisions_of};
ghost use Rattle.fp_index.specs.Index.{found_in};
ghost use Rattle.rewrite_stage.specs.Deciding.{HasDecided, looked_up, looked_with, places_of};
ghost use Rattle.rewrite_stage.specs.Steps.{only_kept, allowed_of, fps_with_olds, decide_all};
ghost use Rattle.vault_types.specs.Capping.{kept_ids};

use crate::Decided;
use capping::choose;
use fingerprint_stage::Chunk;
use fp_index::Index;
use std::alloc::Global;
use std::collections::HashSet;
use std::marker::Model;
use vault_types::{Fp, How, Id, JobConfig, Memory, Rewrite};

/// Decides for the chunks of a backup, segment by segment, which are written: a chunk that this backup wrote is not
/// written again; one that lies in an older container is referred to there, unless its segment caps that container
/// (Lillibridge and others, FAST 2013) or the version before made little use of it (Fu and others, USENIX ATC 2014);
/// every other one is written.
#[derive(Drop)]
pub struct Decider {
    index: Index,
    sparse: Vec<Id>,
    config: JobConfig,
    written: HashSet<Fp>,
}

impl Model for Decider {
    ghost use Rattle.std.specs.List.Sorted.{IsNonDecreasing};
    ghost use Rattle.rewrite_stage.specs.Deciding.{Deciding};

    ghost Value = { Deciding };

    ghost view = { λ d.
        record {
          index = d.index;
          rules = record { sparse = d.sparse.items; config = d.config };
          written = d.written.keys;
        } };

    ghost invariant = { λ d. IsNonDecreasing d.sparse.items };
}

/// Whether an ascending list has an id.
fn is_among(ids: &[Id], id: Id) -> bool
    requires { IsNonDecreasing ids.now }
    ensures { result ≡ has id ids.now }
{
    ids.binary_search(&id).is_ok()
}

/// The answer at a place, or none past the end.
fn answer_at(answers: &[Option<Id>], place: usize) -> Option<Id>
    ensures { result ≡ slice_index_or answers.now place None }
{
    match answers.get(place) {
        Some(answer) => *answer,
        None => None,
    }
}

/// The index's answers for some chunks.
fn look_up(alloc: Global, index: &Index, chunks: &[Chunk]) -> Result<Vec<Option<Id>>, Memory>
    ensures { IfOk result (λ found. found.items ≡ map (λ c. found_in index.now (fp_of c)) chunks.now) }
{
    let mut found = Vec::with_capacity(alloc, chunks.len())?;
    for chunk in chunks {
        found.push(index.find(&chunk.fp()))?;
    }
    Ok(found)
}

/// Whether a list has an id.
fn has_id(ids: &[Id], id: Id) -> bool
    ensures { result ≡ has id ids.now }
{
    ids.contains(&id)
}

/// The container, if it is one of these.
fn kept_one(kept: &[Id], old: Option<Id>) -> Option<Id>
    ensures { result ≡ only_kept kept.now old }
{
    match old {
        Some(id) if !has_id(kept, id) => None,
        _ => old,
    }
}

/// The old containers of a segment's chunks, of which the segment keeps at most `cap`.
fn capped(alloc: Global, counted: &[Option<Id>], cap: u32) -> Result<Vec<Option<Id>>, Memory>
    ensures { IfOk result
        (λ allowed. allowed.items ≡ map (only_kept (kept_ids counted.now cap)) counted.now) }
{
    let kept = choose(alloc, counted, cap)?;
    let mut allowed = Vec::with_capacity(alloc, counted.len())?;
    for old in counted {
        allowed.push(kept_one(kept.as_slice(), *old))?;
    }
    Ok(allowed)
}

/// Whether the rewriting caps what a segment keeps.
fn caps(rewrite: Rewrite) -> bool
    ensures { result ≡ caps_of rewrite }
{
    matches!(rewrite, Rewrite::Cap | Rewrite::Both)
}

/// Whether the rewriting avoids the containers that were sparse.
fn avoids_sparse(rewrite: Rewrite) -> bool
    ensures { result ≡ avoids_of rewrite }
{
    matches!(rewrite, Rewrite::Har | Rewrite::Both)
}

/// The old containers of a segment's chunks that the settings allow.
fn allowed(
    alloc: Global,
    counted: Vec<Option<Id>>,
    config: JobConfig,
) -> Result<Vec<Option<Id>>, Memory>
    ensures { IfOk result (λ allowed. allowed.items ≡ allowed_of config counted.items) }
{
    if !caps(config.rewrite) {
        return Ok(counted);
    }
    capped(alloc, counted.as_slice(), config.cap)
}

impl Decider {
    /// A decider that has decided nothing, over this index and the list of sparse containers of the version before.
    pub fn new(alloc: Global, index: Index, sparse: Vec<Id>, config: JobConfig) -> Decider
        ensures index { result.index ≡ index }
        ensures nothing { HasDecided result (record { sparse = sparse.items; config = config }) [] }
    {
        let mut sparse = sparse;
        sparse.sort_unstable();
        Decider {
            index,
            sparse,
            config,
            written: HashSet::new(alloc),
        }
    }

    /// The old container that counts for a chunk, where the index names this one.
    fn counted_one(&self, fp: &Fp, found: Option<Id>) -> Option<Id>
        ensures { (r : Rules) (places : List (Key × Stored)) → HasDecided self.now r places
            → result ≡ counted_id r places (record { fp = fp.now; found = found }) }
    {
        if self.written.contains(fp) {
            return None;
        }
        match found {
            Some(id)
                if avoids_sparse(self.config.rewrite) && is_among(self.sparse.as_slice(), id) =>
                None,
            _ => found,
        }
    }

    /// The old containers that count for the chunks of a segment.
    fn counted(
        &self,
        alloc: Global,
        chunks: &[Chunk],
        found: &[Option<Id>],
    ) -> Result<Vec<Option<Id>>, Memory>
        ensures { (r : Rules) (places : List (Key × Stored)) → HasDecided self.now r places
            → IfOk result
            (λ counted. counted.items ≡ map (counted_id r places) (looked_with chunks.now found.now)) }
    {
        let mut counted = Vec::with_capacity(alloc, chunks.len())?;
        for chunk in chunks {
            let answer = answer_at(found, counted.len());
            counted.push(self.counted_one(&chunk.fp(), answer))?;
        }
        Ok(counted)
    }

    /// Decides for one chunk, where it is known which old container it may lie in.
    fn decide_one(&mut self, fp: Fp, old: Option<Id>) -> Result<How, Memory>
        ensures index { self.new.index ≡ self.old.index }
        ensures how { (r : Rules) (places : List (Key × Stored)) → HasDecided self.old r places
            → IfOk result (λ how. how ≡ how_of (is_written places fp) old) }
        ensures decided { (r : Rules) (places : List (Key × Stored)) → HasDecided self.old r places
            → IfOk result (λ how. HasDecided self.new r (places ++ (fp, how) ∷ [])) }
    {
        if self.written.contains(&fp) {
            return Ok(How::Own);
        }
        match old {
            Some(id) => Ok(How::Old(id)),
            None => {
                self.written.insert(fp)?;
                Ok(How::Write)
            }
        }
    }

    /// Decides for the chunks of a segment, where it is known which old container each may lie in.
    fn decide(
        &mut self,
        alloc: Global,
        chunks: Vec<Chunk>,
        allowed: &[Option<Id>],
    ) -> Result<Vec<Decided>, Memory>
        ensures index { self.new.index ≡ self.old.index }
        ensures chunks { IfOk result (λ decided. map (λ d. d.chunk) decided.items ≡ chunks.items) }
        ensures places { (r : Rules) (places : List (Key × Stored)) → HasDecided self.old r places
            → IfOk result
            (λ decided.
            places ++ places_of decided.items
            ≡ decide_all places (fps_with_olds (map (λ d. d.chunk) decided.items) allowed.now)) }
        ensures decided { (r : Rules) (places : List (Key × Stored)) → HasDecided self.old r places
            → IfOk result (λ decided. HasDecided self.new r (places ++ places_of decided.items)) }
    {
        let mut decided = Vec::with_capacity(alloc, chunks.len())?;
        for chunk in chunks {
            let old = answer_at(allowed, decided.len());
            let how = self.decide_one(chunk.fp(), old)?;
            decided.push(Decided { chunk, how })?;
        }
        Ok(decided)
    }

    /// Decides the next segment. The chunks come back in order, with what was decided. After `Memory` they are gone,
    /// and only `end` may be called.
    pub fn segment(&mut self, alloc: Global, chunks: Vec<Chunk>) -> Result<Vec<Decided>, Memory>
        ensures index { self.new.index ≡ self.old.index }
        ensures chunks { IfOk result (λ decided. map (λ d. d.chunk) decided.items ≡ chunks.items) }
        ensures places { (r : Rules) (places : List (Key × Stored)) → HasDecided self.old r places
            → IfOk result
            (λ decided.
            places ++ places_of decided.items
            ≡ decisions_of r places (looked_up self.old.index chunks.items)) }
        ensures decided { (r : Rules) (places : List (Key × Stored)) → HasDecided self.old r places
            → IfOk result (λ decided. HasDecided self.new r (places ++ places_of decided.items)) }
    {
        let found = look_up(alloc, &self.index, chunks.as_slice())?;
        self.segment_with(alloc, chunks, found.as_slice())
    }

    /// Decides the next segment with these answers, by place, instead of the index's. A chunk without an answer is
    /// taken as not found. The chunks come back in order, with what was decided. After `Memory` they are gone, and
    /// only `end` may be called.
    pub fn segment_with(
        &mut self,
        alloc: Global,
        chunks: Vec<Chunk>,
        found: &[Option<Id>],
    ) -> Result<Vec<Decided>, Memory>
        ensures index { self.new.index ≡ self.old.index }
        ensures chunks { IfOk result (λ decided. map (λ d. d.chunk) decided.items ≡ chunks.items) }
        ensures places { (r : Rules) (places : List (Key × Stored)) → HasDecided self.old r places
            → IfOk result
            (λ decided.
            places ++ places_of decided.items
            ≡ decisions_of r places (looked_with chunks.items found.now)) }
        ensures decided { (r : Rules) (places : List (Key × Stored)) → HasDecided self.old r places
            → IfOk result (λ decided. HasDecided self.new r (places ++ places_of decided.items)) }
    {
        let counted = self.counted(alloc, chunks.as_slice(), found)?;
        let allowed = allowed(alloc, counted, self.config)?;
        self.decide(alloc, chunks, allowed.as_slice())
    }

    /// The index as it was handed in.
    pub fn end(self) -> Index
        ensures { result ≡ self.index }
    {
        let Decider {
            index,
            sparse: _,
            config: _,
            written: _,
        } = self;
        index
    }
}
