// What one item comes to.
ghost use Rattle.std.specs.Prelude.{◌≡◌, ◌≤◌, ◌+◌, ℕ, List, [], ◌∷◌, ◌++◌, map, length, take, Some, None, IfOk, OnOk, IfSome, IfNone, IsSome};
ghost use Rattle.std.specs.List.{concat};
ghost use Rattle.vault_types.specs.declared.Cutting.{Cutting as Way};
ghost use Rattle.vault_types.specs.Cuts.{cuts, settled, HasCut};
ghost use Rattle.vault_types.specs.JobRanges.{IsCuttable};
ghost use Rattle.stage_flows.specs.Runs.{memory};
ghost use Rattle.stage_rules.specs.Chunking.{limited_last, IsChunking, IsOpen, IsOwnFault, read_of, last_of};

use stage_flows::{Bytes, Last};
use std::alloc::Global;
use stream_cutter::Cutter;
use vault_types::list::ListOf;
use vault_types::{Fault, Memory};

// Some chunks for a lane each.
fn as_bytes(alloc: Global, chunks: Vec<Vec<u8>>) -> Result<Vec<Bytes>, Memory>
    ensures { IfOk result (λ v. v.items ≡ map (λ c. c.items) chunks.items) }
{
    let mut all = Vec::with_capacity(alloc, chunks.len())?;
    for chunk in chunks {
        all.push(ListOf::from_vec(chunk))?;
    }
    Ok(all)
}

// The chunks of the next read.
pub(crate) fn cut_more(
    alloc: Global,
    cutter: &mut Cutter,
    bytes: &[u8],
) -> Result<Vec<Bytes>, Memory>
    requires { IsCuttable cutter.old.cutting }
    ensures cutting { OnOk result (cutter.new.cutting ≡ cutter.old.cutting) }
    ensures cut { (gone : List (List ℕ)) (x : List ℕ) → HasCut cutter.old gone x
        → IfOk result (λ more. HasCut cutter.new (gone ++ more.items) (x ++ bytes.now)) }
{
    let mut chunks = Vec::new(alloc);
    cutter.feed(alloc, bytes, &mut chunks)?;
    as_bytes(alloc, chunks)
}

// The chunks that are left at the end.
pub(crate) fn cut_last(alloc: Global, cutter: Cutter) -> Result<Vec<Bytes>, Memory>
    ensures { (gone : List (List ℕ)) (x : List ℕ) → HasCut cutter gone x
        → IfOk result (λ more. gone ++ more.items ≡ cuts x cutter.cutting) }
{
    let mut chunks = Vec::new(alloc);
    cutter.finish(&mut chunks)?;
    as_bytes(alloc, chunks)
}

// At most so many of the chunks, and the last item behind them: the one that came, or that there
// are too many.
pub(crate) fn limited(
    chunks: &mut Vec<Bytes>,
    count: &mut u32,
    limit: u32,
    last: Option<Last>,
) -> Option<Last>
    requires { count.old ≤ limit }
    ensures last { result ≡ limited_last limit (count.old + length chunks.old.items) last }
    ensures chunks { (gone : List (List ℕ)) → count.old ≡ length gone
        → gone ++ chunks.new.items ≡ take limit (gone ++ chunks.old.items) }
    ensures count { count.old + length chunks.old.items ≤ limit
        → count.new ≡ count.old + length chunks.old.items }
    ensures few { count.new ≤ limit }
{
    let room = (limit - *count) as usize;
    if chunks.len() > room {
        chunks.truncate(room);
        *count = limit;
        return Some(Last::Failed(Fault::TooMany { limit }));
    }
    *count += chunks.len() as u32;
    last
}

// What a stage has to deal: chunks, and the last item behind them, if it comes, which may be a
// fault of the stage's own.
#[derive(Drop)]
pub(crate) struct Given {
    pub(crate) parts: Vec<Bytes>,
    pub(crate) last: Option<Last>,
    pub(crate) own: Option<Fault>,
}

// A want of memory, in place of the rest.
fn broken(alloc: Global) -> Given
    ensures { (result.parts.items ≡ []) × (result.last ≡ memory) × (result.own ≡ Some Fault.Memory) }
{
    Given {
        parts: Vec::new(alloc),
        last: Some(Last::Failed(Fault::Memory)),
        own: Some(Fault::Memory),
    }
}

// What the next read comes to.
fn take_read(alloc: Global, cutter: &mut Cutter, count: &mut u32, limit: u32, bytes: &[u8]) -> Given
    requires few { count.old ≤ limit }
    requires cuttable { IsCuttable cutter.old.cutting }
    ensures given { (c : Way) (reads : List (List ℕ)) → IsOpen c limit reads cutter.old count.old
        → IsChunking c limit (reads ++ bytes.now ∷ []) None (settled (concat reads) c ++ result.parts.items) result.last }
    ensures open { (c : Way) (reads : List (List ℕ)) → IsOpen c limit reads cutter.old count.old
        → result.last ≡ None → IsOpen c limit (reads ++ bytes.now ∷ []) cutter.new count.new }
    ensures own { IsOwnFault result.own None result.last }
{
    match cut_more(alloc, cutter, bytes) {
        Err(Memory) => broken(alloc),
        Ok(chunks) => {
            let mut parts = chunks;
            match limited(&mut parts, count, limit, None) {
                None => Given {
                    parts,
                    last: None,
                    own: None,
                },
                Some(last) => Given {
                    parts,
                    last: Some(last),
                    own: Some(Fault::TooMany { limit }),
                },
            }
        }
    }
}

// What the end comes to.
fn take_end(alloc: Global, cutter: Cutter, count: u32, limit: u32) -> Given
    requires { count ≤ limit }
    ensures given { (c : Way) (reads : List (List ℕ)) → IsOpen c limit reads cutter count
        → IsChunking c limit reads (Some Last.End) (settled (concat reads) c ++ result.parts.items) result.last }
    ensures own { IsOwnFault result.own (Some Last.End) result.last }
{
    match cut_last(alloc, cutter) {
        Err(Memory) => broken(alloc),
        Ok(chunks) => {
            let mut parts = chunks;
            let mut count = count;
            match limited(&mut parts, &mut count, limit, Some(Last::End)) {
                Some(Last::End) => Given {
                    parts,
                    last: Some(Last::End),
                    own: None,
                },
                last => Given {
                    parts,
                    last,
                    own: Some(Fault::TooMany { limit }),
                },
            }
        }
    }
}

// What an item comes to, and the chunker if it goes on.
pub(crate) fn step(
    alloc: Global,
    cutter: Cutter,
    count: &mut u32,
    limit: u32,
    item: Result<Bytes, Last>,
) -> (Option<Cutter>, Given)
    requires few { count.old ≤ limit }
    requires cuttable { IsCuttable cutter.cutting }
    ensures given { (c : Way) (reads : List (List ℕ)) → IsOpen c limit reads cutter count.old
        → IsChunking c limit (reads ++ read_of item) (last_of item) (settled (concat reads) c ++ result.1.parts.items) result.1.last }
    ensures open { (c : Way) (reads : List (List ℕ)) → IsOpen c limit reads cutter count.old
        → IfSome result.0 (λ k. (result.1.last ≡ None) × (last_of item ≡ None)
        × IsOpen c limit (reads ++ read_of item) k count.new) }
    ensures over { IfNone result.0 (IsSome result.1.last) }
    ensures own { IsOwnFault result.1.own (last_of item) result.1.last }
{
    match item {
        Ok(bytes) => {
            let mut cutter = cutter;
            let given = take_read(alloc, &mut cutter, count, limit, bytes.as_slice());
            if given.last.is_some() {
                (None, given)
            } else {
                (Some(cutter), given)
            }
        }
        Err(Last::End) => (None, take_end(alloc, cutter, *count, limit)),
        Err(last) => (
            None,
            Given {
                parts: Vec::new(alloc),
                last: Some(last),
                own: None,
            },
        ),
    }
}
