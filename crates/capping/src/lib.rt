//! Capping: which old containers a segment refers to, after Lillibridge and others (FAST 2013).
#![tactic(auto)]

ghost use Rattle.std.specs.Prelude.{◌≡◌, ◌+◌, ◌<◌, ◌^◌, ◌++◌, ◌∷◌, [], List, ℕ, filter_map, map, take, length, IfOk, OnOk};
ghost use Rattle.vault_types.specs.Capping.{kept_ids};
ghost use Rattle.std.specs.List.Sorted.{IsPermutation, IsSortedBy};
ghost use Rattle.capping.specs.Counts.{HasCounted, is_used_more};

use indexmap::IndexMap;
use std::alloc::Global;
use std::cmp::Reverse;
use vault_types::{Id, Memory};

/// Counts one more chunk of a container.
fn count_one(times: &mut IndexMap<Id, u64>, id: Id) -> Result<(), Memory>
    ensures { (ids : List ℕ) → HasCounted times.old.entries ids → length ids + 1 < 2 ^ 64
        → OnOk result (HasCounted times.new.entries (ids ++ id ∷ [])) }
{
    let before = times.get(&id).copied().unwrap_or(0);
    times.insert(id, before.saturating_add(1))?;
    Ok(())
}

/// Counts the chunks of each container.
fn count(alloc: Global, segment: &[Option<Id>]) -> Result<IndexMap<Id, u64>, Memory>
    ensures { IfOk result (λ times. HasCounted times.entries (filter_map (λ o. o) segment.now)) }
{
    let mut times = IndexMap::new(alloc);
    for old in segment {
        if let Some(id) = *old {
            count_one(&mut times, id)?;
        }
    }
    Ok(times)
}

/// The containers with their counts, in the order of first sight.
fn pairs(alloc: Global, times: IndexMap<Id, u64>) -> Result<Vec<(Id, u64)>, Memory>
    ensures { IfOk result (λ counted. counted.items ≡ times.entries) }
{
    Ok(times.into_iter().collect(alloc)?)
}

/// Puts the most used containers first, and of two that are used as often the one with the lower id.
fn sort_by_use(counted: &mut Vec<(Id, u64)>)
    ensures same { IsPermutation counted.old.items counted.new.items }
    ensures sorted { IsSortedBy is_used_more counted.new.items }
{
    counted.sort_unstable_by_key(|counted| (Reverse(counted.1), counted.0));
}

/// The ids of the first `t` of them.
fn first_ids(alloc: Global, counted: &[(Id, u64)], t: u32) -> Result<Vec<Id>, Memory>
    ensures { IfOk result (λ ids. ids.items ≡ map (λ p. p.0) (take t counted.now)) }
{
    Ok(
        counted
            .iter()
            .take(t as usize)
            .map(|counted| counted.0)
            .collect(alloc)?,
    )
}

/// The containers that a segment keeps, where each of its chunks has an old container or none: the first `t` in the
/// order of how many chunks they have, the most first, and of two with as many the lower id.
pub fn choose(alloc: Global, segment: &[Option<Id>], t: u32) -> Result<Vec<Id>, Memory>
    ensures { IfOk result (λ ids. ids.items ≡ kept_ids segment.now t) }
{
    let times = count(alloc, segment)?;
    let mut counted = pairs(alloc, times)?;
    sort_by_use(&mut counted);
    first_ids(alloc, counted.as_slice(), t)
}
