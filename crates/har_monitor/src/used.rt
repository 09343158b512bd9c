//! How much of each container is used, and which of them are the least used.
ghost use Rattle.std.specs.Prelude.{◌≡◌, ◌+◌, ◌*◌, ◌<◌, ◌^◌, ◌++◌, ◌∷◌, [], List, map, take, nat_eq, is_some, unwrap_or, IfOk, OnOk, if◌then◌else◌};
ghost use Rattle.std.specs.List.Sorted.{IsPermutation, IsSortedBy};
ghost use Rattle.std.specs.Map.{lookup};
ghost use Rattle.std.specs.Ordering.{is_lt};
ghost use Rattle.vault_types.specs.Lists.{fitting};
ghost use Rattle.har_monitor.specs.Used.{IsAdded, used_of, is_little_used as little, little_used as all_little, goes_first};

use std::alloc::Global;
use std::cmp::Ordering;
use std::collections::HashMap;
use vault_types::{Id, Memory};

/// A container, the bytes of it that a version refers to, and the bytes of its payload.
#[derive(Clone, Copy, Debug)]
pub struct Used {
    pub id: Id,
    pub referenced: u64,
    pub payload: u32,
}

/// Adds to the bytes that are referred to in a container. One that is new goes to the end of `ids`.
pub fn add(sums: &mut HashMap<Id, u64>, ids: &mut Vec<Id>, id: Id, len: u32) -> Result<(), Memory>
    ensures sums { unwrap_or (lookup (nat_eq id) sums.old.entries) 0 + len < 2 ^ 64
        → OnOk result
        (IsAdded sums.old.entries sums.new.entries id
        (unwrap_or (lookup (nat_eq id) sums.old.entries) 0 + len)) }
    ensures ids { OnOk result
        (ids.new.items
        ≡ (if is_some (lookup (nat_eq id) sums.old.entries) then ids.old.items
        else ids.old.items ++ id ∷ [])) }
{
    match sums.get(&id).copied() {
        Some(sum) => {
            sums.insert(id, sum.saturating_add(u64::from(len)))?;
        }
        None => {
            ids.push(id)?;
            sums.insert(id, u64::from(len))?;
        }
    }
    Ok(())
}

/// A container with its counts.
fn used_one(sums: &HashMap<Id, u64>, id: Id, payload: u32) -> Used
    ensures { result ≡ used_of sums.now.entries (id, payload) }
{
    Used {
        id,
        referenced: sums.get(&id).copied().unwrap_or(0),
        payload,
    }
}

/// Whether less than `threshold` hundredths of a container are used.
fn is_little(used: &Used, threshold: u32) -> bool
    ensures { result ≡ little threshold used.now }
{
    used.referenced as u128 * 100 < threshold as u128 * used.payload as u128
}

/// The containers of which little is used, in the order of `payloads`.
pub fn little_used(
    alloc: Global,
    sums: &HashMap<Id, u64>,
    payloads: &[(Id, u32)],
    threshold: u32,
) -> Result<Vec<Used>, Memory>
    ensures { IfOk result (λ list. list.items ≡ all_little sums.now.entries payloads.now threshold) }
{
    let mut list = Vec::new(alloc);
    for (id, payload) in payloads {
        let used = used_one(sums, *id, *payload);
        if is_little(&used, threshold) {
            list.push(used)?;
        }
    }
    Ok(list)
}

/// Compares by the part that is used, without a division, and then by the id. An empty payload counts as one byte,
/// so that any two compare.
fn compare(a: &Used, b: &Used) -> Ordering
    ensures { is_lt result ≡ goes_first a.now b.now }
{
    let left = a.referenced as u128 * b.payload.max(1) as u128;
    let right = b.referenced as u128 * a.payload.max(1) as u128;
    left.cmp(&right).then(a.id.cmp(&b.id))
}

/// Puts the least used containers first.
pub fn sort_by_use(used: &mut Vec<Used>)
    ensures same { IsPermutation used.old.items used.new.items }
    ensures sorted { IsSortedBy goes_first used.new.items }
{
    used.sort_unstable_by(|a, b| compare(a, b));
}

/// The ids of the longest prefix whose hundredfold bytes are at most `room`.
pub fn first_ids(alloc: Global, used: &[Used], room: u128) -> Result<Vec<Id>, Memory>
    ensures { IfOk result
        (λ ids.
        ids.items ≡ map (λ u. u.id) (take (fitting (λ u. u.referenced * 100) room used.now) used.now)) }
{
    let mut ids = Vec::new(alloc);
    let mut left = room;
    for one in used {
        let bytes = one.referenced as u128 * 100;
        if bytes > left {
            break;
        }
        left -= bytes;
        ids.push(one.id)?;
    }
    Ok(ids)
}
