//! The two maps: the marker by set and container, and by container in how many sets it has one.
ghost use Rattle.std.specs.Prelude.{◌≡◌, ◌≤◌, ◌+◌, ◌-◌, ◌&&◌, ◌++◌, ℕ, length, map, filter, take, drop, nat_eq, max, vec_len, vec_capacity, Some, None, IsSome, is_some, if◌then◌else◌};
ghost use Rattle.std.specs.Option.{option_map_or};
ghost use Rattle.std.specs.List.{AllByRecursion, IsDistinct};
ghost use Rattle.std.specs.HashMap.{hash_map_len, spare, IsUnique};
ghost use Rattle.std.specs.Map.{lookup};
ghost use Rattle.vault_types.specs.Lists.{has};
ghost use Rattle.set_markers.specs.SetMarkers.{is_key, count_of, AreCounts, is_below as below};

use std::collections::HashMap;
use vault_types::{Id, Set, Version};

/// Sets the marker of a container in a set.
fn set_marker(markers: &mut HashMap<(Set, Id), Version>, set: Set, id: Id, marker: Version)
    requires { 1 ≤ spare markers.old }
    ensures set { (s c : ℕ)
        → lookup (is_key s c) markers.new.entries
        ≡ (if is_key set id (s, c) then Some marker else lookup (is_key s c) markers.old.entries) }
    ensures count { (c : ℕ)
        → count_of c markers.new.entries
        ≡ count_of c markers.old.entries
        + (if is_some (lookup (is_key set id) markers.old.entries) then 0 else if nat_eq id c then 1
        else 0) }
    ensures room { spare markers.old ≤ spare markers.new + 1 }
{
    let _ = markers.insert((set, id), marker);
}

/// Takes the marker of a container in a set out.
fn take_marker(markers: &mut HashMap<(Set, Id), Version>, set: Set, id: Id)
    requires { IsSome (lookup (is_key set id) markers.old.entries) }
    ensures taken { (s c : ℕ)
        → lookup (is_key s c) markers.new.entries
        ≡ (if is_key set id (s, c) then None else lookup (is_key s c) markers.old.entries) }
    ensures count { (c : ℕ)
        → count_of c markers.new.entries + (if nat_eq id c then 1 else 0) ≡ count_of c markers.old.entries }
    ensures room { spare markers.old ≤ spare markers.new }
{
    markers.remove(&(set, id));
}

/// Sets the count of a container.
fn set_count(counts: &mut HashMap<Id, usize>, id: Id, count: usize)
    requires { 1 ≤ spare counts.old }
    ensures set { (c : ℕ)
        → lookup (nat_eq c) counts.new.entries
        ≡ (if nat_eq id c then Some count else lookup (nat_eq c) counts.old.entries) }
    ensures once { IsUnique nat_eq counts.new }
    ensures room { spare counts.old ≤ spare counts.new + 1 }
{
    let _ = counts.insert(id, count);
}

/// Changes the count of a container that has one.
fn change_count(counts: &mut HashMap<Id, usize>, id: Id, count: usize)
    requires { IsSome (lookup (nat_eq id) counts.old.entries) }
    ensures set { (c : ℕ)
        → lookup (nat_eq c) counts.new.entries
        ≡ (if nat_eq id c then Some count else lookup (nat_eq c) counts.old.entries) }
    ensures once { IsUnique nat_eq counts.new }
    ensures room { spare counts.old ≤ spare counts.new }
{
    if let Some(place) = counts.get_mut(&id) {
        *place = count;
    }
}

/// Marks a container that a version of a set names.
fn mark(
    markers: &mut HashMap<(Set, Id), Version>,
    counts: &mut HashMap<Id, usize>,
    set: Set,
    version: Version,
    id: Id,
)
    requires counted { AreCounts counts.old.entries markers.old.entries }
    requires markers { 1 ≤ spare markers.old }
    requires counts { 1 ≤ spare counts.old }
    ensures counted { AreCounts counts.new.entries markers.new.entries }
    ensures marked { (s c : ℕ)
        → lookup (is_key s c) markers.new.entries
        ≡ (if is_key set id (s, c)
        then Some (option_map_or (max version) (lookup (is_key s c) markers.old.entries) version)
        else lookup (is_key s c) markers.old.entries) }
    ensures once { IsUnique nat_eq counts.old → IsUnique nat_eq counts.new }
    ensures markers { spare markers.old ≤ spare markers.new + 1 }
    ensures counts { spare counts.old ≤ spare counts.new + 1 }
{
    match markers.get(&(set, id)).copied() {
        Some(before) => {
            set_marker(markers, set, id, version.max(before));
        }
        None => {
            // A container has a marker in no more sets than there are markers, so that the count fits.
            let before = counts.get(&id).copied().unwrap_or(0).min(markers.len());
            set_marker(markers, set, id, version);
            set_count(counts, id, before + 1);
        }
    }
}

/// Marks the containers that a version of a set names.
pub fn mark_all(
    markers: &mut HashMap<(Set, Id), Version>,
    counts: &mut HashMap<Id, usize>,
    set: Set,
    version: Version,
    ids: &[Id],
)
    requires counted { AreCounts counts.old.entries markers.old.entries }
    requires markers { length ids.now ≤ spare markers.old }
    requires counts { length ids.now ≤ spare counts.old }
    ensures counted { AreCounts counts.new.entries markers.new.entries }
    ensures marked { (s c : ℕ)
        → lookup (is_key s c) markers.new.entries
        ≡ (if nat_eq set s && has c ids.now
        then Some (option_map_or (max version) (lookup (is_key s c) markers.old.entries) version)
        else lookup (is_key s c) markers.old.entries) }
    ensures once { IsUnique nat_eq counts.old → IsUnique nat_eq counts.new }
    ensures markers { spare markers.old ≤ spare markers.new + length ids.now }
    ensures counts { spare counts.old ≤ spare counts.new + length ids.now }
{
    for id in ids {
        mark(markers, counts, set, version, *id);
    }
}

/// Whether the marker of a container in a set is below the floor.
fn is_below(markers: &HashMap<(Set, Id), Version>, set: Set, floor: Version, id: Id) -> bool
    ensures { result ≡ below set floor markers.now.entries id }
{
    match markers.get(&(set, id)) {
        Some(marker) => *marker < floor,
        None => false,
    }
}

/// Appends the ids whose marker in a set is below the floor, as they come.
pub fn push_below(
    markers: &HashMap<(Set, Id), Version>,
    counts: &HashMap<Id, usize>,
    set: Set,
    floor: Version,
    out: &mut Vec<Id>,
)
    requires { vec_len out.old + hash_map_len counts.now ≤ vec_capacity out.old }
    ensures ids { out.new.items
        ≡ out.old.items ++ filter (below set floor markers.now.entries) (map (λ e. e.0) counts.now.entries) }
    ensures once { IsUnique nat_eq counts.now }
    ensures capacity { vec_capacity out.old ≤ vec_capacity out.new }
{
    for id in counts.keys() {
        if is_below(markers, set, floor, *id) {
            let _ = out.push(*id);
        }
    }
}

/// Forgets the marker of a container in a set, and says whether it was the last of the container.
fn forget(
    markers: &mut HashMap<(Set, Id), Version>,
    counts: &mut HashMap<Id, usize>,
    set: Set,
    id: Id,
) -> bool
    requires counted { AreCounts counts.old.entries markers.old.entries }
    requires marked { IsSome (lookup (is_key set id) markers.old.entries) }
    ensures counted { AreCounts counts.new.entries markers.new.entries }
    ensures last { result ≡ nat_eq (count_of id markers.old.entries) 1 }
    ensures forgotten { (s c : ℕ)
        → lookup (is_key s c) markers.new.entries
        ≡ (if is_key set id (s, c) then None else lookup (is_key s c) markers.old.entries) }
    ensures fewer { (c : ℕ)
        → count_of c markers.new.entries ≡ count_of c markers.old.entries - (if nat_eq id c then 1 else 0) }
    ensures once { IsUnique nat_eq counts.new }
    ensures markers { spare markers.old ≤ spare markers.new }
    ensures counts { spare counts.old ≤ spare counts.new }
{
    take_marker(markers, set, id);
    match counts.get(&id).copied() {
        Some(count) if count > 1 => {
            change_count(counts, id, count - 1);
            false
        }
        _ => {
            counts.remove(&id);
            true
        }
    }
}

/// Forgets the markers of some containers in a set, and moves those to the front that have no other marker. Says how many
/// they are.
fn keep_last(
    markers: &mut HashMap<(Set, Id), Version>,
    counts: &mut HashMap<Id, usize>,
    set: Set,
    ids: &mut [Id],
) -> usize
    requires counted { AreCounts counts.old.entries markers.old.entries }
    requires once { IsDistinct nat_eq ids.old }
    requires marked { AllByRecursion (λ c. IsSome (lookup (is_key set c) markers.old.entries)) ids.old }
    ensures counted { AreCounts counts.new.entries markers.new.entries }
    ensures within { result ≤ length ids.old }
    ensures kept { take result ids.new ≡ filter (λ c. nat_eq (count_of c markers.old.entries) 1) ids.old }
    ensures forgotten { (s c : ℕ)
        → lookup (is_key s c) markers.new.entries
        ≡ (if nat_eq set s && has c ids.old then None else lookup (is_key s c) markers.old.entries) }
    ensures fewer { (c : ℕ)
        → count_of c markers.new.entries ≡ count_of c markers.old.entries - (if has c ids.old then 1 else 0) }
    ensures unique { IsUnique nat_eq counts.old → IsUnique nat_eq counts.new }
    ensures markers { spare markers.old ≤ spare markers.new }
    ensures counts { spare counts.old ≤ spare counts.new }
{
    let mut kept = 0;
    for i in 0..ids.len() {
        let id = ids[i];
        if forget(markers, counts, set, id) {
            ids[kept] = id;
            kept += 1;
        }
    }
    kept
}

/// Forgets the markers that the containers from place `start` on have in a set, and leaves those of them that have no
/// other marker.
pub fn forget_from(
    markers: &mut HashMap<(Set, Id), Version>,
    counts: &mut HashMap<Id, usize>,
    set: Set,
    ids: &mut Vec<Id>,
    start: usize,
)
    requires start { start ≤ vec_len ids.old }
    requires counted { AreCounts counts.old.entries markers.old.entries }
    requires once { IsDistinct nat_eq (drop start ids.old.items) }
    requires marked { AllByRecursion (λ c. IsSome (lookup (is_key set c) markers.old.entries))
        (drop start ids.old.items) }
    ensures counted { AreCounts counts.new.entries markers.new.entries }
    ensures kept { ids.new.items
        ≡ take start ids.old.items
        ++ filter (λ c. nat_eq (count_of c markers.old.entries) 1) (drop start ids.old.items) }
    ensures forgotten { (s c : ℕ)
        → lookup (is_key s c) markers.new.entries
        ≡ (if nat_eq set s && has c (drop start ids.old.items) then None
        else lookup (is_key s c) markers.old.entries) }
    ensures fewer { (c : ℕ)
        → count_of c markers.new.entries
        ≡ count_of c markers.old.entries - (if has c (drop start ids.old.items) then 1 else 0) }
    ensures unique { IsUnique nat_eq counts.old → IsUnique nat_eq counts.new }
    ensures markers { spare markers.old ≤ spare markers.new }
    ensures counts { spare counts.old ≤ spare counts.new }
    ensures capacity { vec_capacity ids.new ≡ vec_capacity ids.old }
{
    let kept = keep_last(markers, counts, set, &mut ids[start..]);
    ids.truncate(start + kept);
}
