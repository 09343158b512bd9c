//! The map from a container to its marker.
ghost use Rattle.std.specs.Prelude.{◌≡◌, ◌≤◌, ◌+◌, ◌++◌, ℕ, length, filter, not, nat_eq, nat_lt, max, vec_len, vec_capacity, Some, if◌then◌else◌};
ghost use Rattle.std.specs.Option.{option_map_or};
ghost use Rattle.std.specs.HashMap.{hash_map_len, spare, IsUnique};
ghost use Rattle.std.specs.Map.{lookup};
ghost use Rattle.vault_types.specs.Lists.{has};
ghost use Rattle.marker_gc.specs.Markers.{ids_below};

use std::collections::HashMap;
use vault_types::{Id, Version};

/// Marks a container that a version names.
fn mark(markers: &mut HashMap<Id, Version>, version: Version, id: Id)
    requires { 1 ≤ spare markers.old }
    ensures marked { (c : ℕ)
        → lookup (nat_eq c) markers.new.entries
        ≡ (if nat_eq id c
        then Some (option_map_or (max version) (lookup (nat_eq c) markers.old.entries) version)
        else lookup (nat_eq c) markers.old.entries) }
    ensures once { IsUnique nat_eq markers.new }
    ensures room { spare markers.old ≤ spare markers.new + 1 }
{
    let marker = match markers.get(&id) {
        Some(before) => version.max(*before),
        None => version,
    };
    let _ = markers.insert(id, marker);
}

/// Marks the containers that a version names.
pub fn mark_all(markers: &mut HashMap<Id, Version>, version: Version, ids: &[Id])
    requires { length ids.now ≤ spare markers.old }
    ensures marked { (c : ℕ)
        → lookup (nat_eq c) markers.new.entries
        ≡ (if has c ids.now
        then Some (option_map_or (max version) (lookup (nat_eq c) markers.old.entries) version)
        else lookup (nat_eq c) markers.old.entries) }
    ensures once { IsUnique nat_eq markers.old → IsUnique nat_eq markers.new }
    ensures room { spare markers.old ≤ spare markers.new + length ids.now }
{
    for id in ids {
        mark(markers, version, *id);
    }
}

/// Appends the ids whose marker is below the floor, as they come.
pub fn push_below(markers: &HashMap<Id, Version>, floor: Version, out: &mut Vec<Id>)
    requires { vec_len out.old + hash_map_len markers.now ≤ vec_capacity out.old }
    ensures ids { out.new.items ≡ out.old.items ++ ids_below floor markers.now.entries }
    ensures capacity { vec_capacity out.old ≤ vec_capacity out.new }
{
    for (id, marker) in markers {
        if *marker < floor {
            let _ = out.push(*id);
        }
    }
}

/// Forgets the markers below the floor.
pub fn drop_below(markers: &mut HashMap<Id, Version>, floor: Version)
    ensures kept { markers.new.entries ≡ filter (λ e. not (nat_lt e.1 floor)) markers.old.entries }
    ensures room { spare markers.old ≤ spare markers.new }
{
    markers.retain(|_, marker| *marker >= floor);
}
