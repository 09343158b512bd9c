//! Order at the end of a list.
ghost use Rattle.std.specs.Prelude.{◌≡◌, ◌≤◌, take, drop, vec_len, vec_capacity};
ghost use Rattle.std.specs.List.Sorted.{IsPermutation, IsSorted};
ghost use Rattle.std.specs.Ordering.{nat_cmp};

use vault_types::Id;

/// Puts the ids from place `start` on in ascending order. Those before it stay. Takes no memory.
pub fn sort_from(ids: &mut Vec<Id>, start: usize)
    requires { start ≤ vec_len ids.old }
    ensures front { take start ids.new.items ≡ take start ids.old.items }
    ensures same { IsPermutation (drop start ids.old.items) (drop start ids.new.items) }
    ensures sorted { IsSorted nat_cmp (drop start ids.new.items) }
    ensures capacity { vec_capacity ids.new ≡ vec_capacity ids.old }
{
    ids[start..].sort_unstable();
}
