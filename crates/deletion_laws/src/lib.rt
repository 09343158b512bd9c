//! What a deletion and a release keep of a store, and of what its keeper has in memory; and the removal of the names that
//! they leave as strays.
#![tactic(auto)]

ghost use Rattle.std.specs.Prelude.{◌≡◌, ◌⊎◌, ◌≤◌, ◌<◌, ◌+◌, ◌-◌, ◌^◌, ℕ, not, ◌&&◌, List, map, max, length, take, drop, slice_set, IsSome, Contains, vec_capacity, Some, None, if◌then◌else◌};
ghost use Rattle.vault_types.specs.declared.Name.{Name as Named};
ghost use Rattle.vault_types.specs.declared.Pending.TheVariants as pending;
ghost use Rattle.vault_types.specs.declared.Table.{Table};
ghost use Rattle.vault_types.specs.Lists.{has};
ghost use Rattle.vault_types.specs.Marks.{Mark, marks_above, freed_ids};
ghost use Rattle.vault_types.specs.Blobs.{floor_bytes};
ghost use Rattle.vault_types.specs.State.{State, dataset, floor_of, latest_of, next_of, IsValid};
ghost use Rattle.vault_types.specs.Delete.{delete, reclaimed_ids};
ghost use Rattle.vault_types.specs.Shelf.{Blobs, blob_at, with_blob, floor_name};
ghost use Rattle.vault_types.specs.Events.{Core, IsCore, IsNear, Held, IsContainerName, put_by, after_delete, after_refused, delete_change, after_release};
ghost use Rattle.vault_traits.specs.Crash.{LeavesNowIfTold, LeavesOnlyIfTold};
ghost use Rattle.state_laws.specs.Parts.{HeldIfTold, IsIdle, CanClean, with_strays};
ghost use Rattle.keeper_catalog.specs.Catalog.{set_info, listed, table_at, AreTables, AreMarks};
ghost use Rattle.deletion_laws.specs.Deleting.{pinned_ids, without_ids, AreStraysAfter};
ghost use Rattle.keeper_catalog.specs.View.{AreAlike};
ghost use Rattle.deletion_laws.specs.Releasing.{is_released, IsReleased, AreStraysReleased};
ghost use Rattle.deletion_laws.specs.Removal.{AreIdle};

use vault_traits::Shelf;
use vault_types::Name;

/// Takes out the strays from a place on; those whose removal failed stay strays, in their order. Takes no memory.
pub fn clean_from<S: Shelf>(shelf: &mut S, strays: &mut Vec<Name>, start: usize)
    requires { start ≤ length strays.old.items }

    // Where these names may go, the shelf goes on holding what it held. Of a shelf that tells nothing nothing is asked.
    ensures held { (K : Core) → K.strays ≡ strays.old.items
        → (IsSome (S.told shelf.old).blobs → AreIdle K (drop start strays.old.items))
        → HeldIfTold (S.told shelf.old).blobs K
        → HeldIfTold (S.told shelf.new).blobs (with_strays strays.new.items K) }

    // A crash at any moment leaves what it could leave before.
    ensures any_moment { (K : Core) → K.strays ≡ strays.old.items
        → (IsSome (S.told shelf.old).blobs → AreIdle K (drop start strays.old.items))
        → LeavesNowIfTold (S.told shelf.old).history (IsNear K.state K.other)
        → LeavesOnlyIfTold (S.told shelf.old).history (S.told shelf.new).history (IsNear K.state K.other) }
    ensures others { (n : Named) → (Contains (drop start strays.old.items) n → ⊥)
        → blob_at (S.told shelf.new).blobs n ≡ blob_at (S.told shelf.old).blobs n }
    ensures within { (n : Named) → Contains strays.new.items n → Contains strays.old.items n }
    ensures place { start ≤ length strays.new.items }
    ensures front { take start strays.new.items ≡ take start strays.old.items }
    ensures behind { (n : Named) → Contains (drop start strays.new.items) n
        → Contains (drop start strays.old.items) n }
    ensures fewer { (length strays.new.items ≤ length strays.old.items)
        × (vec_capacity strays.new ≡ vec_capacity strays.old) }

    // At most one name is left behind the place for each failure.
    ensures few { (S.told shelf.new).faults < 2 ^ 64 - 1
        → length strays.new.items + (S.told shelf.old).faults ≤ start + (S.told shelf.new).faults }
    ensures tells { IsSome (S.told shelf.old).blobs → IsSome (S.told shelf.new).blobs }
    ensures gets { (S.told shelf.new).gets ≡ (S.told shelf.old).gets }
    ensures later { (S.told shelf.old).faults ≤ (S.told shelf.new).faults }
{
    let mut left = strays.len();
    while left > start {
        left -= 1;
        if shelf.remove(strays[left]).is_ok() {
            strays.remove(left);
        }
    }
}

/// A deletion keeps a valid state valid, gives no id anew, and changes nothing where the floor does not rise.
pub fn a_deletion_keeps_the_state()
    ensures valid { (S : State) (s n : ℕ) → IsValid S → s < length S.datasets → n < latest_of S s
        → IsValid (delete S s n) }
    ensures next { (S : State) (s n : ℕ) → IsValid S → s < length S.datasets → n < latest_of S s
        → next_of (delete S s n) ≡ next_of S }
    ensures same { (S : State) (s n : ℕ) → IsValid S → n + 1 ≤ floor_of S s → delete S s n ≡ S }
{}

/// The containers that a deletion frees by markers are those that lose their last name, and the marks that are left are
/// those of the state that is left.
pub fn markers_free_what_loses_its_last_name()
    ensures freed { (S : State) (s n : ℕ) (marks : List Mark) → IsValid S → s < length S.datasets
        → n < latest_of S s → AreMarks marks S
        → freed_ids s (max (floor_of S s) (n + 1)) marks ≡ reclaimed_ids S (delete S s n) }
    ensures left { (S : State) (s n : ℕ) (marks : List Mark) → IsValid S → s < length S.datasets
        → n < latest_of S s → AreMarks marks S
        → AreMarks (marks_above s (max (floor_of S s) (n + 1)) marks) (delete S s n) }
{}

/// What is in memory after a deletion: one floor rose, the index lost the tables of the containers that lost their last
/// name, and the tables are as they were but those of such containers that no pin lists.
pub fn a_deletion_is_followed_in_memory()
    ensures sets { (S : State) (s n : ℕ) → IsValid S → s < length S.datasets → n < latest_of S s
        → map set_info (delete S s n).datasets
        ≡ slice_set (map set_info S.datasets) s
        (record (set_info (dataset S s)) { floor = max (floor_of S s) (n + 1) }) }
    ensures index { (S : State) (s n : ℕ) → IsValid S
        → map (λ c. c.table) (delete S s n).containers
        ≡ without_ids (reclaimed_ids S (delete S s n)) (map (λ c. c.table) S.containers) }
    ensures tables { (K : Core) (s n : ℕ) (strays : List Named) (before after : List (ℕ × Table)) → IsCore K
        → K.job ≡ None → AreTables before (listed K)
        → ((id : ℕ)
        → table_at after id
        ≡ (if has id (reclaimed_ids K.state (delete K.state s n)) && not (has id (pinned_ids K.pins))
        then None else table_at before id))
        → AreTables after (listed (after_delete s n strays K)) }
{}

/// A deletion keeps what a keeper keeps, whether its floor's write was done or may have been; and the names that go with
/// it may be taken out.
pub fn a_deletion_keeps_a_core()
    ensures done { (K : Core) (s n : ℕ) (strays : List Named) → IsCore K → s < length K.state.datasets
        → n < latest_of K.state s → K.job ≡ None → IsCore (after_delete s n strays K) }
    ensures held { (K : Core) (s n : ℕ) (strays : List Named) (m : Blobs) → IsCore K
        → s < length K.state.datasets → n < latest_of K.state s → K.job ≡ None → K.other ≡ None
        → AreStraysAfter K s n strays → Held m K
        → Held (with_blob m (floor_name s) (Some (floor_bytes s (max (floor_of K.state s) (n + 1)))))
        (after_delete s n strays K) }
    ensures may_go { (K : Core) (s n : ℕ) (strays : List Named) (m : Blobs) → IsCore K
        → s < length K.state.datasets → n < latest_of K.state s → K.job ≡ None → K.other ≡ None
        → AreStraysAfter K s n strays → Held m K → CanClean (after_delete s n strays K) }
    ensures half { (K : Core) (s n : ℕ) → IsCore K → s < length K.state.datasets → n < latest_of K.state s
        → IsCore (after_refused (Some (delete_change s n K.state)) None K.strays (pending.FailedFor s) K) }
    ensures half_held { (K : Core) (s n : ℕ) (m c : Blobs) → IsCore K → s < length K.state.datasets
        → n < latest_of K.state s → K.job ≡ None → K.other ≡ None → Held m K
        → (c ≡ m) ⊎ (c ≡ with_blob m (floor_name s) (Some (floor_bytes s (max (floor_of K.state s) (n + 1)))))
        → Held c (after_refused (Some (delete_change s n K.state)) None K.strays (pending.FailedFor s) K) }
{}

/// A release keeps what a keeper keeps, also while a write is half done and a job is open; and the names of containers
/// that nothing needs behind it may be taken out.
pub fn a_release_keeps_a_core()
    ensures done { (K : Core) (number : ℕ) (strays : List Named) → IsCore K
        → IsCore (after_release number strays K) }
    ensures held { (K : Core) (number : ℕ) (strays : List Named) (m : Blobs) → IsCore K
        → AreStraysReleased K number strays → Held m K → Held m (after_release number strays K) }
    ensures may_go { (K : Core) (number : ℕ) (q : Named) → IsCore K → IsReleased K number q
        → IsIdle K.state K.other q None }
    ensures not_put { (K : Core) (number : ℕ) (q : Named) → IsCore K → IsReleased K number q
        → IsContainerName (put_by K.job) q → ⊥ }
    ensures tables { (K : Core) (number : ℕ) (strays : List Named) (before after : List (ℕ × Table))
        → IsCore K → AreAlike K.pins → AreTables before (listed K)
        → ((id : ℕ) → table_at after id ≡ (if is_released K number id then None else table_at before id))
        → AreTables after (listed (after_release number strays K)) }
{}
