//! The parts of a keeper's calls: a mending, the two puts of a container, a commit, a raised floor, and the removal of
//! strays. None makes more than three shelf calls, but for the loop of removals. Each says what it does to every state
//! that the shelf may hold, and what a crash at any moment of it leaves.
#![tactic(auto)]

ghost use Rattle.std.specs.Prelude.{◌≡◌, ◌≢◌, ◌⊎◌, ◌≤◌, ◌<◌, ◌+◌, ◌-◌, ◌^◌, OnOk, IfOk, IsSome, IfSome, Option, Some, None, Err, length, Contains, vec_capacity, ℕ, List};
ghost use Rattle.vault_types.specs.declared.Name.{Name as Named};
ghost use Rattle.vault_types.specs.State.{State};
ghost use Rattle.vault_types.specs.Blobs.{floor_bytes, table_bytes, IsVersion};
ghost use Rattle.vault_types.specs.Shelf.{payload_name, table_name, recipe_name, floor_name, blob_at, Stands, HasContainer};
ghost use Rattle.vault_types.specs.Events.{Core, Change, IsNear};
ghost use Rattle.vault_traits.specs.Counts.{Rose};
ghost use Rattle.vault_traits.specs.Crash.{LeavesNowIfTold, LeavesOnlyIfTold};
ghost use Rattle.vault_traits.specs.Shelf.{blobs_with};
ghost use Rattle.vault_traits.specs.Causes.{HasCauses, HasStoreFault, IsUndamaged};
ghost use Rattle.state_laws.specs.Parts.{IsSpare, HeldIfTold, Mends, without_other, change, CanChange, Changes, with_strays, CanClean};

use container_store::Sealed;
use recipe_store::{put_floor, remove_recipe};
use std::alloc::Global;
use vault_traits::{Refused, Shelf};
use vault_types::{Fault, Name, Set, Version};

/// Puts a container: its payload and then its table. `StoreFault`, `Memory`.
pub fn put_container<S: Shelf>(alloc: Global, shelf: &mut S, sealed: &Sealed) -> Result<(), Fault>
    ensures there { OnOk result (IfSome (S.told shelf.new).blobs (λ m. HasContainer m sealed.now)) }
    ensures tells { IsSome (S.told shelf.old).blobs → IsSome (S.told shelf.new).blobs }
    ensures others { (q : Named) → q ≢ payload_name sealed.now.table.id → q ≢ table_name sealed.now.table.id
        → blob_at (S.told shelf.new).blobs q ≡ blob_at (S.told shelf.old).blobs q }
    ensures held { (K : Core) → IsSpare K (payload_name sealed.now.table.id) sealed.now.payload
        → IsSpare K (table_name sealed.now.table.id) (Some (table_bytes sealed.now.table))
        → HeldIfTold (S.told shelf.old).blobs K → HeldIfTold (S.told shelf.new).blobs K }

    // A crash at any moment leaves what it could leave before.
    ensures any_moment { (K : Core) → IsSpare K (payload_name sealed.now.table.id) sealed.now.payload
        → IsSpare K (table_name sealed.now.table.id) (Some (table_bytes sealed.now.table))
        → LeavesNowIfTold (S.told shelf.old).history (IsNear K.state K.other)
        → LeavesOnlyIfTold (S.told shelf.old).history (S.told shelf.new).history (IsNear K.state K.other) }
    ensures gets { (S.told shelf.new).gets ≡ (S.told shelf.old).gets }
    ensures causes { HasCauses (S.told shelf.old).faults (S.told shelf.new).faults IsUndamaged result }
{
    let _payload = sealed.payload();
    container_store::put(alloc, shelf, sealed)
}

/// Takes back what a write for this set may have left: the recipe of this version, the next of the set, goes, the floor
/// is written again, and both are settled. `StoreFault`. Takes no memory.
pub fn mend<S: Shelf>(
    shelf: &mut S,
    set: Set,
    version: Version,
    floor: Version,
) -> Result<(), Fault>
    requires { IsVersion floor }
    ensures held { (K : Core) → Mends K set version floor → HeldIfTold (S.told shelf.old).blobs K
        → HeldIfTold (S.told shelf.new).blobs K }
    ensures tells { IsSome (S.told shelf.old).blobs → IsSome (S.told shelf.new).blobs }
    ensures mended { OnOk result ((K : Core) → Mends K set version floor
        → HeldIfTold (S.told shelf.old).blobs K → HeldIfTold (S.told shelf.new).blobs (without_other K)) }
    ensures others { (q : Named) → q ≢ recipe_name set version → q ≢ floor_name set
        → blob_at (S.told shelf.new).blobs q ≡ blob_at (S.told shelf.old).blobs q }

    // A crash at any moment leaves one of the two states; behind an `Ok` only the one, whatever could be left before.
    ensures any_moment { (K : Core) → Mends K set version floor
        → LeavesNowIfTold (S.told shelf.old).history (IsNear K.state K.other)
        → LeavesOnlyIfTold (S.told shelf.old).history (S.told shelf.new).history (IsNear K.state K.other) }
    ensures acknowledged { OnOk result ((K : Core) → Mends K set version floor
        → HeldIfTold (S.told shelf.old).blobs K
        → LeavesNowIfTold (S.told shelf.new).history (IsNear K.state None)) }
    ensures gets { (S.told shelf.new).gets ≡ (S.told shelf.old).gets }
    ensures causes { HasStoreFault (S.told shelf.old).faults (S.told shelf.new).faults result }
{
    if remove_recipe(shelf, set, version).is_err() {
        return Err(Fault::StoreFault(shelf.faults()));
    }
    put_floor(shelf, set, floor)?;
    if shelf.settle().is_err() {
        return Err(Fault::StoreFault(shelf.faults()));
    }
    Ok(())
}

/// Why a commit stopped: nothing was written, or the recipe may be there, since the shelf failed.
#[derive(Clone, Copy, Debug, PartialEq, Eq)]
pub enum Halt {
    Before(Refused),
    Half,
}

/// Settles, puts the blob of a recipe and settles again.
pub fn commit<S: Shelf>(
    alloc: Global,
    shelf: &mut S,
    set: Set,
    version: Version,
    recipe: &[u8],
) -> Result<(), Halt>
    ensures ok { OnOk result
        ((S.told shelf.new).blobs
        ≡ blobs_with (S.told shelf.old).blobs (recipe_name set version) (Some recipe.now)) }
    ensures half { result ≡ Err Halt.Half → ((S.told shelf.new).blobs ≡ (S.told shelf.old).blobs)
        ⊎ ((S.told shelf.new).blobs
        ≡ blobs_with (S.told shelf.old).blobs (recipe_name set version) (Some recipe.now)) }
    ensures before { (r : Refused) → result ≡ Err (Halt.Before r)
        → (S.told shelf.new).blobs ≡ (S.told shelf.old).blobs }

    // A crash at any moment leaves the state from before or the one after; at `Ok` only the one after, and where nothing
    // was written the one from before.
    ensures any_moment { (A B : State)
        → CanChange (S.told shelf.old).blobs A (change (recipe_name set version) recipe.now B)
        → LeavesNowIfTold (S.told shelf.old).history (IsNear A None)
        → LeavesOnlyIfTold (S.told shelf.old).history (S.told shelf.new).history
        (IsNear A (Some (change (recipe_name set version) recipe.now B))) }
    ensures acknowledged { OnOk result ((A B : State)
        → CanChange (S.told shelf.old).blobs A (change (recipe_name set version) recipe.now B)
        → LeavesNowIfTold (S.told shelf.new).history (IsNear B None)) }
    ensures still { (r : Refused) → result ≡ Err (Halt.Before r) → (A : State)
        → LeavesNowIfTold (S.told shelf.old).history (IsNear A None)
        → LeavesOnlyIfTold (S.told shelf.old).history (S.told shelf.new).history (IsNear A None) }
    ensures gets { (S.told shelf.new).gets ≡ (S.told shelf.old).gets }
    ensures later { (S.told shelf.old).faults ≤ (S.told shelf.new).faults }
    ensures failed_half { result ≡ Err Halt.Half → Rose (S.told shelf.old).faults (S.told shelf.new).faults }
    ensures failed_before { result ≡ Err (Halt.Before Refused.Failed)
        → Rose (S.told shelf.old).faults (S.told shelf.new).faults }
{
    if shelf.settle().is_err() {
        return Err(Halt::Before(Refused::Failed));
    }
    match shelf.put(alloc, Name::recipe(set, version), recipe) {
        Ok(()) => (),
        Err(Refused::Memory) => return Err(Halt::Before(Refused::Memory)),
        Err(Refused::Failed) => return Err(Halt::Half),
    }
    if shelf.settle().is_err() {
        return Err(Halt::Half);
    }
    Ok(())
}

/// Writes the floor of a set and settles. `StoreFault`. Takes no memory.
pub fn raise_floor<S: Shelf>(shelf: &mut S, set: Set, floor: Version) -> Result<(), Fault>
    requires { IsVersion floor }
    ensures ok { OnOk result
        ((S.told shelf.new).blobs
        ≡ blobs_with (S.told shelf.old).blobs (floor_name set) (Some (floor_bytes set floor))) }
    ensures at_most { ((S.told shelf.new).blobs ≡ (S.told shelf.old).blobs)
        ⊎ ((S.told shelf.new).blobs
        ≡ blobs_with (S.told shelf.old).blobs (floor_name set) (Some (floor_bytes set floor))) }

    // A crash at any moment leaves the state from before or the one after; at `Ok` only the one after.
    ensures any_moment { (A B : State) → Changes A (change (floor_name set) (floor_bytes set floor) B)
        → LeavesNowIfTold (S.told shelf.old).history (IsNear A None)
        → LeavesOnlyIfTold (S.told shelf.old).history (S.told shelf.new).history
        (IsNear A (Some (change (floor_name set) (floor_bytes set floor) B))) }
    ensures acknowledged { OnOk result ((A B : State)
        → Changes A (change (floor_name set) (floor_bytes set floor) B)
        → IfSome (S.told shelf.old).blobs (λ m. Stands m A)
        → LeavesNowIfTold (S.told shelf.new).history (IsNear B None)) }
    ensures gets { (S.told shelf.new).gets ≡ (S.told shelf.old).gets }
    ensures causes { HasStoreFault (S.told shelf.old).faults (S.told shelf.new).faults result }
{
    put_floor(shelf, set, floor)?;
    if shelf.settle().is_err() {
        return Err(Fault::StoreFault(shelf.faults()));
    }
    Ok(())
}

/// Takes out the strays; those whose removal failed stay strays. Takes no memory.
pub fn clean<S: Shelf>(shelf: &mut S, strays: &mut Vec<Name>)
    ensures held { (K : Core) → K.strays ≡ strays.old.items → CanClean K
        → HeldIfTold (S.told shelf.old).blobs K
        → HeldIfTold (S.told shelf.new).blobs (with_strays strays.new.items K) }
    ensures any_moment { (K : Core) → K.strays ≡ strays.old.items → CanClean K
        → LeavesNowIfTold (S.told shelf.old).history (IsNear K.state K.other)
        → LeavesOnlyIfTold (S.told shelf.old).history (S.told shelf.new).history (IsNear K.state K.other) }
    ensures within { (n : Named) → Contains strays.new.items n → Contains strays.old.items n }

    // At most one name is left for each failure.
    ensures few { (S.told shelf.new).faults < 2 ^ 64 - 1
        → length strays.new.items + (S.told shelf.old).faults ≤ (S.told shelf.new).faults }
    ensures room { vec_capacity strays.new ≡ vec_capacity strays.old }
    ensures gets { (S.told shelf.new).gets ≡ (S.told shelf.old).gets }
    ensures later { (S.told shelf.old).faults ≤ (S.told shelf.new).faults }
{
    let mut left = strays.len();
    while left > 0 {
        left -= 1;
        if shelf.remove(strays[left]).is_ok() {
            strays.remove(left);
        }
    }
}
