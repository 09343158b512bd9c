//! A mending, where one is due.
ghost use Rattle.std.specs.Prelude.{◌≡◌, ◌≢◌, ◌<◌, ◌≤◌, ℕ, OnOk, OnErr, IsSome, None, length};
ghost use Rattle.vault_types.specs.State.{latest_of};
ghost use Rattle.vault_types.specs.Shelf.{blob_at, recipe_name};
ghost use Rattle.vault_types.specs.Events.{Core, IsNear};
ghost use Rattle.vault_traits.specs.Crash.{LeavesNowIfTold, LeavesOnlyIfTold};
ghost use Rattle.vault_traits.specs.Causes.{HasStoreFault};
ghost use Rattle.state_laws.specs.Parts.{HeldIfTold, without_other};
ghost use Rattle.keeper_jobs.specs.Jobs.{mended_by, Sees};

use keeper_catalog::SetInfo;
use keeper_parts::mend;
use vault_traits::Shelf;
use vault_types::{Fault, Pending, Set};

// The set that is mended.
fn mended_set(pending: Pending, set: Set) -> Option<Set>
    ensures { result ≡ mended_by pending set }
{
    match pending {
        Pending::Not => None,
        Pending::Opened => Some(set),
        Pending::FailedFor(failed) => Some(failed),
    }
}

/// Mends where a mending is due: after opening the given set, and after a failed write that of the refused line.
/// `StoreFault`, after which it is still due. Takes no memory.
pub fn mend_for<S: Shelf>(
    shelf: &mut S,
    sets: &[SetInfo],
    pending: &mut Pending,
    set: Set,
) -> Result<(), Fault>
    requires in_range { set < length sets.now }
    requires seen { (K : Core) × Sees sets.now pending.old K }
    ensures held { (K : Core) → Sees sets.now pending.old K → HeldIfTold (S.told shelf.old).blobs K
        → HeldIfTold (S.told shelf.new).blobs K }
    ensures mended { OnOk result ((K : Core) → Sees sets.now pending.old K
        → HeldIfTold (S.told shelf.old).blobs K → HeldIfTold (S.told shelf.new).blobs (without_other K)) }
    ensures tells { IsSome (S.told shelf.old).blobs → IsSome (S.told shelf.new).blobs }
    ensures recipes { (K : Core) → Sees sets.now pending.old K → (s v : ℕ) → v ≤ latest_of K.state s
        → blob_at (S.told shelf.new).blobs (recipe_name s v)
        ≡ blob_at (S.told shelf.old).blobs (recipe_name s v) }

    // A crash at any moment leaves what it could leave before; behind a mending that was due and succeeded only the state.
    ensures any_moment { (K : Core) → Sees sets.now pending.old K
        → LeavesNowIfTold (S.told shelf.old).history (IsNear K.state K.other)
        → LeavesOnlyIfTold (S.told shelf.old).history (S.told shelf.new).history (IsNear K.state K.other) }
    ensures acknowledged { OnOk result (pending.old ≢ Pending.Not → (K : Core) → Sees sets.now pending.old K
        → HeldIfTold (S.told shelf.old).blobs K
        → LeavesNowIfTold (S.told shelf.new).history (IsNear K.state None)) }
    ensures over { OnOk result (pending.new ≡ Pending.Not) }
    ensures waits { OnErr result (pending.new ≡ pending.old) }
    ensures gets { (S.told shelf.new).gets ≡ (S.told shelf.old).gets }
    ensures causes { HasStoreFault (S.told shelf.old).faults (S.told shelf.new).faults result }
{
    let Some(mended) = mended_set(*pending, set) else {
        return Ok(());
    };
    let info = &sets[mended as usize];
    mend(shelf, mended, info.latest + 1, info.floor)?;
    *pending = Pending::Not;
    Ok(())
}
