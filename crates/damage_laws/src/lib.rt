//! That damage is real: blobs of which a place is damaged first open as no state. An opening cites
//! it, and so does a run of the program's words over a sound shelf.
#![tactic(auto)]

ghost use Rattle.std.specs.Prelude.{ℕ};
ghost use Rattle.vault_types.specs.declared.Kind.{Kind};
ghost use Rattle.vault_types.specs.declared.Why.{Why};
ghost use Rattle.vault_types.specs.FirstDamage.{IsFirstDamage, Opens};
ghost use Rattle.vault_types.specs.Shelf.{Blobs};
ghost use Rattle.vault_types.specs.State.{State};

/// Blobs of which a place is damaged first open as no state: what is told as damage is in the way of
/// every state.
pub fn damaged_blobs_open_as_no_state()
    ensures { (m : Blobs) (k : Kind) (n : ℕ) (w : Why) (T : State) → IsFirstDamage m k n w → Opens m T → ⊥ }
{}
