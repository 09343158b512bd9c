//! A restore that runs beside lines, over a keeper, from its pin to its last load: what the keeper's
//! side of it knows (`specs/Entry`), that this stays known while other calls come, and that its calls
//! are steps of such a run. All of it are laws over the definitions: a call that runs such a restore
//! cites their proofs.
#![tactic(auto)]

ghost use Rattle.std.specs.Prelude.{◌≡◌, ◌≤◌, ◌+◌, ℕ, List, [], ◌∷◌, ◌++◌, drop, IsSome, Option, None, Some, Result};
ghost use Rattle.vault_types.specs.declared.Fault.{Fault};
ghost use Rattle.vault_types.specs.declared.Spot.{Spot};
ghost use Rattle.vault_types.specs.BlobDamage.{IsPayloadDamage, IsPayloadOf};
ghost use Rattle.vault_types.specs.Events.{Core};
ghost use Rattle.vault_types.specs.Tables.{Container};
ghost use Rattle.vault_traits.specs.Causes.{IsCause};
ghost use Rattle.beside_laws.specs.Steps.{LeavesState};
ghost use Rattle.restore_assembler.specs.Copying.{Copying};
ghost use Rattle.restore_assembler.specs.declared.payload.Payload.{Payload};
ghost use Rattle.restore_stage.specs.declared.Loaded.{Loaded};
ghost use Rattle.restore_stage.specs.declared.Loaded.TheVariants as loaded;
ghost use Rattle.keeper_catalog.specs.View.{HasCore, Keeps, View};
ghost use Rattle.keeper_core.specs.declared.pinning.Pinned.{Pinned};
ghost use Rattle.keeper_core.specs.Calls.{Lists};
ghost use Rattle.keeper_core.specs.Keeping.{IsKnownStray};
ghost use Rattle.keeper_core.specs.Pins.{PinsVersion};
ghost use Rattle.keeper_core.specs.Releases.{Releases};
ghost use Rattle.pin_laws.specs.Following.{Follows};
ghost use Rattle.serial_restore.specs.Going.{Stays};
ghost use Rattle.restore_turns.specs.Entry.{IsEntry, IsGoing, IsStateBeside};
ghost use Rattle.restore_turns.specs.Sent.{number_of};
ghost use Rattle.restore_turns.specs.Started.{IsPlanned};

/// A pin, a load and a release leave each state that a keeper keeps, beside any pins.
pub fn pins_loads_and_releases_leave_the_state()
    ensures pin { (v u : View) (s n : ℕ) (r : Result Pinned Fault) → HasCore v → PinsVersion s n v u r
        → LeavesState (λ k. k.told) IsStateBeside IsKnownStray v u }
    ensures load { (v u : View) → Stays v u → LeavesState (λ k. k.told) IsStateBeside IsKnownStray v u }
    ensures release { (v u : View) (number : ℕ) → Releases number v u
        → LeavesState (λ k. k.told) IsStateBeside IsKnownStray v u }
{}

/// What is known of a restore under its pin stays known beside calls that leave the pin.
pub fn a_restore_goes_on_beside_calls()
    ensures begins { (v u : View) (s n slots number : ℕ) (ids : List ℕ) (bytes : ℕ) (c : Copying)
        → IsPlanned v u s n slots number ids bytes c
        → IsEntry u u number c.spots ids 0 None [] × IsGoing 0 None [] }
    ensures beside { (u v w : View) (number : ℕ) (spots : List Spot) (loads : List ℕ) (got : ℕ)
        (met : Option ℕ) (sent : List Loaded)
        → IsEntry u v number spots loads got met sent → Follows v w number
        → v.told.faults ≤ w.told.faults
        → IsEntry u w number spots loads got met sent }
{}

/// The next load of its plan may be asked of the keeper. A payload that it gives is sent on; where
/// it fails, its fault is sent on, and the number of a store fault is met.
pub fn a_load_goes_on_with_a_restore()
    ensures asks { (u v : View) (number : ℕ) (spots : List Spot) (loads : List ℕ) (got : ℕ)
        (met : Option ℕ) (sent : List Loaded) (id : ℕ) (more : List ℕ)
        → IsEntry u v number spots loads got met sent → IsGoing got met sent → drop got loads ≡ id ∷ more
        → (K : Core) × (c : Container) × Keeps v K × Lists K.pins number id c }
    ensures gives { (u v w : View) (number : ℕ) (spots : List Spot) (loads : List ℕ) (got : ℕ)
        (met : Option ℕ) (sent : List Loaded) (more : List ℕ) (p : Payload)
        → IsEntry u v number spots loads got met sent → IsGoing got met sent
        → drop got loads ≡ p.id ∷ more → Stays v w
        → (IsSome v.told.blobs → (K : Core) (c : Container) → Keeps v K → Lists K.pins number p.id c
        → c.payload ≡ Some p.bytes.items)
        → ((K : Core) (c : Container) → Keeps v K → Lists K.pins number p.id c
        → IsPayloadOf c.table p.bytes.items)
        → IsEntry u w number spots loads (got + 1) met (sent ++ loaded.Payload p ∷ [])
        × IsGoing (got + 1) met (sent ++ loaded.Payload p ∷ []) }
    ensures fails { (u v w : View) (number : ℕ) (spots : List Spot) (loads : List ℕ) (got : ℕ)
        (met : Option ℕ) (sent : List Loaded) (id : ℕ) (more : List ℕ) (f : Fault)
        → IsEntry u v number spots loads got met sent → IsGoing got met sent → drop got loads ≡ id ∷ more
        → Stays v w
        → ((K : Core) (c : Container) → Keeps v K → Lists K.pins number id c
        → IsCause v.told.faults w.told.faults (IsPayloadDamage v.told.blobs c.table) f)
        → IsEntry u w number spots loads (got + 1) (number_of f) (sent ++ loaded.Failed f ∷ []) }
{}
