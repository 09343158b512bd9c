//! What a run of the command `scrub` promises, over any store. Nothing of it runs.
#![tactic(auto)]

ghost use Rattle.std.specs.Prelude.{◌≡◌, []};
ghost use Rattle.vault_types.specs.State.{State};
ghost use Rattle.vault_types.specs.Bytes.{IsSound};
ghost use Rattle.payload_health.specs.Findings.{bad_in};

/// In a sound state each payload is good.
pub fn sound_stores_are_good()
    ensures { (S : State) → IsSound S → bad_in S.containers ≡ [] }
{}
