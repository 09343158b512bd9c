//! That a backup is what its line is to do: from the record that any backup over a keeper ensures, whoever reads the stream.
//! Nothing here runs.
#![tactic(auto)]

ghost use Rattle.std.specs.Prelude.{ℕ, List, Result};
ghost use Rattle.vault_types.specs.declared.Answer.{Answer};
ghost use Rattle.vault_types.specs.declared.Fault.{Fault};
ghost use Rattle.vault_types.specs.declared.JobConfig.{JobConfig};
ghost use Rattle.vault_types.specs.declared.Limits.{Limits};
ghost use Rattle.vault_types.specs.Events.{Pin};
ghost use Rattle.vault_types.specs.JobRanges.{IsCuttable};
ghost use Rattle.vault_traits.specs.Told.{SourceTold};
ghost use Rattle.store_model.specs.Calls.{BacksUpLine};
ghost use Rattle.keeper_catalog.specs.View.{HasCore, View};
ghost use Rattle.pin_laws.specs.Following.{Follows};
ghost use Rattle.keeper_core.specs.Keeping.{IsKnownStray, IsStateWith};
ghost use Rattle.backup_jobs.specs.Backup.{BacksUp};

/// A backup is what its line is to do, in each state that the keeper keeps with these pins; and each pin stays over it, with
/// its containers.
pub fn backups_are_their_lines()
    ensures line { (u v : View) (set : ℕ) (config : JobConfig) (limits : Limits) (from to : SourceTold)
        (result : Result Answer Fault) → HasCore u → IsCuttable config.cutting
        → BacksUp set config limits u v from to result
        → (pins : List Pin)
        → BacksUpLine (IsStateWith u pins) (IsStateWith v pins) (IsKnownStray u) (IsKnownStray v)
        limits set config u.told v.told from to result }
    ensures follows { (set : ℕ) (config : JobConfig) (limits : Limits) (u v : View) (from to : SourceTold)
        (result : Result Answer Fault) → BacksUp set config limits u v from to result → (number : ℕ)
        → Follows u v number }
{}
