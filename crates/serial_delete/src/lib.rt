//! A deletion's line on one thread: what the keeper's call ensures is what the line is to do (`script_laws`), in each state
//! that the keeper keeps (`Keeping`).
#![tactic(auto)]

ghost use Rattle.std.specs.Prelude.{◌≡◌, ℕ, List, None};
ghost use Rattle.vault_types.specs.Events.{Pin};
ghost use Rattle.pin_laws.specs.Following.{Follows};
ghost use Rattle.store_model.specs.Calls.{DeletesLine};
ghost use Rattle.keeper_core.specs.Keeping.{IsStateWith, IsKnownStray};

use keeper_core::Keeper;
use vault_traits::Shelf;
use vault_types::{Answer, Fault, Set, Version};

/// Deletes the versions of a set through one that is not its latest. `LastVersion`, exactly where the version is not below
/// the latest; `StoreFault`, after which the set may have the new floor or not until a mending: the versions, the pins and
/// the strays are as before.
pub fn delete_plain<S: Shelf>(
    keeper: &mut Keeper<S>,
    set: Set,
    through: Version,
) -> Result<Answer, Fault>
    requires { keeper.old.job ≡ None }
    ensures line { (pins : List Pin) → DeletesLine (IsStateWith keeper.old pins) (IsStateWith keeper.new pins)
        (IsKnownStray keeper.old) (IsKnownStray keeper.new) set through keeper.old.told keeper.new.told
        result }
    ensures same { (keeper.new.job ≡ None) × (keeper.new.pins ≡ keeper.old.pins) }

    // Each pin stays, with its containers.
    ensures follows { (number : ℕ) → Follows keeper.old keeper.new number }
{
    keeper.keeps_some_core();
    keeper.delete_through(set, through)
}
