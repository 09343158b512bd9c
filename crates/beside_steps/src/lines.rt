// A line that answers at once.
ghost use Rattle.std.specs.Prelude.{◌≡◌, List, None};
ghost use Rattle.vault_types.specs.declared.Line.TheVariants as line;
ghost use Rattle.store_model.specs.Steps.{StepsLine};
ghost use Rattle.keeper_core.specs.Keeping.{IsKnownStray};
ghost use Rattle.restore_turns.specs.Entry.{IsStateBeside};
ghost use Rattle.beside_steps.specs.Holding.{BesideView, Holds};

use keeper_core::Keeper;
use serial_delete::delete_plain;
use vault_traits::{Places, Shelf};
use vault_types::{Answer, Limits, Set, Version};

/// A line that deletes versions.
pub fn delete_line<S: Shelf, P: Places>(
    keeper: &mut Keeper<S>,
    set: Set,
    through: Version,
    places: &P,
    limits: &Limits,
) -> Answer
    requires no_job { keeper.old.job ≡ None }
    ensures steps { StepsLine (λ k. k.told) IsStateBeside IsKnownStray limits.now
        (record { keeper = keeper.old; places = P.told places.now })
        (line.Delete set through) result
        (record { keeper = keeper.new; places = P.told places.now }) }
    ensures holds { (es : List BesideView) → Holds keeper.old (P.told places.now).files es
        → Holds keeper.new (P.told places.now).files es }
{
    match delete_plain(keeper, set, through) {
        Ok(answer) => answer,
        Err(fault) => Answer::Refused(fault),
    }
}
