//! All versions.
ghost use Rattle.std.specs.Prelude.{◌≡◌, None, Option, IfErr, IfOk};
ghost use Rattle.vault_types.specs.State.{State};
ghost use Rattle.vault_types.specs.Events.{Change};
ghost use Rattle.store_model.specs.Migrating.{MigratesStore};
ghost use Rattle.keeper_core.specs.Keeping.{IsStateOf, IsKnownStray};
ghost use Rattle.serial_migrate.specs.Going.{IsLaterOf, IsMigrateFault, AllDone, HasEndedBy};

use crate::one::migrate_one;
use keeper_core::Keeper;
use std::alloc::Global;
use vault_traits::Shelf;
use vault_types::{Answer, Fault, Set};

// Goes through the versions by set and number, and says how many recipes it put again.
fn migrate_all<S: Shelf>(alloc: Global, keeper: &mut Keeper<S>) -> Result<u64, Fault>
    requires no_job { keeper.old.job ≡ None }
    ensures later { IsLaterOf keeper.old keeper.new }
    ensures ok { IfOk result (λ recipes. (T : State) (other : Option Change) → IsStateOf keeper.old T other
        → AllDone keeper.old keeper.new T other recipes) }
    ensures cause { IfErr result (IsMigrateFault keeper.old keeper.new) }
    ensures err { IfErr result (λ f. (T : State) (other : Option Change) → IsStateOf keeper.old T other
        → HasEndedBy keeper.old keeper.new T other f) }
{
    let mut recipes = 0u64;
    let mut number = 0u16;
    while number < 256 {
        let set = number as Set;
        let mut version = keeper.floor(set);
        while keeper.kept(set, version) {
            keeper.keeps_some_core();
            if migrate_one(alloc, keeper, set, version)? {
                recipes += 1;
            }
            version += 1;
        }
        number += 1;
    }
    Ok(recipes)
}

/// Puts every kept recipe of the first format again in the second, with the SHA-1 of its version, and answers how many
/// these were. Each such version is pinned and loaded with the fewest loads that 16 slots allow, and released again; the
/// versions stay as they are. `StoreFault`, where the shelf failed; `Damaged`, where a recipe or a payload is absent or
/// wrong, or where the bytes of a version have another SHA-1 than a recipe says; `Memory`. After an `Err` each recipe is as
/// it was or in the second format, and what a failed write may have left is mended by the next call that writes.
pub fn migrate_plain<S: Shelf>(alloc: Global, keeper: &mut Keeper<S>) -> Result<Answer, Fault>
    requires no_job { keeper.old.job ≡ None }
    ensures store { MigratesStore (IsStateOf keeper.old) (IsStateOf keeper.new) (IsKnownStray keeper.old)
        (IsKnownStray keeper.new) keeper.old.told keeper.new.told result }
    ensures same { (keeper.new.job ≡ None) × (keeper.new.pins ≡ keeper.old.pins) }
{
    let recipes = migrate_all(alloc, keeper)?;
    Ok(Answer::Migrated { recipes })
}
