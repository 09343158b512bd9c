//! A kept recipe in format 2: it takes the place of the recipe that its version has. The version stays as it is, so that
//! a crash at any moment leaves the state.
#![tactic(auto)]

ghost use Rattle.std.specs.Prelude.{◌≡◌, ◌⊎◌, OnOk, IfErr, IfSome, Some, None, IsErrOf};
ghost use Rattle.vault_types.specs.declared.Fault.TheVariants as fault;
ghost use Rattle.vault_types.specs.State.{State};
ghost use Rattle.vault_types.specs.Blobs.{recipe_bytes, IsRecipe};
ghost use Rattle.vault_types.specs.Shelf.{recipe_name, Stands};
ghost use Rattle.vault_types.specs.Events.{Core, IsNear};
ghost use Rattle.vault_traits.specs.Crash.{LeavesNowIfTold, LeavesOnlyIfTold};
ghost use Rattle.vault_traits.specs.Shelf.{blobs_with, IsAsBefore};
ghost use Rattle.vault_traits.specs.Causes.{HasCauses, IsUndamaged};
ghost use Rattle.state_laws.specs.Parts.{HeldIfTold};
ghost use Rattle.recipe_replacement.specs.Replacing.{IsRecipeOfIfTold, waits_after};

use recipe_store::put_recipe;
use std::alloc::Global;
use vault_traits::Shelf;
use vault_types::{Fault, Pending, Recipe};

/// Puts the recipe of a version that is kept, and settles it. `Memory`, after which nothing has changed, and then
/// `StoreFault`, after which the version has its old or its new recipe, and a mending of its set is due.
pub fn replace_recipe<S: Shelf>(
    alloc: Global,
    shelf: &mut S,
    pending: &mut Pending,
    recipe: &Recipe,
) -> Result<(), Fault>
    requires { IsRecipe recipe.now }
    ensures ok { OnOk result
        ((S.told shelf.new).blobs
        ≡ blobs_with (S.told shelf.old).blobs (recipe_name recipe.now.set recipe.now.version)
        (Some (recipe_bytes recipe.now))) }
    ensures at_most { ((S.told shelf.new).blobs ≡ (S.told shelf.old).blobs)
        ⊎ ((S.told shelf.new).blobs
        ≡ blobs_with (S.told shelf.old).blobs (recipe_name recipe.now.set recipe.now.version)
        (Some (recipe_bytes recipe.now))) }
    ensures held { (K : Core) → K.other ≡ None → IsRecipeOfIfTold (S.told shelf.old).blobs K.state recipe.now
        → HeldIfTold (S.told shelf.old).blobs K → HeldIfTold (S.told shelf.new).blobs K }

    // A crash at any moment leaves the state, with the old or the new recipe; so it does at `Ok`, whatever could be left
    // before.
    ensures any_moment { (A : State) → IsRecipeOfIfTold (S.told shelf.old).blobs A recipe.now
        → LeavesNowIfTold (S.told shelf.old).history (IsNear A None)
        → LeavesOnlyIfTold (S.told shelf.old).history (S.told shelf.new).history (IsNear A None) }
    ensures acknowledged { OnOk result ((A : State) → IsRecipeOfIfTold (S.told shelf.old).blobs A recipe.now
        → IfSome (S.told shelf.old).blobs (λ m. Stands m A)
        → LeavesNowIfTold (S.told shelf.new).history (IsNear A None)) }
    ensures due { IfErr result (λ f. pending.new ≡ waits_after f recipe.now pending.old) }
    ensures not_due { OnOk result (pending.new ≡ pending.old) }
    ensures memory { IsErrOf result fault.Memory → IsAsBefore (S.told shelf.old) (S.told shelf.new) }
    ensures gets { (S.told shelf.new).gets ≡ (S.told shelf.old).gets }
    ensures causes { HasCauses (S.told shelf.old).faults (S.told shelf.new).faults IsUndamaged result }
{
    match put_recipe(alloc, shelf, recipe) {
        Ok(()) => (),
        Err(fault) => {
            *pending = waits_after(&fault, recipe, *pending);
            return Err(fault);
        }
    }
    if shelf.settle().is_err() {
        *pending = Pending::FailedFor(recipe.set);
        return Err(Fault::StoreFault(shelf.faults()));
    }
    Ok(())
}

fn waits_after(fault: &Fault, recipe: &Recipe, pending: Pending) -> Pending
    ensures { result ≡ waits_after fault.now recipe.now pending }
{
    match fault {
        Fault::StoreFault(_) => Pending::FailedFor(recipe.set),
        _ => pending,
    }
}
