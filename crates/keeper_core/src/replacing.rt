//! Recipes of the first format get the sums of their versions.
ghost use Rattle.std.specs.Prelude.{◌≡◌, ◌≢◌, ◌≤◌, ◌⊎◌, ◌==◌, ℕ, [], length, None, Some, IsSome, IsTrue, IfErr, OnOk, OnErr, if◌then◌else◌};
ghost use Rattle.vault_types.specs.Names.{fp, IsFp};
ghost use Rattle.vault_types.specs.State.{KeptVersion, latest_of, version_of, recipe_of, is_kept};
ghost use Rattle.vault_types.specs.Blobs.{recipe_bytes_2};
ghost use Rattle.vault_types.specs.Shelf.{recipe_name, blob_at, Has};
ghost use Rattle.vault_types.specs.Events.{Core, IsNear, after_mend};
ghost use Rattle.vault_traits.specs.Crash.{LeavesNowIfTold, LeavesOnlyIfTold};
ghost use Rattle.vault_traits.specs.Causes.{HasCauses};
ghost use Rattle.vault_types.specs.BlobDamage.{IsRecipeDamage};
ghost use Rattle.keeper_catalog.specs.View.{Keeps};
ghost use Rattle.keeper_core.specs.Replacing.{Replaces};

use crate::keeper::Keeper;
use blob_parts::sum_of;
use recipe_replacement::replace_recipe;
use recipe_store::get_recipe;
use std::alloc::Global;
use vault_traits::Shelf;
use vault_types::{Fault, Fp, Pending, Recipe, Set, Version};

impl<S: Shelf> Keeper<S> {
    /// Puts the recipe of a kept version again, in format 2 with the SHA-1 of the version's bytes, and settles it; it has
    /// the sum of no bytes where the version has no rows. `StoreFault` of a mending that was due, of the get, or of the put
    /// or the settle, after which a mending of the set is due; `Damaged`, `Memory`. After an `Err` the version is kept as
    /// before, with its old or its new recipe.
    pub fn replace(
        &mut self,
        alloc: Global,
        set: Set,
        version: Version,
        whole: Fp,
    ) -> Result<(), Fault>
        requires no_job { self.old.job ≡ None }
        requires kept { (K : Core) → Keeps self.old K → IsTrue (is_kept K.state set version) }
        requires sum { IsFp whole }
        requires whole { IsSome self.old.told.blobs → (K : Core) (k : KeptVersion) → Keeps self.old K
            → version_of K.state set version ≡ Some k → whole ≡ k.sum }
        ensures { Replaces set version self.old self.new result }
    {
        self.mend_first(set)?;
        let recipe = get_recipe(alloc, &mut self.shelf, set, version)?;
        let recipe = with_whole(recipe, whole);
        replace_recipe(alloc, &mut self.shelf, &mut self.pending, &recipe)?;
        Ok(())
    }
}

// The recipe with the sum of its version's bytes, which are none where it has no rows.
fn with_whole(recipe: Recipe, whole: Fp) -> Recipe
    ensures { result ≡ record recipe { whole = Some (if length recipe.rows == 0 then fp [] else whole) } }
{
    let mut recipe = recipe;
    let whole = if recipe.rows.as_slice().is_empty() {
        Fp(sum_of(&[], 0))
    } else {
        whole
    };
    recipe.whole = Some(whole);
    recipe
}
