//! The second format of recipes: neighbouring rows of one container make a run, and the recipe has the sum of the
//! version's bytes.
#![tactic(auto)]

mod reading;
mod writing;

ghost use Rattle.std.specs.Prelude.{◌≡◌, ◌++◌, ℕ, List, [], Some, None, Ok};
ghost use Rattle.vault_types.specs.declared.Recipe.{Recipe as Recipes};
ghost use Rattle.recipe_form2.specs.Spelling.{SpellsRecipe2, IsNoRecipe2};

use crate::reading::read_recipe;
use blob_parts::Unread;
use std::alloc::Global;
use vault_types::{Memory, Recipe, Set, Version};
pub use writing::encode2;

/// The recipe of a version of a set that the bytes spell in format 2, or none exactly where they spell none.
pub fn decode2(
    alloc: Global,
    bytes: &[u8],
    set: Set,
    version: Version,
) -> Result<Option<Recipe>, Memory>
    ensures found { (r : _) → result ≡ Ok (Some r) → SpellsRecipe2 set version bytes.now r }
    ensures none { result ≡ Ok None → IsNoRecipe2 set version bytes.now }
{
    match read_recipe(alloc, bytes, set, version) {
        Ok(recipe) => Ok(Some(recipe)),
        Err(Unread::Spelling) => Ok(None),
        Err(Unread::Memory) => Err(Memory),
    }
}

/// Of the recipes that have a sum of their version, each has one spelling, and no spelling begins another of the same
/// version.
pub fn recipes_are_told_apart()
    ensures one { (s v : ℕ) (r : Recipes) (a b : List ℕ) → SpellsRecipe2 s v a r → SpellsRecipe2 s v b r
        → a ≡ b }
    ensures apart { (s v : ℕ) (r q : Recipes) (a b more : List ℕ) → SpellsRecipe2 s v a r
        → SpellsRecipe2 s v b q → a ++ more ≡ b → (r ≡ q) × (more ≡ []) }
{}
