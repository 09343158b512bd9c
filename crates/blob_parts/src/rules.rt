// Whether a recipe that was read keeps the rules of recipes.
ghost use Rattle.std.specs.Prelude.{◌≡◌, true, ◌↔◌, ◌≤◌, ◌<◌, ◌^◌, ℕ, [], All, Contains, IsTrue, IfOk, IfSome, map, nat_eq};
ghost use Rattle.std.specs.HashSet as bag;
ghost use Rattle.std.specs.List.{AllByRecursion};
ghost use Rattle.sha1.specs.Sha1.{sha1};
ghost use Rattle.vault_types.specs.Lists.{has, IsAscending};
ghost use Rattle.vault_types.specs.State.{length_of};
ghost use Rattle.vault_types.specs.Blobs.{IsRecipe};
ghost use Rattle.blob_parts.specs.Recipes.{HasWidths};

use sha1::Sha1;
use std::alloc::Global;
use std::collections::HashSet;
use vault_types::{Fp, Id, Memory, Recipe, Row};

/// Whether the recipe keeps the rules of recipes.
pub fn has_rules(alloc: Global, recipe: &Recipe) -> Result<bool, Memory>
    requires { HasWidths recipe.now }
    ensures yes { IfOk result (λ b. IsTrue b → IsRecipe recipe.now) }
    ensures no { IfOk result (λ b. IsRecipe recipe.now → IsTrue b) }
{
    let rows = recipe.rows.as_slice();
    let sparse = recipe.sparse.as_slice();
    if recipe.version < 1 || recipe.version > 4_294_967_294 {
        return Ok(false);
    }
    if recipe.next < 1 || recipe.next > 9_223_372_036_854_775_808 {
        return Ok(false);
    }
    if !are_below(rows, recipe.next) || total_len(rows) != recipe.length {
        return Ok(false);
    }
    if !has_sum_of_none(rows, &recipe.whole) || !is_ascending(sparse) {
        return Ok(false);
    }
    Ok(are_used(alloc, rows, sparse)?)
}

fn are_below(rows: &[Row], next: Id) -> bool
    ensures { IsTrue result ↔ All (λ r. (1 ≤ r.id) × (r.id < next) × (1 ≤ r.len) × (r.len ≤ 65536)) rows.now }
{
    rows.iter().all(|row| 1 <= row.id && row.id < next && 1 <= row.len && row.len <= 65_536)
}

fn total_len(rows: &[Row]) -> u64
    requires { length_of rows.now < 2 ^ 64 }
    ensures { result ≡ length_of rows.now }
{
    rows.iter().map(|row| u64::from(row.len)).sum()
}

// Whether a version without rows has the sum of no bytes.
fn has_sum_of_none(rows: &[Row], whole: &Option<Fp>) -> bool
    ensures { IsTrue result ↔ (rows.now ≡ [] → IfSome whole.now (λ w. w.0 ≡ sha1 [])) }
{
    match whole {
        Some(whole) => !rows.is_empty() || whole.0 == Sha1::digest(b""),
        None => true,
    }
}

fn is_ascending(ids: &[Id]) -> bool
    ensures yes { IsTrue result → IsAscending ids.now }
    ensures no { IsAscending ids.now → IsTrue result }
{
    for i in 1..ids.len() {
        if ids[i - 1] >= ids[i] {
            return false;
        }
    }
    true
}

fn are_used(alloc: Global, rows: &[Row], sparse: &[Id]) -> Result<bool, Memory>
    ensures yes { IfOk result (λ b. IsTrue b
        → AllByRecursion (λ c. Contains (map (λ r. r.id) rows.now) c) sparse.now) }
    ensures no { IfOk result (λ b. AllByRecursion (λ c. Contains (map (λ r. r.id) rows.now) c) sparse.now
        → IsTrue b) }
{
    if sparse.is_empty() {
        return Ok(true);
    }
    let ids = ids_of(alloc, rows)?;
    Ok(are_among(&ids, sparse))
}

fn are_among(ids: &HashSet<Id>, sparse: &[Id]) -> bool
    ensures { IsTrue result ↔ All (λ c. bag.contains nat_eq ids.now c ≡ true) sparse.now }
{
    sparse.iter().all(|id| ids.contains(id))
}

// The ids that the rows name.
fn ids_of(alloc: Global, rows: &[Row]) -> Result<HashSet<Id>, Memory>
    ensures { IfOk result (λ ids. (q : ℕ) → bag.contains nat_eq ids q ≡ has q (map (λ r. r.id) rows.now)) }
{
    let mut ids = HashSet::new(alloc);
    for row in rows {
        ids.insert(row.id)?;
    }
    Ok(ids)
}
