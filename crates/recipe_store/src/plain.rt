// Recipes of the first format, which have no sum of their version.
ghost use Rattle.std.specs.Prelude.{◌≡◌, ◌++◌, ◌<◌, ◌^◌, length, flat_map, None, IfOk, OnOk, IsErrOf};
ghost use Rattle.std.specs.Int.{w64};
ghost use Rattle.vault_types.specs.declared.Recipe.{Recipe as Recipes};
ghost use Rattle.vault_types.specs.Blobs.{recipe_bytes_1, row_bytes_1, IsRecipe, SpellsRecipe};
ghost use Rattle.blob_parts.specs.Reading.{ReadsAs};
ghost use Rattle.recipe_store.specs.Plain.{row_at, plain_at};

use blob_parts::{
    FieldReader, Unread, body_of, fp_at, has_rules, ids_at, list_at, push_sparse, push_sum,
    push_u32, push_u64, tag_at, u32_at, u64_at,
};
use std::alloc::{AllocError, Global};
use vault_types::list::ListOf;
use vault_types::{Id, Memory, Recipe, Row, Set, Version};

// `DRC1`
const TAG: u32 = 0x4452_4331;

/// The blob of a recipe in format 1.
pub fn encode_plain(alloc: Global, recipe: &Recipe) -> Result<Vec<u8>, Memory>
    requires { IsRecipe recipe.now }
    ensures { IfOk result (λ bytes. bytes.items ≡ recipe_bytes_1 recipe.now) }
{
    let rows = recipe.rows.as_slice();
    let sparse = recipe.sparse.as_slice();
    let mut blob = Vec::with_capacity(alloc, blob_len(rows, sparse))?;
    blob.extend_from_slice(b"DRC1")?;
    push_u32(&mut blob, recipe.version)?;
    push_u64(&mut blob, recipe.next)?;
    push_u64(&mut blob, recipe.length)?;
    push_u32(&mut blob, rows.len() as u32)?;
    push_rows(&mut blob, rows)?;
    push_sparse(&mut blob, sparse)?;
    push_sum(&mut blob, recipe.set)?;
    Ok(blob)
}

fn blob_len(rows: &[Row], sparse: &[Id]) -> usize
    requires rows { length rows.now < 2 ^ 32 }
    requires sparse { length sparse.now < 2 ^ 32 }
{
    52 + 32 * rows.len() + 8 * sparse.len()
}

fn push_rows(blob: &mut Vec<u8>, rows: &[Row]) -> Result<(), AllocError>
    ensures { OnOk result (blob.new.items ≡ blob.old.items ++ flat_map row_bytes_1 rows.now) }
{
    for row in rows {
        blob.extend_from_slice(&row.fp.0)?;
        push_u64(blob, row.id)?;
        push_u32(blob, row.len)?;
    }
    Ok(())
}

/// The recipe of a version of a set that the bytes spell in format 1.
pub fn read_plain(alloc: Global, bytes: &[u8], set: Set, version: Version) -> Result<Recipe, Unread>
    ensures found { IfOk result (λ r. SpellsRecipe set version bytes.now r) }
    ensures none { IsErrOf result Unread.Spelling → (r : Recipes) → r.whole ≡ None
        → SpellsRecipe set version bytes.now r → ⊥ }
{
    let Some(body) = body_of(bytes, set) else {
        return Err(Unread::Spelling);
    };
    let (recipe, rest) = plain_at(alloc, body, set)?;
    if !rest.is_empty() || recipe.version != version {
        return Err(Unread::Spelling);
    }
    if !has_rules(alloc, &recipe)? {
        return Err(Unread::Spelling);
    }
    Ok(recipe)
}

// All of a recipe of this set but the sum of the blob, and what is behind it.
#[tactic(auto, unfolding(crate::specs::Plain::plain_at))]
fn plain_at(alloc: Global, bytes: &[u8], set: Set) -> Result<(Recipe, &[u8]), Unread>
    ensures { ReadsAs (λ x. (x.0, x.1.now)) result (plain_at set bytes.now) }
{
    let rest = tag_at(bytes, TAG)?;
    let (version, rest) = u32_at(rest)?;
    let (next, rest) = u64_at(rest)?;
    let (length, rest) = u64_at(rest)?;
    let (rows, rest) = list_at(alloc, 32, &Rows, rest)?;
    let (sparse, rest) = ids_at(alloc, rest)?;
    let recipe = Recipe {
        set,
        version,
        next,
        length,
        rows: ListOf::from_vec(rows),
        sparse: ListOf::from_vec(sparse),
        whole: None,
    };
    Ok((recipe, rest))
}

// The rows of a recipe in format 1.
struct Rows;

impl FieldReader for Rows {
    type Item = Row;

    ghost field = { λ s. row_at };

    fn read<'a>(&self, bytes: &'a [u8]) -> Result<(Row, &'a [u8]), Unread> {
        let (fp, rest) = fp_at(bytes)?;
        let (id, rest) = u64_at(rest)?;
        let (len, rest) = u32_at(rest)?;
        Ok((Row { fp, id, len }, rest))
    }
}
