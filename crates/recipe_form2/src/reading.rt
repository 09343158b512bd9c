// Reading a recipe in format 2.
ghost use Rattle.std.specs.Prelude.{◌≡◌, IfOk, IsErrOf};
ghost use Rattle.vault_types.specs.declared.Recipe.{Recipe as Recipes};
ghost use Rattle.blob_parts.specs.Reading.{ReadsAs};
ghost use Rattle.recipe_form2.specs.Spelling.{SpellsRecipe2, IsNoRecipe2};
ghost use Rattle.recipe_form2.specs.Reading.{row_at, run_at, runs_at, all_runs_at, rows_at, recipe_at};
ghost use Rattle.recipe_form2.specs.Runs.{run_seen};

use blob_parts::{
    FieldReader, Unread, body_of, fp_at, has_rules, ids_at, list_at, tag_at, u32_at, u64_at,
};
use std::alloc::Global;
use vault_types::list::ListOf;
use vault_types::{Id, Memory, Recipe, Row, Set, Version};

// `DRC2`
const TAG: u32 = 0x4452_4332;

// Neighbouring rows of one container.
#[derive(Drop)]
struct Run {
    id: Id,
    rows: Vec<Row>,
}

/// The recipe of a version of a set that the bytes spell in format 2.
pub fn read_recipe(
    alloc: Global,
    bytes: &[u8],
    set: Set,
    version: Version,
) -> Result<Recipe, Unread>
    ensures found { IfOk result (λ r. SpellsRecipe2 set version bytes.now r) }
    ensures none { IsErrOf result Unread.Spelling → IsNoRecipe2 set version bytes.now }
{
    let Some(body) = body_of(bytes, set) else {
        return Err(Unread::Spelling);
    };
    let (recipe, rest) = recipe_at(alloc, body, set)?;
    if !rest.is_empty() || recipe.version != version {
        return Err(Unread::Spelling);
    }
    if !has_rules(alloc, &recipe)? {
        return Err(Unread::Spelling);
    }
    Ok(recipe)
}

// All of a recipe of this set but the sum of the blob, and what is behind it.
#[tactic(auto, unfolding(crate::specs::Reading::recipe_at))]
fn recipe_at(alloc: Global, bytes: &[u8], set: Set) -> Result<(Recipe, &[u8]), Unread>
    ensures { ReadsAs (λ x. (x.0, x.1.now)) result (recipe_at set bytes.now) }
{
    let rest = tag_at(bytes, TAG)?;
    let (version, rest) = u32_at(rest)?;
    let (next, rest) = u64_at(rest)?;
    let (length, rest) = u64_at(rest)?;
    let (whole, rest) = fp_at(rest)?;
    let (rows, rest) = rows_at(alloc, rest)?;
    let (sparse, rest) = ids_at(alloc, rest)?;
    let recipe = Recipe {
        set,
        version,
        next,
        length,
        rows: ListOf::from_vec(rows),
        sparse: ListOf::from_vec(sparse),
        whole: Some(whole),
    };
    Ok((recipe, rest))
}

fn rows_at(alloc: Global, bytes: &[u8]) -> Result<(Vec<Row>, &[u8]), Unread>
    ensures { ReadsAs (λ x. (x.0.items, x.1.now)) result (rows_at bytes.now) }
{
    let (rows, rest) = all_runs_at(alloc, bytes)?;
    if rows.len() >= 4_294_967_296 {
        return Err(Unread::Spelling);
    }
    Ok((rows, rest))
}

fn all_runs_at(alloc: Global, bytes: &[u8]) -> Result<(Vec<Row>, &[u8]), Unread>
    ensures { ReadsAs (λ x. (x.0.items, x.1.now)) result (all_runs_at bytes.now) }
{
    let (count, rest) = u32_at(bytes)?;
    runs_at(alloc, count, rest)
}

fn runs_at(alloc: Global, count: u32, bytes: &[u8]) -> Result<(Vec<Row>, &[u8]), Unread>
    ensures { ReadsAs (λ x. (x.0.items, x.1.now)) result (runs_at 0 count bytes.now) }
{
    let mut rows = Vec::new(alloc);
    let mut before = 0;
    let mut rest = bytes;
    'runs: for _ in 0..count {
        let (run, after) = run_at(alloc, before, rest)?;
        rows.extend_from_slice(run.rows.as_slice())?;
        before = run.id;
        rest = after;
    }
    Ok((rows, rest))
}

fn run_at(alloc: Global, before: Id, bytes: &[u8]) -> Result<(Run, &[u8]), Unread>
    ensures { ReadsAs (λ x. (run_seen x.0.id x.0.rows.items, x.1.now)) result (run_at before bytes.now) }
{
    let (id, rest) = u64_at(bytes)?;
    let (rows, rest) = list_at(alloc, 24, &RunRows { id }, rest)?;
    if id == before || rows.is_empty() {
        return Err(Unread::Spelling);
    }
    Ok((Run { id, rows }, rest))
}

// The rows of a run of this container.
#[derive(Drop)]
struct RunRows {
    id: Id,
}

impl FieldReader for RunRows {
    type Item = Row;

    ghost field = { λ s. row_at s.id };

    fn read<'a>(&self, bytes: &'a [u8]) -> Result<(Row, &'a [u8]), Unread> {
        let (fp, rest) = fp_at(bytes)?;
        let (len, rest) = u32_at(rest)?;
        let id = self.id;
        Ok((Row { fp, id, len }, rest))
    }
}
