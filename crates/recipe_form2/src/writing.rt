// Writing a recipe in format 2.
ghost use Rattle.std.specs.Prelude.{◌≡◌, ◌++◌, ◌<◌, ◌≤◌, ◌^◌, length, flat_map, ◌∷◌, IfOk, OnOk};
ghost use Rattle.vault_types.specs.Blobs.{recipe_bytes, recipe_bytes_2, row_bytes_2, run_bytes, runs_of, IsRecipe};
ghost use Rattle.recipe_form2.specs.Spelling.{IsRecipe2};
ghost use Rattle.recipe_form2.specs.Runs.{front_len};

use blob_parts::{push_sparse, push_sum, push_u32, push_u64};
use std::alloc::{AllocError, Global};
use vault_types::{Fp, Id, Memory, Recipe, Row};

/// The blob of a recipe that has the sum of its version.
pub fn encode2(alloc: Global, recipe: &Recipe) -> Result<Vec<u8>, Memory>
    requires { IsRecipe2 recipe.now }
    ensures { IfOk result (λ bytes. bytes.items ≡ recipe_bytes recipe.now) }
{
    match recipe.whole {
        Some(whole) => encode_with(alloc, recipe, whole),
        None => unreachable!(),
    }
}

// The blob of a recipe whose version has this sum.
fn encode_with(alloc: Global, recipe: &Recipe, whole: Fp) -> Result<Vec<u8>, Memory>
    requires { IsRecipe recipe.now }
    ensures { IfOk result (λ bytes. bytes.items ≡ recipe_bytes_2 whole recipe.now) }
{
    let rows = recipe.rows.as_slice();
    let sparse = recipe.sparse.as_slice();
    let runs = run_count(rows);
    let mut blob = Vec::with_capacity(alloc, blob_len(runs, rows, sparse))?;
    blob.extend_from_slice(b"DRC2")?;
    push_u32(&mut blob, recipe.version)?;
    push_u64(&mut blob, recipe.next)?;
    push_u64(&mut blob, recipe.length)?;
    blob.extend_from_slice(&whole.0)?;
    push_u32(&mut blob, runs as u32)?;
    push_runs(&mut blob, rows)?;
    push_sparse(&mut blob, sparse)?;
    push_sum(&mut blob, recipe.set)?;
    Ok(blob)
}

fn blob_len(runs: usize, rows: &[Row], sparse: &[Id]) -> usize
    requires runs { runs < 2 ^ 32 }
    requires rows { length rows.now < 2 ^ 32 }
    requires sparse { length sparse.now < 2 ^ 32 }
{
    72 + 12 * runs + 24 * rows.len() + 8 * sparse.len()
}

// How many rows at the front are of this container.
fn front_len(id: Id, rows: &[Row]) -> usize
    ensures count { result ≡ front_len id rows.now }
    ensures within { result ≤ length rows.now }
{
    for (i, row) in rows.iter().enumerate() {
        if row.id != id {
            return i;
        }
    }
    rows.len()
}

// The first run, and the rows behind it.
fn split_run(rows: &[Row]) -> (Id, &[Row], &[Row])
    requires { 0 < length rows.now }
    ensures first { runs_of rows.now ≡ record { id = result.0; rows = result.1.now } ∷ runs_of result.2.now }
    ensures some { 0 < length result.1.now }
    ensures parts { rows.now ≡ result.1.now ++ result.2.now }
{
    let id = rows[0].id;
    let (run, rest) = rows.split_at(front_len(id, rows));
    (id, run, rest)
}

fn run_count(rows: &[Row]) -> usize
    ensures count { result ≡ length (runs_of rows.now) }
    ensures few { result ≤ length rows.now }
{
    let mut count = 0;
    let mut rest = rows;
    'runs: while !rest.is_empty() {
        let (_, _, others) = split_run(rest);
        count += 1;
        rest = others;
    }
    count
}

fn push_runs(blob: &mut Vec<u8>, rows: &[Row]) -> Result<(), AllocError>
    requires { length rows.now < 2 ^ 32 }
    ensures { OnOk result (blob.new.items ≡ blob.old.items ++ flat_map run_bytes (runs_of rows.now)) }
{
    let mut rest = rows;
    'runs: while !rest.is_empty() {
        let (id, run, others) = split_run(rest);
        push_run(blob, id, run)?;
        rest = others;
    }
    Ok(())
}

fn push_run(blob: &mut Vec<u8>, id: Id, rows: &[Row]) -> Result<(), AllocError>
    requires { length rows.now < 2 ^ 32 }
    ensures { OnOk result
        (blob.new.items ≡ blob.old.items ++ run_bytes (record { id = id; rows = rows.now })) }
{
    push_u64(blob, id)?;
    push_u32(blob, rows.len() as u32)?;
    push_rows(blob, rows)?;
    Ok(())
}

fn push_rows(blob: &mut Vec<u8>, rows: &[Row]) -> Result<(), AllocError>
    ensures { OnOk result (blob.new.items ≡ blob.old.items ++ flat_map row_bytes_2 rows.now) }
{
    for row in rows {
        blob.extend_from_slice(&row.fp.0)?;
        push_u32(blob, row.len)?;
    }
    Ok(())
}
