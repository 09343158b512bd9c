//! What is printed of a recipe.
ghost use Rattle.std.specs.Prelude.{◌≡◌, ◌<◌, ◌≤◌, ◌++◌, length, take, flat_map, is_ok, OnOk, if◌then◌else◌};
ghost use Rattle.vault_types.specs.Texts as spec;
ghost use Rattle.script_words.specs.Parts.{head_text};

use crate::buffer::Buffer;
use vault_types::{Id, Memory, Recipe, Row};

/// Appends the text of a recipe: a line on the version, a line for each chunk, and one for each sparse container.
/// After `Memory` the text is as before.
pub fn show_text(recipe: &Recipe, out: &mut Vec<u8>) -> Result<(), Memory>
    ensures { out.new.items
        ≡ (if is_ok result then out.old.items ++ spec.recipe_text recipe.now else out.old.items) }
{
    let before = out.len();
    match add_recipe(recipe, out) {
        Ok(()) => Ok(()),
        Err(Memory) => {
            out.truncate(before);
            Err(Memory)
        }
    }
}

// Appends the text of a recipe, or some of it.
fn add_recipe(recipe: &Recipe, out: &mut Vec<u8>) -> Result<(), Memory>
    ensures ok { OnOk result (out.new.items ≡ out.old.items ++ spec.recipe_text recipe.now) }
    ensures keeps { take (length out.old.items) out.new.items ≡ out.old.items }
{
    out.extend_from_slice(head_line(recipe).as_slice())?;
    add_rows(recipe.rows.as_slice(), out)?;
    add_sparse(recipe.sparse.as_slice(), out)
}

fn add_rows(rows: &[Row], out: &mut Vec<u8>) -> Result<(), Memory>
    ensures ok { OnOk result (out.new.items ≡ out.old.items ++ flat_map spec.row_text rows.now) }
    ensures keeps { take (length out.old.items) out.new.items ≡ out.old.items }
{
    for row in rows {
        out.extend_from_slice(row_line(row).as_slice())?;
    }
    Ok(())
}

fn add_sparse(ids: &[Id], out: &mut Vec<u8>) -> Result<(), Memory>
    ensures ok { OnOk result (out.new.items ≡ out.old.items ++ flat_map spec.sparse_text ids.now) }
    ensures keeps { take (length out.old.items) out.new.items ≡ out.old.items }
{
    for id in ids {
        out.extend_from_slice(sparse_line(*id).as_slice())?;
    }
    Ok(())
}

fn head_line(recipe: &Recipe) -> Buffer
    ensures { result ≡ head_text recipe.now }
{
    let mut line = Buffer::new();
    line.version_between(b"version ", recipe.set, recipe.version, b" length ");
    line.count(recipe.length, b" next ");
    line.count(recipe.next, b" chunks ");
    line.count(recipe.rows.as_slice().len() as u64, b" sparse ");
    line.count(recipe.sparse.as_slice().len() as u64, b"\n");
    line
}

fn row_line(row: &Row) -> Buffer
    ensures { result ≡ spec.row_text row.now }
{
    let mut line = Buffer::new();
    line.fingerprint(&row.fp);
    line.text(b" ");
    line.count(row.id, b" ");
    line.count(u64::from(row.len), b"\n");
    line
}

fn sparse_line(id: Id) -> Buffer
    ensures { result ≡ spec.sparse_text id }
{
    let mut line = Buffer::new();
    line.text(b"sparse ");
    line.count(id, b"\n");
    line
}
