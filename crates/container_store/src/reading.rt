// Reading a table.
ghost use Rattle.std.specs.Prelude.{◌≡◌, ◌↔◌, ◌≤◌, ◌<◌, ◌^◌, All, IsTrue, IfOk, IsErrOf, map};
ghost use Rattle.std.specs.List.{IsDistinct};
ghost use Rattle.vault_types.specs.Names.{same_fp};
ghost use Rattle.vault_types.specs.Tables.{IsTable, payload_len};
ghost use Rattle.vault_types.specs.Blobs.{SpellsTable};
ghost use Rattle.vault_types.specs.BlobDamage.{IsNoTable};
ghost use Rattle.blob_parts.specs.Reading.{ReadsAs};
ghost use Rattle.container_store.specs.Reading.{table_row_at, table_body_at, HasTableWidths};

use blob_parts::{FieldReader, Unread, body_of, fp_at, list_at, tag_at, u32_at, u64_at};
use std::alloc::Global;
use std::collections::HashSet;
use vault_types::list::ListOf;
use vault_types::{Fp, Id, Memory, Table, TableRow};

// `DTB1`
const TAG: u32 = 0x4454_4231;

/// The table that the bytes spell.
pub fn read_table(alloc: Global, bytes: &[u8], id: Id) -> Result<Table, Unread>
    ensures found { IfOk result (SpellsTable id bytes.now) }
    ensures none { IsErrOf result Unread.Spelling → IsNoTable id bytes.now }
{
    let Some(body) = body_of(bytes, 0) else {
        return Err(Unread::Spelling);
    };
    let (table, rest) = table_body_at(alloc, body)?;
    if !rest.is_empty() || table.id != id {
        return Err(Unread::Spelling);
    }
    if !has_rules(alloc, &table)? {
        return Err(Unread::Spelling);
    }
    Ok(table)
}

fn has_rules(alloc: Global, table: &Table) -> Result<bool, Memory>
    requires { HasTableWidths table.now }
    ensures yes { IfOk result (λ b. IsTrue b → IsTable table.now) }
    ensures no { IfOk result (λ b. IsTable table.now → IsTrue b) }
{
    let rows = table.rows.as_slice();
    if table.id == 0 || rows.is_empty() || !have_lens(rows) || payload_len(rows) > 4_194_304 {
        return Ok(false);
    }
    Ok(are_distinct(alloc, rows)?)
}

fn have_lens(rows: &[TableRow]) -> bool
    ensures { IsTrue result ↔ All (λ r. (1 ≤ r.len) × (r.len ≤ 65536)) rows.now }
{
    rows.iter().all(|row| 1 <= row.len && row.len <= 65_536)
}

/// How many bytes the payload of these rows has.
pub fn payload_len(rows: &[TableRow]) -> u64
    requires { payload_len rows.now < 2 ^ 64 }
    ensures { result ≡ payload_len rows.now }
{
    rows.iter().map(|row| u64::from(row.len)).sum()
}

fn are_distinct(alloc: Global, rows: &[TableRow]) -> Result<bool, Memory>
    ensures yes { IfOk result (λ b. IsTrue b → IsDistinct same_fp (map (λ r. r.fp) rows.now)) }
    ensures no { IfOk result (λ b. IsDistinct same_fp (map (λ r. r.fp) rows.now) → IsTrue b) }
{
    let mut seen: HashSet<Fp> = HashSet::with_capacity(alloc, rows.len())?;
    for row in rows {
        if !seen.insert(row.fp)? {
            return Ok(false);
        }
    }
    Ok(true)
}

// All of a table but the sum of the blob, and what is behind it.
#[tactic(auto, unfolding(crate::specs::Reading::table_body_at))]
fn table_body_at(alloc: Global, bytes: &[u8]) -> Result<(Table, &[u8]), Unread>
    ensures { ReadsAs (λ x. (x.0, x.1.now)) result (table_body_at bytes.now) }
{
    let rest = tag_at(bytes, TAG)?;
    let (id, rest) = u64_at(rest)?;
    let (rows, rest) = list_at(alloc, 24, &TableRows, rest)?;
    let (payload_sum, rest) = fp_at(rest)?;
    let table = Table {
        id,
        rows: ListOf::from_vec(rows),
        payload_sum,
    };
    Ok((table, rest))
}

// The rows of a table.
struct TableRows;

impl FieldReader for TableRows {
    type Item = TableRow;

    ghost field = { λ s. table_row_at };

    fn read<'a>(&self, bytes: &'a [u8]) -> Result<(TableRow, &'a [u8]), Unread> {
        let (fp, rest) = fp_at(bytes)?;
        let (len, rest) = u32_at(rest)?;
        Ok((TableRow { fp, len }, rest))
    }
}
