//! The tables that were used last.
ghost use Rattle.std.specs.Prelude.{◌≡◌, IfOk, Option, map};
ghost use Rattle.std.specs.List.{list_any};
ghost use Rattle.std.specs.Map.{lookup};
ghost use Rattle.vault_types.specs.declared.Fp.{Fp as Key};
ghost use Rattle.vault_types.specs.Names.{same_fp};
ghost use Rattle.vault_types.specs.Tables.{has_fp};
ghost use Rattle.sampled_index.specs.Tables.{first_holding};

use lru::LruCache;
use std::alloc::Global;
use std::collections::{HashMap, HashSet};
use vault_types::{Fp, Id, Memory, Table};

// The container that a hook names.
pub(crate) fn hook_at(hooks: &HashMap<Fp, Id>, fp: &Fp) -> Option<Id>
    ensures { result ≡ lookup (same_fp fp.now) hooks.now.entries }
{
    hooks.get(fp).copied()
}

// The fingerprints of a table.
pub(crate) fn fps_of(alloc: Global, table: &Table) -> Result<HashSet<Fp>, Memory>
    ensures { IfOk result (λ fps. (f : Key) → list_any (same_fp f) fps.keys ≡ has_fp f table.now) }
{
    let rows = table.rows.as_slice();
    let mut fps = HashSet::with_capacity(alloc, rows.len())?;
    for row in rows {
        fps.insert(row.fp)?;
    }
    Ok(fps)
}

// The first of these containers whose table has the fingerprint.
pub(crate) fn holder(tables: &LruCache<Id, HashSet<Fp>>, fp: &Fp) -> Option<Id>
    ensures { result ≡ first_holding fp.now (map (λ e. (e.0, e.1.keys)) tables.now.entries) }
{
    for (id, fps) in tables.iter() {
        if fps.contains(fp) {
            return Some(*id);
        }
    }
    None
}
