//! Where the chunks of one table lie.
ghost use Rattle.std.specs.Prelude.{◌≡◌, ◌<◌, ◌^◌, map, IfOk, None};
ghost use Rattle.std.specs.List.{IsDistinct};
ghost use Rattle.std.specs.Map.{lookup};
ghost use Rattle.vault_types.specs.declared.Fp.{Fp as Key};
ghost use Rattle.vault_types.specs.Names.{same_fp};
ghost use Rattle.vault_types.specs.Tables.{payload_len};
ghost use Rattle.row_spots.specs.Offsets.{place_from};

use std::alloc::Global;
use std::collections::HashMap;
use std::marker::Model;
use vault_types::{Fp, Memory, TableRow};

/// A chunk of a payload: the byte from which it stands, and its length.
#[derive(Clone, Copy, Debug)]
pub struct ChunkSpan {
    pub at: u32,
    pub len: u32,
}

/// The chunks of a payload by their fingerprints.
#[derive(Drop)]
pub struct ChunkSpans {
    chunks: HashMap<Fp, ChunkSpan>,
}

impl Model for ChunkSpans {
    ghost use Rattle.std.specs.Prelude.{List};
    ghost use Rattle.vault_types.specs.declared.Fp.{Fp as Named};
    ghost use Rattle.row_spots.specs.declared.offsets.ChunkSpan.{ChunkSpan as Found};

    ghost Value = { List (Named × Found) };

    ghost view = { λ p. p.chunks.entries };
}

impl ChunkSpans {
    /// No chunks. Takes no memory.
    pub fn new(alloc: Global) -> ChunkSpans
        ensures { (f : Key) → lookup (same_fp f) result ≡ None }
    {
        ChunkSpans {
            chunks: HashMap::new(alloc),
        }
    }

    /// The chunks of a payload of these rows, whose fingerprints differ.
    pub fn of_rows(alloc: Global, rows: &[TableRow]) -> Result<ChunkSpans, Memory>
        requires total { payload_len rows.now < 2 ^ 32 }
        requires differ { IsDistinct same_fp (map (λ r. r.fp) rows.now) }
        ensures { IfOk result (λ places. (f : Key) → lookup (same_fp f) places ≡ place_from 0 rows.now f) }
    {
        let mut chunks = HashMap::new(alloc);
        let mut at = 0u32;
        for row in rows {
            chunks.insert(row.fp, ChunkSpan { at, len: row.len })?;
            at += row.len;
        }
        Ok(ChunkSpans { chunks })
    }

    /// The chunk under a fingerprint.
    pub fn get(&self, fp: &Fp) -> Option<ChunkSpan>
        ensures { result ≡ lookup (same_fp fp.now) self.now }
    {
        self.chunks.get(fp).copied()
    }
}
