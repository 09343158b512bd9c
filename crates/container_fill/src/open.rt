// The container that is being filled.
ghost use Rattle.std.specs.Prelude.{◌≡◌, ◌<◌, ◌≤◌, ◌+◌, ◌^◌, List, ℕ, [], ◌∷◌, ◌++◌, map, sum_by, length, IfOk, false};
ghost use Rattle.std.specs.List.{list_any};
ghost use Rattle.vault_types.specs.Names.{fp, same_fp, named_chunk};
ghost use Rattle.vault_types.specs.Fill.{new_container};

use crate::unsealed::Unsealed;
use container_store::Sealed;
use fingerprint_stage::{Chunk, sum};
use std::alloc::Global;
use std::marker::Model;
use vault_types::list::ListOf;
use vault_types::{Id, Memory, Table, TableRow};

// A container that is being filled. Contracts see it as its chunks.
#[derive(Drop)]
pub(crate) struct Open {
    rows: Vec<TableRow>,
    payload: Vec<u8>,
}

impl Model for Open {
    ghost use Rattle.std.specs.Prelude.{List, ℕ};

    ghost Value = { List (List ℕ) };

    ghost use Rattle.vault_types.specs.Bytes.{chunks_of_rows};
    ghost use Rattle.container_fill.specs.Opened.{IsOpen};

    ghost view = { λ o. chunks_of_rows o.rows.items o.payload.items };

    ghost invariant = { λ o. IsOpen o.rows.items o.payload.items };
}

impl Open {
    ghost use Rattle.container_fill.specs.Opened.{bytes_in};

    // A container with one chunk. Room for a whole payload is taken at once, so that each byte is copied once.
    pub(crate) fn start(alloc: Global, capacity: usize, chunk: &Chunk) -> Result<Open, Memory>
        ensures { IfOk result (λ o. o ≡ chunk.now ∷ []) }
    {
        let bytes = chunk.bytes();
        let mut payload = Vec::with_capacity(alloc, capacity.max(bytes.len()))?;
        payload.extend_from_slice(bytes)?;
        let mut rows = Vec::new(alloc);
        rows.push(row_of(chunk))?;
        Ok(Open { rows, payload })
    }

    // How many bytes the payload has.
    pub(crate) fn len(&self) -> usize
        ensures is { result ≡ bytes_in self.now }
        ensures most { bytes_in self.now ≤ 4194304 }
    {
        self.payload.len()
    }

    // The container with one more chunk.
    pub(crate) fn with(self, chunk: &Chunk) -> Result<Open, Memory>
        requires room { bytes_in self + length chunk.now ≤ 4194304 }
        requires other { list_any (same_fp (fp chunk.now)) (map fp self) ≡ false }
        ensures { IfOk result (λ o. o ≡ self ++ chunk.now ∷ []) }
    {
        let Open {
            mut rows,
            mut payload,
        } = self;
        rows.push(row_of(chunk))?;
        payload.extend_from_slice(chunk.bytes())?;
        Ok(Open { rows, payload })
    }

    // The container, which takes no chunk more.
    pub(crate) fn close(self, id: Id) -> Unsealed
        requires { 1 ≤ id }
        ensures is { result ≡ new_container id (map named_chunk self) }
        ensures some { 1 ≤ length self }
    {
        // it has at least one chunk
        let _len = self.payload.len();
        Unsealed { open: self, id }
    }

    // The container as it is put.
    pub(crate) fn seal(self, id: Id) -> Sealed
        requires { 1 ≤ id }
        ensures { result ≡ new_container id (map named_chunk self) }
    {
        let Open { rows, payload } = self;
        let payload_sum = sum(payload.as_slice());
        let table = Table {
            id,
            rows: ListOf::from_vec(rows),
            payload_sum,
        };
        Sealed::new(table, payload)
    }
}

fn row_of(chunk: &Chunk) -> TableRow
    ensures { result ≡ record { fp = fp chunk.now; len = length chunk.now } }
{
    TableRow {
        fp: chunk.fp(),
        len: chunk.len(),
    }
}
