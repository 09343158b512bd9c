ghost use Rattle.std.specs.Prelude.{◌≡◌, ◌↔◌, ◌≤◌, ◌<◌, ◌+◌, ◌^◌, List, ℕ, [], ◌∷◌, ◌++◌, length, option_to_list, OnOk, IfOk, IfSome, IsSome, None, Some, nat_lt, unwrap_or, is_some};
ghost use Rattle.vault_types.specs.declared.How.{How};
ghost use Rattle.vault_types.specs.declared.How.TheVariants as how;
ghost use Rattle.vault_types.specs.Names.{fp, NamedChunk, named_chunk};
ghost use Rattle.vault_types.specs.Tables.{Container};
ghost use Rattle.vault_types.specs.Fill.{fill};
ghost use Rattle.container_fill.specs.Opened.{bytes_in};
ghost use Rattle.container_fill.specs.Carried.{carried, row_how, AreInTurn};

use crate::open::Open;
use crate::unsealed::Unsealed;
use fingerprint_stage::Chunk;
use rewrite_stage::Decided;
use std::alloc::Global;
use std::collections::HashMap;
use std::marker::Model;
use vault_types::list::ListOf;
use vault_types::{Fp, How, Id, Memory, Row};

/// What a filler comes to: the container that was still held, if there is one; a row for each chunk; the id after
/// the last container; how many containers there are, and how many bytes they have.
#[derive(Drop)]
pub struct Filled {
    pub last: Option<Unsealed>,
    pub rows: ListOf<Row>,
    pub next: Id,
    pub containers: u64,
    pub written: u64,
}

/// Packs the chunks of a backup into containers, in order.
#[derive(Drop)]
pub struct Filler {
    capacity: u32,
    next: Id,
    open: Option<Open>,
    taken: HashMap<Fp, Id>,
    rows: Vec<Row>,
    containers: u64,
    written: u64,
}

impl Model for Filler {
    ghost use Rattle.container_fill.specs.Filling.{Filling, IsFilling};

    ghost Value = { Filling };

    ghost use Rattle.container_fill.specs.Fields.{filling_in};

    ghost view = { filling_in };

    ghost invariant = { λ f. IsFilling (filling_in f) };
}

impl Filler {
    ghost use Rattle.container_fill.specs.Filling.{HasFilled, taken_by, opened, closed, roomed, given_for, is_over, with_row, IsPut, IsFilledBy};

    /// A filler of containers of at most `capacity` bytes (1 to 4,194,304), whose first one is `next` (1 to 2^63).
    pub fn new(alloc: Global, next: Id, capacity: u32) -> Filler
        requires low { 1 ≤ next }
        requires high { next ≤ 2 ^ 63 }
        requires some { 1 ≤ capacity }
        requires most { capacity ≤ 4194304 }
        ensures filled { HasFilled result next [] [] [] }
        ensures next { result.next ≡ next }
        ensures capacity { result.capacity ≡ capacity }
    {
        Filler {
            capacity,
            next,
            open: None,
            taken: HashMap::new(alloc),
            rows: Vec::new(alloc),
            containers: 0,
            written: 0,
        }
    }

    /// Takes the next chunk, and gives out the container that is full. A chunk that is not old is written where this
    /// filler has not yet written its fingerprint; else its row names the container that took it. A chunk larger than
    /// the capacity is a container by itself. After `Memory` the filler is only dropped.
    pub fn push(&mut self, alloc: Global, decided: Decided) -> Result<Option<Unsealed>, Memory>
        ensures filled { IfOk result
            (λ given. (first : ℕ) (gone : List Container) (chunks : List NamedChunk) (hows : List How)
            → HasFilled self.old first gone chunks hows
            → HasFilled self.new first (gone ++ option_to_list given)
            (chunks ++ named_chunk decided.chunk ∷ []) (hows ++ decided.how ∷ [])) }
        ensures id { IfOk result (λ given. IfSome given (λ s. s.table.id ≡ self.old.next)) }
        ensures next { IfOk result (λ given. self.new.next ≡ self.old.next + length (option_to_list given)) }
        ensures capacity { OnOk result (self.new.capacity ≡ self.old.capacity) }
    {
        let Decided { chunk, how } = decided;
        let fp = chunk.fp();
        let len = chunk.len();
        if let How::Old(id) = how {
            self.add_row(Row { fp, id, len })?;
            return Ok(None);
        }
        if let Some(taker) = self.place(&fp) {
            self.add_row(Row { fp, id: taker, len })?;
            return Ok(None);
        }
        let given = self.make_room(len);
        self.put(alloc, &chunk)?;
        Ok(given)
    }

    /// Adds the row of a chunk that is not written, without its bytes: one of `len` bytes (1 to 65,536) that `old` has,
    /// or else the container that took its fingerprint. After `Memory` the filler is only dropped.
    pub fn row(&mut self, fp: &Fp, len: u32, old: Option<Id>) -> Result<(), Memory>
        requires some { 1 ≤ len }
        requires most { len ≤ 65536 }
        requires written { old ≡ None → IsSome (taken_by self.old fp.now) }
        ensures filled { OnOk result ((c : NamedChunk) → c.fp ≡ fp.now → length c.bytes ≡ len
            → (first : ℕ) (gone : List Container) (chunks : List NamedChunk) (hows : List How)
            → HasFilled self.old first gone chunks hows
            → HasFilled self.new first gone (chunks ++ c ∷ []) (hows ++ row_how old ∷ [])) }
        ensures next { OnOk result (self.new.next ≡ self.old.next) }
        ensures capacity { OnOk result (self.new.capacity ≡ self.old.capacity) }
    {
        if let Some(id) = old {
            return self.add_row(Row { fp: *fp, id, len });
        }
        let id = self.place(fp).unwrap_or(0);
        self.add_row(Row { fp: *fp, id, len })
    }

    /// Gives out the container that is still held, and the rows.
    pub fn finish(self) -> Filled
        ensures filled { (first : ℕ) (gone : List Container) (chunks : List NamedChunk) (hows : List How)
            → HasFilled self first gone chunks hows
            → IsFilledBy (option_to_list result.last) result.rows result.next result.containers result.written
            first gone (length chunks) (fill first chunks (carried chunks hows) self.capacity) }

        // Decisions in which an own write has an earlier write, and a write has none, are carried out as they are.
        ensures in_turn { (first : ℕ) (gone : List Container) (chunks : List NamedChunk) (hows : List How)
            → HasFilled self first gone chunks hows → AreInTurn chunks hows
            → IsFilledBy (option_to_list result.last) result.rows result.next result.containers result.written
            first gone (length chunks) (fill first chunks hows self.capacity) }
        ensures id { IfSome result.last (λ s. s.table.id ≡ self.next) }
        ensures next { result.next ≡ self.next + length (option_to_list result.last) }
    {
        let mut filler = self;
        let last = filler.close();
        let Filler {
            capacity: _,
            next,
            open: _,
            taken: _,
            rows,
            containers,
            written,
        } = filler;
        Filled {
            last,
            rows: ListOf::from_vec(rows),
            next,
            containers,
            written,
        }
    }

    /// Whether this filler has written the fingerprint.
    pub fn has_written(&self, fp: &Fp) -> bool
        ensures { result ≡ is_some (taken_by self.now fp.now) }
    {
        self.place(fp).is_some()
    }

    // The container that took the write of a fingerprint.
    fn place(&self, fp: &Fp) -> Option<Id>
        ensures { result ≡ taken_by self.now fp.now }
    {
        self.taken.get(fp).copied()
    }

    fn add_row(&mut self, row: Row) -> Result<(), Memory>
        ensures { OnOk result (self.new ≡ with_row self.old row) }
    {
        self.rows.push(row)?;
        Ok(())
    }

    // Gives out the container that is held, where a chunk of this length does not fit into it.
    fn make_room(&mut self, len: u32) -> Option<Unsealed>
        requires { len ≤ 65536 }
        ensures filler { self.new ≡ roomed self.old len }
        ensures given { option_to_list result ≡ given_for self.old len }
    {
        if self.held_len() + len as usize > self.capacity as usize {
            self.close()
        } else {
            None
        }
    }

    // How many bytes the container that is held has.
    fn held_len(&self) -> usize
        ensures is { result ≡ bytes_in self.now.held }
        ensures most { result ≤ 4194304 }
    {
        match &self.open {
            Some(open) => open.len(),
            None => 0,
        }
    }

    // Gives out the container that is held.
    fn close(&mut self) -> Option<Unsealed>
        ensures filler { self.new ≡ closed self.old }
        ensures given { option_to_list result ≡ opened self.old.next self.old.held }
    {
        let open = self.open.take()?;
        let id = self.next;
        self.next += 1;
        self.containers = self.containers.saturating_add(1);
        Some(open.close(id))
    }

    // Writes a chunk that fits into the container that is held.
    fn put(&mut self, alloc: Global, chunk: &Chunk) -> Result<(), Memory>
        requires fits { 1 ≤ length self.old.held
            → bytes_in self.old.held + length chunk.now ≤ self.old.capacity }
        requires first { taken_by self.old (fp chunk.now) ≡ None }
        ensures { OnOk result (IsPut self.old self.new chunk.now) }
    {
        let row = Row {
            fp: chunk.fp(),
            id: self.next,
            len: chunk.len(),
        };
        self.rows.push(row)?;
        self.taken.insert(row.fp, row.id)?;
        let open = match self.open.take() {
            Some(open) => open.with(chunk)?,
            None => Open::start(alloc, self.capacity as usize, chunk)?,
        };
        self.open = Some(open);
        self.written = self.written.saturating_add(row.len as u64);
        Ok(())
    }
}
