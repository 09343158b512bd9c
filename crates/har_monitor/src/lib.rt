//! The utilisation of the containers that a version refers to, and its sparse list, after the
//! history-aware rewriting of Fu and others (USENIX ATC 2014).
#![tactic(auto)]

ghost use Rattle.std.specs.Prelude.{◌≡◌, ◌<◌, ◌≤◌, ◌^◌, ◌+◌, ◌++◌, ◌∷◌, [], List, ℕ, IfOk, OnOk};
ghost use Rattle.vault_types.specs.declared.Row.{Row as Reference};
ghost use Rattle.vault_types.specs.Sparse.{sparse};
ghost use Rattle.har_monitor.specs.Monitor.{HasSeen, NamesEach, listed_length};

mod used;

use crate::used::{add, first_ids, little_used, sort_by_use};
use std::alloc::Global;
use std::collections::{HashMap, HashSet};
use std::marker::Model;
use vault_types::{Fp, Id, Memory, Row};

/// Counts the rows of a version as they pass: how many bytes of each container they refer to, where a
/// fingerprint counts once in a container, with the length of its first row.
#[derive(Drop)]
pub struct Monitor {
    rows: u64,
    total: u64,
    ids: Vec<Id>,
    pairs: HashSet<(Fp, Id)>,
    sums: HashMap<Id, u64>,
}

impl Model for Monitor {
    ghost use Rattle.har_monitor.specs.Monitor.{Counted};

    ghost Value = { Counted };

    ghost view = { λ m.
        record {
          rows = m.rows;
          total = m.total;
          ids = m.ids.items;
          pairs = m.pairs.keys;
          sums = m.sums.entries;
        } };
}

impl Monitor {
    /// A monitor that has seen no row.
    pub fn new(alloc: Global) -> Monitor
        ensures { HasSeen result [] }
    {
        Monitor {
            rows: 0,
            total: 0,
            ids: Vec::new(alloc),
            pairs: HashSet::new(alloc),
            sums: HashMap::new(alloc),
        }
    }

    /// Counts the next row. Fewer than 2^32 rows were seen, and the row has 1 to 65,536 bytes. After `Memory` the
    /// monitor can only be dropped.
    pub fn see(&mut self, row: &Row) -> Result<(), Memory>
        requires few { self.old.rows < 2 ^ 32 }
        requires low { 1 ≤ row.now.len }
        requires high { row.now.len ≤ 65536 }
        ensures { (seen : List Reference) → HasSeen self.old seen
            → OnOk result (HasSeen self.new (seen ++ row.now ∷ [])) }
    {
        if self.pairs.insert((row.fp, row.id))? {
            add(&mut self.sums, &mut self.ids, row.id, row.len)?;
        }
        self.rows += 1;
        self.total = self.total.saturating_add(u64::from(row.len));
        Ok(())
    }

    /// The containers that the rows named, in the order of first sight.
    pub fn ids(&self) -> &[Id]
        ensures { result.now ≡ self.now.ids }
    {
        self.ids.as_slice()
    }

    /// The sparse list of the version whose rows were seen, ids ascending: the containers of which less than
    /// `threshold` hundredths are referred to, the least used first, as many as hold at most `limit` hundredths of the
    /// version's bytes. `payloads` has each container that the rows named, and no other, once, with the bytes of its
    /// payload.
    pub fn finish(
        self,
        alloc: Global,
        payloads: &[(Id, u32)],
        threshold: u32,
        limit: u32,
    ) -> Result<Vec<Id>, Memory>
        requires named { NamesEach self.ids payloads.now }
        ensures { (seen : List Reference) → HasSeen self seen
            → IfOk result (λ list. list.items ≡ sparse seen (listed_length payloads.now) threshold limit) }
    {
        let mut used = little_used(alloc, &self.sums, payloads, threshold)?;
        sort_by_use(&mut used);
        let room = limit as u128 * self.total as u128;
        let mut list = first_ids(alloc, used.as_slice(), room)?;
        list.sort_unstable();
        Ok(list)
    }
}
