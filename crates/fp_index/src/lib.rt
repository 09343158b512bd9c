//! The index of fingerprints: which container has a chunk.
#![tactic(auto)]

ghost use Rattle.std.specs.Prelude.{◌≡◌, ◌++◌, ◌∷◌, [], List, IfOk, OnOk, OnErr};
ghost use Rattle.vault_types.specs.declared.Table.{Table as Container};
ghost use Rattle.vault_types.specs.Tables.{newest};
ghost use Rattle.fp_index.specs.Index.{IsIndexOf, IsOnlyOne, found_in, without_id};

mod lists;

use crate::lists::{add_rows, make_room, take_rows};
use std::alloc::Global;
use std::collections::HashMap;
use std::marker::Model;
use vault_types::{Fp, Id, Memory, Table};

/// For each fingerprint the containers that have it, from the tables that were added and not dropped since.
#[derive(Drop)]
pub struct Index {
    containers: HashMap<Fp, Vec<Id>>,
}

impl Model for Index {
    ghost use Rattle.std.specs.Prelude.{List, ℕ};
    ghost use Rattle.vault_types.specs.declared.Fp.{Fp as Key};

    ghost Value = { List (Key × List ℕ) };

    ghost use Rattle.fp_index.specs.Lists.{lists, AllAscend};

    ghost view = { λ i. lists i.containers.entries };

    ghost invariant = { λ i. AllAscend i.containers.entries };
}

impl Index {
    /// The index of these tables.
    pub fn from_tables(alloc: Global, tables: &[Table]) -> Result<Index, Memory>
        ensures { IfOk result (λ index. IsIndexOf index tables.now) }
    {
        let mut index = Index {
            containers: HashMap::new(alloc),
        };
        for table in tables {
            index.add_container(alloc, table)?;
        }
        Ok(index)
    }

    /// The newest container with this fingerprint that was added and not dropped since.
    pub fn find(&self, fp: &Fp) -> Option<Id>
        ensures found { result ≡ found_in self.now fp.now }
        ensures newest { (tables : List Container) → IsIndexOf self.now tables
            → result ≡ newest tables fp.now }
    {
        self.containers.get(fp)?.last().copied()
    }

    /// Adds a container. All room is made first: after `Memory` the index finds what it found before.
    pub fn add_container(&mut self, alloc: Global, table: &Table) -> Result<(), Memory>
        ensures added { (tables : List Container) → IsIndexOf self.old tables
            → OnOk result (IsIndexOf self.new (tables ++ table.now ∷ [])) }
        ensures unchanged { (tables : List Container) → IsIndexOf self.old tables
            → OnErr result (IsIndexOf self.new tables) }
    {
        make_room(alloc, &mut self.containers, table.id, table.rows.as_slice())?;
        add_rows(&mut self.containers, table.id, table.rows.as_slice());
        Ok(())
    }

    /// Takes a container out that was added and not dropped since. An older one that has a fingerprint of it is
    /// found again.
    pub fn drop_container(&mut self, table: &Table)
        ensures { (tables : List Container) → IsIndexOf self.old tables → IsOnlyOne table.now tables
            → IsIndexOf self.new (without_id table.now.id tables) }
    {
        take_rows(&mut self.containers, table.id, table.rows.as_slice());
    }
}
