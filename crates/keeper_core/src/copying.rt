//! What a copy of a version into another store takes of a keeper.
ghost use Rattle.std.specs.Prelude.{◌≡◌, ◌<◌, ◌^◌, true, length, IsTrue, IsSomeAnd, slice_get};
ghost use Rattle.std.specs.List.{list_any};
ghost use Rattle.vault_types.specs.Names.{same_fp};
ghost use Rattle.vault_types.specs.Tables.{Container, has_fp};
ghost use Rattle.vault_types.specs.Events.{Core};
ghost use Rattle.keeper_catalog.specs.View.{Keeps};
ghost use Rattle.keeper_core.specs.Calls.{Lists};
ghost use Rattle.keeper_core.specs.Copying.{PinsRecipe};

use crate::keeper::Keeper;
use crate::pinning::{Pinned, fault_of, spots_in};
use keeper_catalog::distinct_ids;
use recipe_store::get_recipe;
use restore_pins::PinNo;
use std::alloc::Global;
use vault_traits::Shelf;
use vault_types::{Fault, Fp, Id, Recipe, Set, TableRow, Version};

/// A pinned version, and its recipe.
#[derive(Drop)]
pub struct PinnedRecipe {
    pub pinned: Pinned,
    pub recipe: Recipe,
}

// The place of the first row, from 0, that has the fingerprint.
fn place_of(rows: &[TableRow], fp: &Fp) -> u32
    requires few { length rows.now < 2 ^ 32 }
    requires there { IsTrue (list_any (λ r. same_fp r.fp fp.now) rows.now) }
    ensures { IsSomeAnd (slice_get rows.now result) (λ r. r.fp ≡ fp.now) }
{
    let mut number = 0u32;
    for row in rows {
        if row.fp == *fp {
            return number;
        }
        number += 1;
    }
    unreachable!()
}

impl<S: Shelf> Keeper<S> {
    /// Pins a version that is kept, as `pin` does and with its refusals, and gives its recipe as well, by the one get of it.
    pub fn pin_recipe(
        &mut self,
        alloc: Global,
        set: Set,
        version: Version,
    ) -> Result<PinnedRecipe, Fault>
        ensures { PinsRecipe set version self.old self.new result }
    {
        let recipe = get_recipe(alloc, &mut self.shelf, set, version)?;
        let rows = recipe.rows.as_slice();
        let spots = match spots_in(alloc, &self.catalog, rows) {
            Ok(spots) => spots,
            Err(unplaced) => return Err(fault_of(set, version, unplaced)),
        };
        let ids = distinct_ids(alloc, rows)?;
        let no = self.pins.pin(alloc, version, ids)?;
        let pinned = Pinned {
            no,
            length: recipe.length,
            spots,
            whole: recipe.whole,
        };
        Ok(PinnedRecipe { pinned, recipe })
    }

    /// Which row, from 0, of a container that a pin lists has the fingerprint. Takes no memory.
    pub fn row_of(&self, no: &PinNo, id: Id, fp: &Fp) -> u32
        requires { (K : Core) × (c : Container) × Keeps self.now K × Lists K.pins no.now id c
            × IsTrue (has_fp fp.now c.table) }
        ensures { (K : Core) (c : Container) → Keeps self.now K → Lists K.pins no.now id c
            → IsSomeAnd (slice_get c.table.rows result) (λ r. r.fp ≡ fp.now) }
    {
        let _no = no;
        match self.catalog.tables.get(&id) {
            Some(table) => place_of(table.rows.as_slice(), fp),
            None => unreachable!(),
        }
    }
}
