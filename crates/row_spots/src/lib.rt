//! Where the chunks of a recipe's rows lie in their containers, by the tables in memory.
#![tactic(auto)]

ghost use Rattle.std.specs.Prelude.{◌≡◌, ◌<◌, ◌^◌, ℕ, map, length, IfOk, OnOk, Err};
ghost use Rattle.std.specs.List.{AllByRecursion};
ghost use Rattle.row_spots.specs.declared.Unplaced.TheVariants as unplaced;
ghost use Rattle.row_spots.specs.Spots.{spot_in, HasPlace, AreRuled, IsFirstWithout};

mod known;
mod offsets;

use crate::known::spot_of;
use std::alloc::{AllocError, AllocFailed, Global};
use std::collections::{BTreeMap, HashMap};
use vault_types::{Id, Memory, Row, Spot, Table};

/// Why rows have no spots: there is no memory, or the row of this index, from 0, is the first that is in no table with
/// its fingerprint and its length.
#[derive(Clone, Copy, Debug, PartialEq, Eq)]
pub enum Unplaced {
    Memory,
    BadRow(u32),
}

impl From<Memory> for Unplaced {
    ghost from_gives = { λ _ e. e ≡ unplaced.Memory };

    fn from(_: Memory) -> Self {
        Unplaced::Memory
    }
}

impl From<AllocError> for Unplaced {
    ghost from_gives = { λ _ e. e ≡ unplaced.Memory };

    fn from(_: AllocError) -> Self {
        Unplaced::Memory
    }
}

impl<T: Drop> From<AllocFailed<T>> for Unplaced {
    ghost from_gives = { λ _ e. e ≡ unplaced.Memory };

    fn from(_: AllocFailed<T>) -> Self {
        Unplaced::Memory
    }
}

/// Where the chunk of each row lies, in the order of the rows. The tables are by their ids; each that a row names is
/// read once.
pub fn spots_of(
    alloc: Global,
    tables: &BTreeMap<Id, Table>,
    rows: &[Row],
) -> Result<Vec<Spot>, Unplaced>
    requires few { length rows.now < 2 ^ 32 }
    requires rules { AreRuled tables.now.entries }
    ensures spots { IfOk result (λ spots. spots.items ≡ map (spot_in tables.now.entries) rows.now) }
    ensures placed { OnOk result (AllByRecursion (HasPlace tables.now.entries) rows.now) }
    ensures bad { (i : ℕ) → result ≡ Err (unplaced.BadRow i) → IsFirstWithout tables.now.entries rows.now i }
{
    let mut known = HashMap::new(alloc);
    let mut spots = Vec::new(alloc);
    let mut number = 0u32;
    for row in rows {
        match spot_of(alloc, tables, &mut known, row)? {
            Some(spot) => spots.push(spot)?,
            None => return Err(Unplaced::BadRow(number)),
        }
        number += 1;
    }
    Ok(spots)
}
