//! Opening a store: its floors, recipes and tables are read and checked, and what a keeper has in memory is made of them.
//!
//! The calls of the shelf are, in this order: the list of its names; a get of each floor that is listed, by set; a get of
//! each recipe that is due, by set and version; a get of the table of each container that a row names, ids ascending.
//! Nothing is got twice, no payload is got, and nothing is written.
//!
//! The floor of a set is what its blob says, or 1 where none is listed. A recipe is due where its version is at or above
//! the floor and a recipe at or above it is listed, and at a floor above 1 always. So a hole below a listed recipe is
//! damage, and so is a floor above 1 without its recipe. A recipe that is due and not listed is absent, without a call.
//!
//! What is checked, and the first that fails is the answer: each floor has a spelling; each recipe that is due is there,
//! has a spelling, and a `next` that is not below that of the version before; the table of each named container is there
//! and has a spelling; and each row stands in the table of its container, with its length, rows by set, version and place.
//!
//! A name that is listed and that none of this needs is a stray: a recipe that is no kept version's, a floor or a recipe of
//! a set that there is not, a table or a payload of a container that no row names.
//!
//! A recipe is held until its ids are marked and its rows noted. A note is kept for each chunk that rows name in a
//! container, with the first row that names it; each table takes the notes of its chunks out, so that a row is bad exactly
//! where its note is left. The notes go when the store is open. A look-up is by hash or by a search among sorted names, and
//! the work grows as the names, the rows of recipes and the rows of tables do.
#![tactic(auto)]

ghost use Rattle.std.specs.Prelude.{◌≡◌, IfOk};
ghost use Rattle.vault_types.specs.declared.Fault.TheVariants as fault;
ghost use Rattle.vault_types.specs.declared.Kind.TheVariants as kind;
ghost use Rattle.vault_types.specs.declared.Why.TheVariants as why;
ghost use Rattle.vault_types.specs.State.{State};
ghost use Rattle.vault_traits.specs.Shelf.{IsAsBefore};
ghost use Rattle.vault_traits.specs.Causes.{HasCauses};
ghost use Rattle.vault_types.specs.FirstDamage.{IsDamageOf};
ghost use Rattle.keeper_open.specs.Opening.{IsStoreOpened};

mod listing;
mod notes;
mod reading;
mod room;

use crate::notes::{Notes, RowPlace, least, list_of};
use crate::reading::{Found, read_floors, read_sets, read_tables};
use crate::room::catalog_of;
use fp_index::Index;
use keeper_catalog::Catalog;
use recipe_store::survey;
use std::alloc::Global;
use vault_traits::Shelf;
use vault_types::{Fault, Kind, Why};

/// What is in memory of a store that was just opened: the catalog of its sets, tables, markers and strays, and the index
/// of its fingerprints.
#[derive(Drop)]
pub struct Opened {
    pub catalog: Catalog,
    pub index: Index,
}

/// Opens a store. The answer is that of a valid state, for which the blobs stand where the shelf tells them, and whose rows
/// have the lengths of their tables; over a shelf that tells nothing it is the state of what was read, without payloads.
/// The lists of the catalog have the room that a deletion takes. Nothing is written, and no payload is read.
///
/// `StoreFault` with the count of faults of the shelf; `Damaged` with the first place that is bad; `Memory`. Whatever is
/// answered, the blobs are as before.
pub fn open<S: Shelf>(alloc: Global, shelf: &mut S) -> Result<Opened, Fault>
    ensures opened { IfOk result (λ o. (T : State)
        × IsStoreOpened (S.told shelf.old).blobs T o.catalog o.index) }
    ensures kept { IsAsBefore (S.told shelf.old) (S.told shelf.new) }
    ensures gets { (S.told shelf.new).gets ≡ (S.told shelf.old).gets }
    ensures causes { HasCauses (S.told shelf.old).faults (S.told shelf.new).faults
        (IsDamageOf (S.told shelf.old).blobs) result }
{
    let names = survey(alloc, shelf)?;
    let floors = read_floors(alloc, shelf, names.as_slice())?;
    let mut notes = Notes::new(alloc);
    let sets = read_sets(
        alloc,
        shelf,
        names.as_slice(),
        floors.as_slice(),
        &mut notes,
    )?;
    let Notes {
        markers,
        ids,
        places,
    } = notes;
    let ids = list_of(alloc, &ids)?;
    let found = read_tables(alloc, shelf, ids.as_slice(), places)?;
    if let Some(place) = least(&found.places) {
        return Err(bad_row(place));
    }
    let Found {
        tables,
        index,
        places: _,
    } = found;
    let catalog = catalog_of(alloc, names.as_slice(), sets, tables, markers)?;
    Ok(Opened { catalog, index })
}

// The fault of a row that stands in no table.
fn bad_row(place: RowPlace) -> Fault
    ensures { result ≡ fault.Damaged kind.Recipe place.number (why.BadRow place.row) }
{
    Fault::Damaged {
        kind: Kind::Recipe,
        number: place.number,
        why: Why::BadRow(place.row),
    }
}
