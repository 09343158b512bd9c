//! What the keeper of a store has in memory of it: for each set what its latest version says, the tables by id, the
//! markers, the strays, and the room that a deletion needs.
#![tactic(auto)]

ghost use Rattle.std.specs.Prelude.{◌≡◌, map, IfOk};
ghost use Rattle.vault_types.specs.Lists.{set_of};

use set_markers::SetMarkers;
use std::alloc::Global;
use std::collections::{BTreeMap, BTreeSet};
use vault_types::list::ListOf;
use vault_types::{Id, Memory, Name, Row, Set, Table, Version};

/// A set: its floor, its latest version (one below the floor where it has none), and that version's first free id and
/// sparse list.
#[derive(Drop)]
pub struct SetInfo {
    pub floor: Version,
    pub latest: Version,
    pub next: Id,
    pub sparse: ListOf<Id>,
}

/// The open job: its set, the id of its first container, and the id that its next container has.
#[derive(Clone, Copy, Debug, PartialEq, Eq)]
pub struct JobInfo {
    pub set: Set,
    pub first: Id,
    pub next: Id,
}

/// What is in memory of a store: its 256 sets, the tables of the containers that are named, pinned or put by the open
/// job, the markers, the names of strays, and an empty list with room for the ids of all named containers.
#[derive(Drop)]
pub struct Catalog {
    pub sets: Vec<SetInfo>,
    pub tables: BTreeMap<Id, Table>,
    pub markers: SetMarkers,
    pub strays: Vec<Name>,
    pub freed: Vec<Id>,
}

// The ids that rows name, each once.
fn ids_in(alloc: Global, rows: &[Row]) -> Result<BTreeSet<Id>, Memory>
    ensures { IfOk result (λ ids. ids.keys ≡ set_of (map (λ r. r.id) rows.now)) }
{
    let mut ids = BTreeSet::new(alloc);
    for row in rows {
        ids.insert(row.id)?;
    }
    Ok(ids)
}

/// The ids that rows name, ascending, each once. The only error is `Memory`.
pub fn distinct_ids(alloc: Global, rows: &[Row]) -> Result<Vec<Id>, Memory>
    ensures { IfOk result (λ ids. ids.items ≡ set_of (map (λ r. r.id) rows.now)) }
{
    let ids = ids_in(alloc, rows)?;
    let mut list = Vec::new(alloc);
    for id in &ids {
        list.push(*id)?;
    }
    Ok(list)
}
