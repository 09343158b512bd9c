// The sparse list of a version.
ghost use Rattle.std.specs.Prelude.{◌≡◌, ◌<◌, ◌≤◌, ◌^◌, length, map, All, IfOk};
ghost use Rattle.vault_types.specs.Sparse.{sparse};
ghost use Rattle.vault_types.specs.Events.{Core};
ghost use Rattle.keeper_catalog.specs.View.{Keeps};
ghost use Rattle.har_monitor.specs.Monitor.{HasSeen};
ghost use Rattle.backup_jobs.specs.Going.{own_len, len_at};

use har_monitor::Monitor;
use keeper_core::Keeper;
use std::alloc::Global;
use vault_traits::Shelf;
use vault_types::{Id, Memory, Row};

// A monitor that has seen these rows.
fn monitor_of(alloc: Global, rows: &[Row]) -> Result<Monitor, Memory>
    requires few { length rows.now < 2 ^ 32 }
    requires each { All (λ r. (1 ≤ r.len) × (r.len ≤ 65536)) rows.now }
    ensures { IfOk result (λ m. HasSeen m rows.now) }
{
    let mut monitor = Monitor::new(alloc);
    for row in rows {
        monitor.see(row)?;
    }
    Ok(monitor)
}

// How many bytes the payload of a container of the job has, of which the first has this id.
fn own_len(first: Id, lens: &[u32], id: Id) -> u32
    ensures { result ≡ own_len first lens.now id }
{
    if id < first {
        return 0;
    }
    match lens.get((id - first) as usize) {
        Some(len) => *len,
        None => 0,
    }
}

// The same of a container that a version names, or of one of the job.
fn len_at<S: Shelf>(keeper: &Keeper<S>, first: Id, lens: &[u32], id: Id) -> u32
    ensures { (K : Core) → Keeps keeper.now K → result ≡ len_at K.state.containers first lens.now id }
{
    match keeper.payload_len(id) {
        Some(len) => len,
        None => own_len(first, lens, id),
    }
}

// Each id with how many bytes its container's payload has.
fn payloads_of<S: Shelf>(
    alloc: Global,
    keeper: &Keeper<S>,
    ids: &[Id],
    first: Id,
    lens: &[u32],
) -> Result<Vec<(Id, u32)>, Memory>
    ensures { IfOk result (λ list. (K : Core) → Keeps keeper.now K
        → list.items ≡ map (λ c. (c, len_at K.state.containers first lens.now c)) ids.now) }
{
    let mut payloads = Vec::new(alloc);
    for id in ids {
        payloads.push((*id, len_at(keeper, first, lens, *id)))?;
    }
    Ok(payloads)
}

/// The sparse list of a version, from its rows, the keeper's containers, and how many bytes the payload of each container
/// of the job has, of which the first has this id. The only error is `Memory`.
pub fn sparse_ids<S: Shelf>(
    alloc: Global,
    keeper: &Keeper<S>,
    rows: &[Row],
    first: Id,
    lens: &[u32],
    threshold: u32,
    limit: u32,
) -> Result<Vec<Id>, Memory>
    requires core { (K : Core) × Keeps keeper.now K }
    requires few { length rows.now < 2 ^ 32 }
    requires each { All (λ r. (1 ≤ r.len) × (r.len ≤ 65536)) rows.now }
    ensures { IfOk result (λ list. (K : Core) → Keeps keeper.now K
        → list.items ≡ sparse rows.now (len_at K.state.containers first lens.now) threshold limit) }
{
    let monitor = monitor_of(alloc, rows)?;
    let payloads = payloads_of(alloc, keeper, monitor.ids(), first, lens)?;
    monitor.finish(alloc, payloads.as_slice(), threshold, limit)
}
