//! Sparse lists of small versions.
ghost use Rattle.std.specs.Prelude.{◌≡◌, ◌<◌, ◌≤◌, ◌^◌, length, nat_eq, IfOk};
ghost use Rattle.std.specs.List.{AllByRecursion};
ghost use Rattle.vault_types.specs.Lists.{distinct_by};
ghost use Rattle.har_monitor.specs.Monitor.{HasSeen, NamesEach, ids_of};

use har_monitor::Monitor;
use std::alloc::Global;
use std::test::Fail;
use vault_types::{Fp, Id, Memory, Row};

const FIRST: Fp = Fp([1; 20]);

const SECOND: Fp = Fp([2; 20]);

const THIRD: Fp = Fp([3; 20]);

fn monitor_of(alloc: Global, rows: &[Row]) -> Result<Monitor, Memory>
    requires few { length rows.now < 2 ^ 32 }
    requires lens { AllByRecursion (λ r. (1 ≤ r.len) × (r.len ≤ 65536)) rows.now }
    ensures { IfOk result (λ m. HasSeen m rows.now) }
{
    let mut monitor = Monitor::new(alloc);
    for row in rows {
        monitor.see(row)?;
    }
    Ok(monitor)
}

fn list_of(
    alloc: Global,
    rows: &[Row],
    payloads: &[(Id, u32)],
    threshold: u32,
    limit: u32,
) -> Result<Vec<Id>, Memory>
    requires few { length rows.now < 2 ^ 32 }
    requires lens { AllByRecursion (λ r. (1 ≤ r.len) × (r.len ≤ 65536)) rows.now }
    requires named { NamesEach (distinct_by nat_eq (ids_of rows.now)) payloads.now }
{
    monitor_of(alloc, rows)?.finish(alloc, payloads, threshold, limit)
}

#[test]
fn the_sparsest_are_kept_within_the_limit(rt: HostRuntime) -> Result<(), Fail> {
    let rows = [
        Row {
            fp: FIRST,
            id: 1,
            len: 400,
        },
        Row {
            fp: SECOND,
            id: 2,
            len: 450,
        },
        Row {
            fp: THIRD,
            id: 3,
            len: 9_150,
        },
    ];
    let payloads = [(1, 1_000), (2, 1_000), (3, 9_150)];
    let list = list_of(rt.alloc(), &rows, &payloads, 50, 5)?;
    assert!(rt; list.as_slice() == [1].as_slice());
    Ok(())
}

#[test]
fn a_fingerprint_counts_once(rt: HostRuntime) -> Result<(), Fail> {
    let row = Row {
        fp: FIRST,
        id: 1,
        len: 4,
    };
    let rows = [row, row];
    let payloads = [(1, 16)];
    let list = list_of(rt.alloc(), &rows, &payloads, 50, 100)?;
    let none = list_of(rt.alloc(), &rows, &payloads, 25, 100)?;
    assert!(rt; list.as_slice() == [1].as_slice() && none.is_empty());
    Ok(())
}
