// The events of a keeper over a shelf in memory.
use crate::seen::has;
use keeper_driver::store::{Store, started};
use keeper_driver::views::{listing, removed};
use std::alloc::Global;
use std::test::Fail;
use vault_ports::{FaultShelf, MemShelf};
use vault_traits::Shelf;
use vault_types::{Answer, Fault, Id, Kind, Limits, Name, Version, Why};

fn last_version(through: Version, latest: Version) -> Result<Answer, Fault> {
    Err(Fault::LastVersion {
        set: 0,
        through,
        latest,
    })
}

// A store of so many backups, the first of `aaaa`, the second of `bbbb`, over an empty shelf of which a call fails.
fn store_of(alloc: Global, backups: u32, call: u64) -> Result<Store<FaultShelf>, Fail> {
    let fail = [call].to_vec(alloc)?;
    let mut store = started(alloc, FaultShelf::new(MemShelf::new(alloc), fail, false))?;
    if backups > 0 {
        store.back_up(alloc, 0, b"", &[b"aaaa"])?;
    }
    if backups > 1 {
        store.back_up(alloc, 0, b"", &[b"bbbb"])?;
    }
    Ok(store)
}

// A store of so many backups, of which the latest is not deleted, nor what is behind it; and whether the next backup is the
// first to make the call that fails.
fn latest_stays(alloc: Global, backups: u32, call: u64, latest: Version) -> Result<bool, Fail> {
    let mut store = store_of(alloc, backups, call)?;
    let first = store.delete(0, latest) == last_version(latest, latest);
    let second = store.delete(0, 7) == last_version(7, latest);
    let backup = store.back_up(alloc, 0, b"", &[b"cccc"]);
    Ok(first && second && backup == Err(Fault::StoreFault(1)))
}

// An empty store is opened by one call, and the mending's removal would be the second. A backup makes eight calls, and the
// tenth is the next put.
#[test]
fn the_latest_version_is_not_deleted_and_no_call_is_made(rt: HostRuntime) -> Result<(), Fail> {
    assert!(rt; latest_stays(rt.alloc(), 0, 2, 0)?);
    assert!(rt; latest_stays(rt.alloc(), 1, 10, 1)?);
    Ok(())
}

// Two versions of one container, of which the first is deleted.
fn named_stays(alloc: Global) -> Result<bool, Fail> {
    let mut store = started(alloc, MemShelf::new(alloc))?;
    store.back_up(alloc, 0, b"", &[b"aaaa"])?;
    store.back_up(alloc, 0, b"aaaa", &[])?;
    let answer = store.delete(0, 1) == removed(1, 2, 0);
    let state = store.summary() == (2, 2, 2);
    let left = has(alloc, &mut store.close(), "T1 P1 R2 F0", 2, b"aaaa")?;
    Ok(answer && state && left)
}

#[test]
fn a_deletion_leaves_what_a_kept_version_names(rt: HostRuntime) -> Result<(), Fail> {
    assert!(rt; named_stays(rt.alloc())?);
    Ok(())
}

// The rows of the second version, and the lengths of the containers 0 to 3.
fn versions_told(alloc: Global) -> Result<(Result<usize, Fault>, [Option<u32>; 4]), Fail> {
    let mut store = store_of(alloc, 2, 0)?;
    let rows = store.rows(alloc, 0, 2);
    let lens = [
        store.payload_len(0),
        store.payload_len(1),
        store.payload_len(2),
        store.payload_len(3),
    ];
    Ok((rows, lens))
}

#[test]
fn a_store_tells_of_its_versions_and_containers(rt: HostRuntime) -> Result<(), Fail> {
    assert!(rt; versions_told(rt.alloc())? == (Ok(1), [None, Some(4), Some(4), None]));
    Ok(())
}

// Which of the versions 0 to 3 are kept.
fn kept<S: Shelf>(store: &Store<S>) -> [bool; 4] {
    [store.kept(0), store.kept(1), store.kept(2), store.kept(3)]
}

fn unnamed_goes(alloc: Global) -> Result<bool, Fail> {
    let mut store = store_of(alloc, 2, 0)?;
    let first = store.delete(0, 1) == removed(1, 2, 1);
    let again = store.delete(0, 1) == removed(1, 2, 0);
    let versions = kept(&store) == [false, false, true, false];
    let mut shelf = store.close().into_inner();
    let left = has(alloc, &mut shelf, "T2 P2 R2 F0", 2, b"bbbb")?;
    Ok(first && again && versions && left)
}

#[test]
fn a_deletion_removes_what_no_kept_version_names(rt: HostRuntime) -> Result<(), Fail> {
    assert!(rt; unnamed_goes(rt.alloc())?);
    Ok(())
}

fn is_mended_again(alloc: Global) -> Result<bool, Fail> {
    let mut store = store_of(alloc, 0, 4)?;
    let first = store.mend() == Err(Fault::StoreFault(1));
    let again = store.mend() == Ok(());
    let state = store.summary() == (1, 0, 1);
    let left = listing(alloc, &store.close().into_inner())?.as_str() == "F0";
    Ok(first && again && state && left)
}

#[test]
fn a_mending_that_failed_is_made_again(rt: HostRuntime) -> Result<(), Fail> {
    assert!(rt; is_mended_again(rt.alloc())?);
    Ok(())
}

// Three versions: the first in containers 1 and 2, the second in 1 and in 3, which has a newer copy of `cccc`, the third in 2.
fn store_of_three(alloc: Global) -> Result<Store<MemShelf>, Fail> {
    let mut store = started(alloc, MemShelf::new(alloc))?;
    store.back_up(alloc, 0, b"", &[b"aaaabbbb", b"ccccdddd"])?;
    store.back_up(alloc, 0, b"aaaa", &[b"cccc"])?;
    store.back_up(alloc, 0, b"dddd", &[])?;
    Ok(store)
}

// The newest containers that have `aaaa` and `cccc`, by the index that a job is lent.
type Found = (Option<Id>, Option<Id>);

fn found<S: Shelf>(alloc: Global, store: &mut Store<S>) -> Result<Found, Fail> {
    let (_, _, first) = store.look(alloc, 0, b"aaaa")?;
    let (_, _, second) = store.look(alloc, 0, b"cccc")?;
    Ok((first, second))
}

// What is found before a deletion of the first two versions, its answer, and what is found then.
fn found_around(alloc: Global) -> Result<(Found, bool, Found), Fail> {
    let mut store = store_of_three(alloc)?;
    let before = found(alloc, &mut store)?;
    let answer = store.delete(0, 2) == removed(2, 3, 2);
    Ok((before, answer, found(alloc, &mut store)?))
}

#[test]
fn the_index_forgets_a_newer_copy_with_its_container(rt: HostRuntime) -> Result<(), Fail> {
    let want = ((Some(1), Some(3)), true, (None, Some(2)));
    assert!(rt; found_around(rt.alloc())? == want);
    Ok(())
}

// A version of `cccc` behind that deletion.
fn older_copy_is_named(alloc: Global) -> Result<bool, Fail> {
    let mut store = store_of_three(alloc)?;
    let answer = store.delete(0, 2) == removed(2, 3, 2);
    store.back_up(alloc, 0, b"cccc", &[])?;
    let state = store.summary() == (3, 4, 4);
    let mut shelf = store.close();
    let third = has(alloc, &mut shelf, "T2 P2 R3 R4 F0", 3, b"dddd")?;
    let fourth = has(alloc, &mut shelf, "T2 P2 R3 R4 F0", 4, b"cccc")?;
    Ok(answer && state && third && fourth)
}

#[test]
fn a_version_behind_a_deletion_names_the_older_copy(rt: HostRuntime) -> Result<(), Fail> {
    assert!(rt; older_copy_is_named(rt.alloc())?);
    Ok(())
}

// A job that put two containers and ended without a commit.
fn store_behind_a_job(alloc: Global) -> Result<Store<MemShelf>, Fail> {
    let mut store = started(alloc, MemShelf::new(alloc))?;
    store.leave(alloc, 0, &[b"aaaa", b"bbbb"])?;
    Ok(store)
}

fn next_job_is_the_first(alloc: Global) -> Result<bool, Fail> {
    let mut store = store_behind_a_job(alloc)?;
    let look = store.look(alloc, 0, b"aaaa") == Ok((1, 1, None));
    store.back_up(alloc, 0, b"", &[b"aaaa"])?;
    let state = store.summary() == (1, 1, 2);
    let left = has(alloc, &mut store.close(), "T1 T2 P1 P2 R1 F0", 1, b"aaaa")?;
    Ok(look && state && left)
}

#[test]
fn a_job_behind_an_aborted_one_is_the_first(rt: HostRuntime) -> Result<(), Fail> {
    assert!(rt; next_job_is_the_first(rt.alloc())?);
    Ok(())
}

// Two versions of `cccc` behind that job, in the same keeper, or in one that was opened again.
fn store_behind_both(alloc: Global, again: bool) -> Result<Store<MemShelf>, Fail> {
    let mut store = store_behind_a_job(alloc)?;
    store.back_up(alloc, 0, b"", &[b"cccc"])?;
    store.back_up(alloc, 0, b"cccc", &[])?;
    if again {
        return started(alloc, store.close());
    }
    Ok(store)
}

// Whether what the job had put is there, and gone behind a deletion.
fn goes_with_a_deletion(alloc: Global, again: bool) -> Result<bool, Fail> {
    let mut shelf = store_behind_both(alloc, again)?.close();
    let before = has(alloc, &mut shelf, "T1 T2 P1 P2 R1 R2 F0", 1, b"cccc")?;
    let mut store = store_behind_both(alloc, again)?;
    let answer = store.delete(0, 1) == removed(1, 2, 0);
    let behind = has(alloc, &mut store.close(), "T1 P1 R2 F0", 2, b"cccc")?;
    Ok(before && answer && behind)
}

#[test]
fn what_an_aborted_job_has_put_goes_with_the_next_deletion(rt: HostRuntime) -> Result<(), Fail> {
    assert!(rt; goes_with_a_deletion(rt.alloc(), false)?);
    assert!(rt; goes_with_a_deletion(rt.alloc(), true)?);
    Ok(())
}

// Two versions over a shelf that had one payload, which no version names.
fn shelf_with_a_stray(alloc: Global) -> Result<MemShelf, Fail> {
    let stray = Name {
        kind: Kind::Payload,
        number: 5,
    };
    let mut blobs = Vec::new(alloc);
    blobs.push((stray, b"x".to_vec(alloc)?))?;
    let mut store = started(alloc, MemShelf::with(alloc, blobs)?)?;
    store.back_up(alloc, 0, b"", &[b"aaaa"])?;
    store.back_up(alloc, 0, b"", &[b"bbbb"])?;
    Ok(store.close())
}

fn strays_go(alloc: Global) -> Result<bool, Fail> {
    let mut shelf = shelf_with_a_stray(alloc)?;
    let before = has(alloc, &mut shelf, "T1 T2 P1 P2 P5 R1 R2 F0", 1, b"aaaa")?;
    let mut store = started(alloc, shelf)?;
    let answer = store.delete(0, 1) == removed(1, 2, 1);
    let behind = has(alloc, &mut store.close(), "T2 P2 R2 F0", 2, b"bbbb")?;
    Ok(before && answer && behind)
}

#[test]
fn strays_that_opening_found_go_with_the_next_deletion(rt: HostRuntime) -> Result<(), Fail> {
    assert!(rt; strays_go(rt.alloc())?);
    Ok(())
}

// Whether a store of so many backups is full where a set's last version has this number.
fn is_full(alloc: Global, backups: u32, last: Version) -> Result<bool, Fail> {
    let limits = Limits {
        chunks: 4_294_967_295,
        last,
        script: 0,
    };
    Ok(store_of(alloc, backups, 0)?.full(&limits))
}

fn fullness(alloc: Global) -> Result<[bool; 4], Fail> {
    Ok([
        is_full(alloc, 0, 1)?,
        is_full(alloc, 1, 1)?,
        is_full(alloc, 1, 2)?,
        is_full(alloc, 2, 2)?,
    ])
}

#[test]
fn a_set_is_full_at_its_last_version(rt: HostRuntime) -> Result<(), Fail> {
    assert!(rt; fullness(rt.alloc())? == [false, true, false, true]);
    Ok(())
}

// A store of one version whose recipe has lost its last byte, or whose table is gone.
fn damaged(alloc: Global, kind: Kind) -> Result<MemShelf, Fail> {
    let mut shelf = store_of(alloc, 1, 0)?.close().into_inner();
    let recipe = Name {
        kind: Kind::Recipe,
        number: 1,
    };
    if kind == Kind::Table {
        shelf.remove(Name { kind, number: 1 })?;
        return Ok(shelf);
    }
    let blob = shelf
        .blob(recipe)
        .ok_or("the recipe is there")?
        .to_vec(alloc)?;
    let (_, short) = blob.split_last().ok_or("it has bytes")?;
    if shelf.put(alloc, recipe, short).is_err() {
        return Err(Fail::from("the bytes are put"));
    }
    Ok(shelf)
}

// The fault with which the damaged store comes back; none where it opens, or comes back with other names.
fn comes_back(alloc: Global, kind: Kind) -> Result<Option<Fault>, Fail> {
    let shelf = damaged(alloc, kind)?;
    let before = listing(alloc, &shelf)?;
    match Store::start(alloc, shelf) {
        Ok(_) => Ok(None),
        Err((fault, shelf)) => {
            let same = listing(alloc, &shelf)?.as_str() == before.as_str();
            Ok(if same { Some(fault) } else { None })
        }
    }
}

fn damaged_is(kind: Kind, why: Why) -> Option<Fault> {
    Some(Fault::Damaged {
        kind,
        number: 1,
        why,
    })
}

#[test]
fn a_damaged_store_comes_back_with_its_first_damage(rt: HostRuntime) -> Result<(), Fail> {
    let recipe = damaged_is(Kind::Recipe, Why::Spelling);
    let table = damaged_is(Kind::Table, Why::Absent);
    assert!(rt; comes_back(rt.alloc(), Kind::Recipe)? == recipe);
    assert!(rt; comes_back(rt.alloc(), Kind::Table)? == table);
    Ok(())
}
