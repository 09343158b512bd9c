// A deletion of a pinned version.
use keeper_driver::pinning::{One, Two};
use keeper_driver::store::{Store, started};
use keeper_driver::sum;
use keeper_driver::views::{listing, removed};
use std::alloc::Global;
use std::test::Fail;
use vault_ports::MemShelf;
use vault_types::{Fp, Spot};

// A store of two versions, `aaaa` in container 1 and `bbbb` in container 2.
fn store_of_two(alloc: Global) -> Result<Store<MemShelf>, Fail> {
    let mut store = started(alloc, MemShelf::new(alloc))?;
    store.back_up(alloc, 0, b"", &[b"aaaa"])?;
    store.back_up(alloc, 0, b"", &[b"bbbb"])?;
    Ok(store)
}

// That store with one pin of the first version, and with two.
fn pinned(alloc: Global) -> Result<One<MemShelf>, Fail> {
    Ok(One::new(alloc, store_of_two(alloc)?, 0, 1)?)
}

fn pinned_twice(alloc: Global) -> Result<Two<MemShelf>, Fail> {
    Ok(pinned(alloc)?.with(alloc, 0, 1)?)
}

const PINNED: &str = "T1 T2 P1 P2 R2 F0";

const RELEASED: &str = "T2 P2 R2 F0";

// The length of the version that is pinned, whether its one chunk is where it should be, and its sum.
fn pin_says(alloc: Global) -> Result<(u64, bool, Option<Fp>), Fail> {
    let one = pinned(alloc)?;
    let pinned = one.pinned();
    let spot = Spot {
        id: 1,
        at: 0,
        len: 4,
    };
    let lies = pinned.spots.as_slice() == [spot].as_slice();
    Ok((pinned.length, lies, pinned.whole))
}

#[test]
fn a_pin_says_where_its_version_lies(rt: HostRuntime) -> Result<(), Fail> {
    assert!(rt; pin_says(rt.alloc())? == (4, true, Some(sum(b"aaaa"))));
    Ok(())
}

// Whether a deletion of the pinned version leaves its container.
fn stays_with_one(alloc: Global) -> Result<bool, Fail> {
    let mut one = pinned(alloc)?;
    let answer = one.delete(0, 1) == removed(1, 2, 1);
    Ok(answer && listing(alloc, &one.close())?.as_str() == PINNED)
}

// Whether it can be loaded then, and goes with the release.
fn goes_with_its_release(alloc: Global) -> Result<bool, Fail> {
    let mut one = pinned(alloc)?;
    let answer = one.delete(0, 1) == removed(1, 2, 1);
    let loaded = one.load(alloc)?.as_slice() == b"aaaa".as_slice();
    let store = one.release();
    let state = store.summary() == (2, 2, 3);
    let shelf = store.close();
    let left = listing(alloc, &shelf)?.as_str() == RELEASED;
    Ok(answer && loaded && state && left && shelf.payload_gets() == 1)
}

#[test]
fn a_pinned_container_stays_until_the_pin_is_released(rt: HostRuntime) -> Result<(), Fail> {
    assert!(rt; stays_with_one(rt.alloc())?);
    assert!(rt; goes_with_its_release(rt.alloc())?);
    Ok(())
}

// Whether a deletion of the version that is pinned twice leaves its container, also behind one release.
fn stays_with_two(alloc: Global, release: bool) -> Result<bool, Fail> {
    let mut two = pinned_twice(alloc)?;
    let answer = two.delete(0, 1) == removed(1, 2, 1);
    let shelf = if release {
        two.release().close()
    } else {
        two.close()
    };
    Ok(answer && listing(alloc, &shelf)?.as_str() == PINNED)
}

#[test]
fn the_first_of_two_releases_removes_nothing(rt: HostRuntime) -> Result<(), Fail> {
    assert!(rt; stays_with_two(rt.alloc(), false)?);
    assert!(rt; stays_with_two(rt.alloc(), true)?);
    Ok(())
}

// Whether it can be loaded behind one release, and goes with the second.
fn goes_with_the_second(alloc: Global) -> Result<bool, Fail> {
    let mut two = pinned_twice(alloc)?;
    let answer = two.delete(0, 1) == removed(1, 2, 1);
    let mut one = two.release();
    let loaded = one.load(alloc)?.as_slice() == b"aaaa".as_slice();
    let shelf = one.release().close();
    let left = listing(alloc, &shelf)?.as_str() == RELEASED;
    Ok(answer && loaded && left && shelf.payload_gets() == 1)
}

#[test]
fn the_second_of_two_releases_removes_the_container(rt: HostRuntime) -> Result<(), Fail> {
    assert!(rt; goes_with_the_second(rt.alloc())?);
    Ok(())
}
