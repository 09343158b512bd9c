// The script over a shelf that stops, and what a crash then leaves.
use crate::script::events_from;
use keeper_driver::store::{Store, started};
use keeper_driver::views::bytes_of;
use std::alloc::Global;
use std::test::Fail;
use vault_ports::{CrashShelf, MemShelf};
use vault_types::Version;

// The script over a shelf that stops at a call, and then a crash.
fn crashed(alloc: Global, stop: u64, taken: u64) -> Result<MemShelf, Fail> {
    let shelf = CrashShelf::new(alloc, MemShelf::new(alloc), stop)?;
    let shelf = match Store::start(alloc, shelf) {
        Err((_, shelf)) => shelf,
        Ok(mut store) => {
            let _ = events_from(alloc, &mut store, 0);
            store.close()
        }
    };
    Ok(shelf.image(alloc, taken)?)
}

// The floor and the latest version.
type Stand = (Version, Version);

const EMPTY: Stand = (1, 0);

const ONE: Stand = (1, 1);

const TWO: Stand = (1, 2);

const SECOND: Stand = (2, 2);

// What a stop at each call, from the first on, leaves where the first of the writes that were not settled is not carried
// out, and where it is. The last call is the twentieth, which is none.
const LEFT: &[[Stand; 2]] = &[
    // the opening, the first event's mending and put, and the settling before its recipe
    [EMPTY, EMPTY],
    [EMPTY, EMPTY],
    [EMPTY, EMPTY],
    [EMPTY, EMPTY],
    [EMPTY, EMPTY],
    [EMPTY, EMPTY],
    [EMPTY, EMPTY],
    // its recipe and the settling behind it
    [EMPTY, ONE],
    [EMPTY, ONE],
    // the second event's put, and the settling before its recipe
    [ONE, ONE],
    [ONE, ONE],
    [ONE, ONE],
    // its recipe and the settling behind it
    [ONE, TWO],
    [ONE, TWO],
    // the floor of the third event, and its settling
    [TWO, SECOND],
    [TWO, SECOND],
    // its removals
    [SECOND, SECOND],
    [SECOND, SECOND],
    [SECOND, SECOND],
    [SECOND, SECOND],
];

// Whether the version, where it is kept, has its bytes.
fn has_bytes(
    alloc: Global,
    shelf: &mut MemShelf,
    (floor, latest): Stand,
    version: Version,
    bytes: &[u8],
) -> Result<bool, Fail> {
    if version < floor || latest < version {
        return Ok(true);
    }
    Ok(bytes_of(alloc, shelf, 0, version)?.as_slice() == bytes)
}

// Opens what a stop and a crash have left. Gives where it stands, and whether each version that it keeps has its bytes.
fn opened(alloc: Global, stop: u64, taken: u64) -> Result<(Stand, bool), Fail> {
    let store = started(alloc, crashed(alloc, stop, taken)?)?;
    let (floor, latest, _) = store.summary();
    let stand = (floor, latest);
    let mut shelf = store.close();
    let first = has_bytes(alloc, &mut shelf, stand, 1, b"aaaa")?;
    let second = has_bytes(alloc, &mut shelf, stand, 2, b"bbbb")?;
    Ok((stand, first && second))
}

// The first stop, and which of the writes are then carried out, that leaves something else.
fn first_other(alloc: Global, left: &[[Stand; 2]]) -> Result<Option<(u64, u64)>, Fail> {
    let mut stop = 1u64;
    for [lost, kept] in left {
        for taken in 0..8u64 {
            let want = if taken % 2 == 0 { *lost } else { *kept };
            if opened(alloc, stop, taken)? != (want, true) {
                return Ok(Some((stop, taken)));
            }
        }
        stop = stop.saturating_add(1);
    }
    Ok(None)
}

#[test]
fn a_crash_leaves_the_state_before_or_behind_the_event(rt: HostRuntime) -> Result<(), Fail> {
    assert!(rt; first_other(rt.alloc(), LEFT)? == None);
    Ok(())
}
