// A script of three events: the backups of `aaaa` and of `bbbb` into set 0, and the deletion of the first.
use keeper_driver::store::Store;
use std::alloc::Global;
use vault_traits::Shelf;
use vault_types::{Answer, Fault};

/// What the deletion answered, or the place of the event that was refused and why.
pub type Ran = Result<Option<Answer>, (usize, Fault)>;

// Makes the event of this place, and gives the answer of a deletion.
fn event<S: Shelf>(
    alloc: Global,
    store: &mut Store<S>,
    place: usize,
) -> Result<Option<Answer>, Fault> {
    if place == 2 {
        return Ok(Some(store.delete(0, 1)?));
    }
    let payload: &[u8] = if place == 0 { b"aaaa" } else { b"bbbb" };
    store.back_up(alloc, 0, b"", &[payload])?;
    Ok(None)
}

/// Makes the events from a place on, until one is refused.
pub fn events_from<S: Shelf>(alloc: Global, store: &mut Store<S>, place: usize) -> Ran {
    let mut answer = None;
    for at in place..3 {
        match event(alloc, store, at) {
            Ok(given) => answer = given,
            Err(fault) => return Err((at, fault)),
        }
    }
    Ok(answer)
}

/// Makes the events; where one is refused, it and those behind it are made again. Gives what came of these, and none where
/// no event was refused.
pub fn events_again<S: Shelf>(alloc: Global, store: &mut Store<S>) -> Option<Ran> {
    match events_from(alloc, store, 0) {
        Ok(_) => None,
        Err((place, _)) => Some(events_from(alloc, store, place)),
    }
}
