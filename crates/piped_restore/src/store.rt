// The same over a store between two lines.
ghost use Rattle.std.specs.Prelude.{◌≤◌};
ghost use Rattle.store_model.specs.Calls.{RestoresLine};
ghost use Rattle.keeper_core.specs.Keeping.{IsStateOf, IsKnownStray};

use crate::restoring::restore_in_thread;
use keeper_store::KeeperStore;
use std::alloc::Global;
use std::sync::Wait;
use std::thread::{Scope, Threads};
use std::time::Clock;
use vault_traits::{Shelf, Sink};
use vault_types::{Answer, Fault, Set, Version};

/// Restores a version of the store, as `restore_in_thread` does. The store and the sink come back. It
/// answers and leaves what a restore's line is to do.
pub fn restore_piped<
    's,
    X: 's,
    R: Threads + Wait + Clock + Copy + Drop + Send + 's,
    S: Shelf,
    O: Sink + Drop + Send + 's,
>(
    rt: R,
    alloc: Global,
    scope: &'s Scope<'s, X>,
    store: KeeperStore<S>,
    set: Set,
    version: Version,
    slots: u32,
    sink: O,
) -> (KeeperStore<S>, O, Result<Answer, Fault>)
    requires some { 1 ≤ slots }
    requires few { slots ≤ 64 }
    ensures { RestoresLine (λ S other. IsStateOf store S other) (λ S other. IsStateOf result.0 S other)
        (λ n. IsKnownStray store n) (λ n. IsKnownStray result.0 n) set version slots store.told
        result.0.told (O.told sink) (O.told result.1) result.2 }
{
    let mut keeper = store.into_keeper();
    let (outcome, sink) = restore_in_thread(
        rt,
        alloc,
        scope,
        &mut keeper,
        set,
        version,
        slots,
        sink,
    );
    (KeeperStore::from_keeper(keeper), sink, outcome)
}
