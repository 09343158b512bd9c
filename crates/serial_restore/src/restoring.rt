//! A version, from its pin to its release.
ghost use Rattle.std.specs.Prelude.{◌≡◌, ◌≤◌, ℕ, List, false, IfOk, IfErr, OnErr, Err};
ghost use Rattle.std.specs.Option.{option_map};
ghost use Rattle.vault_types.specs.declared.Fault.TheVariants as fault;
ghost use Rattle.vault_types.specs.Events.{Core, IsNear, Pin};
ghost use Rattle.vault_types.specs.State.{KeptVersion, floor_of, latest_of, is_kept, version_of};
ghost use Rattle.vault_traits.specs.Crash.{LeavesNowIfTold, LeavesOnlyIfTold};
ghost use Rattle.keeper_catalog.specs.View.{Keeps};
ghost use Rattle.store_model.specs.Calls.{RestoresLine};
ghost use Rattle.keeper_core.specs.Keeping.{IsStateWith, IsKnownStray};
ghost use Rattle.serial_restore.specs.Restoring.{whole_of as whole_is, IsRestoreFault, HasStayed, IsRestored, IsCut, WhereTold, HasGone};

use crate::copying::copy_pinned;
use keeper_core::{Keeper, Pinned};
use std::alloc::Global;
use vault_traits::{Shelf, Sink};
use vault_types::{Answer, Fault, Fp, Name, Set, Version, Whole};

// The sum that a version should have, by the number of its recipe.
fn whole_of(set: Set, version: Version, sum: Option<Fp>) -> Option<Whole>
    ensures { result ≡ option_map (whole_is set version) sum }
{
    match sum {
        Some(want) => Some(Whole {
            number: Name::recipe(set, version).number,
            want,
        }),
        None => None,
    }
}

// Restores a version, if it can be pinned.
fn restore_kept<S: Shelf, O: Sink>(
    alloc: Global,
    keeper: &mut Keeper<S>,
    set: Set,
    version: Version,
    slots: u32,
    sink: &mut O,
) -> Result<Answer, Fault>
    requires some { 1 ≤ slots }
    requires few { slots ≤ 64 }
    ensures { HasGone keeper.old keeper.new (O.told sink.old) (O.told sink.new) set version slots result }
{
    keeper.keeps_some_core();
    let Pinned {
        no,
        length,
        spots,
        whole,
    } = keeper.pin(alloc, set, version)?;
    let whole = whole_of(set, version, whole);
    let copied = copy_pinned(alloc, keeper, &no, spots, whole, slots, sink);
    keeper.release(no);
    match copied {
        Ok(loads) => Ok(Answer::Restored {
            set,
            version,
            bytes: length,
            loads,
        }),
        Err(fault) => Err(fault),
    }
}

/// Restores a version: its bytes, all of them, go to the sink. The version is pinned while they are copied, and its pin is
/// released in every case, so the store is left as it was. No other order of loads takes fewer of them with so many slots,
/// 1 to 64, each of which holds one payload. After an `Ok` the SHA-1 of the bytes is the version's.
///
/// `NotKept`, exactly where the version is not kept, and then nothing was done; `StoreFault`, where the shelf failed;
/// `WriteFault`, where the sink failed; `Damaged`, where the recipe or a payload is absent or wrong, or where the bytes have
/// another SHA-1 than the recipe says; `Memory`. After an `Err` the sink has taken a front of the bytes.
pub fn restore_plain<S: Shelf, O: Sink>(
    alloc: Global,
    keeper: &mut Keeper<S>,
    set: Set,
    version: Version,
    slots: u32,
    sink: &mut O,
) -> Result<Answer, Fault>
    requires some { 1 ≤ slots }
    requires few { slots ≤ 64 }
    ensures exact { (K : Core) → Keeps keeper.old K → is_kept K.state set version ≡ false
        → result ≡ Err (fault.NotKept set version (floor_of K.state set) (latest_of K.state set)) }
    ensures still { (K : Core) → Keeps keeper.old K → is_kept K.state set version ≡ false
        → (keeper.new ≡ keeper.old) × (O.told sink.new ≡ O.told sink.old) }
    ensures cause { IfErr result (λ f. (K : Core) → Keeps keeper.old K
        → IsRestoreFault keeper.old keeper.new (O.told sink.old) (O.told sink.new) K.state set version f) }
    ensures later { keeper.old.told.faults ≤ keeper.new.told.faults }

    // Nothing more is pinned, and no name of the store becomes a stray.
    ensures same { (keeper.new.job ≡ keeper.old.job) × (keeper.new.pins ≡ keeper.old.pins) }
    ensures state { (K : Core) → Keeps keeper.old K → HasStayed keeper.old keeper.new K set version }

    // A crash at any moment leaves what it could leave before.
    ensures any_moment { (K : Core) → Keeps keeper.old K
        → LeavesNowIfTold keeper.old.told.history (IsNear K.state K.other)
        → LeavesOnlyIfTold keeper.old.told.history keeper.new.told.history (IsNear K.state K.other) }

    // The bytes are those of the version, and each load counts once; an error comes before all is taken or has no more loads.
    ensures ok { IfOk result
        (λ answer.
        WhereTold keeper.old set version
        (λ K k.
        IsRestored keeper.old keeper.new (O.told sink.old) (O.told sink.new) K set version k slots
        answer)) }
    ensures err { OnErr result
        (WhereTold keeper.old set version
        (λ K k. IsCut keeper.old keeper.new (O.told sink.old) (O.told sink.new) K set version k slots)) }

    // What a line of a script is to do, in each state that the keeper keeps.
    ensures line { (pins : List Pin)
        → RestoresLine (IsStateWith keeper.old pins) (IsStateWith keeper.new pins)
        (IsKnownStray keeper.old) (IsKnownStray keeper.new) set version slots keeper.old.told keeper.new.told
        (O.told sink.old) (O.told sink.new) result }
{
    keeper.keeps_some_core();
    if !keeper.kept(set, version) {
        return Err(Fault::NotKept {
            set,
            version,
            floor: keeper.floor(set),
            latest: keeper.latest(set),
        });
    }
    restore_kept(alloc, keeper, set, version, slots, sink)
}
