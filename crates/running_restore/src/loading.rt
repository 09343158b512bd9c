// The loads of a restore that runs.
ghost use Rattle.std.specs.Prelude.{◌≡◌, ◌<◌, ℕ, false, List, length, Option};
ghost use Rattle.vault_types.specs.declared.Spot.{Spot};
ghost use Rattle.vault_traits.specs.Counts.{counted};
ghost use Rattle.keeper_catalog.specs.View.{View};
ghost use Rattle.restore_stage.specs.declared.Loaded.{Loaded as LoadedNow};
ghost use Rattle.serial_restore.specs.Going.{Stays};
ghost use Rattle.restore_turns.specs.Entry.{IsEntry, IsGoing};
ghost use Rattle.restore_turns.specs.Sent.{IsPart, number_of as number_in};
ghost use Rattle.running_restore.specs.Feeding.{HasLoaded, met_by as met_with};

use keeper_core::Keeper;
use restore_assembler::Payload;
use restore_pins::PinNo;
use restore_stage::Loaded;
use std::alloc::Global;
use vault_traits::Shelf;
use vault_types::{Fault, Id};

// The number of a store fault.
fn number_of(fault: Fault) -> Option<u64>
    ensures { result ≡ number_in fault }
{
    match fault {
        Fault::StoreFault(number) => Some(number),
        _ => None,
    }
}

/// The number of the store fault that was met, behind a load that gave this.
pub(crate) fn met_by(met: Option<u64>, item: &Loaded) -> Option<u64>
    ensures { result ≡ met_with met item.now }
{
    match item {
        Loaded::Payload(_) => met,
        Loaded::Failed(fault) => number_of(*fault),
    }
}

/// Whether the load failed.
pub(crate) fn has_failed(item: &Loaded) -> bool
    ensures { result ≡ false → IsPart item.now }
{
    match item {
        Loaded::Payload(_) => false,
        Loaded::Failed(_) => true,
    }
}

/// The payload of the load at this place of a plan, or why it could not be loaded.
pub(crate) fn load_at<S: Shelf>(
    alloc: Global,
    keeper: &mut Keeper<S>,
    no: &PinNo,
    ids: &[Id],
    at: usize,
) -> Loaded
    requires here { at < length ids.now }
    requires entry { (u : View) × (spots : List Spot) × (met : Option ℕ) × (sent : List LoadedNow)
        × IsEntry u keeper.old no.now spots ids.now at met sent × IsGoing at met sent }
    ensures loaded { (u : View) (spots : List Spot) (met : Option ℕ) (sent : List LoadedNow)
        → IsEntry u keeper.old no.now spots ids.now at met sent → IsGoing at met sent
        → HasLoaded u keeper.old keeper.new no.now spots ids.now at met sent result }
    ensures stays { Stays keeper.old keeper.new }
    ensures gets { keeper.new.told.gets ≡ counted keeper.old.told.gets }
{
    let id = ids[at];
    match keeper.load(alloc, no, id) {
        Ok(bytes) => Loaded::Payload(Payload { id, bytes }),
        Err(fault) => Loaded::Failed(fault),
    }
}
