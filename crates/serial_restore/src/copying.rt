//! The bytes of a pinned version, from its containers' payloads to a sink.
ghost use Rattle.std.specs.Prelude.{◌≡◌, ◌≤◌, ℕ, List, map, true, Some, IfOk, IfErr, OnOk};
ghost use Rattle.std.specs.List.{AllByRecursion};
ghost use Rattle.vault_types.specs.Lists.{has};
ghost use Rattle.vault_types.specs.Plans.{requests as requests_of, loads as loads_of};
ghost use Rattle.vault_types.specs.Events.{Core};
ghost use Rattle.vault_traits.specs.Told.{SinkTold};
ghost use Rattle.restore_assembler.specs.Copying.{wanted, HasCopied};
ghost use Rattle.serial_restore.specs.Going.{HasPinned, IsLoadOf, LoadsOne, StopsAt, HasDone, IsCopied, IsRestoreStopped, IsAtMostLeast};

use belady_cache::{plan, requests};
use keeper_core::Keeper;
use restore_assembler::Copier;
use restore_pins::PinNo;
use std::alloc::Global;
use vault_traits::{Shelf, Sink};
use vault_types::{Fault, Id, Spot, Whole};

// Loads the payload that is wanted, and gives it to the copier.
fn load_one<S: Shelf, O: Sink>(
    alloc: Global,
    keeper: &mut Keeper<S>,
    no: &PinNo,
    id: Id,
    copier: &mut Copier,
    sink: &mut O,
) -> Result<(), Fault>
    requires next { wanted copier.old ≡ Some id }
    requires among { has id (map (λ s. s.id) copier.old.spots) ≡ true }
    requires pinned { (K : Core) × HasPinned keeper.old no.now copier.old.spots K }
    ensures ok { OnOk result
        (LoadsOne keeper.old keeper.new no.now id (O.told sink.old) (O.told sink.new) copier.old copier.new) }
    ensures err { IfErr result
        (StopsAt keeper.old keeper.new no.now (O.told sink.old) (O.told sink.new) copier.old) }
{
    let payload = keeper.load(alloc, no, id)?;
    copier.give(payload, sink)
}

// Loads each payload that is wanted, until all bytes are written.
fn copy_all<S: Shelf, O: Sink>(
    alloc: Global,
    keeper: &mut Keeper<S>,
    no: &PinNo,
    mut copier: Copier,
    sink: &mut O,
) -> Result<(), Fault>
    requires loads { AllByRecursion (IsLoadOf (map (λ s. s.id) copier.spots)) copier.steps }
    requires pinned { (K : Core) × HasPinned keeper.old no.now copier.spots K }
    requires start { copier.done ≡ 0 }
    requires fresh { (payloads : ℕ → List ℕ) (told : SinkTold) → HasCopied payloads told told copier }
    ensures ok { OnOk result
        (HasDone keeper.old keeper.new no.now (O.told sink.old) (O.told sink.new) copier) }
    ensures err { IfErr result
        (IsRestoreStopped keeper.old keeper.new no.now (O.told sink.old) (O.told sink.new) copier.spots
        copier.whole (λ m. m ≤ loads_of copier.steps)) }
{
    while let Some(id) = copier.wants() {
        load_one(alloc, keeper, no, id, &mut copier, sink)?;
    }
    Ok(())
}

/// Writes the bytes of a pinned version with these spots to the sink, and says how many payloads that took: the fewest
/// that any plan takes with so many slots. Where a `whole` is given and there are bytes, their SHA-1 is compared with it.
/// `StoreFault`, `WriteFault`, `Damaged`, `Memory`.
pub fn copy_pinned<S: Shelf, O: Sink>(
    alloc: Global,
    keeper: &mut Keeper<S>,
    no: &PinNo,
    spots: Vec<Spot>,
    whole: Option<Whole>,
    slots: u32,
    sink: &mut O,
) -> Result<u64, Fault>
    requires some { 1 ≤ slots }
    requires few { slots ≤ 64 }
    requires pinned { (K : Core) × HasPinned keeper.old no.now spots.items K }
    ensures ok { IfOk result
        (λ n.
        IsCopied keeper.old keeper.new no.now (O.told sink.old) (O.told sink.new) spots.items whole slots
        n) }
    ensures err { IfErr result
        (IsRestoreStopped keeper.old keeper.new no.now (O.told sink.old) (O.told sink.new) spots.items whole
        (IsAtMostLeast (requests_of (map (λ s. s.id) spots.items)) slots)) }
{
    let reqs = requests(alloc, spots.as_slice())?;
    let planned = plan(alloc, reqs.as_slice(), slots)?;
    let loads = planned.loads;
    let copier = Copier::new(alloc, spots, planned, slots, whole)?;
    copy_all(alloc, keeper, no, copier, sink)?;
    Ok(loads)
}
