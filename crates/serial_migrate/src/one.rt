//! One version.
ghost use Rattle.std.specs.Prelude.{◌≡◌, ◌≤◌, None, Some, Ok, IsSome, IsTrue, OnOk, IfOk, IfErr, Option};
ghost use Rattle.vault_types.specs.Names.{IsFp};
ghost use Rattle.vault_types.specs.State.{State, KeptVersion, is_kept, version_of};
ghost use Rattle.vault_types.specs.Events.{Core, Change};
ghost use Rattle.keeper_catalog.specs.View.{Keeps};
ghost use Rattle.keeper_core.specs.Keeping.{IsStateOf};
ghost use Rattle.serial_migrate.specs.Going.{IsLaterOf, IsMigrateFault, Summed, Stopped, PutAgain, Went, Halted, without_write};

use crate::sum_sink::SumSink;
use keeper_core::Keeper;
use serial_restore::restore_plain;
use std::alloc::Global;
use vault_traits::Shelf;
use vault_types::{Fault, Fp, Set, Version};

// The fault, where the sink only sums.
fn without_write(fault: Fault) -> Fault
    ensures { result ≡ without_write fault }
{
    match fault {
        Fault::WriteFault(_) => Fault::Memory,
        other => other,
    }
}

// Restores a version to a sink that sums its bytes.
fn sum_of<S: Shelf>(
    alloc: Global,
    keeper: &mut Keeper<S>,
    set: Set,
    version: Version,
) -> Result<Fp, Fault>
    requires kept { (K : Core) → Keeps keeper.old K → IsTrue (is_kept K.state set version) }
    ensures later { IsLaterOf keeper.old keeper.new }
    ensures sum { IfOk result IsFp }
    ensures kept { (K : Core) → Keeps keeper.new K → IsTrue (is_kept K.state set version) }
    ensures whole { IfOk result (λ f. IsSome keeper.new.told.blobs → (K : Core) (k : KeptVersion)
        → Keeps keeper.new K → version_of K.state set version ≡ Some k → f ≡ k.sum) }
    ensures ok { IfOk result (λ f. (T : State) (other : Option Change) → IsStateOf keeper.old T other
        → Summed keeper.old keeper.new T other set version) }
    ensures cause { IfErr result (IsMigrateFault keeper.old keeper.new) }
    ensures err { IfErr result (λ f. (T : State) (other : Option Change) → IsStateOf keeper.old T other
        → Stopped keeper.old keeper.new T other set version f) }
{
    keeper.keeps_some_core();
    let mut sink = SumSink::new(alloc);
    match restore_plain(alloc, keeper, set, version, 16, &mut sink) {
        Ok(_) => Ok(sink.finish()),
        Err(fault) => Err(without_write(fault)),
    }
}

// Puts the recipe of a version again that has no sum.
fn put_again<S: Shelf>(
    alloc: Global,
    keeper: &mut Keeper<S>,
    set: Set,
    version: Version,
) -> Result<(), Fault>
    requires no_job { keeper.old.job ≡ None }
    requires kept { (K : Core) → Keeps keeper.old K → IsTrue (is_kept K.state set version) }
    ensures later { IsLaterOf keeper.old keeper.new }
    ensures ok { OnOk result ((T : State) (other : Option Change) → IsStateOf keeper.old T other
        → PutAgain keeper.old keeper.new T other set version) }
    ensures cause { IfErr result (IsMigrateFault keeper.old keeper.new) }
    ensures err { IfErr result (λ f. (T : State) (other : Option Change) → IsStateOf keeper.old T other
        → Stopped keeper.old keeper.new T other set version f) }
{
    keeper.keeps_some_core();
    let sum = sum_of(alloc, keeper, set, version)?;
    keeper.replace(alloc, set, version, sum)
}

// Puts the recipe of a version again, where it has no sum, and says whether it was put.
pub(crate) fn migrate_one<S: Shelf>(
    alloc: Global,
    keeper: &mut Keeper<S>,
    set: Set,
    version: Version,
) -> Result<bool, Fault>
    requires no_job { keeper.old.job ≡ None }
    requires kept { (K : Core) → Keeps keeper.old K → IsTrue (is_kept K.state set version) }
    ensures later { IsLaterOf keeper.old keeper.new }
    ensures ok { IfOk result (λ put. (T : State) (other : Option Change) → IsStateOf keeper.old T other
        → Went keeper.old keeper.new T other set version put) }
    ensures cause { IfErr result (IsMigrateFault keeper.old keeper.new) }
    ensures err { IfErr result (λ f. (T : State) (other : Option Change) → IsStateOf keeper.old T other
        → Halted keeper.old keeper.new T other set version f) }
{
    keeper.keeps_some_core();
    let recipe = keeper.recipe(alloc, set, version)?;
    if recipe.whole.is_some() {
        return Ok(false);
    }
    put_again(alloc, keeper, set, version)?;
    Ok(true)
}
