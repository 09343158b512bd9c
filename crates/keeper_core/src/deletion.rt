//! Deletions and releases.
ghost use Rattle.std.specs.Prelude.{◌≡◌, ◌≤◌, ◌<◌, ◌+◌, ◌-◌, ◌^◌, ◌⊎◌, ◌++◌, None, IfOk, IfErr, OnOk, OnErr, Err, IsSome, IsTrue, List, length, Contains};
ghost use Rattle.vault_types.specs.declared.Fault.TheVariants as fault;
ghost use Rattle.vault_types.specs.declared.Name.{Name as Named};
ghost use Rattle.vault_types.specs.Lists.{has};
ghost use Rattle.vault_types.specs.State.{latest_of};
ghost use Rattle.vault_types.specs.Delete.{delete, removed};
ghost use Rattle.vault_types.specs.Shelf.{blob_at};
ghost use Rattle.vault_types.specs.Events.{Core, IsNear, after_delete, after_release, delete_change};
ghost use Rattle.vault_traits.specs.Crash.{LeavesNowIfTold, LeavesOnlyIfTold};
ghost use Rattle.restore_pins.specs.Pins.{numbers, without_pin};
ghost use Rattle.deletion_laws.specs.Deleting.{IsDeleting};
ghost use Rattle.deletion_laws.specs.Releasing.{IsReleased};
ghost use Rattle.state_laws.specs.Parts.{HeldIfTold};
ghost use Rattle.vault_types.specs.RecipeForms.{KeepsRecipes};
ghost use Rattle.keeper_catalog.specs.View.{Keeps};
ghost use Rattle.keeper_core.specs.Deletes.{DeletesThrough};
ghost use Rattle.keeper_core.specs.Releases.{Releases};

use crate::keeper::{Keeper, Stand};
use keeper_removals::{delete_versions, release_pin};
use restore_pins::PinNo;
use vault_traits::Shelf;
use vault_types::{Answer, Fault, Pending, Set, Version};

impl<S: Shelf> Keeper<S> {
    /// Deletes the versions of a set through one that is not its latest: the floor rises and is settled, and then the
    /// recipes below it go, the containers that lost their last name and are in no pin, and all known strays. A removal
    /// that fails leaves a stray, and is no refusal. Nothing is got, and no memory is taken. `LastVersion`, exactly where
    /// the version is not below the latest; then `StoreFault` of a mending that was due, or of the floor, after which its
    /// set may have the new floor or not until a mending.
    pub fn delete_through(&mut self, set: Set, through: Version) -> Result<Answer, Fault>
        requires { self.old.job ≡ None }
        ensures { DeletesThrough set through self.old self.new result }
    {
        let latest = self.latest(set);
        if through >= latest {
            return Err(Fault::LastVersion {
                set,
                through,
                latest,
            });
        }
        self.mend_first(set)?;
        match &mut self.stand {
            Stand::Lent(_, _) => unreachable!(),
            Stand::Here(index) => {
                match delete_versions(
                    &mut self.shelf,
                    &mut self.catalog,
                    index,
                    &self.pins,
                    set,
                    through,
                ) {
                    Ok(reclaimed) => {
                        let sets = self.catalog.sets.as_slice();
                        Ok(Answer::Removed {
                            set,
                            through,
                            floor: sets[set as usize].floor,
                            reclaimed,
                        })
                    }
                    Err(fault) => {
                        self.pending = Pending::FailedFor(set);
                        Err(fault)
                    }
                }
            }
        }
    }

    /// Ends a pin of this keeper, and removes its containers that are neither named nor in another pin. A removal that
    /// fails leaves a stray. Takes no memory.
    pub fn release(&mut self, no: PinNo)
        requires { IsTrue (has no (numbers self.old.pins)) }
        ensures { Releases no self.old self.new }
    {
        release_pin(&mut self.shelf, &mut self.catalog, &mut self.pins, no);
    }

    /// Hands out the shelf.
    pub fn close(self) -> S
        ensures told { S.told result ≡ self.told }
        ensures held { (K : Core) → Keeps self K → HeldIfTold (S.told result).blobs K }
    {
        let Keeper { shelf, .. } = self;
        shelf
    }
}
