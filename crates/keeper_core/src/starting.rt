//! Opening a store, and the recipes that it keeps.
ghost use Rattle.std.specs.FinMap as fin;
ghost use Rattle.std.specs.Prelude.{◌≡◌, ◌≤◌, ◌<◌, ◌^◌, length, [], IfOk, IfErr, IfSome, IsSome, Some, None, Contains};
ghost use Rattle.vault_types.specs.declared.Name.{Name as Named};
ghost use Rattle.vault_types.specs.State.{State, KeptVersion, IsValid, length_of, version_of};
ghost use Rattle.vault_types.specs.Shelf.{Stands};
ghost use Rattle.vault_types.specs.Events.{Core};
ghost use Rattle.vault_traits.specs.Causes.{HasCauses, IsCause};
ghost use Rattle.vault_types.specs.BlobDamage.{IsRecipeDamage};
ghost use Rattle.vault_types.specs.FirstDamage.{IsDamageOf, Opens};
ghost use Rattle.keeper_catalog.specs.View.{Keeps, opened_core};
ghost use Rattle.commit_laws.specs.Laws.{SaysVersion};
ghost use Rattle.keeper_core.specs.Calls.{IsWholeOf};

use crate::keeper::{Keeper, Stand};
use keeper_open::{Opened, open};
use recipe_store::get_recipe;
use restore_pins::Pins;
use std::alloc::Global;
use vault_traits::Shelf;
use vault_types::{Fault, Pending, Recipe, Set, Version};

impl<S: Shelf> Keeper<S> {
    /// Opens the store on a shelf: its floors, its recipes, its tables, and the rows of all recipes are read and checked,
    /// in this order; payloads are not read. What no version needs is a stray. Writes nothing. `StoreFault`, where the shelf failed; `Damaged`, where the blobs
    /// are those of no store, with the first damage in that order; `Memory`. The shelf then comes back, as it was.
    pub fn start(alloc: Global, mut shelf: S) -> Result<Keeper<S>, (Fault, S)>
        ensures opened { IfOk result (λ k. (T : State) × IfSome (S.told shelf).blobs (λ m. Opens m T)
            × Keeps k (opened_core T k.memo.strays)) }
        ensures each { IfOk result
            (λ k.
            IfSome (S.told shelf).blobs (λ m. (T : State) → Stands m T → IsValid T
            → Keeps k (opened_core T k.memo.strays))) }
        ensures strays { IfOk result
            (λ k.
            IfSome (S.told shelf).blobs (λ m. (n : Named) → Contains k.memo.strays n
            → IsSome (fin.get m n))) }
        ensures shelf { IfOk result (λ k. (k.told.blobs ≡ (S.told shelf).blobs)
            × (k.told.history ≡ (S.told shelf).history) × (k.told.gets ≡ (S.told shelf).gets)) }
        ensures fresh { IfOk result (λ k. (k.job ≡ None) × (k.pins ≡ []) × (k.pending ≡ Pending.Opened)) }
        ensures later { IfOk result (λ k. (S.told shelf).faults ≤ k.told.faults)
            × IfErr result (λ e. (S.told shelf).faults ≤ (S.told e.1).faults) }
        ensures back { IfErr result (λ e. ((S.told e.1).blobs ≡ (S.told shelf).blobs)
            × ((S.told e.1).history ≡ (S.told shelf).history) × ((S.told e.1).gets ≡ (S.told shelf).gets)) }
        ensures cause { IfErr result
            (λ e. IsCause (S.told shelf).faults (S.told e.1).faults (IsDamageOf (S.told shelf).blobs) e.0) }
    {
        match open(alloc, &mut shelf) {
            Ok(opened) => {
                let Opened { catalog, index } = opened;
                Ok(Keeper {
                    shelf,
                    catalog,
                    pins: Pins::new(alloc),
                    stand: Stand::Here(index),
                    pending: Pending::Opened,
                })
            }
            Err(fault) => Err((fault, shelf)),
        }
    }

    /// The recipe of a version, as the shelf has it. `StoreFault`, where the shelf failed; `Damaged`, where it has no blob of
    /// that name or one that spells no such recipe; `Memory`. After an `Err`, too, all is as before.
    pub fn recipe(&mut self, alloc: Global, set: Set, version: Version) -> Result<Recipe, Fault>
        ensures says { IfOk result (λ r. IsSome self.old.told.blobs → (K : Core) (k : KeptVersion)
            → Keeps self.old K → version_of K.state set version ≡ Some k → SaysVersion r k) }
        ensures whole { IfOk result (λ r. IsSome self.old.told.blobs → (K : Core) (k : KeptVersion)
            → Keeps self.old K → version_of K.state set version ≡ Some k
            → IsWholeOf self.old.told.blobs set version k r.whole) }
        ensures named { IfOk result (λ r. (r.set ≡ set) × (r.version ≡ version)
            × (r.length ≡ length_of r.rows) × (length r.rows < 2 ^ 32)) }
        ensures keeps { (K : Core) → Keeps self.old K → Keeps self.new K }
        ensures same { (self.new.memo ≡ self.old.memo) × (self.new.index ≡ self.old.index)
            × (self.new.pins ≡ self.old.pins) × (self.new.job ≡ self.old.job)
            × (self.new.pending ≡ self.old.pending) }
        ensures shelf { (self.new.told.blobs ≡ self.old.told.blobs)
            × (self.new.told.history ≡ self.old.told.history) × (self.new.told.gets ≡ self.old.told.gets) }
        ensures causes { HasCauses self.old.told.faults self.new.told.faults
            (IsRecipeDamage self.old.told.blobs set version) result }
    {
        get_recipe(alloc, &mut self.shelf, set, version)
    }
}
