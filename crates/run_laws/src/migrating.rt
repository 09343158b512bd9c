//! A migration behind an opening.
ghost use Rattle.std.specs.Prelude.{◌≡◌, [], ◌∷◌, Option, None, Result};
ghost use Rattle.vault_types.specs.declared.Answer.{Answer};
ghost use Rattle.vault_types.specs.declared.Fault.{Fault};
ghost use Rattle.vault_types.specs.declared.Name.{Name};
ghost use Rattle.vault_types.specs.State.{State};
ghost use Rattle.store_model.specs.Leaves.{Begins};
ghost use Rattle.store_model.specs.Steps.{answer_of};
ghost use Rattle.store_model.specs.Strays.{StraysOf};
ghost use Rattle.store_model.specs.World.{World, IsPrinted, report_text};
ghost use Rattle.store_model.specs.Early.{IsSameBut};
ghost use Rattle.store_model.specs.Migrating.{MigratesStore, RunsMigrate};

use script_laws::StateKeeper;

/// A call behind an opening that puts recipes again is the run of `migrate`, where what is known as strays behind the
/// opening are strays of its blobs.
pub fn migrations_are_runs<K: StateKeeper>()
    ensures { (before now : World) (k k' : K) (result : Result Answer Fault) (f : Option Fault)
        → IsSameBut before.shelf (K.shelf k) → now.shelf ≡ K.shelf k'
        → ((S : State) → Begins before.shelf S → (n : Name) → K.strays k n → StraysOf before.shelf S n)
        → ((S : State) → Begins before.shelf S → K.keeps k S None)
        → MigratesStore (K.keeps k) (K.keeps k') (K.strays k) (K.strays k') (K.shelf k) (K.shelf k') result
        → IsPrinted (report_text (answer_of result ∷ [])) before.out now.out f → now.report ≡ before.report
        → now.input ≡ before.input → now.places ≡ before.places
        → RunsMigrate before now (answer_of result ∷ []) f }
{}
