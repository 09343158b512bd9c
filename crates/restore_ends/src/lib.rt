//! The end of a restore that ran beside lines, over a keeper: it answers what the call on one thread
//! would have answered of the keeper from before its pin, and it is sent what it wants. All of it are
//! laws over the definitions: a call that ends such a restore cites their proofs.
#![tactic(auto)]

ghost use Rattle.std.specs.Prelude.{◌≡◌, ℕ, List, [], Option, Some, IfSome};
ghost use Rattle.vault_types.specs.declared.Limits.{Limits};
ghost use Rattle.vault_types.specs.Events.{Change};
ghost use Rattle.vault_types.specs.State.{State};
ghost use Rattle.vault_traits.specs.Counts.{added};
ghost use Rattle.vault_traits.specs.Files.{ChangesOnly, IsWhatWasTaken};
ghost use Rattle.vault_traits.specs.Told.{SinkTold};
ghost use Rattle.store_model.specs.Calls.{restore_answer};
ghost use Rattle.store_model.specs.Steps.{Moment};
ghost use Rattle.beside_laws.specs.Running.{Past, with_answer};
ghost use Rattle.beside_laws.specs.Steps.{EndsRestore, LeavesState};
ghost use Rattle.restore_stage.specs.declared.Loaded.{Loaded};
ghost use Rattle.restore_stage.specs.declared.Reply.{Reply};
ghost use Rattle.restore_stage.specs.declared.Reply.TheVariants.{Unwanted};
ghost use Rattle.restore_stage.specs.Assembling.{Assembling};
ghost use Rattle.keeper_catalog.specs.View.{View};
ghost use Rattle.restore_turns.specs.Entry.{IsEntry, IsStateBeside};
ghost use Rattle.restore_turns.specs.Started.{HasStarted};
ghost use Rattle.restore_ends.specs.Results.{HasReplied, result_of};

use beside_laws::PinnedKeeper;

/// Its reply, the release of its pin and the closing of its sink are the end of a restore beside
/// lines, over whatever keeps what a keeper keeps: v is the keeper from before its pin, u the one
/// behind it, and now the one that is to release it.
pub fn a_restore_that_replied_ends<K: PinnedKeeper>()
    ensures { (limits : Limits) (old new : Moment K) (p : Past K) (v u now : View) (number : ℕ)
        (loads : List ℕ) (a : Assembling) (sent : List Loaded) (r : Reply) (sink : SinkTold)
        → HasStarted v u p.set p.version p.cache number loads a
        → IsEntry u now number a.copying.spots loads p.got p.met sent → HasReplied a sent r sink
        → ((S : State) (other : Option Change) → K.keeps p.from S other → IsStateBeside v S other)
        → a.sink.faults ≡ 0 → IfSome old.places.files (λ files. a.sink.taken ≡ Some [])
        → LeavesState K.shelf K.keeps K.strays old.keeper new.keeper
        → (K.shelf new.keeper).gets ≡ (K.shelf old.keeper).gets
        → ChangesOnly old.places.files new.places.files p.name (IsWhatWasTaken sink.taken)
        → new.places.faults ≡ old.places.faults → new.places.read_faults ≡ old.places.read_faults
        → new.places.write_faults ≡ added old.places.write_faults sink.faults
        → EndsRestore K.shelf K.keeps K.strays limits old
        (with_answer (restore_answer new.places.write_faults (result_of p.set p.version loads r)) p) new }
{}

/// A restore whose loads were those of its pin has found no payload unwanted.
pub fn what_a_pin_holds_is_wanted()
    ensures { (v u now : View) (s n slots number : ℕ) (loads : List ℕ) (a : Assembling) (got : ℕ)
        (met : Option ℕ) (sent : List Loaded) (r : Reply) (sink : SinkTold)
        → HasStarted v u s n slots number loads a
        → IsEntry u now number a.copying.spots loads got met sent → HasReplied a sent r sink
        → r ≡ Unwanted → ⊥ }
{}
