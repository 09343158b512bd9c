//! Lines in order with restores beside them: what the steps of such a run do (`specs/Steps`), a run
//! step by step (`specs/Progress`), and that it is a run of the lines, whose answers rise in some
//! order (`RunsLines false`). What a restore answers, gets and writes is said of the state from
//! before its pin; a restore that runs beside lines owes at its end what the call for one thread
//! ensures of one alone. All of it are laws over the definitions: a call that runs lines so cites
//! their proofs.
#![tactic(auto)]

ghost use Rattle.std.specs.Prelude.{◌≡◌, ◌⊎◌, ◌<◌, ◌+◌, ◌-◌, ◌^◌, ℕ, true, false, List, [], ◌++◌, ◌∷◌, length, Option, None, Some, IfSome, Result};
ghost use Rattle.vault_types.specs.declared.Answer.{Answer};
ghost use Rattle.vault_types.specs.declared.Fault.{Fault};
ghost use Rattle.vault_types.specs.declared.Limits.{Limits};
ghost use Rattle.vault_types.specs.declared.Line.{Line};
ghost use Rattle.vault_types.specs.declared.Name.{Name};
ghost use Rattle.vault_types.specs.Events.{Change};
ghost use Rattle.vault_types.specs.State.{State, is_kept};
ghost use Rattle.vault_traits.specs.Counts.{counted_up};
ghost use Rattle.vault_traits.specs.Files.{ChangesOnly, IsThere, IsWhatWasTaken};
ghost use Rattle.vault_traits.specs.Told.{Files, ShelfTold, SinkTold};
ghost use Rattle.store_model.specs.Calls.{RestoresLine, restore_answer};
ghost use Rattle.store_model.specs.Causes.{store_number};
ghost use Rattle.store_model.specs.Outputs.{OnFiles};
ghost use Rattle.store_model.specs.Script.{RunsLines};
ghost use Rattle.store_model.specs.Steps.{Moment};
ghost use Rattle.store_model.specs.Strays.{StraysOf};
ghost use Rattle.store_model.specs.View.{IsKept};
ghost use Rattle.beside_laws.specs.Progress.{Underway};
ghost use Rattle.beside_laws.specs.Running.{Past, Running};
ghost use Rattle.beside_laws.specs.Steps.{GetsMore, HasOutput, IsOwn};

/// Whatever keeps the state of a store on a shelf, with any pins. The laws speak of any.
pub trait PinnedKeeper {
    /// What its shelf tells.
    ghost shelf: { Self → ShelfTold };

    /// It keeps this state, and a failed write may have made this change.
    ghost keeps: { Self → State → Option Change → Type 0 };

    /// These names it knows as strays.
    ghost strays: { Self → Name → Type 0 };

    ghost keeps_is: { (k : Self) (S : State) (other : Option Change) → keeps k S other
        → IsKept (shelf k) S other };
}

/// Lines of which all have begun, where no restore runs any more, are a run, if each stray that is
/// there is known then. The name of a restore that runs is there among the places, and the place of
/// its line has an answer to be set.
pub fn lines_with_restores_beside_are_a_run<K: PinnedKeeper>()
    ensures run { (limits : Limits) (lines : List Line) (old new : Moment K) (answers : List Answer)
        → ((T : State) (other : Option Change) → K.keeps new.keeper T other → (n : Name)
        → StraysOf (K.shelf new.keeper) T n → K.strays new.keeper n)
        → Underway K.shelf K.keeps K.strays limits lines old (length lines) answers [] new
        → RunsLines false (λ S. K.keeps old.keeper S None) (λ S. K.strays old.keeper) limits lines answers
        (K.shelf old.keeper) (K.shelf new.keeper) old.places new.places }
    ensures there { (limits : Limits) (lines : List Line) (old new : Moment K) (i : ℕ)
        (answers : List Answer) (first : List (Past K)) (p : Past K) (later : List (Past K))
        → Underway K.shelf K.keeps K.strays limits lines old i answers (first ++ p ∷ later) new
        → IsThere new.places.files p.name × (p.place < length answers) }
{}

/// A restore owes at its end what the call for one thread ensures of one from the keeper before its
/// pin, over counts of its own: what its answer means, how many payloads it gets, where the shelf
/// is told to have got none before, and what its name has behind the closing of its sink.
pub fn a_restore_beside_answers_as_alone<K: PinnedKeeper>()
    ensures own { (limits : Limits) (p : Running K) (k : K) (old new : ShelfTold) (w v : SinkTold)
        (result : Result Answer Fault) (number : ℕ)
        → RestoresLine (K.keeps p.from) (K.keeps k) (K.strays p.from) (K.strays k) p.set p.version p.cache
        old new w v result
        → p.answer ≡ restore_answer number result
        → ((n : ℕ) → p.met ≡ Some n
        → (store_number p.answer ≡ None) ⊎ (store_number p.answer ≡ Some n))
        → IsOwn K.keeps limits p }
    ensures got { (limits : Limits) (p : Running K) (k : K) (old new : ShelfTold) (w v : SinkTold)
        (result : Result Answer Fault) (number more : ℕ)
        → RestoresLine (K.keeps p.from) (K.keeps k) (K.strays p.from) (K.strays k) p.set p.version p.cache
        old new w v result
        → p.answer ≡ restore_answer number result
        → old.gets ≡ 0 → new.gets ≡ counted_up 0 (p.got + more) → p.got + more < 2 ^ 64 - 1
        → GetsMore K.keeps p more }
    ensures output { (limits : Limits) (p : Running K) (k : K) (old new : ShelfTold) (w v : SinkTold)
        (result : Result Answer Fault) (number : ℕ) (a b : Option Files)
        → ((S : State) (other : Option Change) → K.keeps p.from S other → true ≡ is_kept S p.set p.version)
        → RestoresLine (K.keeps p.from) (K.keeps k) (K.strays p.from) (K.strays k) p.set p.version p.cache
        old new w v result
        → p.answer ≡ restore_answer number result
        → IfSome a (λ f. w.taken ≡ Some []) → ChangesOnly a b p.name (IsWhatWasTaken v.taken)
        → OnFiles a b (λ x y. HasOutput K.keeps y p) }
{}
