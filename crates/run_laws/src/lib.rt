//! What a run of the program's words is (`Run`): it ends before its first line (`Early`), or it runs as its command says
//! (`Courses`, `Filling`), over what is handed in and given back (`World`). And laws on it, whose proofs a call cites that runs
//! words.
#![tactic(auto)]

ghost use Rattle.std.specs.Prelude.{◌≡◌, ◌⊎◌, ◌+◌, ℕ, Bool, List, [], ◌∷◌, Option, Some, None, IfSome, IsSomeAnd, Result};
ghost use Rattle.std.specs.List.{filter_map};
ghost use Rattle.vault_types.specs.declared.Answer.{Answer};
ghost use Rattle.vault_types.specs.declared.Command.TheVariants as command;
ghost use Rattle.vault_types.specs.declared.Fault.{Fault};
ghost use Rattle.vault_types.specs.declared.JobConfig.{JobConfig};
ghost use Rattle.vault_types.specs.declared.Limits.{Limits};
ghost use Rattle.vault_types.specs.declared.Line.{Line};
ghost use Rattle.vault_types.specs.declared.Name.{Name};
ghost use Rattle.vault_types.specs.State.{State};
ghost use Rattle.vault_types.specs.Words.{command_of};
ghost use Rattle.vault_traits.specs.Told.{PlacesTold, ShelfTold, SourceTold};
ghost use Rattle.store_model.specs.Calls.{BacksUpLine, DeletesLine, GivesAtMost, RestoresLine};
ghost use Rattle.store_model.specs.Causes.{place_number, read_number};
ghost use Rattle.store_model.specs.Leaves.{Begins};
ghost use Rattle.store_model.specs.Script.{RunsLines};
ghost use Rattle.store_model.specs.Steps.{answer_of};
ghost use Rattle.store_model.specs.Strays.{StraysOf};
ghost use Rattle.store_model.specs.World.{World, IsPrinted, report_text};
ghost use Rattle.store_model.specs.Early.{CanOpen, EndsEarly, IsBatch, IsSameBut, IsScript};
ghost use Rattle.store_model.specs.Courses.{RunsBackup, RunsBatch, RunsDelete, RunsRestore};
ghost use Rattle.store_model.specs.Filling.{RunsFill};
ghost use Rattle.store_model.specs.Run.{EndsAtOpening, IsRun, RanLines, RunsOpened, with_input};

mod migrating;

pub use migrating::migrations_are_runs;
use script_laws::StateKeeper;

/// A run that ends where the shelf is opened ends before its first line, where its words, and its script if it takes one,
/// could be read.
pub fn openings_end_early()
    ensures { (words : List (List ℕ)) (limits : Limits) (before now : World) (input : SourceTold)
        (answers : List Answer) (f : Fault)
        → CanOpen (command_of words) limits before.input
        → (IsBatch (command_of words) × GivesAtMost (limits.script + 1) before.input input)
        ⊎ (input ≡ before.input)
        → EndsAtOpening (with_input before input) now answers f
        → EndsEarly words limits before now answers f }
{}

/// A script that was read to its end is run, or its run ends where the shelf is opened.
pub fn scripts_are_batches()
    ensures { (words : List (List ℕ)) (limits : Limits) (before now : World) (input : SourceTold)
        (answers : List Answer) (lines : List Line) (f : Option Fault) (queue lanes workers : ℕ)
        (in_order : Bool)
        → command_of words ≡ Some (command.Batch queue lanes workers) → IsScript limits before.input lines
        → IfSome input.left (λ rest. rest ≡ []) → GivesAtMost (limits.script + 1) before.input input
        → IsSomeAnd f (EndsAtOpening (with_input before input) now answers)
        ⊎ RunsOpened (RanLines in_order lines limits) (with_input before input) now answers f
        → IsSomeAnd f (EndsEarly words limits before now answers)
        ⊎ RunsOpened (RunsBatch in_order limits) before now answers f }
{}

/// Lines that run behind an opening, which changes nothing of the shelf but its count of faults, are a run of them from
/// before it, where what is known as strays behind the opening are strays of its blobs.
pub fn openings_change_no_run<K: StateKeeper>()
    ensures { (in_order : Bool) (limits : Limits) (lines : List Line) (answers : List Answer)
        (old new : ShelfTold) (k : K) (before now : PlacesTold)
        → IsSameBut old (K.shelf k)
        → ((S : State) → Begins old S → (n : Name) → K.strays k n → StraysOf old S n)
        → ((S : State) → Begins old S → K.keeps k S None)
        → RunsLines in_order (λ S. K.keeps k S None) (λ S. K.strays k) limits lines answers (K.shelf k) new
        before now
        → RunsLines in_order (Begins old) (StraysOf old) limits lines answers old new before now }
{}

/// A call behind an opening that runs one line is the run of its command, where what is known as strays behind the opening
/// are strays of its blobs.
pub fn calls_are_runs<K: StateKeeper>()
    ensures backup { (limits : Limits) (before now : World) (k k' : K) (s : ℕ) (config : JobConfig)
        (result : Result Answer Fault) (f : Option Fault)
        → IsSameBut before.shelf (K.shelf k) → now.shelf ≡ K.shelf k'
        → ((S : State) → Begins before.shelf S → (n : Name) → K.strays k n → StraysOf before.shelf S n)
        → ((S : State) → Begins before.shelf S → K.keeps k S None) → BacksUpLine (K.keeps k) (K.keeps k')
        (K.strays k) (K.strays k') limits s config (K.shelf k) (K.shelf k') before.input now.input result
        → IsPrinted (report_text (answer_of result ∷ [])) before.out now.out f → now.report ≡ before.report
        → now.places ≡ before.places → RunsBackup s config limits before now (answer_of result ∷ []) f }
    ensures restore { (limits : Limits) (before now : World) (k k' : K) (s v slots : ℕ)
        (result : Result Answer Fault) (f : Option Fault)
        → IsSameBut before.shelf (K.shelf k) → now.shelf ≡ K.shelf k'
        → ((S : State) → Begins before.shelf S → (n : Name) → K.strays k n → StraysOf before.shelf S n)
        → ((S : State) → Begins before.shelf S → K.keeps k S None)
        → RestoresLine (K.keeps k) (K.keeps k') (K.strays k) (K.strays k') s v slots (K.shelf k) (K.shelf k')
        before.out now.out result
        → IsPrinted (report_text (answer_of result ∷ [])) before.report now.report f
        → now.input ≡ before.input → now.places ≡ before.places
        → RunsRestore s v slots limits before now (answer_of result ∷ []) f }
    ensures delete { (limits : Limits) (before now : World) (k k' : K) (s n : ℕ)
        (result : Result Answer Fault) (f : Option Fault)
        → IsSameBut before.shelf (K.shelf k) → now.shelf ≡ K.shelf k'
        → ((S : State) → Begins before.shelf S → (n : Name) → K.strays k n → StraysOf before.shelf S n)
        → ((S : State) → Begins before.shelf S → K.keeps k S None)
        → DeletesLine (K.keeps k) (K.keeps k') (K.strays k) (K.strays k') s n (K.shelf k) (K.shelf k') result
        → IsPrinted (report_text (answer_of result ∷ [])) before.out now.out f → now.report ≡ before.report
        → now.input ≡ before.input → now.places ≡ before.places
        → RunsDelete s n limits before now (answer_of result ∷ []) f }
{}

/// No line of `fill` is refused as its source or its sink could not be opened, or as its source failed.
pub fn fills_open_and_read_all()
    ensures { (in_order : Bool) (seed versions : ℕ) (limits : Limits) (before now : World)
        (answers : List Answer) (f : Option Fault)
        → RunsFill in_order seed versions limits before now answers f
        → (filter_map place_number answers ≡ []) × (filter_map read_number answers ≡ []) }
{}
