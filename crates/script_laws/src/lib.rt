//! What a run of a script's lines means (`Script`), by the table of answers (`Table`), the numbers of faults (`Causes`),
//! what is written (`Outputs`), what the shelf tells at the end and what a crash leaves (`Leaves`), the strays (`Strays`)
//! and completeness (`Complete`); what the calls of a keeper ensure that run one line (`Calls`); and that lines one after
//! another are such a run. All of it are laws over the definitions: a call that runs lines cites their proofs.
#![tactic(auto)]

ghost use Rattle.std.specs.Prelude.{◌≡◌, ◌≤◌, ◌<◌, ◌+◌, ◌-◌, ◌^◌, ℕ, true, false, IsTrue, List, [], ◌∷◌, Option, None, Some, Result, count_by, flat_map};
ghost use Rattle.std.specs.List.{IsDistinct};
ghost use Rattle.std.specs.Str.{bytes_eq};
ghost use Rattle.vault_types.specs.declared.Answer.{Answer};
ghost use Rattle.vault_types.specs.declared.Answer.TheVariants.{Refused};
ghost use Rattle.vault_types.specs.declared.Fault.{Fault};
ghost use Rattle.vault_types.specs.declared.Fault.TheVariants as fault;
ghost use Rattle.vault_types.specs.declared.JobConfig.{JobConfig};
ghost use Rattle.vault_types.specs.declared.Limits.{Limits};
ghost use Rattle.vault_types.specs.declared.Line.{Line};
ghost use Rattle.vault_types.specs.declared.Name.{Name};
ghost use Rattle.vault_types.specs.declared.Line.TheVariants.{Backup, Restore, Delete};
ghost use Rattle.vault_types.specs.Events.{Change, HasChange, IsChange};
ghost use Rattle.vault_types.specs.Lists.{IsAscending};
ghost use Rattle.vault_types.specs.Words.{sources_of};
ghost use Rattle.vault_types.specs.Bytes.{bytes_of};
ghost use Rattle.vault_types.specs.Script.{Reaches, Sources, after, state_after, IsAnswer};
ghost use Rattle.vault_types.specs.Shelf.{Blobs, StandsNearly};
ghost use Rattle.vault_types.specs.State.{KeptVersion, State, IsValid, version_of, floor_of, is_full, is_kept, latest_of, next_of};
ghost use Rattle.vault_traits.specs.Counts.{RiseFrom, Rose};
ghost use Rattle.vault_traits.specs.Crash.{History, LeavesNowIfTold, LeavesOnlyIfTold};
ghost use Rattle.vault_traits.specs.Files.{AreKept, ChangesOnly, MayBeEmptied};
ghost use Rattle.vault_traits.specs.Told.{Files, PlacesTold, ShelfTold, SinkTold, SourceTold};
ghost use Rattle.store_model.specs.Calls.{AroundSink, AroundSource, BacksUpLine, DeletesLine, RestoresLine, backup_answer, restore_answer};
ghost use Rattle.store_model.specs.Causes.{CausesRise, Counts};
ghost use Rattle.store_model.specs.Complete.{AreBelowLast, IsWell, is_counted};
ghost use Rattle.store_model.specs.Leaves.{BearsLines, BearsOnceDone, IsOr, MayBeDone, StandsForOne, has_change};
ghost use Rattle.store_model.specs.Outputs.{AreApartLines, AreFed, AreFedBy, AreRead, Reads};
ghost use Rattle.store_model.specs.Script.{MeansScript, RunsLines};
ghost use Rattle.store_model.specs.Strays.{StraysOf};
ghost use Rattle.store_model.specs.Steps.{Chain, Moment, StepsLine, StepsOn, answer_of};
ghost use Rattle.store_model.specs.View.{IsKept};

/// Whatever keeps the state of a store on a shelf. The laws speak of any.
pub trait StateKeeper {
    /// What its shelf tells.
    ghost shelf: { Self → ShelfTold };

    /// It keeps this state, and a failed write may have made this change. It has no job and no pin.
    ghost keeps: { Self → State → Option Change → Type 0 };

    /// These names it knows as strays.
    ghost strays: { Self → Name → Type 0 };

    ghost keeps_is: { (k : Self) (S : State) (other : Option Change) → keeps k S other
        → IsKept (shelf k) S other };

    ghost strays_known: { (k : Self) (S : State) (other : Option Change) → keeps k S other → (n : Name)
        → StraysOf (shelf k) S n → strays k n };
}

/// Lines one after another, from a keeper whose last write did not fail, are a run: each answers and leaves what it means
/// in the state that those before it leave.
pub fn lines_are_a_run<K: StateKeeper>()
    ensures { (limits : Limits) (old new : Moment K) (lines : List Line) (answers : List Answer)
        → AreApartLines lines → Chain (StepsLine K.shelf K.keeps K.strays limits) old lines answers new
        → RunsLines true (λ S. K.keeps old.keeper S None) (λ S. K.strays old.keeper) limits lines answers
        (K.shelf old.keeper) (K.shelf new.keeper) old.places new.places }
{}

/// What a call does that runs one line is what a script of that line means.
pub fn calls_are_scripts<K: StateKeeper>()
    ensures { (limits : Limits) (sources : Sources) (S : State) (k k' : K) (line : Line) (answer : Answer)
        → K.keeps k S None
        → (next : Option Change) × K.keeps k' (after sources S line answer) next
        × StepsOn limits sources S None line answer next (K.strays k) (K.strays k') (K.shelf k)
        (K.shelf k')
        → MeansScript limits sources S (line ∷ []) (answer ∷ []) (K.strays k) (K.shelf k) (K.shelf k') }
{}

/// A backup's line: refused where the store is full, where the source could not be opened or where there was no memory
/// for it, which leaves the keeper alone; else what the call did, over a source that was opened and closed.
pub fn backups_are_lines<K: StateKeeper>()
    ensures full { (limits : Limits) (k : K) (p : PlacesTold) (s : ℕ) (name : List ℕ) (config : JobConfig)
        (latest next : ℕ)
        → ((S : State) (other : Option Change) → K.keeps k S other → true ≡ is_full S s limits)
        → ((S : State) (other : Option Change) → K.keeps k S other → latest ≡ latest_of S s)
        → ((S : State) (other : Option Change) → K.keeps k S other → next ≡ next_of S)
        → StepsLine K.shelf K.keeps K.strays limits (record { keeper = k; places = p }) (Backup s name config)
        (Refused (fault.Full s latest next)) (record { keeper = k; places = p }) }
    ensures not_opened { (limits : Limits) (k : K) (p q : PlacesTold) (s : ℕ) (name : List ℕ)
        (config : JobConfig)
        → ((S : State) (other : Option Change) → K.keeps k S other → false ≡ is_full S s limits)
        → AreKept p.files q.files → q.read_faults ≡ p.read_faults → q.write_faults ≡ p.write_faults
        → Rose p.faults q.faults
        → StepsLine K.shelf K.keeps K.strays limits (record { keeper = k; places = p }) (Backup s name config)
        (Refused (fault.PlaceFault q.faults)) (record { keeper = k; places = q }) }
    ensures no_memory { (limits : Limits) (k : K) (p q : PlacesTold) (s : ℕ) (name : List ℕ)
        (config : JobConfig)
        → ((S : State) (other : Option Change) → K.keeps k S other → false ≡ is_full S s limits)
        → AreKept p.files q.files → q.read_faults ≡ p.read_faults → q.write_faults ≡ p.write_faults
        → p.faults ≤ q.faults
        → StepsLine K.shelf K.keeps K.strays limits (record { keeper = k; places = p }) (Backup s name config)
        (Refused fault.Memory) (record { keeper = k; places = q }) }
    ensures called { (limits : Limits) (k k' : K) (p m q : PlacesTold) (s : ℕ) (name : List ℕ)
        (config : JobConfig) (result : Result Answer Fault) (r r' : SourceTold)
        → AroundSource p m q name r r'
        → BacksUpLine (K.keeps k) (K.keeps k') (K.strays k) (K.strays k') limits s config (K.shelf k)
        (K.shelf k') r r' result
        → StepsLine K.shelf K.keeps K.strays limits (record { keeper = k; places = p }) (Backup s name config)
        (backup_answer q.read_faults result) (record { keeper = k'; places = q }) }
{}

/// A restore's line: refused where the version is not kept, where the sink could not be opened or where there was no
/// memory for it; else what the call did, over a sink that was opened and closed.
pub fn restores_are_lines<K: StateKeeper>()
    ensures not_kept { (limits : Limits) (k : K) (p : PlacesTold) (s v : ℕ) (name : List ℕ)
        (cache floor latest : ℕ)
        → ((S : State) (other : Option Change) → K.keeps k S other → false ≡ is_kept S s v)
        → ((S : State) (other : Option Change) → K.keeps k S other → floor ≡ floor_of S s)
        → ((S : State) (other : Option Change) → K.keeps k S other → latest ≡ latest_of S s)
        → StepsLine K.shelf K.keeps K.strays limits (record { keeper = k; places = p })
        (Restore s v name cache) (Refused (fault.NotKept s v floor latest))
        (record { keeper = k; places = p }) }
    ensures not_opened { (limits : Limits) (k : K) (p q : PlacesTold) (s v : ℕ) (name : List ℕ) (cache : ℕ)
        → ((S : State) (other : Option Change) → K.keeps k S other → true ≡ is_kept S s v)
        → ChangesOnly p.files q.files name MayBeEmptied → q.read_faults ≡ p.read_faults
        → q.write_faults ≡ p.write_faults → Rose p.faults q.faults
        → StepsLine K.shelf K.keeps K.strays limits (record { keeper = k; places = p })
        (Restore s v name cache) (Refused (fault.PlaceFault q.faults))
        (record { keeper = k; places = q }) }
    ensures no_memory { (limits : Limits) (k : K) (p q : PlacesTold) (s v : ℕ) (name : List ℕ) (cache : ℕ)
        → ((S : State) (other : Option Change) → K.keeps k S other → true ≡ is_kept S s v)
        → ChangesOnly p.files q.files name MayBeEmptied → q.read_faults ≡ p.read_faults
        → q.write_faults ≡ p.write_faults → p.faults ≤ q.faults
        → StepsLine K.shelf K.keeps K.strays limits (record { keeper = k; places = p })
        (Restore s v name cache) (Refused fault.Memory) (record { keeper = k; places = q }) }
    ensures called { (limits : Limits) (k k' : K) (p m q : PlacesTold) (s v : ℕ) (name : List ℕ) (cache : ℕ)
        (result : Result Answer Fault) (w w' : SinkTold)
        → ((S : State) (other : Option Change) → K.keeps k S other → true ≡ is_kept S s v)
        → AroundSink p m q name w w'
        → RestoresLine (K.keeps k) (K.keeps k') (K.strays k) (K.strays k') s v cache (K.shelf k) (K.shelf k')
        w w' result
        → StepsLine K.shelf K.keeps K.strays limits (record { keeper = k; places = p })
        (Restore s v name cache) (restore_answer q.write_faults result)
        (record { keeper = k'; places = q }) }
{}

/// A deletion's line is what the call did, and leaves the places alone.
pub fn deletions_are_lines<K: StateKeeper>()
    ensures { (limits : Limits) (k k' : K) (p : PlacesTold) (s n : ℕ) (result : Result Answer Fault)
        → DeletesLine (K.keeps k) (K.keeps k') (K.strays k) (K.strays k') s n (K.shelf k) (K.shelf k') result
        → StepsLine K.shelf K.keeps K.strays limits (record { keeper = k; places = p }) (Delete s n)
        (answer_of result) (record { keeper = k'; places = p }) }
{}

/// Numbers that rise below the last value of a `u64` ascend, so that none comes twice; and at most as many answers carry
/// one as the counts rose by.
pub fn numbers_ascend()
    ensures ascend { (before now : ℕ) (numbers : List ℕ) → now < 2 ^ 64 - 1 → RiseFrom before numbers now
        → IsAscending numbers }
    ensures few { (old new : Counts) (answers : List Answer) → CausesRise old new answers → AreBelowLast new
        → count_by is_counted answers
        ≤ (new.store - old.store) + (new.place - old.place) + (new.read - old.read)
        + (new.write - old.write) }
{}

/// Blobs with the change of a commit or of a deletion that failed nearly stand for the state from before it.
pub fn changed_blobs_are_near()
    ensures { (S : State) (s : ℕ) (h : Change) (m : Blobs) → IsValid S → IsChange S s h → HasChange S h m
        → StandsNearly m S }
{}

/// Where all is well before a line that answers as it should, all is well behind it for the lines that follow: the state
/// stays sound, and no chunk is new but those of a backup's source.
pub fn lines_stay_well()
    ensures { (limits : Limits) (sources : Sources) (S : State) (line : Line) (lines : List Line)
        (answer : Answer)
        → IsValid (after sources S line answer) → IsAnswer sources S line answer
        → IsWell limits sources S (line ∷ lines) → IsWell limits sources (after sources S line answer) lines }
{}

/// A version that is kept before a line and behind it keeps its bytes.
pub fn lines_keep_bytes()
    ensures { (sources : Sources) (S : State) (line : Line) (answer : Answer) (t v : ℕ) (j q : KeptVersion)
        → IsValid S → IsValid (after sources S line answer) → IsAnswer sources S line answer
        → version_of S t v ≡ Some j → version_of (after sources S line answer) t v ≡ Some q
        → bytes_of (after sources S line answer) t v ≡ bytes_of S t v }
{}

/// The bytes that lines read are those of sources that are told, and there are sources with them where no name is read twice.
pub fn reads_are_sources()
    ensures told { (files : Option Files) (sources : Sources) (lines : List Line) (reads : Reads)
        → AreRead files lines reads → AreFedBy files sources lines → AreFed sources reads }
    ensures some { (files : Option Files) (lines : List Line) (reads : Reads) → AreRead files lines reads
        → IsDistinct bytes_eq (flat_map sources_of lines)
        → (sources : Sources) × AreFed sources reads }
{}

/// What lines leave of a crash, line by line, comes to this: at any moment it leaves a state that the lines reach, and at
/// the end the last one or that of a change that was half done; the latter also where nothing is known of the beginning, if
/// a backup or a deletion was done.
pub fn crashes_go_by_lines()
    ensures any_moment { (sources : Sources) (S : State) (lines : List Line) (answers : List Answer)
        (old new : Option History)
        → BearsLines sources S (λ T. ⊥) lines answers old new
        → LeavesOnlyIfTold old new (StandsForOne (Reaches sources S lines answers)) }
    ensures at_the_end { (sources : Sources) (S : State) (lines : List Line) (answers : List Answer)
        (old new : Option History)
        → BearsLines sources S (λ T. ⊥) lines answers old new
        → LeavesNowIfTold new
        (StandsForOne (IsOr (state_after sources S lines answers) (MayBeDone sources S lines answers))) }
    ensures settled { (sources : Sources) (S : State) (lines : List Line) (answers : List Answer)
        (new : Option History)
        → BearsOnceDone sources S lines answers new → IsTrue (has_change lines answers)
        → LeavesNowIfTold new
        (StandsForOne (IsOr (state_after sources S lines answers) (MayBeDone sources S lines answers))) }
{}
