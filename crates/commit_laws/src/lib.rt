//! What a commit, a put, a pin and the end of a job keep of a core, of what is in memory of it and of what the shelf
//! holds; and that blobs open as one state at most. All of it are laws over the definitions: a call that keeps them
//! cites their proofs.
#![tactic(auto)]

ghost use Rattle.std.specs.Prelude.{◌≡◌, ◌<◌, ◌⊎◌, ◌+◌, ◌++◌, [], List, ℕ, length, map, slice_set, nat_eq, false, Option, Some, None, Contains, if◌then◌else◌};
ghost use Rattle.std.specs.FinMap as fin;
ghost use Rattle.vault_types.specs.declared.Name.{Name};
ghost use Rattle.vault_types.specs.declared.Pending.TheVariants as pending;
ghost use Rattle.vault_types.specs.declared.Recipe.{Recipe};
ghost use Rattle.vault_types.specs.declared.Table.{Table};
ghost use Rattle.vault_types.specs.Blobs.{recipe_bytes, SpellsRecipe};
ghost use Rattle.vault_types.specs.Bytes.{HasPayload};
ghost use Rattle.vault_types.specs.Events.{Core, Job, CanCommit, Held, IsChange, IsCore, after_abort, after_commit, after_put, after_refused, commit_change, committed};
ghost use Rattle.vault_types.specs.Lists.{has, set_of};
ghost use Rattle.vault_types.specs.Marks.{Mark, marks_of};
ghost use Rattle.vault_types.specs.Shelf.{Blobs, recipe_name, with_blob, Stands};
ghost use Rattle.vault_types.specs.State.{KeptVersion, State, floor_of, next_of, version_of, IsValid};
ghost use Rattle.vault_types.specs.Tables.{Container, IsTable};
ghost use Rattle.restore_pins.specs.Pins.{IsListOf};
ghost use Rattle.state_laws.specs.Parts.{CanChange, HeldIfTold, change};
ghost use Rattle.keeper_catalog.specs.Catalog.{AreMarks, AreTables, listed, set_info, table_at, versions_in};
ghost use Rattle.commit_laws.specs.Laws.{AreStraysLeft, SaysVersion, is_put, name_of, pin_with, pinned_core, said};

/// Where the open job may commit a recipe, the state with the recipe's version and the job's containers is valid and
/// agrees with what is pinned; its first free id is the recipe's; and a commit that failed may have left just that.
pub fn commits_keep_a_core()
    ensures core { (K : Core) (job : Job) (r : Recipe) (strays : List Name) → IsCore K → CanCommit K job r
        → IsCore (after_commit (said K job r) job strays K) }
    ensures next { (K : Core) (job : Job) (r : Recipe) → IsCore K → CanCommit K job r
        → next_of (committed (said K job r) job K.state) ≡ r.next }
    ensures change { (K : Core) (job : Job) (r : Recipe) → IsCore K → CanCommit K job r
        → IsChange K.state job.set (commit_change (said K job r) job r K.state) }
{}

/// After a commit the same tables are in memory, the marks are those that were and those of the version, and of its set
/// the recipe's number, next id and sparse list are known; one version more is kept.
pub fn commits_keep_the_memory()
    ensures tables { (K : Core) (job : Job) (r : Recipe) (strays : List Name) (tables : List (ℕ × Table))
        → IsCore K → CanCommit K job r
        → AreTables tables (listed K) → AreTables tables (listed (after_commit (said K job r) job strays K)) }
    ensures marks { (K : Core) (job : Job) (r : Recipe) (marks : List Mark) → IsCore K → CanCommit K job r
        → AreMarks marks K.state
        → AreMarks (marks ++ marks_of job.set r.version (set_of (map (λ q. q.id) r.rows)))
        (committed (said K job r) job K.state) }
    ensures sets { (K : Core) (job : Job) (r : Recipe) → IsCore K → CanCommit K job r
        → map set_info (committed (said K job r) job K.state).datasets
        ≡ slice_set (map set_info K.state.datasets) job.set
        (record {
          floor = floor_of K.state job.set;
          latest = r.version;
          next = r.next;
          sparse = r.sparse;
        }) }
    ensures versions { (K : Core) (job : Job) (r : Recipe) → IsCore K → CanCommit K job r
        → versions_in (map set_info (committed (said K job r) job K.state).datasets)
        ≡ versions_in (map set_info K.state.datasets) + 1 }
{}

/// With the recipe's blob the shelf holds the core after the commit, where the recipe's name and those of the job's
/// containers are strays no more, in either format; one that may have failed holds the core with the change, where the
/// recipe's name is a stray and a mending is due; and where nothing was written the job is over and all else stays.
pub fn commits_are_held()
    ensures done { (K : Core) (job : Job) (r : Recipe) (strays : List Name) (m : Blobs) → IsCore K
        → CanCommit K job r → AreStraysLeft K.strays (name_of job r) job.containers strays
        → Held m K
        → Held (with_blob m (name_of job r) (Some (recipe_bytes r)))
        (after_commit (said K job r) job strays K) }
    ensures can { (K : Core) (job : Job) (r : Recipe) (told : Option Blobs) → IsCore K → CanCommit K job r
        → HeldIfTold told K
        → CanChange told K.state
        (change (name_of job r) (recipe_bytes r) (committed (said K job r) job K.state)) }
    ensures half { (K : Core) (job : Job) (r : Recipe) (m m' : Blobs) → IsCore K → CanCommit K job r
        → Contains K.strays (name_of job r)
        → (m' ≡ m) ⊎ (m' ≡ with_blob m (name_of job r) (Some (recipe_bytes r)))
        → Held m K
        → Held m'
        (after_refused (Some (commit_change (said K job r) job r K.state)) None K.strays
        (pending.FailedFor job.set) K) }
    ensures half_core { (K : Core) (job : Job) (r : Recipe) (strays : List Name) → IsCore K
        → CanCommit K job r
        → IsCore
        (after_refused (Some (commit_change (said K job r) job r K.state)) None strays
        (pending.FailedFor job.set) K) }
    ensures before { (K : Core) (m : Blobs) → IsCore K → K.other ≡ None → Held m K
        → Held m (after_refused None None K.strays K.pending K)
        × IsCore (after_refused None None K.strays K.pending K) }
{}

/// A pin with a new number keeps a core, the tables in memory and what the shelf holds, whichever ids it is given, and
/// also while a write is half done: it lists those of the state's containers that have one of the ids.
pub fn pins_keep_a_core()
    ensures core { (K : Core) (number set version : ℕ) (ids : List ℕ) → IsCore K
        → has number (map (λ p. p.number) K.pins) ≡ false → IsCore (pinned_core number set version ids K) }
    ensures tables { (K : Core) (number set version : ℕ) (ids : List ℕ) (tables : List (ℕ × Table)) → IsCore K
        → AreTables tables (listed K) → AreTables tables (listed (pinned_core number set version ids K)) }
    ensures held { (K : Core) (number set version : ℕ) (ids : List ℕ) (m : Blobs) → IsCore K → Held m K
        → Held m (pinned_core number set version ids K) }
{}

/// What a kept version's blob spells says that version, also while a write is half done; a pin with the ids that its rows
/// name lists just these.
pub fn kept_recipes_say_their_versions()
    ensures recipe { (K : Core) (s v : ℕ) (k : KeptVersion) (m : Blobs) (bytes : List ℕ) (r : Recipe)
        → IsCore K → s < length K.state.datasets → version_of K.state s v ≡ Some k
        → Held m K → fin.get m (recipe_name s v) ≡ Some bytes → SpellsRecipe s v bytes r → SaysVersion r k }
    ensures ids { (S : State) (number s v : ℕ) (k : KeptVersion) → IsValid S → version_of S s v ≡ Some k
        → IsListOf (record { number = number; version = v; ids = set_of (map (λ q. q.id) k.rows) })
        (pin_with number s v (set_of (map (λ q. q.id) k.rows)) S) }
{}

/// A put of a container with the next id keeps a core, and adds its table to those in memory.
pub fn puts_keep_a_core()
    ensures core { (K : Core) (job : Job) (c : Container) (strays : List Name) → IsCore K → K.job ≡ Some job
        → c.table.id ≡ next_of K.state + length job.containers
        → IsTable c.table → HasPayload c → IsCore (after_put c strays K) }
    ensures tables { (K : Core) (job : Job) (c : Container) (strays : List Name) (t t' : List (ℕ × Table))
        → IsCore K → K.job ≡ Some job → c.table.id ≡ next_of K.state + length job.containers
        → ((id : ℕ) → table_at t' id ≡ (if nat_eq id c.table.id then Some c.table else table_at t id))
        → AreTables t (listed K) → AreTables t' (listed (after_put c strays K)) }
{}

/// The end of a job without a commit keeps a core and what the shelf holds; the tables without the job's are those of it.
pub fn ends_keep_a_core()
    ensures core { (K : Core) → IsCore K → IsCore (after_abort K) }
    ensures held { (K : Core) (m : Blobs) → Held m K → Held m (after_abort K) }
    ensures tables { (K : Core) (t t' : List (ℕ × Table)) → IsCore K
        → ((id : ℕ) → table_at t' id ≡ (if is_put K id then None else table_at t id))
        → AreTables t (listed K) → AreTables t' (listed (after_abort K)) }
{}

/// Blobs stand for one valid state at most: they determine floors, versions, containers, payloads and sums.
pub fn blobs_stand_for_one_state()
    ensures { (m : Blobs) (T U : State) → Stands m T → IsValid T → Stands m U → IsValid U → T ≡ U }
{}
