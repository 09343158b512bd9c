//! The commit of a recipe.
ghost use Rattle.std.specs.Prelude.{◌≡◌, ◌≢◌, ◌≤◌, ◌<◌, ◌-◌, ◌++◌, ◌&&◌, ◌∷◌, [], ℕ, List, nat_le, nat_lt, length, if◌then◌else◌, Err, OnOk, OnErr, IsSome, Some, None, map};
ghost use Rattle.std.specs.List.{AllByRecursion};
ghost use Rattle.vault_types.specs.declared.Table.{Table as TableOf};
ghost use Rattle.vault_types.specs.declared.Name.{Name as Named};
ghost use Rattle.vault_types.specs.Blobs.{recipe_bytes};
ghost use Rattle.vault_types.specs.Shelf.{blob_at, recipe_name, Has};
ghost use Rattle.vault_types.specs.Events.{Core, Job, IsNear, after_commit, after_refused, committed, commit_change};
ghost use Rattle.vault_types.specs.declared.Pending.{Pending as Pendings};
ghost use Rattle.vault_types.specs.declared.Pending.TheVariants as pending;
ghost use Rattle.fp_index.specs.Index.{IsIndexOf};
ghost use Rattle.vault_traits.specs.Counts.{Rose};
ghost use Rattle.vault_traits.specs.Crash.{LeavesNowIfTold, LeavesOnlyIfTold};
ghost use Rattle.commit_laws.specs.Laws.{AreStraysLeft};
ghost use Rattle.state_laws.specs.Parts.{HeldIfTold};
ghost use Rattle.keeper_catalog.specs.Catalog.{memo_of, table_at, IsMemoOf, HasRoom};
ghost use Rattle.keeper_jobs.specs.Commits.{CommitsRecipe};
ghost use Rattle.keeper_jobs.specs.Jobs.{tables_from, AreKeyed, Commits, version_by};

use crate::indexing::{drop_tables, forget_tables};
use crate::noting::{note_commit, prepare};
use fp_index::Index;
use keeper_catalog::{Catalog, JobInfo};
use keeper_parts::{Halt, commit};
use std::alloc::Global;
use vault_traits::{Refused, Shelf};
use vault_types::Recipe;

// Lets the job's tables go from the index, which has them behind those of smaller ids, and from memory.
fn take_back(catalog: &mut Catalog, index: &mut Index, job: JobInfo)
    requires range { job.first ≤ job.next }
    requires keyed { AreKeyed catalog.old.tables.entries }
    ensures index { (known : List TableOf) → AllByRecursion (λ t. t.id < job.first) known
        → IsIndexOf index.old
        (known ++ tables_from catalog.old.tables.entries job.first (job.next - job.first))
        → IsIndexOf index.new known }
    ensures gone { (id : ℕ)
        → table_at catalog.new.tables.entries id
        ≡ (if nat_le job.first id && nat_lt id job.next then None
        else table_at catalog.old.tables.entries id) }
    ensures fewer { length catalog.new.tables.entries ≤ length catalog.old.tables.entries }
    ensures same { (catalog.new.sets ≡ catalog.old.sets) × (catalog.new.markers ≡ catalog.old.markers)
        × (catalog.new.strays ≡ catalog.old.strays) × (catalog.new.freed ≡ catalog.old.freed) }
{
    drop_tables(index, &catalog.tables, job.first, job.next);
    forget_tables(&mut catalog.tables, job.first, job.next);
}

/// Commits the recipe of a job: it settles what the job has put, puts the recipe and settles it. All memory but that of
/// the shelf's put is taken before the first call. After a refusal the index and the memory are those of the state
/// without the job; the recipe's name is a stray where its put was tried.
pub fn commit_recipe<S: Shelf>(
    alloc: Global,
    shelf: &mut S,
    catalog: &mut Catalog,
    index: &mut Index,
    job: JobInfo,
    recipe: Recipe,
) -> Result<(), Halt>
    requires can { (K : Core) × (j : Job) × Commits (memo_of catalog.old) index.old job recipe K j }
    requires room { HasRoom (memo_of catalog.old) }
    ensures { CommitsRecipe job recipe (memo_of catalog.old) (memo_of catalog.new) index.old index.new
        (S.told shelf.old) (S.told shelf.new) result }
{
    let Ok((ids, blob)) = prepare(alloc, catalog, index, job, &recipe) else {
        forget_tables(&mut catalog.tables, job.first, job.next);
        return Err(Halt::Before(Refused::Memory));
    };
    match commit(alloc, shelf, job.set, recipe.version, &blob) {
        Ok(()) => {
            note_commit(catalog, job, recipe, &ids);
            Ok(())
        }
        Err(Halt::Before(refused)) => {
            take_back(catalog, index, job);
            catalog.strays.pop();
            Err(Halt::Before(refused))
        }
        Err(Halt::Half) => {
            take_back(catalog, index, job);
            Err(Halt::Half)
        }
    }
}
