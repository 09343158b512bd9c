//! The events of a job, and mending.
ghost use Rattle.std.specs.Prelude.{ℕ, ◌≡◌, ◌≢◌, ◌<◌, ◌+◌, ◌^◌, ◌⊎◌, ◌++◌, ◌∷◌, [], Some, None, IsSome, IsSomeAnd, IfOk, IfErr, OnOk, OnErr};
ghost use Rattle.vault_types.specs.Blobs.{recipe_bytes};
ghost use Rattle.vault_types.specs.Shelf.{blob_at, recipe_name, Has};
ghost use Rattle.vault_types.specs.Events.{Core, Job, IsNear, CanCommit, after_begin, after_mend, after_put, after_commit, after_abort, after_refused, committed, commit_change};
ghost use Rattle.vault_traits.specs.Crash.{LeavesNowIfTold, LeavesOnlyIfTold};
ghost use Rattle.vault_types.specs.RecipeForms.{KeepsRecipes};
ghost use Rattle.vault_traits.specs.Causes.{HasCauses, HasStoreFault, IsUndamaged};
ghost use Rattle.commit_laws.specs.Laws.{AreStraysLeft};
ghost use Rattle.keeper_catalog.specs.View.{Keeps, HasCore};
ghost use Rattle.keeper_jobs.specs.Jobs.{names_of, version_by};
ghost use Rattle.keeper_core.specs.Stands.{index_of, job_of};
ghost use Rattle.keeper_core.specs.Mends.{MendsFirst};
ghost use Rattle.keeper_core.specs.Calls.{IsBegun, IsDue, due_after};
ghost use Rattle.keeper_core.specs.Commits.{CommitsJob, halt_fault};

use crate::keeper::{Begun, Keeper, Stand, next_of_sets};
use container_store::Sealed;
use fp_index::Index;
use keeper_catalog::JobInfo;
use keeper_jobs::{commit_recipe, forget_tables, mend_for, put_sealed};
use keeper_parts::Halt;
use std::alloc::Global;
use std::mem::replace;
use std::snapshot::Snapshot;
use vault_traits::{Refused, Shelf};
use vault_types::{Fault, Id, Memory, Pending, Recipe, Set};

impl<S: Shelf> Keeper<S> {
    /// Takes back what a refused write may have left, where that is due: after opening that of set 0. `StoreFault`, after
    /// which it is still due. Takes no memory.
    pub fn mend(&mut self) -> Result<(), Fault>
        ensures ok { OnOk result ((K : Core) → Keeps self.old K → Keeps self.new (after_mend K.strays K)) }
        ensures err { OnErr result ((K : Core) → Keeps self.old K → Keeps self.new K) }
        ensures any_moment { (K : Core) → Keeps self.old K
            → LeavesNowIfTold self.old.told.history (IsNear K.state K.other)
            → LeavesOnlyIfTold self.old.told.history self.new.told.history (IsNear K.state K.other) }
        ensures acknowledged { OnOk result (self.old.pending ≢ Pending.Not → (K : Core) → Keeps self.old K
            → LeavesNowIfTold self.new.told.history (IsNear K.state None)) }
        ensures same { (self.new.memo ≡ self.old.memo) × (self.new.index ≡ self.old.index)
            × (self.new.pins ≡ self.old.pins) × (self.new.job ≡ self.old.job) }
        ensures tells { IsSome self.old.told.blobs → IsSome self.new.told.blobs }
        ensures gets { self.new.told.gets ≡ self.old.told.gets }
        ensures causes { HasStoreFault self.old.told.faults self.new.told.faults result }
    {
        self.mend_first(0)
    }

    // Mends before a change of the set, where that is due: after opening that set. `StoreFault`, after which it is still
    // due. Takes no memory.
    pub(crate) fn mend_first(&mut self, set: Set) -> Result<(), Fault>
        ensures { MendsFirst self.old self.new result }
    {
        mend_for(&mut self.shelf, &self.catalog.sets, &mut self.pending, set)
    }

    /// Begins a job of a set, and lends it the index. `Memory`, and then `StoreFault` of a mending that was due. After an
    /// `Err` there is no job.
    pub fn begin(&mut self, alloc: Global, set: Set) -> Result<Begun, Fault>
        requires { self.old.job ≡ None }
        ensures ok { IfOk result (λ b. (K : Core) → Keeps self.old K
            → Keeps self.new (after_begin set K.strays K) × IsBegun K.state set b) }
        ensures lent { IfOk result (λ b. (b.index ≡ self.new.index) × (self.new.index ≡ self.old.index)) }
        ensures core { OnOk result (HasCore self.old) }
        ensures err { OnErr result (((K : Core) → Keeps self.old K → Keeps self.new K)
            × (self.new.job ≡ None)) }
        ensures any_moment { (K : Core) → Keeps self.old K
            → LeavesNowIfTold self.old.told.history (IsNear K.state K.other)
            → LeavesOnlyIfTold self.old.told.history self.new.told.history (IsNear K.state K.other) }
        ensures acknowledged { IfOk result (λ b. self.old.pending ≢ Pending.Not → (K : Core)
            → Keeps self.old K → LeavesNowIfTold self.new.told.history (IsNear K.state None)) }
        ensures recipes { (K : Core) → Keeps self.old K
            → KeepsRecipes K.state self.old.told.blobs self.new.told.blobs }
        ensures tells { IsSome self.old.told.blobs → IsSome self.new.told.blobs }
        ensures pins { self.new.pins ≡ self.old.pins }
        ensures gets { self.new.told.gets ≡ self.old.told.gets }
        ensures causes { HasCauses self.old.told.faults self.new.told.faults IsUndamaged result }
    {
        let sets = self.catalog.sets.as_slice();
        let info = &sets[set as usize];
        let version = info.latest + 1;
        let sparse = copy_of(alloc, info.sparse.as_slice())?;
        mend_for(&mut self.shelf, &self.catalog.sets, &mut self.pending, set)?;
        let next = next_of_sets(&self.catalog.sets);
        let job = JobInfo {
            set,
            first: next,
            next,
        };
        let index = lend(&mut self.stand, job);
        Ok(Begun {
            set,
            version,
            next,
            sparse,
            index,
        })
    }

    /// Puts the next container of the open job. `Memory`, and then `StoreFault`. After an `Err` the job stands with the
    /// containers that it had; from the first shelf call on both names are strays until the commit.
    pub fn put(&mut self, alloc: Global, sealed: Sealed) -> Result<(), Fault>
        requires next { IsSomeAnd self.old.job (λ j. sealed.table.id ≡ j.next) }
        requires low { sealed.table.id + 1 < 2 ^ 64 }
        ensures ok { OnOk result ((K : Core) → Keeps self.old K
            → Keeps self.new (after_put sealed self.new.memo.strays K)) }
        ensures err { OnErr result ((K : Core) → Keeps self.old K
            → Keeps self.new (after_refused K.other K.job self.new.memo.strays self.new.pending K)) }
        ensures any_moment { (K : Core) → Keeps self.old K
            → LeavesNowIfTold self.old.told.history (IsNear K.state K.other)
            → LeavesOnlyIfTold self.old.told.history self.new.told.history (IsNear K.state K.other) }
        ensures strays { (self.new.memo.strays ≡ self.old.memo.strays)
            ⊎ (self.new.memo.strays ≡ self.old.memo.strays ++ names_of sealed.table.id) }
        ensures due { IfErr result (λ f. IsDue f self.old.job self.old.pending self.new.pending) }
        ensures lent { self.new.index ≡ self.old.index }
        ensures recipes { (s v : ℕ)
            → blob_at self.new.told.blobs (recipe_name s v) ≡ blob_at self.old.told.blobs (recipe_name s v) }
        ensures tells { IsSome self.old.told.blobs → IsSome self.new.told.blobs }
        ensures pins { self.new.pins ≡ self.old.pins }
        ensures gets { self.new.told.gets ≡ self.old.told.gets }
        ensures causes { HasCauses self.old.told.faults self.new.told.faults IsUndamaged result }
    {
        match &mut self.stand {
            Stand::Here(_) => unreachable!(),
            Stand::Lent(job, _) => {
                let _table = sealed.table();
                let _payload = sealed.payload();
                match put_sealed(alloc, &mut self.shelf, &mut self.catalog, job, sealed) {
                    Ok(()) => Ok(()),
                    Err(fault) => {
                        self.pending = due_after(&fault, job.set, self.pending);
                        Err(fault)
                    }
                }
            }
        }
    }

    /// Commits the recipe of the open job, which gives the lent index back: the containers and the recipe are settled.
    /// `Memory`, `StoreFault`. After an `Err` the job is over as by `abort`, and where the recipe's put was tried its set
    /// may have the version or not until a mending.
    pub fn commit(&mut self, alloc: Global, index: Index, recipe: Recipe) -> Result<(), Fault>
        requires lent { index ≡ self.old.index }
        requires can { (K : Core) × (j : Job) × Keeps self.old K × CanCommit K j recipe }
        ensures { CommitsJob recipe self.old self.new result }
    {
        let job = match &self.stand {
            Stand::Here(_) => unreachable!(),
            Stand::Lent(job, _) => *job,
        };
        let mut index = index;
        let committed = commit_recipe(
            alloc,
            &mut self.shelf,
            &mut self.catalog,
            &mut index,
            job,
            recipe,
        );
        self.stand = Stand::Here(index);
        match committed {
            Ok(()) => Ok(()),
            Err(halt) => {
                let fault = halt_fault(halt, self.shelf.faults());
                self.pending = due_after(&fault, job.set, self.pending);
                Err(fault)
            }
        }
    }

    /// Ends the open job, which gives the lent index back, without a commit: what it has put are strays. Takes no memory.
    pub fn abort(&mut self, index: Index)
        requires lent { index ≡ self.old.index }
        requires in_job { IsSome self.old.job }
        ensures aborts { (K : Core) → Keeps self.old K → Keeps self.new (after_abort K) }
        ensures shelf { self.new.told ≡ self.old.told }
        ensures same { (self.new.memo.strays ≡ self.old.memo.strays) × (self.new.pending ≡ self.old.pending)
            × (self.new.index ≡ self.old.index) }
        ensures pins { self.new.pins ≡ self.old.pins }
    {
        let job = match &self.stand {
            Stand::Here(_) => unreachable!(),
            Stand::Lent(job, _) => *job,
        };
        forget_tables(&mut self.catalog.tables, job.first, job.next);
        self.stand = Stand::Here(index);
    }
}

// What is due after a put of a job of this set was refused: a mending for it, where the shelf failed.
fn due_after(fault: &Fault, set: Set, pending: Pending) -> Pending
    ensures { result ≡ due_after fault.now set pending }
{
    match fault {
        Fault::StoreFault(_) => Pending::FailedFor(set),
        _ => pending,
    }
}

// The fault of a commit that stopped, when the shelf had failed so often.
fn halt_fault(halt: Halt, faults: u64) -> Fault
    ensures { result ≡ halt_fault faults halt }
{
    match halt {
        Halt::Before(Refused::Memory) => Fault::Memory,
        Halt::Before(Refused::Failed) => Fault::StoreFault(faults),
        Halt::Half => Fault::StoreFault(faults),
    }
}

// A copy of some ids.
fn copy_of(alloc: Global, ids: &[Id]) -> Result<Vec<Id>, Memory>
    ensures { IfOk result (λ copy. copy.items ≡ ids.now) }
{
    let mut copy = Vec::new(alloc);
    for id in ids {
        copy.push(*id)?;
    }
    Ok(copy)
}

// Lends the index to a job.
fn lend(stand: &mut Stand, job: JobInfo) -> Index
    requires { job_of stand.old ≡ None }
    ensures index { (result ≡ index_of stand.old) × (index_of stand.new ≡ index_of stand.old) }
    ensures job { job_of stand.new ≡ Some job }
{
    let lent = match stand {
        Stand::Here(index) => Snapshot::of(&*index),
        Stand::Lent(_, _) => unreachable!(),
    };
    match replace(stand, Stand::Lent(job, lent)) {
        Stand::Here(index) => index,
        Stand::Lent(_, _) => unreachable!(),
    }
}
