// The version's recipe, and the end of a job.
ghost use Rattle.std.specs.Prelude.{◌≡◌, ◌<◌, ◌^◌, List, ℕ, IfOk, IfErr};
ghost use Rattle.vault_types.specs.State.{length_of};
ghost use Rattle.vault_traits.specs.Told.{SourceTold};
ghost use Rattle.backup_jobs.specs.Backup.{BacksUp};
ghost use Rattle.backup_jobs.specs.Going.{Began, IsJobOf, HasEnded, IsReady, HasConcluded, IsStopped, IsOver};

use crate::opening::Job;
use crate::sparse::sparse_ids;
use fp_index::Index;
use keeper_core::Keeper;
use std::alloc::Global;
use vault_traits::Shelf;
use vault_types::list::ListOf;
use vault_types::{Answer, Fault, Fp, Id, Memory, Recipe, Row};

/// What a filling came to, where all its containers are put: the version's rows, the next free id, how many new containers
/// there are and how many bytes they have.
#[derive(Drop)]
pub struct Rest {
    pub rows: ListOf<Row>,
    pub next: Id,
    pub containers: u64,
    pub written: u64,
}

/// What a stream came to at its end: its filling, and its SHA-1.
#[derive(Drop)]
pub struct StreamEnd {
    pub rest: Rest,
    pub whole: Fp,
}

fn total_len(rows: &[Row]) -> u64
    requires { length_of rows.now < 2 ^ 64 }
    ensures { result ≡ length_of rows.now }
{
    rows.iter().map(|row| u64::from(row.len)).sum()
}

// The recipe of the version, and the answer.
fn conclude<S: Shelf>(
    alloc: Global,
    keeper: &Keeper<S>,
    job: &Job,
    ended: StreamEnd,
    lens: &[u32],
) -> Result<(Recipe, Answer), Memory>
    requires { (b : Began) × (read : List ℕ) × IsJobOf b job.now × HasEnded b keeper.now ended lens.now read }
    ensures { (b : Began) (read : List ℕ) → IsJobOf b job.now → HasEnded b keeper.now ended lens.now read
        → IfOk result (IsReady b keeper.now read) }
{
    let rows = ended.rest.rows.as_slice();
    let sparse = sparse_ids(
        alloc,
        keeper,
        rows,
        job.first,
        lens,
        job.config.threshold,
        job.config.limit,
    )?;
    let bytes = total_len(rows);
    let answer = Answer::Stored {
        set: job.set,
        version: job.version,
        chunks: rows.len() as u32,
        bytes,
        containers: ended.rest.containers,
        written: ended.rest.written,
        sparse: sparse.len() as u32,
    };
    let recipe = Recipe {
        set: job.set,
        version: job.version,
        next: ended.rest.next,
        length: bytes,
        rows: ended.rest.rows,
        sparse: ListOf::from_vec(sparse),
        whole: Some(ended.whole),
    };
    Ok((recipe, answer))
}

// The same, where the stream has ended.
fn conclude_all<S: Shelf>(
    alloc: Global,
    keeper: &Keeper<S>,
    job: &Job,
    ended: Result<StreamEnd, Fault>,
    lens: &[u32],
) -> Result<(Recipe, Answer), Fault>
    requires { (b : Began) × (to : SourceTold) × IsJobOf b job.now × IsOver b keeper.now to lens.now ended }
    ensures ok { (b : Began) (to : SourceTold) → IsJobOf b job.now → IsOver b keeper.now to lens.now ended
        → IfOk result (HasConcluded b keeper.now to) }
    ensures err { (b : Began) (to : SourceTold) → IsJobOf b job.now → IsOver b keeper.now to lens.now ended
        → IfErr result (IsStopped b keeper.now to) }
{
    match ended {
        Err(fault) => Err(fault),
        Ok(ended) => Ok(conclude(alloc, keeper, job, ended, lens)?),
    }
}

/// Ends a job: where the stream has ended, its recipe is put, and the version stands; else there is no version more.
/// `Memory`, `StoreFault`, and the fault of the stream. Afterwards there is no job.
pub fn close_job<S: Shelf>(
    alloc: Global,
    keeper: &mut Keeper<S>,
    job: &Job,
    index: Index,
    ended: Result<StreamEnd, Fault>,
    lens: &[u32],
) -> Result<Answer, Fault>
    requires { (b : Began) × (to : SourceTold) × IsJobOf b job.now × (index ≡ b.index)
        × IsOver b keeper.old to lens.now ended }
    ensures { (b : Began) (to : SourceTold) → IsJobOf b job.now → index ≡ b.index
        → IsOver b keeper.old to lens.now ended
        → BacksUp b.set b.config b.limits b.keeper keeper.new b.source to result }
{
    match conclude_all(alloc, keeper, job, ended, lens) {
        Err(fault) => {
            keeper.abort(index);
            Err(fault)
        }
        Ok((recipe, answer)) => {
            keeper.commit(alloc, index, recipe)?;
            Ok(answer)
        }
    }
}
