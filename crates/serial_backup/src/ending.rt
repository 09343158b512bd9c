// The end of the stream.
ghost use Rattle.std.specs.Prelude.{◌≡◌, List, ℕ, OnOk, IfOk, IfErr, option_to_list, ◌++◌};
ghost use Rattle.backup_pass.specs.Passing.{index_in};
ghost use Rattle.backup_jobs.specs.Going.{Began, HasEnded};
ghost use Rattle.serial_backup.specs.Streaming.{IsFed, IsHalted, IsTooManyInAll, HasPassedAll};

use backup_jobs::{Rest, StreamEnd, put_all};
use backup_pass::{Pass, Passed};
use container_fill::{Filled, Unsealed};
use container_store::Sealed;
use fp_index::Index;
use keeper_core::Keeper;
use std::alloc::Global;
use vault_traits::Shelf;
use vault_types::{Fault, Memory};

fn push_last(full: &mut Vec<Sealed>, last: Option<Unsealed>) -> Result<(), Memory>
    ensures { OnOk result (full.new.items ≡ full.old.items ++ option_to_list last) }
{
    match last {
        Some(unsealed) => full.push(unsealed.seal())?,
        None => {}
    }
    Ok(())
}

// Puts the containers that a pass had left.
fn put_rest<S: Shelf>(
    alloc: Global,
    keeper: &mut Keeper<S>,
    passed: Passed,
    full: Vec<Sealed>,
    lens: &mut Vec<u32>,
) -> Result<StreamEnd, Fault>
    requires { (b : Began) × (read : List ℕ)
        × HasPassedAll b keeper.old passed full.items lens.old.items read }
    ensures ok { (b : Began) (read : List ℕ) → HasPassedAll b keeper.old passed full.items lens.old.items read
        → IfOk result (λ e. HasEnded b keeper.new e lens.new.items read) }
    ensures err { (b : Began) (read : List ℕ)
        → HasPassedAll b keeper.old passed full.items lens.old.items read
        → IfErr result (IsHalted b keeper.new (IsTooManyInAll b read)) }
{
    let Passed { filled, whole } = passed;
    let Filled {
        last,
        rows,
        next,
        containers,
        written,
    } = filled;
    let mut full = full;
    push_last(&mut full, last)?;
    put_all(alloc, keeper, full, lens)?;
    let rest = Rest {
        rows,
        next,
        containers,
        written,
    };
    Ok(StreamEnd { rest, whole })
}

// Takes the end of the stream, and puts the containers that are left. The index comes back.
pub(crate) fn end_pass<S: Shelf>(
    alloc: Global,
    keeper: &mut Keeper<S>,
    pass: Pass,
    lens: &mut Vec<u32>,
) -> (Index, Result<StreamEnd, Fault>)
    requires { (b : Began) × (read : List ℕ) × IsFed b keeper.old pass lens.old.items read }
    ensures index { result.0 ≡ index_in pass }
    ensures ok { (b : Began) (read : List ℕ) → IsFed b keeper.old pass lens.old.items read
        → IfOk result.1 (λ e. HasEnded b keeper.new e lens.new.items read) }
    ensures err { (b : Began) (read : List ℕ) → IsFed b keeper.old pass lens.old.items read
        → IfErr result.1 (IsHalted b keeper.new (IsTooManyInAll b read)) }
{
    let mut full = Vec::new(alloc);
    let (index, passed) = pass.finish(alloc, &mut full);
    match passed {
        Err(fault) => (index, Err(fault)),
        Ok(passed) => (index, put_rest(alloc, keeper, passed, full, lens)),
    }
}
