//! Jobs of a keeper, as tests make them: rows for chunks that are kept, and new containers.
ghost use Rattle.std.specs.Prelude.{◌≡◌, ◌≤◌, ◌<◌, ◌^◌, ◌++◌, map, length, IfOk, OnOk, OnErr};
ghost use Rattle.std.specs.List.{AllByRecursion};
ghost use Rattle.blob_parts.specs.Recipes.{FitsRow, HasWidths};
ghost use Rattle.vault_types.specs.Tables.{IsTable};
ghost use Rattle.vault_types.specs.Blobs.{IsRecipe};
ghost use Rattle.keeper_catalog.specs.View.{View as Views};
ghost use Rattle.keeper_driver.specs.Drafts.{HasNoJob, HasOpenJob, IsDraft, IsRecipeFor, row_in};

use crate::{row, sum};
use blob_parts::has_rules;
use container_fill::{Filled, Filler};
use container_store::Sealed;
use fingerprint_stage::name;
use fp_index::Index;
use keeper_core::{Begun, Keeper};
use rewrite_stage::Decided;
use std::alloc::Global;
use vault_traits::Shelf;
use vault_types::list::ListOf;
use vault_types::{Answer, Fault, Fp, How, Id, Memory, Recipe, Row, Set, Table, Version};

/// An open job, with the rows and the bytes that its version has so far.
#[derive(Drop)]
pub struct Draft {
    pub set: Set,
    pub version: Version,
    pub next: Id,
    pub rows: ListOf<Row>,
    pub bytes: Vec<u8>,
    pub index: Index,
}

/// Begins a job of a set. `Memory`, `StoreFault`: there is no job then.
pub fn begin<S: Shelf>(alloc: Global, keeper: &mut Keeper<S>, set: Set) -> Result<Draft, Fault>
    requires { HasNoJob keeper.old }
    ensures ok { IfOk result (λ d. IsDraft keeper.new d) }
    ensures err { OnErr result (HasNoJob keeper.new) }
{
    let Begun {
        set,
        version,
        next,
        sparse: _,
        index,
    } = keeper.begin(alloc, set)?;
    Ok(Draft {
        set,
        version,
        next,
        rows: ListOf::from_vec(Vec::new(alloc)),
        bytes: Vec::new(alloc),
        index,
    })
}

/// Adds a chunk of at most 65,536 bytes that is kept, with a row that names the newest container that has it. `Usage`
/// where none has it, `Memory`: the job stands.
pub fn add_kept(draft: &mut Draft, chunk: &[u8]) -> Result<(), Fault>
    ensures { (v : Views) → IsDraft v draft.old → IsDraft v draft.new }
{
    let fp = sum(chunk);
    let Some(id) = draft.index.find(&fp) else {
        return Err(Fault::Usage);
    };
    if chunk.len() > 65_536 {
        return Err(Fault::Usage);
    }
    let kept = row(id, chunk, chunk.len() as u32);
    draft.bytes.extend_from_slice(chunk)?;
    draft.rows.push(kept)?;
    Ok(())
}

/// The container of a payload, in chunks of 4 bytes. `Usage` where there is none, `Memory`.
pub fn seal(alloc: Global, id: Id, payload: &[u8]) -> Result<Sealed, Fault>
    ensures id { IfOk result (λ s. s.table.id ≡ id) }
    ensures low { IfOk result (λ s. s.table.id ≤ 2 ^ 32) }
    ensures rules { IfOk result (λ s. IsTable s.table) }
{
    if id < 1 || id > 4_294_967_296 {
        return Err(Fault::Usage);
    }
    let mut filler = Filler::new(alloc, id, 4_194_304);
    for chunk in payload.chunks(4) {
        let chunk = name(chunk.to_vec(alloc)?);
        let _given = filler.push(
            alloc,
            Decided {
                chunk,
                how: How::Write,
            },
        )?;
    }
    let Filled { last, .. } = filler.finish();
    let Some(unsealed) = last else {
        return Err(Fault::Usage);
    };
    let sealed = unsealed.seal();
    if sealed.table().id != id {
        return Err(Fault::Usage);
    }
    Ok(sealed)
}

// Adds the rows of a table.
fn add_rows(rows: &mut ListOf<Row>, table: &Table) -> Result<(), Memory>
    ensures { OnOk result (rows.new ≡ rows.old ++ map (row_in table.now.id) table.now.rows) }
{
    for row in table.rows.as_slice() {
        rows.push(Row {
            fp: row.fp,
            id: table.id,
            len: row.len,
        })?;
    }
    Ok(())
}

/// Puts a new container of this payload, in chunks of 4 bytes, and adds their rows. `Usage`, `Memory`, `StoreFault`:
/// the job stands, and is to be aborted.
pub fn add_container<S: Shelf>(
    alloc: Global,
    keeper: &mut Keeper<S>,
    draft: &mut Draft,
    payload: &[u8],
) -> Result<(), Fault>
    requires { IsDraft keeper.old draft.old }
    ensures ok { OnOk result (IsDraft keeper.new draft.new) }
    ensures err { OnErr result (HasOpenJob keeper.new draft.new) }
{
    let sealed = seal(alloc, draft.next, payload)?;
    add_rows(&mut draft.rows, sealed.table())?;
    draft.bytes.extend_from_slice(payload)?;
    draft.next += 1;
    match keeper.put(alloc, sealed) {
        Ok(()) => Ok(()),
        Err(fault) => Err(fault),
    }
}

/// Ends a job without a commit.
pub fn abort<S: Shelf>(keeper: &mut Keeper<S>, draft: Draft)
    requires { HasOpenJob keeper.old draft }
    ensures { HasNoJob keeper.new }
{
    let Draft { index, .. } = draft;
    keeper.abort(index);
}

fn recipe_of(
    alloc: Global,
    set: Set,
    version: Version,
    next: Id,
    rows: ListOf<Row>,
    bytes: &[u8],
) -> Recipe
    requires fits { AllByRecursion FitsRow rows }
    requires few { length rows < 2 ^ 32 }
    ensures widths { HasWidths result }
    ensures says { IsRecipeFor set version next rows result }
{
    Recipe {
        set,
        version,
        next,
        length: bytes.len() as u64,
        rows,
        sparse: ListOf::from_vec(Vec::new(alloc)),
        whole: Some(sum(bytes)),
    }
}

// The recipe of these rows and bytes. `Usage` where it keeps not the rules of recipes, `Memory`.
fn checked(
    alloc: Global,
    set: Set,
    version: Version,
    next: Id,
    rows: ListOf<Row>,
    bytes: &[u8],
) -> Result<Recipe, Fault>
    requires fits { AllByRecursion FitsRow rows }
    ensures rules { IfOk result IsRecipe }
    ensures says { IfOk result (IsRecipeFor set version next rows) }
{
    if rows.as_slice().len() >= 4_294_967_296 {
        return Err(Fault::Usage);
    }
    let recipe = recipe_of(alloc, set, version, next, rows, bytes);
    if !has_rules(alloc, &recipe)? {
        return Err(Fault::Usage);
    }
    Ok(recipe)
}

/// Commits a job. `Usage`, `Memory`, `StoreFault`: the job is over.
pub fn commit<S: Shelf>(alloc: Global, keeper: &mut Keeper<S>, draft: Draft) -> Result<(), Fault>
    requires { IsDraft keeper.old draft }
    ensures { HasNoJob keeper.new }
{
    let Draft {
        set,
        version,
        next,
        rows,
        bytes,
        index,
    } = draft;
    match checked(alloc, set, version, next, rows, &bytes) {
        Ok(recipe) => match keeper.commit(alloc, index, recipe) {
            Ok(()) => Ok(()),
            Err(fault) => Err(fault),
        },
        Err(fault) => {
            keeper.abort(index);
            Err(fault)
        }
    }
}

// Adds kept chunks of 4 bytes, and then new containers.
pub(crate) fn fill<S: Shelf>(
    alloc: Global,
    keeper: &mut Keeper<S>,
    draft: &mut Draft,
    kept: &[u8],
    payloads: &[&[u8]],
) -> Result<(), Fault>
    requires { IsDraft keeper.old draft.old }
    ensures ok { OnOk result (IsDraft keeper.new draft.new) }
    ensures err { OnErr result (HasOpenJob keeper.new draft.new) }
{
    for chunk in kept.chunks(4) {
        if let Err(fault) = add_kept(draft, chunk) {
            return Err(fault);
        }
    }
    for payload in payloads {
        add_container(alloc, keeper, draft, payload)?;
    }
    Ok(())
}

/// Backs up kept chunks of 4 bytes each, and behind them what goes into new containers, also in chunks of 4 bytes.
/// `Usage` where a chunk is not kept, `Memory`, `StoreFault`: the job is over.
pub fn back_up<S: Shelf>(
    alloc: Global,
    keeper: &mut Keeper<S>,
    set: Set,
    kept: &[u8],
    payloads: &[&[u8]],
) -> Result<(), Fault>
    requires { HasNoJob keeper.old }
    ensures { HasNoJob keeper.new }
{
    let mut draft = begin(alloc, keeper, set)?;
    match fill(alloc, keeper, &mut draft, kept, payloads) {
        Ok(()) => commit(alloc, keeper, draft),
        Err(fault) => {
            abort(keeper, draft);
            Err(fault)
        }
    }
}

/// Deletes the versions of a set through one. `LastVersion`, `StoreFault`.
pub fn delete<S: Shelf>(keeper: &mut Keeper<S>, set: Set, through: Version) -> Result<Answer, Fault>
    requires { HasNoJob keeper.old }
    ensures { HasNoJob keeper.new }
{
    match keeper.delete_through(set, through) {
        Ok(answer) => Ok(answer),
        Err(fault) => Err(fault),
    }
}
