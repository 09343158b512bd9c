// Bytes to back up, and what one thread makes of them.
ghost use Rattle.vault_types.specs.JobRanges.{IsCuttable};

use backup_pass::{Pass, Passed};
use container_fill::{Filled, Filler};
use container_store::Sealed;
use fp_index::Index;
use rewrite_stage::Decided;
use std::alloc::Global;
use std::test::Fail;
use vault_types::{Cutting, Fp, JobConfig, Memory, Row};

/// Settings with such a cutting, small segments and small containers.
pub(crate) fn settings(cutting: Cutting) -> JobConfig
    ensures { IsCuttable cutting → IsCuttable result.cutting }
{
    let mut config = JobConfig::standard();
    config.cutting = cutting;
    config.segment = 20_000;
    config.container = 100_000;
    config
}

/// Bytes of which some come again: each fourth run of 10,000 is of one letter, and the others differ.
pub(crate) fn stream(alloc: Global, len: usize) -> Result<Vec<u8>, Memory> {
    let mut bytes = Vec::with_capacity(alloc, len)?;
    let mut state = 1u32;
    for at in 0..len {
        state = state.wrapping_mul(1_664_525).wrapping_add(1_013_904_223);
        let is_same = at % 40_000 < 10_000;
        bytes.push(if is_same { 7 } else { (state >> 24) as u8 })?;
    }
    Ok(bytes)
}

/// What a backup stores: its rows, and the payloads of its containers.
#[derive(Drop)]
pub(crate) struct Stored {
    pub(crate) rows: Vec<Row>,
    pub(crate) payloads: Vec<Vec<u8>>,
}

impl Stored {
    /// Whether both store the same.
    pub(crate) fn is(&self, other: &Stored) -> bool {
        self.rows.as_slice() == other.rows.as_slice()
            && self.payloads.as_slice() == other.payloads.as_slice()
    }

    /// Whether this one's rows begin the other's.
    pub(crate) fn begins(&self, other: &Stored) -> bool {
        other.rows.as_slice().starts_with(self.rows.as_slice())
    }
}

fn stored_by(alloc: Global, full: Vec<Sealed>, filled: Filled) -> Result<Stored, Memory> {
    let mut payloads = Vec::new(alloc);
    for sealed in full.as_slice() {
        payloads.push(sealed.payload().to_vec(alloc)?)?;
    }
    let Filled { last, rows, .. } = filled;
    if let Some(unsealed) = last {
        payloads.push(unsealed.seal().payload().to_vec(alloc)?)?;
    }
    Ok(Stored {
        rows: rows.into_vec(),
        payloads,
    })
}

/// What these parts are stored as.
pub(crate) fn filled(
    alloc: Global,
    config: &JobConfig,
    parts: Vec<Decided>,
) -> Result<Stored, Fail> {
    if config.container < 1 || config.container > 4_194_304 {
        return Err(Fail::from("the size of a container"));
    }
    let mut filler = Filler::new(alloc, 1, config.container);
    let mut full = Vec::new(alloc);
    for part in parts {
        if let Some(unsealed) = filler.push(alloc, part)? {
            full.push(unsealed.seal())?;
        }
    }
    Ok(stored_by(alloc, full, filler.finish())?)
}

/// What a pass on one thread stores, and the SHA-1 of the bytes.
pub(crate) fn passed(alloc: Global, config: &JobConfig, bytes: &[u8]) -> Result<(Stored, Fp), Fail>
    requires { IsCuttable config.now.cutting }
{
    if config.container < 1 || config.container > 4_194_304 {
        return Err(Fail::from("the size of a container"));
    }
    let index = Index::from_tables(alloc, &[])?;
    let mut pass = Pass::new(alloc, index, Vec::new(alloc), 1, *config, 4_194_304);
    let mut full = Vec::new(alloc);
    pass.feed(alloc, bytes, &mut full)?;
    let (_, passed) = pass.finish(alloc, &mut full);
    let Passed { filled, whole } = passed?;
    Ok((stored_by(alloc, full, filled)?, whole))
}
