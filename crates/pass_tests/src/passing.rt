// A pass over a stream, and backups by its parts alone.
ghost use Rattle.vault_types.specs.JobRanges.{IsCuttable};

use backup_pass::Pass;
use container_fill::{Filled, Filler, Unsealed};
use container_store::Sealed;
use fingerprint_stage::{Chunk, name};
use fp_index::Index;
use rewrite_stage::{Decided, Decider};
use std::alloc::Global;
use std::test::Fail;
use vault_types::{Cutting, Fault, Id, JobConfig, Memory, Rewrite};

// What a pass comes to: the payload of the last container, and how many containers were given out before it.
#[derive(Drop)]
struct End {
    given: usize,
    rows: usize,
    containers: u64,
    written: u64,
    last: Vec<u8>,
}

fn pass_by(alloc: Global, cutting: Cutting, limit: u32) -> Result<Pass, Fail>
    requires { IsCuttable cutting }
{
    let mut config = JobConfig::standard();
    config.cutting = cutting;
    let index = Index::from_tables(alloc, &[])?;
    Ok(Pass::new(alloc, index, Vec::new(alloc), 1, config, limit))
}

fn feed_all(
    alloc: Global,
    pass: &mut Pass,
    pieces: &[&[u8]],
    out: &mut Vec<Sealed>,
) -> Result<(), Fault> {
    for piece in pieces {
        pass.feed(alloc, piece, out)?;
    }
    Ok(())
}

fn payload_of(alloc: Global, last: Option<Unsealed>) -> Result<Vec<u8>, Fail> {
    match last {
        Some(unsealed) => Ok(unsealed.seal().payload().to_vec(alloc)?),
        None => Err(Fail::from("no container")),
    }
}

fn finished(alloc: Global, pass: Pass, mut out: Vec<Sealed>) -> Result<End, Fail> {
    let (_, passed) = pass.finish(alloc, &mut out);
    let filled = passed?.filled;
    Ok(End {
        given: out.len(),
        rows: filled.rows.as_slice().len(),
        containers: filled.containers,
        written: filled.written,
        last: payload_of(alloc, filled.last)?,
    })
}

fn end_of(alloc: Global, pass: Pass, pieces: &[&[u8]]) -> Result<End, Fail> {
    let mut pass = pass;
    let mut out = Vec::new(alloc);
    feed_all(alloc, &mut pass, pieces, &mut out)?;
    finished(alloc, pass, out)
}

fn fault_of(alloc: Global, pass: Pass, pieces: &[&[u8]]) -> Option<Fault> {
    let mut pass = pass;
    let mut out = Vec::new(alloc);
    feed_all(alloc, &mut pass, pieces, &mut out).err()
}

#[test]
fn a_stream_becomes_a_container_and_rows(rt: HostRuntime) -> Result<(), Fail> {
    let pass = pass_by(rt.alloc(), Cutting::Fixed { size: 4 }, 3)?;
    let end = end_of(rt.alloc(), pass, &[b"abcda", b"bcdab"])?;
    assert!(rt; (end.given, end.rows, end.containers, end.written) == (0, 3, 1, 6));
    assert!(rt; end.last.as_slice() == b"abcdab".as_slice());
    Ok(())
}

// Chunks end a byte behind an extremum, and at four bytes.
#[test]
fn a_stream_is_cut_by_extremum(rt: HostRuntime) -> Result<(), Fail> {
    let pass = pass_by(rt.alloc(), Cutting::Ae { window: 1, max: 4 }, 3)?;
    let end = end_of(rt.alloc(), pass, &[b"aaaaa", b"aaa"])?;
    assert!(rt; (end.rows, end.written) == (2, 4));
    Ok(())
}

#[test]
fn more_chunks_than_the_limit_are_refused(rt: HostRuntime) -> Result<(), Fail> {
    let pass = pass_by(rt.alloc(), Cutting::Fixed { size: 4 }, 2)?;
    let fault = fault_of(rt.alloc(), pass, &[b"aaaabbbbcccc"]);
    assert!(rt; fault == Some(Fault::TooMany { limit: 2 }));
    Ok(())
}

// Chunks of four equal letters each.
fn chunks_of(alloc: Global, letters: &[u8]) -> Result<Vec<Chunk>, Memory> {
    let mut chunks = Vec::new(alloc);
    for letter in letters {
        chunks.push(name(vec![in alloc; *letter; 4]?))?;
    }
    Ok(chunks)
}

// The decisions on one segment, and the index.
fn decided(
    alloc: Global,
    index: Index,
    config: &JobConfig,
    letters: &[u8],
) -> Result<(Index, Vec<Decided>), Fail> {
    let mut decider = Decider::new(alloc, index, Vec::new(alloc), *config);
    let decided = decider.segment(alloc, chunks_of(alloc, letters)?)?;
    Ok((decider.end(), decided))
}

fn add_to(alloc: Global, index: &mut Index, sealed: &Sealed) -> Result<(), Memory> {
    index.add_container(alloc, sealed.table())
}

// The backup that a filler comes to; the index has what it wrote.
fn filled(
    alloc: Global,
    index: &mut Index,
    filler: Filler,
    decided: Vec<Decided>,
) -> Result<Backup, Fail> {
    let mut filler = filler;
    for one in decided {
        if let Some(unsealed) = filler.push(alloc, one)? {
            add_to(alloc, index, &unsealed.seal())?;
        }
    }
    let filled = filler.finish();
    let backup = backup_of(alloc, &filled)?;
    let Filled { last, .. } = filled;
    if let Some(unsealed) = last {
        add_to(alloc, index, &unsealed.seal())?;
    }
    Ok(backup)
}

// A backup by its rows' ids, how many containers it wrote, and the free id after it.
type Backup = (Vec<Id>, u64, Id);

fn backup_of(alloc: Global, filled: &Filled) -> Result<Backup, Fail> {
    let mut ids = Vec::new(alloc);
    for row in filled.rows.as_slice() {
        ids.push(row.id)?;
    }
    Ok((ids, filled.containers, filled.next))
}

fn back_up(
    alloc: Global,
    index: Index,
    next: Id,
    config: &JobConfig,
    letters: &[u8],
) -> Result<(Index, Backup), Fail> {
    if next < 1 || next > 1_000 || config.container < 1 || config.container > 4_194_304 {
        return Err(Fail::from("the first id or the size of a container"));
    }
    let filler = Filler::new(alloc, next, config.container);
    let (mut index, decided) = decided(alloc, index, config, letters)?;
    let backup = filled(alloc, &mut index, filler, decided)?;
    Ok((index, backup))
}

fn settings(rewrite: Rewrite, cap: u32, container: u32) -> JobConfig {
    let mut config = JobConfig::standard();
    config.cutting = Cutting::Fixed { size: 4 };
    config.rewrite = rewrite;
    config.cap = cap;
    config.container = container;
    config
}

// Three backups, of which the second is capped. The third refers to the second container of the first.
fn capped(alloc: Global, cap: u32) -> Result<[Backup; 3], Fail> {
    let first = settings(Rewrite::Off, cap, 8);
    let second = settings(Rewrite::Cap, cap, 4_194_304);
    let third = settings(Rewrite::Off, cap, 4_194_304);
    let index = Index::from_tables(alloc, &[])?;
    let (index, one) = back_up(alloc, index, 1, &first, b"abcd")?;
    let (index, two) = back_up(alloc, index, one.2, &second, b"ac")?;
    let (_, three) = back_up(alloc, index, two.2, &third, b"d")?;
    Ok([one, two, three])
}

fn is(backup: &Backup, ids: &[Id], containers: u64, next: Id) -> bool {
    backup.0.as_slice() == ids && (backup.1, backup.2) == (containers, next)
}

#[test]
fn a_capped_backup_writes_again_what_it_does_not_keep(rt: HostRuntime) -> Result<(), Fail> {
    let [one, two, three] = capped(rt.alloc(), 1)?;
    assert!(rt; is(&one, &[1, 1, 2, 2], 2, 3) && is(&two, &[1, 3], 1, 4) && is(&three, &[2], 0, 4));
    let [one, two, three] = capped(rt.alloc(), 2)?;
    assert!(rt; is(&one, &[1, 1, 2, 2], 2, 3) && is(&two, &[1, 2], 0, 3) && is(&three, &[2], 0, 3));
    Ok(())
}
