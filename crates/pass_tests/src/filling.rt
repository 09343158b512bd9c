// Containers as they are filled.
use container_fill::{Filler, Unsealed};
use fingerprint_stage::name;
use rewrite_stage::Decided;
use std::alloc::Global;
use std::test::Fail;
use vault_types::{How, Id};

// A container by its id and the length of its payload.
type Brief = (Id, usize);

fn brief(unsealed: Option<Unsealed>) -> Option<Brief> {
    match unsealed {
        Some(unsealed) => {
            let sealed = unsealed.seal();
            Some((sealed.table().id, sealed.payload().len()))
        }
        None => None,
    }
}

fn push(
    alloc: Global,
    filler: &mut Filler,
    byte: u8,
    len: usize,
    how: How,
) -> Result<Option<Brief>, Fail> {
    if len < 1 || len > 65_536 {
        return Err(Fail::from("the length of a chunk"));
    }
    let chunk = name(vec![in alloc; byte; len]?);
    Ok(brief(filler.push(alloc, Decided { chunk, how })?))
}

// What each push gives out.
fn push_all(
    alloc: Global,
    filler: &mut Filler,
    chunks: &[(u8, usize, How)],
) -> Result<Vec<Option<Brief>>, Fail> {
    let mut given = Vec::new(alloc);
    for (byte, len, how) in chunks {
        given.push(push(alloc, filler, *byte, *len, *how)?)?;
    }
    Ok(given)
}

// Adds two rows of a chunk that was written: by the container that took it, and by container 3.
fn add_rows(alloc: Global, filler: &mut Filler, byte: u8) -> Result<(), Fail> {
    let fp = name(vec![in alloc; byte; 2]?).fp();
    if !filler.has_written(&fp) {
        return Err(Fail::from("the chunk was not written"));
    }
    filler.row(&fp, 2, None)?;
    filler.row(&fp, 2, Some(3))?;
    Ok(())
}

// What a filler comes to: the rows by their ids and lengths.
#[derive(Drop)]
struct End {
    last: Option<Brief>,
    rows: Vec<(Id, u32)>,
    next: Id,
    containers: u64,
    written: u64,
}

fn finished(alloc: Global, filler: Filler) -> Result<End, Fail> {
    let filled = filler.finish();
    let mut rows = Vec::new(alloc);
    for row in filled.rows.as_slice() {
        rows.push((row.id, row.len))?;
    }
    Ok(End {
        last: brief(filled.last),
        rows,
        next: filled.next,
        containers: filled.containers,
        written: filled.written,
    })
}

#[test]
fn a_chunk_that_does_not_fit_begins_a_container(rt: HostRuntime) -> Result<(), Fail> {
    let alloc = rt.alloc();
    let chunks = [(1, 60, How::Write), (2, 40, How::Write), (3, 1, How::Write)];
    let mut filler = Filler::new(alloc, 1, 100);
    let given = push_all(alloc, &mut filler, &chunks)?;
    let end = finished(alloc, filler)?;
    assert!(rt; given.as_slice() == [None, None, Some((1, 100))].as_slice());
    assert!(rt; end.rows.as_slice() == [(1, 60), (1, 40), (2, 1)].as_slice());
    assert!(rt; (end.last, end.next, end.containers, end.written) == (Some((2, 1)), 3, 2, 101));
    Ok(())
}

#[test]
fn rows_name_the_container_that_has_the_chunk(rt: HostRuntime) -> Result<(), Fail> {
    let alloc = rt.alloc();
    let chunks = [
        (1, 2, How::Old(4)),
        (1, 2, How::Own),
        (2, 2, How::Write),
        (1, 2, How::Write),
    ];
    let mut filler = Filler::new(alloc, 5, 3);
    push_all(alloc, &mut filler, &chunks)?;
    add_rows(alloc, &mut filler, 1)?;
    let end = finished(alloc, filler)?;
    assert!(rt; end.rows.as_slice() == [(4, 2), (5, 2), (6, 2), (5, 2), (5, 2), (3, 2)].as_slice());
    assert!(rt; end.written == 4);
    Ok(())
}
