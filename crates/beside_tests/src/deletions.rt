// Deletions beside restores that run. The first restore writes nothing before the last deletion has put
// its floor, so all but its first payloads are loaded behind that.
use crate::running::{File, Left, lines_of, run_gated};
use std::alloc::Global;
use std::sync::Wait;
use std::test::Fail;
use std::thread::Threads;
use std::time::Clock;
use vault_types::{Kind, Name};

const EIGHT: &[u8] = b"aaaabbbbccccddddeeeeffffgggghhhh";

const FILES: &[File] = &[("eight", EIGHT), ("two", b"iiiijjjj"), ("one", b"kkkk")];

// The names on a shelf with one version, of one container.
fn names_of(version: u64, container: u64) -> [Name; 4] {
    [
        Name {
            kind: Kind::Table,
            number: container,
        },
        Name {
            kind: Kind::Payload,
            number: container,
        },
        Name {
            kind: Kind::Recipe,
            number: version,
        },
        Name {
            kind: Kind::Floor,
            number: 0,
        },
    ]
}

const DELETED_WHILE_IT_RUNS: &[u8] = b"backup eight chunk=fixed size=4 container=4 rewrite=none\n\
    backup one chunk=fixed size=4 rewrite=none\n\
    restore 1 x\n\
    delete 1\n\
    restore 1 y\n";

const DELETED_WHILE_IT_RUNS_TEXT: &[u8] =
    b"backup 1: 8 chunks, 32 bytes, 8 new containers, 32 bytes written, 0 sparse\n\
    backup 2: 1 chunks, 4 bytes, 1 new containers, 4 bytes written, 0 sparse\n\
    restore 1: 32 bytes, 8 loads\n\
    delete 1: floor 2, 8 containers reclaimed\n\
    error 3: version not kept\n";

// Whether the answers are those of one line after another, whether the version is whole, and whether
// nothing is left of it on the shelf.
fn deleted_while_it_runs<R: Threads + Wait + Clock + Copy + Drop + Send>(
    rt: R,
    alloc: Global,
) -> Result<(bool, bool, bool), Fail> {
    let Left {
        answers,
        shelf,
        places,
    } = run_gated(rt, alloc, DELETED_WHILE_IT_RUNS, FILES, 2)?;
    let names = shelf.into_inner().names(alloc)?;
    Ok((
        lines_of(alloc, answers.as_slice())?.as_slice() == DELETED_WHILE_IT_RUNS_TEXT,
        places.bytes("x") == Some(EIGHT),
        names.as_slice() == names_of(2, 9).as_slice(),
    ))
}

#[test]
fn a_version_that_is_deleted_is_restored(rt: HostRuntime) -> Result<(), Fail> {
    let (is_answered, is_whole, is_gone) = deleted_while_it_runs(rt, rt.alloc())?;
    assert!(rt; is_answered);
    assert!(rt; is_whole);
    assert!(rt; is_gone);
    Ok(())
}

// The second restore ends before the third begins, so its pin is released while the first one has the
// same containers pinned.
const RELEASED_BY_ANOTHER: &[u8] = b"backup eight chunk=fixed size=4 container=4 rewrite=none\n\
    backup two chunk=fixed size=4 container=4 rewrite=none\n\
    backup one chunk=fixed size=4 rewrite=none\n\
    restore 1 x\n\
    restore 1 y\n\
    delete 1\n\
    restore 3 z\n\
    delete 2\n";

const RELEASED_BY_ANOTHER_TEXT: &[u8] =
    b"backup 1: 8 chunks, 32 bytes, 8 new containers, 32 bytes written, 0 sparse\n\
    backup 2: 2 chunks, 8 bytes, 2 new containers, 8 bytes written, 0 sparse\n\
    backup 3: 1 chunks, 4 bytes, 1 new containers, 4 bytes written, 0 sparse\n\
    restore 1: 32 bytes, 8 loads\n\
    restore 1: 32 bytes, 8 loads\n\
    delete 1: floor 2, 8 containers reclaimed\n\
    restore 3: 4 bytes, 1 loads\n\
    delete 2: floor 3, 2 containers reclaimed\n";

// The same of two restores of one version, and how many payloads were got.
fn released_by_another<R: Threads + Wait + Clock + Copy + Drop + Send>(
    rt: R,
    alloc: Global,
) -> Result<(bool, bool, bool, u64), Fail> {
    let Left {
        answers,
        shelf,
        places,
    } = run_gated(rt, alloc, RELEASED_BY_ANOTHER, FILES, 3)?;
    let gets = shelf.payload_gets();
    let names = shelf.into_inner().names(alloc)?;
    Ok((
        lines_of(alloc, answers.as_slice())?.as_slice() == RELEASED_BY_ANOTHER_TEXT,
        places.bytes("x") == Some(EIGHT) && places.bytes("y") == Some(EIGHT),
        names.as_slice() == names_of(3, 11).as_slice(),
        gets,
    ))
}

#[test]
fn a_container_stays_while_another_restore_has_it(rt: HostRuntime) -> Result<(), Fail> {
    let (is_answered, are_whole, is_gone, gets) = released_by_another(rt, rt.alloc())?;
    assert!(rt; is_answered);
    assert!(rt; are_whole);
    assert!(rt; is_gone);
    assert!(rt; gets == 17);
    Ok(())
}
