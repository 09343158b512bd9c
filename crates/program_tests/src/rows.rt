// Rows of single commands.
use crate::running::{blob_len, groups_are, holds, lists, rows_are, rows_over};
use program_rows::{
    BACKUP, FIRST, FLOOR, GROUPS, LIMITED, LIMITS, PAYLOAD, QUIET, RECIPE, Row, SECOND, STANDARD,
    TABLE, TEXT,
};
use std::alloc::Global;
use std::test::Fail;
use vault_ports::{FaultShelf, MemPlaces, MemShelf, MemSource};
use vault_types::{Answer, Fault, Kind, Limits, Name};

#[test]
fn commands_do_as_their_rows_say(rt: HostRuntime) -> Result<(), Fail> {
    groups_are(rt.alloc(), &STANDARD, GROUPS)
}

#[test]
fn limits_are_kept_as_the_rows_say(rt: HostRuntime) -> Result<(), Fail> {
    groups_are(rt.alloc(), &LIMITS, &[LIMITED])
}

// The names that a first backup leaves, and what is in them.
fn first_shelf(alloc: Global) -> Result<(bool, bool, [usize; 3]), Fail> {
    let shelf = rows_are(alloc, &STANDARD, &[FIRST])?;
    let names = lists(alloc, &shelf, &[TABLE, PAYLOAD, RECIPE, FLOOR])?;
    let payload = holds(&shelf, PAYLOAD, b"abcdab");
    let lens = [
        blob_len(&shelf, TABLE),
        blob_len(&shelf, RECIPE),
        blob_len(&shelf, FLOOR),
    ];
    Ok((names, payload, lens))
}

#[test]
fn a_first_backup_writes_four_blobs(rt: HostRuntime) -> Result<(), Fail> {
    assert!(rt; first_shelf(rt.alloc())? == (true, true, [104, 156, 28]));
    Ok(())
}

const INTO_SET_3: Row = Row {
    words: "backup --set 3 --chunk fixed --size 4 --container 4",
    input: TEXT,
    out: b"backup 3/1: 3 chunks, 10 bytes, 2 new containers, 6 bytes written, 0 sparse\n",
    ..QUIET
};

const LENS_IN_SET_3: &[(Kind, u64, usize)] = &[
    (Kind::Table, 1, 80),
    (Kind::Table, 2, 80),
    (Kind::Payload, 1, 4),
    (Kind::Payload, 2, 2),
    (Kind::Recipe, 12_884_901_889, 168),
    (Kind::Floor, 3, 28),
];

// Whether the shelf has these names alone, with so many bytes each.
fn lens_are(alloc: Global, shelf: &MemShelf, lens: &[(Kind, u64, usize)]) -> Result<bool, Fail> {
    let mut names = Vec::new(alloc);
    for (kind, number, len) in lens {
        let name = Name {
            kind: *kind,
            number: *number,
        };
        if blob_len(shelf, name) != *len {
            return Ok(false);
        }
        names.push(name)?;
    }
    lists(alloc, shelf, names.as_slice())
}

fn set_3_is(alloc: Global) -> Result<bool, Fail> {
    let shelf = rows_are(alloc, &STANDARD, &[INTO_SET_3])?;
    lens_are(alloc, &shelf, LENS_IN_SET_3)
}

#[test]
fn the_set_and_the_containers_are_as_the_words_say(rt: HostRuntime) -> Result<(), Fail> {
    assert!(rt; set_3_is(rt.alloc())?);
    Ok(())
}

const TWO_AND_A_DELETION: &[Row] = &[
    FIRST,
    SECOND,
    Row {
        words: "delete --through 2",
        status: 10,
        out: b"error 10: latest version\n",
        ..QUIET
    },
    Row {
        words: "delete --through 1",
        out: b"delete 1: floor 2, 0 containers reclaimed\n",
        ..QUIET
    },
];

fn space_given_back(alloc: Global) -> Result<(bool, usize), Fail> {
    let shelf = rows_are(alloc, &STANDARD, TWO_AND_A_DELETION)?;
    Ok((shelf.blob(RECIPE).is_none(), blob_len(&shelf, PAYLOAD)))
}

#[test]
fn a_deleted_version_gives_its_space_back(rt: HostRuntime) -> Result<(), Fail> {
    assert!(rt; space_given_back(rt.alloc())? == (true, 6));
    Ok(())
}

// A shelf with one blob, that is no floor.
fn shelf_with(alloc: Global, name: Name, bytes: &[u8]) -> Result<MemShelf, Fail> {
    let mut blobs = Vec::new(alloc);
    blobs.push((name, bytes.to_vec(alloc)?))?;
    Ok(MemShelf::with(alloc, blobs)?)
}

const STRAY: Name = Name {
    kind: Kind::Payload,
    number: 5,
};

const OF_ONE_CHUNK: Row = Row {
    words: BACKUP,
    input: b"aaaa",
    out: b"backup 1: 1 chunks, 4 bytes, 1 new containers, 4 bytes written, 0 sparse\n",
    ..QUIET
};

// A table that no version names is written again, and a payload stays.
fn strays_are_no_damage(alloc: Global) -> Result<(usize, bool), Fail> {
    let old = shelf_with(alloc, TABLE, b"old")?;
    let table = blob_len(&rows_over(alloc, &STANDARD, &[FIRST], old)?, TABLE);
    let stray = shelf_with(alloc, STRAY, b"x")?;
    let shelf = rows_over(alloc, &STANDARD, &[OF_ONE_CHUNK], stray)?;
    Ok((table, holds(&shelf, STRAY, b"x")))
}

#[test]
fn a_blob_that_no_version_needs_is_no_damage(rt: HostRuntime) -> Result<(), Fail> {
    assert!(rt; strays_are_no_damage(rt.alloc())? == (104, true));
    Ok(())
}
