// Stores of which blobs are damaged: a run ends with the first damage, and leaves them.
use crate::formats;
use crate::formats::{bytes_of, store_with};
use crate::running::{as_said, holds, row_is, rows_are, run_on, same_blobs};
use program_rows::{BACKUP, FIRST, QUIET, RECIPE, Row, STANDARD, TEXT};
use std::alloc::Global;
use std::test::Fail;
use vault_ports::MemShelf;
use vault_types::{Fault, Kind, Name, Why};

// What is done to a blob.
#[derive(Clone, Copy, PartialEq)]
enum Change {
    IsGone,
    LosesItsLastByte,
    HasOneByteMore,
    HasAnotherFirstByte,
}

type Damage = (Kind, u64, Change);

fn change_of(damages: &[Damage], name: Name) -> Option<Change> {
    for (kind, number, change) in damages {
        if (*kind, *number) == (name.kind, name.number) {
            return Some(*change);
        }
    }
    None
}

fn changed(alloc: Global, blob: &[u8], change: Option<Change>) -> Result<Vec<u8>, Fail> {
    let mut bytes = blob.to_vec(alloc)?;
    match change {
        None | Some(Change::IsGone) => {}
        Some(Change::LosesItsLastByte) => {
            let _ = bytes.pop();
        }
        Some(Change::HasOneByteMore) => bytes.push(b'x')?,
        Some(Change::HasAnotherFirstByte) => {
            if let Some(first) = bytes.as_mut_slice().first_mut() {
                *first ^= 1;
            }
        }
    }
    Ok(bytes)
}

// The shelf with these damages.
fn damaged(alloc: Global, shelf: &MemShelf, damages: &[Damage]) -> Result<MemShelf, Fail> {
    let mut blobs = Vec::new(alloc);
    for name in shelf.names(alloc)?.as_slice() {
        let change = change_of(damages, *name);
        if change == Some(Change::IsGone) {
            continue;
        }
        if let Some(blob) = shelf.blob(*name) {
            blobs.push((*name, changed(alloc, blob, change)?))?;
        }
    }
    Ok(MemShelf::with(alloc, blobs)?)
}

// Damages of a store of two versions, in the containers 1 and 2, and the fault and the line of which an opening tells.
struct Case {
    damages: &'static [Damage],
    fault: Fault,
    line: &'static [u8],
}

macro_rules! damaged_is {
    ($kind:ident, $number:expr, $why:expr) => {
        Fault::Damaged {
            kind: Kind::$kind,
            number: $number,
            why: $why,
        }
    };
}

// The order is floors, recipes, tables and rows.
const CASES: &[Case] = &[
    Case {
        damages: &[(Kind::Floor, 0, Change::LosesItsLastByte)],
        fault: damaged_is!(Floor, 0, Why::Spelling),
        line: b"error 7: store damaged, floor 0\n",
    },
    Case {
        damages: &[(Kind::Recipe, 1, Change::IsGone)],
        fault: damaged_is!(Recipe, 1, Why::Absent),
        line: b"error 7: store damaged, recipe 1\n",
    },
    Case {
        damages: &[(Kind::Recipe, 2, Change::LosesItsLastByte)],
        fault: damaged_is!(Recipe, 2, Why::Spelling),
        line: b"error 7: store damaged, recipe 2\n",
    },
    Case {
        damages: &[(Kind::Table, 1, Change::IsGone)],
        fault: damaged_is!(Table, 1, Why::Absent),
        line: b"error 7: store damaged, table 1\n",
    },
    Case {
        damages: &[(Kind::Table, 2, Change::HasAnotherFirstByte)],
        fault: damaged_is!(Table, 2, Why::Spelling),
        line: b"error 7: store damaged, table 2\n",
    },
    Case {
        damages: &[
            (Kind::Table, 1, Change::IsGone),
            (Kind::Recipe, 1, Change::HasOneByteMore),
            (Kind::Recipe, 2, Change::HasOneByteMore),
            (Kind::Floor, 0, Change::HasAnotherFirstByte),
        ],
        fault: damaged_is!(Floor, 0, Why::Spelling),
        line: b"error 7: store damaged, floor 0\n",
    },
    Case {
        damages: &[
            (Kind::Table, 1, Change::IsGone),
            (Kind::Recipe, 2, Change::HasOneByteMore),
        ],
        fault: damaged_is!(Recipe, 2, Why::Spelling),
        line: b"error 7: store damaged, recipe 2\n",
    },
    Case {
        damages: &[
            (Kind::Table, 2, Change::IsGone),
            (Kind::Table, 1, Change::LosesItsLastByte),
            (Kind::Payload, 1, Change::IsGone),
        ],
        fault: damaged_is!(Table, 1, Why::Spelling),
        line: b"error 7: store damaged, table 1\n",
    },
];

// Commands and their input.
const COMMANDS: &[(&str, &[u8])] = &[
    (BACKUP, b"aaaa"),
    ("restore --version 2", b""),
    ("delete --through 1", b""),
    ("show --version 1", b""),
    ("migrate", b""),
    ("batch", b"delete 1\nrestore 2 x\n"),
    ("fill --seed 1 --versions 1", b""),
    ("scrub", b""),
];

// Two versions, in a container each.
const TWO: &[Row] = &[
    FIRST,
    Row {
        words: BACKUP,
        input: b"efgh",
        out: b"backup 2: 1 chunks, 4 bytes, 1 new containers, 4 bytes written, 0 sparse\n",
        ..QUIET
    },
];

// Says with which command the run does not end with the damage, or does not leave the blobs.
fn each_command_ends(alloc: Global, whole: &MemShelf, case: &Case) -> Result<(), Fail> {
    let before = damaged(alloc, whole, case.damages)?;
    for (words, input) in COMMANDS {
        let row = Row {
            words: *words,
            input: *input,
            status: 7,
            fault: Some(case.fault),
            report: case.line,
            ..QUIET
        };
        let seen = run_on(alloc, row.words, row.input, &STANDARD, before.copy()?)?;
        as_said(alloc, &row, &seen)?;
        if !same_blobs(alloc, &before, &seen.shelf)? {
            return Err(Fail::new(format!(in alloc; "at {words}: the blobs changed")?));
        }
    }
    Ok(())
}

fn each_case_ends(alloc: Global, cases: &[Case]) -> Result<(), Fail> {
    let whole = rows_are(alloc, &STANDARD, TWO)?;
    for case in cases {
        each_command_ends(alloc, &whole, case)?;
    }
    Ok(())
}

#[test]
fn a_damaged_store_is_told_and_left(rt: HostRuntime) -> Result<(), Fail> {
    each_case_ends(rt.alloc(), CASES)
}

// Damages of a store of one version, a command over it, and what comes of it.
struct Told {
    damage: Damage,
    row: Row,
}

const RESTORE: Row = Row {
    words: "restore --version 1",
    ..QUIET
};

const PAYLOAD_1: Row = Row {
    status: 7,
    report: b"error 7: store damaged, payload 1\n",
    ..RESTORE
};

// An opening reads no payload, so a damaged one is told by the restore; and without its only recipe the store is empty.
const AT_THE_RESTORE: &[Told] = &[
    Told {
        damage: (Kind::Payload, 1, Change::HasAnotherFirstByte),
        row: PAYLOAD_1,
    },
    Told {
        damage: (Kind::Payload, 1, Change::HasOneByteMore),
        row: PAYLOAD_1,
    },
    Told {
        damage: (Kind::Payload, 1, Change::IsGone),
        row: PAYLOAD_1,
    },
    Told {
        damage: (Kind::Recipe, 1, Change::LosesItsLastByte),
        row: Row {
            status: 7,
            fault: Some(damaged_is!(Recipe, 1, Why::Spelling)),
            report: b"error 7: store damaged, recipe 1\n",
            ..RESTORE
        },
    },
    Told {
        damage: (Kind::Table, 1, Change::IsGone),
        row: Row {
            status: 7,
            fault: Some(damaged_is!(Table, 1, Why::Absent)),
            report: b"error 7: store damaged, table 1\n",
            ..RESTORE
        },
    },
    Told {
        damage: (Kind::Table, 1, Change::HasAnotherFirstByte),
        row: Row {
            status: 7,
            fault: Some(damaged_is!(Table, 1, Why::Spelling)),
            report: b"error 7: store damaged, table 1\n",
            ..RESTORE
        },
    },
    Told {
        damage: (Kind::Floor, 0, Change::LosesItsLastByte),
        row: Row {
            status: 7,
            fault: Some(damaged_is!(Floor, 0, Why::Spelling)),
            report: b"error 7: store damaged, floor 0\n",
            ..RESTORE
        },
    },
    Told {
        damage: (Kind::Recipe, 1, Change::IsGone),
        row: Row {
            status: 3,
            report: b"error 3: version not kept\n",
            ..RESTORE
        },
    },
];

// The first damage behind whose restore the blobs are others.
fn first_blob_changed(alloc: Global, all: &[Told]) -> Result<Option<usize>, Fail> {
    let whole = rows_are(alloc, &STANDARD, &[FIRST])?;
    for (place, told) in all.iter().enumerate() {
        let before = damaged(alloc, &whole, &[told.damage])?;
        let behind = row_is(alloc, &STANDARD, &told.row, before.copy()?)?;
        if !same_blobs(alloc, &before, &behind)? {
            return Ok(Some(place));
        }
    }
    Ok(None)
}

#[test]
fn a_restore_says_what_is_damaged(rt: HostRuntime) -> Result<(), Fail> {
    assert!(rt; first_blob_changed(rt.alloc(), AT_THE_RESTORE)? == None);
    Ok(())
}

const WITH_ANOTHER_SUM: Row = Row {
    status: 7,
    out: TEXT,
    report: b"error 7: store damaged, recipe 1\n",
    ..RESTORE
};

#[test]
fn a_version_with_another_sum_is_told(rt: HostRuntime) -> Result<(), Fail> {
    let alloc = rt.alloc();
    let shelf = store_with(alloc, formats::WITH_ANOTHER_SUM)?;
    let _ = row_is(alloc, &STANDARD, &WITH_ANOTHER_SUM, shelf)?;
    Ok(())
}

// A shelf with a recipe of these bytes alone.
fn shelf_of(alloc: Global, number: u64, bytes: Vec<u8>) -> Result<MemShelf, Fail> {
    let mut blobs = Vec::new(alloc);
    let kind = Kind::Recipe;
    blobs.push((Name { kind, number }, bytes))?;
    Ok(MemShelf::with(alloc, blobs)?)
}

// The recipe of version 1 of set 3, under the name of version 1 of set 4.
const OF_ANOTHER_SET: Row = Row {
    words: "show --version 1 --set 4",
    status: 7,
    fault: Some(damaged_is!(Recipe, 17_179_869_185, Why::Spelling)),
    report: b"error 7: store damaged, recipe 17179869185\n",
    ..QUIET
};

#[test]
fn a_recipe_is_none_of_another_set(rt: HostRuntime) -> Result<(), Fail> {
    let alloc = rt.alloc();
    let bytes = bytes_of(alloc, formats::FIRST_OF_SET_3)?;
    let shelf = shelf_of(alloc, 17_179_869_185, bytes)?;
    let _ = row_is(alloc, &STANDARD, &OF_ANOTHER_SET, shelf)?;
    Ok(())
}

const OVER_NO_RECIPE: Row = Row {
    words: BACKUP,
    input: TEXT,
    status: 7,
    fault: Some(damaged_is!(Recipe, 1, Why::Spelling)),
    report: b"error 7: store damaged, recipe 1\n",
    ..QUIET
};

// Whether the blob stays that is no recipe, and nothing is answered.
fn no_recipe_is_left(alloc: Global) -> Result<(bool, usize), Fail> {
    let shelf = shelf_of(alloc, 1, b"old".to_vec(alloc)?)?;
    let seen = run_on(alloc, BACKUP, TEXT, &STANDARD, shelf)?;
    as_said(alloc, &OVER_NO_RECIPE, &seen)?;
    Ok((
        holds(&seen.shelf, RECIPE, b"old"),
        seen.answers.as_slice().len(),
    ))
}

#[test]
fn a_store_that_is_damaged_is_not_opened(rt: HostRuntime) -> Result<(), Fail> {
    assert!(rt; no_recipe_is_left(rt.alloc())? == (true, 0));
    Ok(())
}
