// The bytes of recipes of both formats, which were worked out apart from the store; and that they stay.
use crate::running::{row_is, rows_are};
use program_rows::{BACKUP, FIRST, QUIET, RECIPE, Row, STANDARD, TEXT};
use std::alloc::Global;
use std::test::Fail;
use vault_ports::{MemShelf, Shelf};
use vault_types::{Kind, Name};

/// Format 1: version 1 of set 3, which is `aaaa` in container 1.
pub const FIRST_OF_SET_3: &str =
    "4452433100000001000000000000000200000000000000040000000170c881d4a26984ddce795f6f71817c9cf4480e79\
        0000000000000001000000040000000059b68f97de9a825dcfe657b32f42479050ac3d33";

/// Format 1: version 1, which is the chunks `abcd`, `abcd` and `ab` in container 1.
pub const THREE_IN_FORMAT_1: &str =
    "44524331000000010000000000000002000000000000000a0000000381fe8bfe87576c3ecb22426f8e57847382917acf\
        00000000000000010000000481fe8bfe87576c3ecb22426f8e57847382917acf000000000000000100000004da23614e\
        02469a0d7c7bd1bdab5c9c474b1904dc00000000000000010000000200000000af89fd01a4fa1d968adc288d51017643\
        161bb835";

/// Format 2: the same version.
pub const THREE_CHUNKS: &str =
    "44524332000000010000000000000002000000000000000a0c6fc1f631cba5ba7209adf34e8ddfb9fda2725800000001\
        00000000000000010000000381fe8bfe87576c3ecb22426f8e57847382917acf0000000481fe8bfe87576c3ecb22426f\
        8e57847382917acf00000004da23614e02469a0d7c7bd1bdab5c9c474b1904dc0000000200000000b2d472b056dd215f\
        999f863f068ee0c41fdead2c";

/// The same with 20 zero bytes for the sum of the version's bytes.
pub const WITH_ANOTHER_SUM: &str =
    "44524332000000010000000000000002000000000000000a000000000000000000000000000000000000000000000001\
        00000000000000010000000381fe8bfe87576c3ecb22426f8e57847382917acf0000000481fe8bfe87576c3ecb22426f\
        8e57847382917acf00000004da23614e02469a0d7c7bd1bdab5c9c474b1904dc0000000200000000cab3beff21a5aca8\
        f2213fe12a1487478564e038";

// Format 2: version 1, which is the chunk `aaaa` in container 1.
const ONE_CHUNK: &str =
    "44524332000000010000000000000002000000000000000470c881d4a26984ddce795f6f71817c9cf4480e7900000001\
        00000000000000010000000170c881d4a26984ddce795f6f71817c9cf4480e79000000040000000046abc08adc0b3be3\
        b5db2ec4deffae5d11c3ad50";

// Format 2: version 2, which is the same chunk.
const ONE_CHUNK_AGAIN: &str =
    "44524332000000020000000000000002000000000000000470c881d4a26984ddce795f6f71817c9cf4480e7900000001\
        00000000000000010000000170c881d4a26984ddce795f6f71817c9cf4480e790000000400000000c3cf1466720b129a\
        cefafa0f51f5077797e2ebcf";

// Format 2: version 1 of no bytes.
const NO_BYTES: &str =
    "445243320000000100000000000000010000000000000000da39a3ee5e6b4b0d3255bfef95601890afd8070900000000\
        000000002f19d0da159fb69f9b293aaf026ac6dced6cdc96";

/// The bytes of a hexadecimal text.
pub fn bytes_of(alloc: Global, text: &str) -> Result<Vec<u8>, Fail> {
    match hex::decode(alloc, text) {
        Ok(bytes) => Ok(bytes),
        Err(_) => Err(Fail::from("no hexadecimal digits")),
    }
}

/// Puts the bytes of a hexadecimal text under a recipe's number.
pub fn put_recipe(
    alloc: Global,
    shelf: &mut MemShelf,
    number: u64,
    text: &str,
) -> Result<(), Fail> {
    let name = Name {
        kind: Kind::Recipe,
        number,
    };
    let bytes = bytes_of(alloc, text)?;
    match shelf.put(alloc, name, bytes.as_slice()) {
        Ok(()) => Ok(()),
        Err(_) => Err(Fail::from("the recipe is put")),
    }
}

/// Whether the recipe of this number has the bytes of a hexadecimal text.
pub fn has_recipe(alloc: Global, shelf: &MemShelf, number: u64, text: &str) -> Result<bool, Fail> {
    let name = Name {
        kind: Kind::Recipe,
        number,
    };
    let bytes = bytes_of(alloc, text)?;
    Ok(shelf.blob(name) == Some(bytes.as_slice()))
}

// Backups one behind another, and the recipe that each leaves.
type Recipes = &'static [(Row, &'static str)];

const OF_THREE_CHUNKS: Recipes = &[(FIRST, THREE_CHUNKS)];

// The second version's one row names a container of the first.
const OF_ONE_CHUNK: Recipes = &[
    (
        Row {
            words: BACKUP,
            input: b"aaaa",
            out: b"backup 1: 1 chunks, 4 bytes, 1 new containers, 4 bytes written, 0 sparse\n",
            ..QUIET
        },
        ONE_CHUNK,
    ),
    (
        Row {
            words: BACKUP,
            input: b"aaaa",
            out: b"backup 2: 1 chunks, 4 bytes, 0 new containers, 0 bytes written, 0 sparse\n",
            ..QUIET
        },
        ONE_CHUNK_AGAIN,
    ),
];

const OF_NO_BYTES: Recipes = &[(
    Row {
        words: "backup",
        out: b"backup 1: 0 chunks, 0 bytes, 0 new containers, 0 bytes written, 0 sparse\n",
        ..QUIET
    },
    NO_BYTES,
)];

// The first backup whose recipe has other bytes: the place of its group, and its number.
fn first_other_recipe(alloc: Global, groups: &[Recipes]) -> Result<Option<(usize, u64)>, Fail> {
    for (place, recipes) in groups.iter().enumerate() {
        let mut shelf = MemShelf::new(alloc);
        let mut number = 0u64;
        for (row, text) in *recipes {
            shelf = row_is(alloc, &STANDARD, row, shelf)?;
            number = number.saturating_add(1);
            if !has_recipe(alloc, &shelf, number, text)? {
                return Ok(Some((place, number)));
            }
        }
    }
    Ok(None)
}

#[test]
fn recipes_have_their_bytes(rt: HostRuntime) -> Result<(), Fail> {
    let groups = [OF_THREE_CHUNKS, OF_ONE_CHUNK, OF_NO_BYTES];
    assert!(rt; first_other_recipe(rt.alloc(), groups.as_slice())? == None);
    Ok(())
}

/// A store of one version, whose recipe has the bytes of a hexadecimal text.
pub fn store_with(alloc: Global, text: &str) -> Result<MemShelf, Fail> {
    let mut shelf = rows_are(alloc, &STANDARD, &[FIRST])?;
    put_recipe(alloc, &mut shelf, RECIPE.number, text)?;
    Ok(shelf)
}

const BESIDE_AN_OLD_RECIPE: &[Row] = &[
    Row {
        words: BACKUP,
        input: b"abcdaaaa",
        out: b"backup 2: 2 chunks, 8 bytes, 1 new containers, 4 bytes written, 0 sparse\n",
        ..QUIET
    },
    Row {
        words: "restore --version 1",
        out: TEXT,
        report: b"restore 1: 10 bytes, 1 loads\n",
        ..QUIET
    },
    Row {
        words: "show --version 1",
        out: b"version 1 length 10 next 2 chunks 3 sparse 0\n\
            81fe8bfe87576c3ecb22426f8e57847382917acf 1 4\n\
            81fe8bfe87576c3ecb22426f8e57847382917acf 1 4\n\
            da23614e02469a0d7c7bd1bdab5c9c474b1904dc 1 2\n",
        ..QUIET
    },
    Row {
        words: "delete --through 0",
        out: b"delete 0: floor 1, 0 containers reclaimed\n",
        ..QUIET
    },
    Row {
        words: "batch",
        input: b"delete 0\nbackup none\n",
        status: 11,
        out: b"delete 0: floor 1, 0 containers reclaimed\nerror 11: place failed\n",
        ..QUIET
    },
    Row {
        words: "backup --set 3 --chunk fixed --size 4",
        input: b"abcd",
        out: b"backup 3/1: 1 chunks, 4 bytes, 0 new containers, 0 bytes written, 0 sparse\n",
        ..QUIET
    },
    Row {
        words: BACKUP,
        input: TEXT,
        out: b"backup 3: 3 chunks, 10 bytes, 0 new containers, 0 bytes written, 0 sparse\n",
        ..QUIET
    },
];

// The first of these rows behind which the recipe in format 1 has other bytes.
fn first_change(alloc: Global, rows: &[Row]) -> Result<Option<&'static str>, Fail> {
    let mut shelf = store_with(alloc, THREE_IN_FORMAT_1)?;
    for row in rows {
        shelf = row_is(alloc, &STANDARD, row, shelf)?;
        if !has_recipe(alloc, &shelf, RECIPE.number, THREE_IN_FORMAT_1)? {
            return Ok(Some(row.words));
        }
    }
    Ok(None)
}

#[test]
fn an_old_recipe_stays_in_its_format(rt: HostRuntime) -> Result<(), Fail> {
    assert!(rt; first_change(rt.alloc(), BESIDE_AN_OLD_RECIPE)? == None);
    Ok(())
}
