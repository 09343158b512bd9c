// Numbers, sums and rules, with values from outside.
ghost use Rattle.vault_types.specs.Names.{IsFp};

use blob_parts::{
    Unread, body_of, fp_at, has_rules, ids_at, push_sparse, push_sum, push_u32, push_u64, sum_of,
    tag_at, u32_at, u64_at,
};
use std::alloc::Global;
use std::test::Fail;
use vault_types::list::ListOf;
use vault_types::{Fp, Id, Recipe, Row, Version};

// Two numbers, of four bytes and of eight.
const NUMBERS: [u8; 12] = [1, 2, 3, 4, 5, 6, 7, 8, 9, 10, 11, 12];

// The list of 3 and 258.
const SPARSE: [u8; 20] = [0, 0, 0, 2, 0, 0, 0, 0, 0, 0, 0, 3, 0, 0, 0, 0, 0, 0, 1, 2];

// The SHA-1 of `abc` (FIPS 180-4), and of `abc` with the set 3 behind it in four bytes.
const ABC: [u8; 20] = [
    0xa9, 0x99, 0x3e, 0x36, 0x47, 0x06, 0x81, 0x6a, 0xba, 0x3e, 0x25, 0x71, 0x78, 0x50, 0xc2, 0x6c,
    0x9c, 0xd0, 0xd8, 0x9d,
];

const ABC_OF_3: [u8; 20] = [
    0xe6, 0x4c, 0x0a, 0x21, 0xd7, 0x26, 0x29, 0xcc, 0x07, 0x16, 0x38, 0x6a, 0x9d, 0x16, 0x8f, 0xcc,
    0xd8, 0xfe, 0xdb, 0x83,
];

// `abc` and its sum in set 3.
const SUMMED: [u8; 23] = [
    0x61, 0x62, 0x63, 0xe6, 0x4c, 0x0a, 0x21, 0xd7, 0x26, 0x29, 0xcc, 0x07, 0x16, 0x38, 0x6a, 0x9d,
    0x16, 0x8f, 0xcc, 0xd8, 0xfe, 0xdb, 0x83,
];

// The SHA-1 of no bytes.
const NONE: [u8; 20] = [
    0xda, 0x39, 0xa3, 0xee, 0x5e, 0x6b, 0x4b, 0x0d, 0x32, 0x55, 0xbf, 0xef, 0x95, 0x60, 0x18, 0x90,
    0xaf, 0xd8, 0x07, 0x09,
];

fn pushed(alloc: Global) -> Result<Vec<u8>, Fail> {
    let mut blob = Vec::new(alloc);
    push_u32(&mut blob, 0x0102_0304)?;
    push_u64(&mut blob, 0x0506_0708_090a_0b0c)?;
    Ok(blob)
}

// The two numbers, and how many bytes are behind them.
fn numbers() -> Result<(u32, u64, usize), Fail> {
    let (low, rest) = u32_at(&NUMBERS)?;
    let (high, rest) = u64_at(rest)?;
    Ok((low, high, rest.len()))
}

fn is_misspelt<T: Drop>(read: Result<T, Unread>) -> bool {
    matches!(read, Err(Unread::Spelling))
}

fn numbers_are_misspelt() -> bool {
    is_misspelt(tag_at(&NUMBERS, 0x0102_0305))
        && is_misspelt(u32_at(&NUMBERS[..3]))
        && is_misspelt(u64_at(&NUMBERS[..7]))
}

#[test]
fn numbers_begin_with_their_highest_byte(rt: HostRuntime) -> Result<(), Fail> {
    assert!(rt; pushed(rt.alloc())?.as_slice() == NUMBERS.as_slice());
    assert!(rt; numbers()? == (0x0102_0304, 0x0506_0708_090a_0b0c, 0));
    assert!(rt; tag_at(&NUMBERS, 0x0102_0304)? == &NUMBERS[4..]);
    assert!(rt; numbers_are_misspelt());
    Ok(())
}

fn pushed_sparse(alloc: Global) -> Result<Vec<u8>, Fail> {
    let mut blob = Vec::new(alloc);
    push_sparse(&mut blob, &[3, 258])?;
    Ok(blob)
}

fn sparse_is_read(alloc: Global) -> Result<bool, Fail> {
    let (ids, rest) = ids_at(alloc, &SPARSE)?;
    Ok(ids.as_slice() == [3, 258].as_slice() && rest.is_empty())
}

#[test]
fn a_sparse_list_begins_with_its_length(rt: HostRuntime) -> Result<(), Fail> {
    let many = [255, 255, 255, 255, 0, 0, 0, 0];
    assert!(rt; pushed_sparse(rt.alloc())?.as_slice() == SPARSE.as_slice());
    assert!(rt; sparse_is_read(rt.alloc())?);
    assert!(rt; is_misspelt(ids_at(rt.alloc(), &SPARSE[..19])));
    assert!(rt; is_misspelt(ids_at(rt.alloc(), &many)));
    Ok(())
}

fn summed(alloc: Global) -> Result<Vec<u8>, Fail> {
    let mut blob = b"abc".to_vec(alloc)?;
    push_sum(&mut blob, 3)?;
    Ok(blob)
}

// Whether the sum stands behind `abc`, and is no sum with a byte less.
fn sum_is_read() -> Result<bool, Fail> {
    let (sum, rest) = fp_at(&SUMMED[3..])?;
    Ok(sum == Fp(ABC_OF_3) && rest.is_empty() && is_misspelt(fp_at(&SUMMED[4..])))
}

// Whether the blob is one of set 3 with the body `abc`, and none of set 0 or with a byte less.
fn body_is_of_3() -> bool {
    body_of(&SUMMED, 3) == Some(b"abc".as_slice())
        && body_of(&SUMMED, 0).is_none()
        && body_of(&SUMMED[1..], 3).is_none()
        && body_of(&ABC[1..], 0).is_none()
}

#[test]
fn a_blob_ends_with_the_sum_of_its_body_and_set(rt: HostRuntime) -> Result<(), Fail> {
    assert!(rt; sum_of(b"abc", 0) == ABC && sum_of(b"abc", 3) == ABC_OF_3);
    assert!(rt; summed(rt.alloc())?.as_slice() == SUMMED.as_slice());
    assert!(rt; sum_is_read()? && body_is_of_3());
    Ok(())
}

// Of a recipe of two rows of containers 1 and 2, of 6 bytes: its version, its next id, its length, its sparse ids, and
// whether it keeps the rules.
type Case = (Version, Id, u64, &'static [Id], bool);

const CASES: &[Case] = &[
    (1, 3, 6, &[1, 2], true),
    (4_294_967_294, 9_223_372_036_854_775_808, 6, &[2], true),
    (0, 3, 6, &[], false),
    (4_294_967_295, 3, 6, &[], false),
    (1, 2, 6, &[], false),
    (1, 9_223_372_036_854_775_809, 6, &[], false),
    (1, 3, 5, &[], false),
    (1, 3, 6, &[2, 1], false),
    (1, 3, 6, &[1, 1], false),
    (1, 3, 6, &[3], false),
];

fn is_ruled(
    alloc: Global,
    version: Version,
    next: Id,
    length: u64,
    sparse: &[Id],
) -> Result<bool, Fail> {
    if sparse.len() > 2 {
        return Err(Fail::from("too many sparse ids"));
    }
    let fp = Fp(ABC);
    let rows = vec![in alloc; Row { fp, id: 1, len: 3 }, Row { fp, id: 2, len: 3 }]?;
    let recipe = Recipe {
        set: 0,
        version,
        next,
        length,
        rows: ListOf::from_vec(rows),
        sparse: ListOf::from_vec(sparse.to_vec(alloc)?),
        whole: None,
    };
    Ok(has_rules(alloc, &recipe)?)
}

fn rules_tell(alloc: Global, cases: &[Case]) -> Result<bool, Fail> {
    for (version, next, length, sparse, ruled) in cases {
        if is_ruled(alloc, *version, *next, *length, sparse)? != *ruled {
            return Ok(false);
        }
    }
    Ok(true)
}

// Whether a version without rows may have this sum.
fn none_has_sum(alloc: Global, sum: Fp) -> Result<bool, Fail>
    requires { IsFp sum }
{
    let recipe = Recipe {
        set: 0,
        version: 1,
        next: 1,
        length: 0,
        rows: ListOf::from_vec(Vec::new(alloc)),
        sparse: ListOf::from_vec(Vec::new(alloc)),
        whole: Some(sum),
    };
    Ok(has_rules(alloc, &recipe)?)
}

#[test]
fn a_recipe_may_break_its_rules_in_many_ways(rt: HostRuntime) -> Result<(), Fail> {
    assert!(rt; rules_tell(rt.alloc(), CASES)?);
    assert!(rt; none_has_sum(rt.alloc(), Fp(NONE))?);
    assert!(rt; !none_has_sum(rt.alloc(), Fp(ABC))?);
    Ok(())
}
