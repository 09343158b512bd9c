// Reading a list: a count and so many fields of one kind.
ghost use Rattle.std.specs.Int.{w64};
ghost use Rattle.blob_parts.specs.Reading.{Field, ReadsAs, number_at, many_at, wide_at, list_at};

use crate::reading::{u32_at, u64_at};
use crate::unread::Unread;
use std::alloc::Global;
use vault_types::Id;

/// Reads one field of a list.
pub trait FieldReader {
    /// What a field spells.
    type Item: Drop;

    /// The field that it reads.
    ghost field: { Self → Field Self.Item };

    /// The value of the next field, and what is behind it.
    fn read<'a>(&self, bytes: &'a [u8]) -> Result<(Self::Item, &'a [u8]), Unread>
        ensures { ReadsAs (λ x. (x.0, x.1.now)) result (field self.now bytes.now) };
}

// The ids of a sparse list.
struct Ids;

impl FieldReader for Ids {
    type Item = Id;

    ghost field = { λ s. number_at w64 };

    fn read<'a>(&self, bytes: &'a [u8]) -> Result<(Id, &'a [u8]), Unread> {
        u64_at(bytes)
    }
}

/// The sparse list of a recipe: its length and its ids; and what is behind it.
pub fn ids_at(alloc: Global, bytes: &[u8]) -> Result<(Vec<Id>, &[u8]), Unread>
    ensures { ReadsAs (λ x. (x.0.items, x.1.now)) result (list_at 8 (number_at w64) bytes.now) }
{
    list_at(alloc, 8, &Ids, bytes)
}

/// The next list, and what is behind it: a count in four bytes and so many fields, each of `width`
/// bytes at least. Where the bytes have no room for so many, it is `Err(Spelling)` before any memory
/// is taken.
pub fn list_at<'a, F: FieldReader>(
    alloc: Global,
    width: u16,
    fields: &F,
    bytes: &'a [u8],
) -> Result<(Vec<F::Item>, &'a [u8]), Unread>
    ensures { ReadsAs (λ x. (x.0.items, x.1.now)) result (list_at width (F.field fields.now) bytes.now) }
{
    let (count, rest) = u32_at(bytes)?;
    wide_at(alloc, width, fields, count, rest)
}

fn wide_at<'a, F: FieldReader>(
    alloc: Global,
    width: u16,
    fields: &F,
    count: u32,
    bytes: &'a [u8],
) -> Result<(Vec<F::Item>, &'a [u8]), Unread>
    ensures { ReadsAs (λ x. (x.0.items, x.1.now)) result
        (wide_at width (F.field fields.now) count bytes.now) }
{
    let width = width as usize;
    let count = count as usize;
    if bytes.len() < width * count {
        return Err(Unread::Spelling);
    }
    many_at(alloc, fields, count, bytes)
}

fn many_at<'a, F: FieldReader>(
    alloc: Global,
    fields: &F,
    count: usize,
    bytes: &'a [u8],
) -> Result<(Vec<F::Item>, &'a [u8]), Unread>
    ensures { ReadsAs (λ x. (x.0.items, x.1.now)) result (many_at (F.field fields.now) count bytes.now) }
{
    let mut items = Vec::with_capacity(alloc, count)?;
    let mut rest = bytes;
    'items: for _ in 0..count {
        let (item, after) = fields.read(rest)?;
        items.push(item)?;
        rest = after;
    }
    Ok((items, rest))
}
