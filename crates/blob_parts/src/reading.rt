// Reading a blob from left to right.
ghost use Rattle.std.specs.Prelude.{◌≡◌};
ghost use Rattle.std.specs.Int.{w32, w64};
ghost use Rattle.blob_parts.specs.Reading.{ReadsAs, number_at, tag_at, fp_at};

use crate::unread::Unread;
use vault_types::Fp;

/// The number in the next four bytes, and what is behind it.
pub fn u32_at(bytes: &[u8]) -> Result<(u32, &[u8]), Unread>
    ensures { ReadsAs (λ x. (x.0, x.1.now)) result (number_at w32 bytes.now) }
{
    if bytes.len() < 4 {
        return Err(Unread::Spelling);
    }
    let (front, rest) = bytes.split_at(4);
    let number = u32::from_be_bytes([front[0], front[1], front[2], front[3]]);
    Ok((number, rest))
}

/// The number in the next eight bytes, and what is behind it.
pub fn u64_at(bytes: &[u8]) -> Result<(u64, &[u8]), Unread>
    ensures { ReadsAs (λ x. (x.0, x.1.now)) result (number_at w64 bytes.now) }
{
    if bytes.len() < 8 {
        return Err(Unread::Spelling);
    }
    let (front, rest) = bytes.split_at(8);
    let number = u64::from_be_bytes([
        front[0], front[1], front[2], front[3], front[4], front[5], front[6], front[7],
    ]);
    Ok((number, rest))
}

/// What is behind the four bytes by which a blob of a kind begins.
pub fn tag_at(bytes: &[u8], tag: u32) -> Result<&[u8], Unread>
    ensures { ReadsAs (λ rest. (tag, rest.now)) result (tag_at tag bytes.now) }
{
    let (number, rest) = u32_at(bytes)?;
    if number != tag {
        return Err(Unread::Spelling);
    }
    Ok(rest)
}

/// The sum in the next twenty bytes, and what is behind it.
pub fn fp_at(bytes: &[u8]) -> Result<(Fp, &[u8]), Unread>
    ensures { ReadsAs (λ x. (x.0, x.1.now)) result (fp_at bytes.now) }
{
    if bytes.len() < 20 {
        return Err(Unread::Spelling);
    }
    let (front, rest) = bytes.split_at(20);
    let mut sum = [0; 20];
    sum.copy_from_slice(front);
    Ok((Fp(sum), rest))
}
