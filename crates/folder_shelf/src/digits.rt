// Numbers in hexadecimal digits, the last ones of a number and all of them in lower case.
ghost use Rattle.std.specs.Prelude.{◌≡◌, ◌++◌, ◌∷◌, [], ◌<◌, ◌≤◌, ◌^◌, ℕ, length, ◌↔◌, Some, IfSome, OnOk, string_bytes};
ghost use Rattle.folder_shelf.specs.FileNames.{digit as digit_code, hex};

use std::alloc::AllocError;

fn digit_of(value: u8) -> char
    requires { value < 16 }
    ensures { result ≡ digit_code value }
{
    if value < 10 {
        (b'0' + value) as char
    } else {
        (b'a' + (value - 10)) as char
    }
}

fn value_of(digit: u8) -> Option<u8>
    ensures value { IfSome result (λ v. v < 16) }
    ensures found { (v : ℕ) → v < 16 → (result ≡ Some v ↔ digit ≡ digit_code v) }
{
    match digit {
        b'0'..=b'9' => Some(digit - b'0'),
        b'a'..=b'f' => Some(digit - b'a' + 10),
        _ => None,
    }
}

// Adds the last digits of the number, so many of them.
pub fn push_hex(text: &mut String, count: usize, number: u64) -> Result<(), AllocError>
    ensures { OnOk result (string_bytes text.new ≡ string_bytes text.old ++ hex count number) }
{
    if count == 0 {
        return Ok(());
    }
    push_hex(text, count - 1, number / 16)?;
    text.push(digit_of((number % 16) as u8))
}

// The number whose last digits these are, if the text is nothing else.
pub fn read_hex(text: &[u8]) -> Option<u64>
    requires { length text.now ≤ 16 }
    ensures small { IfSome result (λ n. n < 16 ^ length text.now) }
    ensures found { (n : ℕ) → n < 16 ^ length text.now
        → (result ≡ Some n ↔ hex (length text.now) n ≡ text.now) }
{
    let Some((last, before)) = text.split_last() else {
        return Some(0);
    };
    let high = read_hex(before)?;
    let low = value_of(*last)?;
    Some(high * 16 + u64::from(low))
}
