//! Values of settings.
ghost use Rattle.std.specs.Prelude.{◌≡◌, ◌-◌, ◌^◌, ◌||◌, ◌&&◌, ◌==◌, not, nat_lt, length, slice_index, List, ℕ, map, false, true, min, MatchOption};
ghost use Rattle.std.specs.List.{list_all};
ghost use Rattle.std.specs.Char.{is_ascii_digit, is_ascii_lowercase};
ghost use Rattle.vault_types.specs.Words as spec;

/// Whether a text may be a value: 1 to 20 digits and small letters.
pub(crate) fn is_value(text: &[u8]) -> bool
    ensures { result ≡ spec.is_value text.now }
{
    1 <= text.len() && text.len() <= 20 && are_digits_and_small_letters(text)
}

fn are_digits_and_small_letters(text: &[u8]) -> bool
    ensures { result ≡ list_all (λ b. is_ascii_digit b || is_ascii_lowercase b) text.now }
{
    text.iter()
        .all(|b| b.is_ascii_digit() || b.is_ascii_lowercase())
}

fn are_digits(text: &[u8]) -> bool
    ensures { result ≡ list_all is_ascii_digit text.now }
{
    text.iter().all(|b| b.is_ascii_digit())
}

// Whether a text has a first byte, and one that is no leading zero.
fn has_no_spare_zero(text: &[u8]) -> bool
    ensures { result
        ≡ (nat_lt 0 (length text.now) && (not (slice_index text.now 0 == 48) || length text.now == 1)) }
{
    !text.is_empty() && (text[0] != b'0' || text.len() == 1)
}

/// The number below 2^64 that a text is the decimal form of, without a sign and without a leading zero.
pub(crate) fn number(text: &[u8]) -> Option<u64>
    ensures { MatchOption result (spec.in_range 0 18446744073709551615 (spec.number text.now) ≡ false)
        (λ n. spec.number text.now ≡ Some n) }
{
    if !has_no_spare_zero(text) {
        return None;
    }
    if !are_digits(text) {
        return None;
    }
    let value = value_of_digits(text);
    if value > u128::from(u64::MAX) {
        return None;
    }
    Some(value as u64)
}

// The value of digits, or the greatest of the type.
fn value_of_digits(digits: &[u8]) -> u128
    ensures { result ≡ min (spec.value_of_digits digits.now) (2 ^ 128 - 1) }
{
    let mut value = 0_u128;
    for digit in digits {
        value = value
            .saturating_mul(10)
            .saturating_add(u128::from(digit.saturating_sub(b'0')));
    }
    value
}

/// Whether a text is the decimal form of a number in a range.
pub(crate) fn is_number_in(text: &[u8], low: u64, high: u64) -> bool
    ensures { result ≡ spec.in_range low high (spec.number text.now) }
{
    match number(text) {
        Some(n) => low <= n && n <= high,
        None => false,
    }
}

/// Whether a text is one of these.
pub(crate) fn is_one_of(texts: &[&[u8]], text: &[u8]) -> bool
    ensures { result ≡ spec.is_one_of (map (λ t. t.now) texts.now) text.now }
{
    for other in texts {
        if text == *other {
            return true;
        }
    }
    false
}
