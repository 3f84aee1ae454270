//! Numbers and costs as they are printed.

ghost use Rattle.std.specs.Prelude.{◌≡◌, ◌↔◌, ℕ, ℤ, ◌∷◌, ◌+◌, ◌*◌, ◌^◌, ◌<◌, ◌≤◌, decimal, length, slice_index, IsTrue, MatchOption, IfSome};
ghost use Rattle.std.specs.Str.Parse.{AllDigits, digits_value};
ghost use Rattle.lg_base.specs.Costs.{IsWithinCosts, cost_text, thousandths_text, three_digits};
ghost use Rattle.lg_audit.specs.Pieces.{IsNumber, IsSmallNumber};

use crate::piece::behind;
use lg_base::Cost;

/// The number of 64 bits that is printed so: digits without a zero in front, or `0` alone.
pub(crate) fn number_of(text: &[u8]) -> Option<u64>
    ensures value { MatchOption result ((n : ℕ) → IsNumber n → text.now ≡ decimal n → ⊥) (λ n. text.now ≡ decimal n) }
    ensures bound { IfSome result IsNumber }
{
    if !begins_well(text) {
        return None;
    }
    digits_of(text)
}

// The number that digits write, if it has at most 64 bits.
fn digits_of(text: &[u8]) -> Option<u64>
    ensures value { MatchOption result
        (AllDigits 10 text.now → 2 ^ 64 ≤ digits_value 10 text.now)
        (λ n. AllDigits 10 text.now × (n ≡ digits_value 10 text.now)) }
    ensures bound { IfSome result IsNumber }
{
    let mut number = 0;
    for byte in text {
        if !byte.is_ascii_digit() {
            return None;
        }
        let Some(next) = with_digit(number, *byte - b'0') else {
            return None;
        };
        number = next;
    }
    Some(number)
}

// Whether there is a byte, and no zero with more bytes behind it.
fn begins_well(text: &[u8]) -> bool
    ensures { IsTrue result ↔ ((0 < length text.now) × (slice_index text.now 0 ≡ 48 → length text.now ≡ 1)) }
{
    !text.is_empty() && (text[0] != b'0' || text.len() == 1)
}

// The number with one more digit behind it, or none where it has more than 64 bits.
fn with_digit(number: u64, digit: u8) -> Option<u64>
    ensures { MatchOption result (2 ^ 64 ≤ number * 10 + digit) (λ next. next ≡ number * 10 + digit) }
{
    match number.checked_mul(10) {
        None => None,
        Some(tens) => tens.checked_add(u64::from(digit)),
    }
}

/// The number of 32 bits that is printed so.
pub(crate) fn small_number_of(text: &[u8]) -> Option<u32>
    ensures value { MatchOption result ((n : ℕ) → IsSmallNumber n → text.now ≡ decimal n → ⊥) (λ n. text.now ≡ decimal n) }
    ensures bound { IfSome result IsSmallNumber }
{
    match number_of(text) {
        Some(number) if number < 1 << 32 => Some(number as u32),
        _ => None,
    }
}

/// The cost that is printed so, at most 10^16 thousandths from zero.
pub(crate) fn cost_of(text: &[u8]) -> Option<Cost>
    ensures { MatchOption result ((z : ℤ) → IsWithinCosts z → text.now ≡ cost_text z → ⊥) (λ z. IsWithinCosts z × (text.now ≡ cost_text z)) }
{
    match behind(text, b"-") {
        None => match thousandths_of(text) {
            None => None,
            Some(size) => Some(Cost::of(size as i64)),
        },
        Some(digits) => match thousandths_of(digits) {
            Some(size) if size > 0 => Some(Cost::of(-(size as i64))),
            _ => None,
        },
    }
}

// The most thousandths of a cost.
const MOST: u64 = 10_000_000_000_000_000;

// The thousandths that are printed so, without a sign.
fn thousandths_of(text: &[u8]) -> Option<u64>
    ensures value { MatchOption result ((n : ℕ) → n ≤ 10 ^ 16 → text.now ≡ thousandths_text n → ⊥) (λ n. text.now ≡ thousandths_text n) }
    ensures bound { IfSome result (λ n. n ≤ 10 ^ 16) }
{
    let (whole, part) = text.split_at(text.len().saturating_sub(PART));
    let Some(whole) = number_of(whole) else {
        return None;
    };
    let Some(part) = part_of(part) else {
        return None;
    };
    if whole > MOST / 1000 {
        return None;
    }
    let size = whole * 1000 + part;
    if size > MOST {
        return None;
    }
    Some(size)
}

// The bytes of a point and three digits.
const PART: usize = 4;

// The thousandths that a point and three digits print.
fn part_of(text: &[u8]) -> Option<u64>
    ensures value { MatchOption result ((n : ℕ) → n < 1000 → text.now ≡ 46 ∷ three_digits n → ⊥) (λ n. text.now ≡ 46 ∷ three_digits n) }
    ensures bound { IfSome result (λ n. n < 1000) }
{
    if text.len() != PART || text[0] != b'.' {
        return None;
    }
    let Some(a) = digit_of(text[1]) else {
        return None;
    };
    let Some(b) = digit_of(text[2]) else {
        return None;
    };
    let Some(c) = digit_of(text[3]) else {
        return None;
    };
    Some(100 * a + 10 * b + c)
}

// The value of a digit.
fn digit_of(byte: u8) -> Option<u64>
    ensures { MatchOption result ((n : ℕ) → n < 10 → byte ≡ 48 + n → ⊥) (λ n. (n < 10) × (byte ≡ 48 + n)) }
{
    if byte.is_ascii_digit() {
        Some(u64::from(byte - b'0'))
    } else {
        None
    }
}
