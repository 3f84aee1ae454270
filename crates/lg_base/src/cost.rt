//! Costs, which rank the linkages of a sentence.
ghost use Rattle.std.specs.Prelude.{◌≡◌, ◌+◌, ◌+ℤ◌, ◌++◌, [], ◌∷◌, ◌^◌, ◌<◌, ◌≤◌, ◌==◌, ℕ, List, OnOk, OnErr, IfOk, IfSome, unsigned_abs, position, length, drop, if◌then◌else◌};
ghost use Rattle.std.specs.Option.{SomeIff};
ghost use Rattle.std.specs.Str.Parse.{digits_value};
ghost use Rattle.lg_base.specs.Costs.{IsWithinCosts, cost_text, thousandths_text, sign_of, AreDigits, part_value, ReadsForm, ReadsSize, ReadsCost, read_cost, IsReadBack, HasOneCost, HasOneReading};

use crate::memory::NoMemory;
use crate::printing::write_bytes;
use itoa::write_digits;
use std::marker::Model;

/// A cost in thousandths, at most 10^16 of them from zero. Contracts see it as a signed number.
///
/// Square brackets in a dictionary put a cost on an expression, as in link-parser. Costs are signed throughout.
#[derive(Clone, Copy, Debug, PartialEq, Eq, PartialOrd, Ord)]
pub struct Cost(i64);

impl Model for Cost {
    ghost use Rattle.std.specs.Prelude.{ℤ};
    ghost use Rattle.lg_base.specs.Costs.{IsWithinCosts};

    ghost Value = { ℤ };

    ghost view = { λ c. c.0 };

    ghost inverse = { λ z. record { 0 = z } };

    ghost invariant = { λ c. IsWithinCosts c.0 };
}

impl Cost {
    /// The cost of so many thousandths.
    pub fn of(thousandths: i64) -> Cost
        requires { IsWithinCosts thousandths }
        ensures { result ≡ thousandths }
    {
        Cost(thousandths)
    }

    /// The sum of two costs.
    pub fn plus(self, other: Cost) -> Cost
        requires { IsWithinCosts (self +ℤ other) }
        ensures { result ≡ self +ℤ other }
    {
        Cost(self.0 + other.0)
    }

    /// How many thousandths.
    pub fn thousandths(self) -> i64
        ensures value { result ≡ self }
        ensures within { IsWithinCosts self }
    {
        self.0
    }
}

impl Cost {
    // Whether it is below zero.
    fn is_negative(self) -> bool
        ensures { sign_of self ≡ (if result then 45 ∷ [] else []) }
    {
        self.0 < 0
    }

    // How many thousandths from zero.
    fn size(self) -> u64
        ensures value { result ≡ unsigned_abs self }
        ensures within { result ≤ 10 ^ 16 }
    {
        self.0.unsigned_abs()
    }
}

/// Appends the printed cost: a `-` where it is below zero, the whole part, a point, and three digits.
pub fn write_cost(out: &mut Vec<u8>, cost: Cost) -> Result<(), NoMemory>
    ensures ok { OnOk result (out.new.items ≡ out.old.items ++ cost_text cost) }
    ensures err { OnErr result (out.new.items ≡ out.old.items) }
{
    let mut text = [0; PRINTED];
    let start = print(cost, &mut text);
    write_bytes(out, &text[start..])
}

// The most bytes of a printed cost: a sign, 14 digits, a point and three digits.
const PRINTED: usize = 19;

// Where the point of a printed cost stands.
const WHOLE: usize = 15;

// Writes the printed cost at the end of the bytes, and tells where it begins.
fn print(cost: Cost, text: &mut [u8; PRINTED]) -> usize
    ensures within { result ≤ 19 }
    ensures written { drop result text.new ≡ cost_text cost }
{
    let start = print_size(cost.size(), text);
    if !cost.is_negative() {
        return start;
    }
    text[start - 1] = b'-';
    start - 1
}

// The same of so many thousandths, with no sign; there is room for one.
fn print_size(size: u64, text: &mut [u8; PRINTED]) -> usize
    requires { size ≤ 10 ^ 16 }
    ensures room { 0 < result }
    ensures within { result ≤ 15 }
    ensures written { drop result text.new ≡ thousandths_text size }
{
    let part = size % 1000;
    text[WHOLE..].copy_from_slice(&[
        b'.',
        digit(part / 100),
        digit(part / 10 % 10),
        digit(part % 10),
    ]);
    write_digits(size / 1000, text, WHOLE)
}

// The digit of a number below ten.
fn digit(number: u64) -> u8
    requires { number < 10 }
    ensures { result ≡ 48 + number }
{
    b'0' + number as u8
}

// The most digits before the point, and after it.
const WHOLE_DIGITS: usize = 5;

const PART_DIGITS: usize = 3;

// The largest cost number without its sign, 10000.000.
const LARGEST: u32 = 10_000_000;

/// The cost that the bytes write, or `None` exactly where they are no cost number.
///
/// A cost number has an optional `-` in front, and then: one to five digits; or one to five digits, a point and one to
/// three digits; or a point and one to three digits. Without its sign it is at most 10000.000. The sign negates it, and
/// `-0` is 0.
pub fn parse_cost(bytes: &[u8]) -> Option<Cost>
    ensures reads { ReadsCost bytes.now result }
    ensures value { result ≡ read_cost bytes.now }
{
    match bytes.strip_prefix(b"-") {
        Some(unsigned) => {
            let size = parse_size(unsigned)?;
            Some(Cost::of(-i64::from(size)))
        }
        None => {
            let size = parse_size(bytes)?;
            Some(Cost::of(i64::from(size)))
        }
    }
}

/// What holds of cost numbers: a printed one is read back, the same bytes are never two of them, and reading has one
/// answer alone, that of a function.
pub fn cost_number_laws()
    ensures read_back { IsReadBack }
    ensures once { HasOneCost }
    ensures reads { (bytes : List ℕ) → ReadsCost bytes (read_cost bytes) }
    ensures one_reading { HasOneReading }
{}

// The thousandths of a cost number without a sign.
fn parse_size(bytes: &[u8]) -> Option<u32>
    ensures value { ReadsSize bytes.now result }
    ensures bound { IfSome result (λ size. size ≤ 10 ^ 7) }
{
    let size = parse_form(bytes)?;
    if size > LARGEST {
        return None;
    }
    Some(size)
}

// The thousandths that the bytes stand for in one of the three forms, which the place of the point tells apart.
fn parse_form(bytes: &[u8]) -> Option<u32>
    ensures { ReadsForm bytes.now result }
{
    match point(bytes) {
        None => {
            let whole = parse_digits(bytes, WHOLE_DIGITS)?;
            Some(1000 * whole)
        }
        Some(0) => parse_part(&bytes[1..]),
        Some(at) => {
            let whole = parse_digits(&bytes[..at], WHOLE_DIGITS)?;
            let part = parse_part(&bytes[at + 1..])?;
            Some(1000 * whole + part)
        }
    }
}

// Where the first point stands.
fn point(bytes: &[u8]) -> Option<usize>
    ensures { result ≡ position (λ byte. byte == 46) bytes.now }
{
    bytes.iter().position(|byte| *byte == b'.')
}

// The digits after a point, in thousandths.
fn parse_part(part: &[u8]) -> Option<u32>
    ensures value { SomeIff result (AreDigits 3 part.now) (part_value part.now) }
    ensures bound { IfSome result (λ value. value < 1000) }
{
    let digits = parse_digits(part, PART_DIGITS)?;
    let scale = match part.len() {
        1 => 100,
        2 => 10,
        _ => 1,
    };
    Some(digits * scale)
}

// One digit or more, at most so many.
fn parse_digits(bytes: &[u8], most: usize) -> Option<u32>
    requires { most ≤ 5 }
    ensures value { SomeIff result (AreDigits most bytes.now) (digits_value 10 bytes.now) }
    ensures bound { IfSome result (λ value. value < 10 ^ length bytes.now) }
{
    if bytes.is_empty() || bytes.len() > most {
        return None;
    }
    let mut value = 0;
    for byte in bytes {
        if !byte.is_ascii_digit() {
            return None;
        }
        value = value * 10 + u32::from(*byte - b'0');
    }
    Some(value)
}
