//! The numbers of a command.

ghost use Rattle.std.specs.Prelude.{◌≡◌, ℕ, ◌≤◌, length, MatchOption};
ghost use Rattle.std.specs.List.{AllByRecursion};
ghost use Rattle.lg_script.specs.Commands.{IsDigit, IsNumber, written_number};

/// The most digits of a number.
const DIGITS: usize = 7;

/// The greatest number.
const GREATEST: u64 = 1_000_000;

/// The number from 1 to 1,000,000 that one to seven digits write. None where the bytes write none. No memory.
pub fn number_of(digits: &[u8]) -> Option<u64>
    ensures { MatchOption result ((n : ℕ) → IsNumber digits.now n → ⊥) (λ n. IsNumber digits.now n) }
{
    if digits.len() > DIGITS {
        return None;
    }
    match decimal(digits) {
        Some(n) if n >= 1 && n <= GREATEST => Some(n),
        _ => None,
    }
}

/// The number that at most ten digits write, from 0 where there are none. None where a byte is no digit. No memory.
pub fn decimal(digits: &[u8]) -> Option<u64>
    requires { length digits.now ≤ 10 }
    ensures { MatchOption result
        (AllByRecursion IsDigit digits.now → ⊥)
        (λ n. AllByRecursion IsDigit digits.now × (n ≡ written_number 0 digits.now)) }
{
    let mut value = 0;
    for b in digits {
        if !b.is_ascii_digit() {
            return None;
        }
        value = 10 * value + (*b - b'0') as u64;
    }
    Some(value)
}
