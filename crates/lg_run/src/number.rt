//! The numbers of made input, and of the edits of a version.
ghost use Rattle.std.specs.Prelude.{◌≤◌, ℕ, MatchOption};
ghost use Rattle.lg_run.specs.Words.{WritesNumber, IsSeed, IsMadeCount, IsEditCount};

use lg_script::decimal;

/// The seed that the text writes: up to ten digits that write a number below 2^32. None where it writes none.
pub(crate) fn seed_of(text: &str) -> Option<u32>
    ensures { MatchOption result ((n : ℕ) → IsSeed text.now n → ⊥) (λ n. IsSeed text.now n) }
{
    let seed = written(text.as_bytes(), 10)?;
    if seed > u64::from(u32::MAX) {
        return None;
    }
    Some(seed as u32)
}

/// How many words or sentences the text asks for: up to six digits that write a number from 1 to 100,000. None where it asks for none.
pub(crate) fn made_count_of(text: &str) -> Option<u32>
    ensures { MatchOption result ((n : ℕ) → IsMadeCount text.now n → ⊥) (λ n. IsMadeCount text.now n) }
{
    let count = written(text.as_bytes(), 6)?;
    if count < 1 || count > 100_000 {
        return None;
    }
    Some(count as u32)
}

/// How many edits the text asks for: up to six digits that write a number up to 100,000. None where it asks for none.
pub(crate) fn edit_count_of(text: &str) -> Option<u32>
    ensures { MatchOption result ((n : ℕ) → IsEditCount text.now n → ⊥) (λ n. IsEditCount text.now n) }
{
    let count = written(text.as_bytes(), 6)?;
    if count > 100_000 {
        return None;
    }
    Some(count as u32)
}

// The number that the digits write, where there is at least one and they are no more than this.
fn written(digits: &[u8], most: usize) -> Option<u64>
    requires { most ≤ 10 }
    ensures { MatchOption result ((n : ℕ) → WritesNumber most digits.now n → ⊥) (λ n. WritesNumber most digits.now n) }
{
    if digits.is_empty() || digits.len() > most {
        return None;
    }
    decimal(digits)
}
