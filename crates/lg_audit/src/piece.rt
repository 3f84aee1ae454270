//! The pieces of a line.

ghost use Rattle.std.specs.Prelude.{◌≡◌, ◌≢◌, ℕ, ◌<◌, List, ◌∷◌, ◌++◌, All, length, slice_index, decimal, MatchOption, IfSome};
ghost use Rattle.lg_audit.specs.Pieces.{Lacks, HasNoBlank, IsNumber, IsSmallNumber};

use crate::numeral::{number_of, small_number_of};

/// What stands behind these bytes at the front.
pub(crate) fn behind<'a>(text: &'a [u8], front: &[u8]) -> Option<&'a [u8]>
    ensures { MatchOption result ((rest : List ℕ) → text.now ≡ front.now ++ rest → ⊥) (λ rest. text.now ≡ front.now ++ rest.now) }
{
    text.strip_prefix(front)
}

/// What stands before the first of these bytes, and behind it.
pub(crate) fn cut_at(text: &[u8], byte: u8) -> Option<(&[u8], &[u8])>
    ensures { MatchOption result
        (Lacks byte text.now)
        (λ cut. Lacks byte cut.0.now × (text.now ≡ cut.0.now ++ byte ∷ cut.1.now)) }
{
    match first_of(text, byte) {
        Some(at) => Some((&text[..at], &text[at + 1..])),
        None => None,
    }
}

/// The first piece of several, and what stands behind the blank after it.
pub(crate) fn first_piece(text: &[u8]) -> Option<(&[u8], &[u8])>
    ensures { MatchOption result
        (HasNoBlank text.now)
        (λ cut. HasNoBlank cut.0.now × (text.now ≡ cut.0.now ++ 32 ∷ cut.1.now)) }
{
    cut_at(text, b' ')
}

/// What stands before the blank in front of the last piece of several, and that piece.
pub(crate) fn last_piece(text: &[u8]) -> Option<(&[u8], &[u8])>
    ensures { MatchOption result
        (HasNoBlank text.now)
        (λ cut. HasNoBlank cut.1.now × (text.now ≡ cut.0.now ++ 32 ∷ cut.1.now)) }
{
    match last_blank(text) {
        Some(at) => Some((&text[..at], &text[at + 1..])),
        None => None,
    }
}

// Where the first of these bytes stands.
fn first_of(text: &[u8], byte: u8) -> Option<usize>
    ensures { MatchOption result
        (All (λ b. b ≢ byte) text.now)
        (λ at. (at < length text.now) × (slice_index text.now at ≡ byte) × ((k : ℕ) → k < at → slice_index text.now k ≢ byte)) }
{
    text.iter().position(|b| *b == byte)
}

// Where the last blank stands.
fn last_blank(text: &[u8]) -> Option<usize>
    ensures { MatchOption result
        (All (λ byte. byte ≢ 32) text.now)
        (λ at. (at < length text.now) × (slice_index text.now at ≡ 32) × ((k : ℕ) → at < k → k < length text.now → slice_index text.now k ≢ 32)) }
{
    text.iter().rposition(|byte| *byte == b' ')
}

/// The number of 64 bits that stands behind these bytes at the front, and what stands behind the blank after it.
pub(crate) fn named_number<'a>(text: &'a [u8], front: &[u8]) -> Option<(u64, &'a [u8])>
    ensures value { MatchOption result
        ((n : ℕ) (rest : List ℕ) → IsNumber n → text.now ≡ front.now ++ (decimal n ++ 32 ∷ rest) → ⊥)
        (λ r. text.now ≡ front.now ++ (decimal r.0 ++ 32 ∷ r.1.now)) }
    ensures bound { IfSome result (λ r. IsNumber r.0) }
{
    let Some(digits) = behind(text, front) else {
        return None;
    };
    let Some((piece, rest)) = first_piece(digits) else {
        return None;
    };
    let Some(number) = number_of(piece) else {
        return None;
    };
    Some((number, rest))
}

/// The same with a number of 32 bits.
pub(crate) fn named_small<'a>(text: &'a [u8], front: &[u8]) -> Option<(u32, &'a [u8])>
    ensures value { MatchOption result
        ((n : ℕ) (rest : List ℕ) → IsSmallNumber n → text.now ≡ front.now ++ (decimal n ++ 32 ∷ rest) → ⊥)
        (λ r. text.now ≡ front.now ++ (decimal r.0 ++ 32 ∷ r.1.now)) }
    ensures bound { IfSome result (λ r. IsSmallNumber r.0) }
{
    let Some(digits) = behind(text, front) else {
        return None;
    };
    let Some((piece, rest)) = first_piece(digits) else {
        return None;
    };
    let Some(number) = small_number_of(piece) else {
        return None;
    };
    Some((number, rest))
}
