//! The first lines of answers, and the lines of the journal, read back.

ghost use Rattle.std.specs.Prelude.{◌≡◌, ◌↔◌, ℕ, List, ◌∷◌, ◌++◌, codes, decimal, IsTrue, MatchOption};
ghost use Rattle.lg_gram.specs.declared.listing.Bound.{Bound as SeenBound};
ghost use Rattle.lg_gram.specs.declared.reply.Place.{Place as SeenPlace};
ghost use Rattle.lg_text.specs.Replies.{kind_word, place_text};
ghost use Rattle.lg_text.specs.Shown.{IsOneLine, IsPlace};
ghost use Rattle.lg_text.specs.Texts.{bound_pieces};
ghost use Rattle.lg_audit.specs.Pieces.{IsNumber, IsSmallNumber};
ghost use Rattle.lg_audit.specs.Lines.{line as joined};
ghost use Rattle.lg_audit.specs.Documents.{edit_line, IsBoundInForm, IsCause};

use crate::numeral::{number_of, small_number_of};
use crate::piece::{behind, cut_at, first_piece, named_number};
use lg_gram::{Bound, CommandKind, Place};

/// A place: the number of a session, a point, and the number of a command.
pub(crate) fn place_of(text: &[u8]) -> Option<Place>
    ensures { MatchOption result
        ((p : SeenPlace) → IsPlace p → text.now ≡ place_text p → ⊥)
        (λ p. IsPlace p × (text.now ≡ place_text p)) }
{
    let Some((first, last)) = cut_at(text, b'.') else {
        return None;
    };
    let Some(session) = small_number_of(first) else {
        return None;
    };
    let Some(command) = small_number_of(last) else {
        return None;
    };
    Some(Place { session, command })
}

/// An edit of the journal: its number and its place.
pub(crate) fn edit(line: &[u8]) -> Option<(u64, Place)>
    ensures { MatchOption result
        ((n : ℕ) (p : SeenPlace) → IsNumber n → IsPlace p → line.now ≡ edit_line (n, p) → ⊥)
        (λ e. IsNumber e.0 × IsPlace e.1 × (line.now ≡ edit_line (e.0, e.1))) }
{
    let Some((number, last)) = named_number(line, b"edit ") else {
        return None;
    };
    let Some(place) = place_of(last) else {
        return None;
    };
    Some((number, place))
}

/// What the first line of the answer to the command of this place and kind tells behind them.
pub(crate) fn told(line: &[u8], session: u64, command: u64, kind: CommandKind) -> Option<&[u8]>
    ensures { MatchOption result
        ((rest : List ℕ) → line.now ≡ place_text (record { session = session; command = command }) ++ 32 ∷ (kind_word kind ++ 32 ∷ rest) → ⊥)
        (λ rest. line.now ≡ place_text (record { session = session; command = command }) ++ 32 ∷ (kind_word kind ++ 32 ∷ rest.now)) }
{
    let Some(rest) = behind_place(line, session, command) else {
        return None;
    };
    let Some((word, tells)) = first_piece(rest) else {
        return None;
    };
    if word != word_of(kind) {
        return None;
    }
    Some(tells)
}

// What stands behind this place and a blank.
fn behind_place(line: &[u8], session: u64, command: u64) -> Option<&[u8]>
    ensures { MatchOption result
        ((rest : List ℕ) → line.now ≡ place_text (record { session = session; command = command }) ++ 32 ∷ rest → ⊥)
        (λ rest. line.now ≡ place_text (record { session = session; command = command }) ++ 32 ∷ rest.now) }
{
    let Some((first, rest)) = cut_at(line, b'.') else {
        return None;
    };
    if !is_number(first, session) {
        return None;
    }
    let Some((second, last)) = first_piece(rest) else {
        return None;
    };
    if !is_number(second, command) {
        return None;
    }
    Some(last)
}

// Whether this number is printed so.
fn is_number(text: &[u8], number: u64) -> bool
    ensures { IsTrue result ↔ (text.now ≡ decimal number) }
{
    match number_of(text) {
        Some(found) => found == number,
        None => false,
    }
}

// The word of a command.
fn word_of(kind: CommandKind) -> &'static [u8]
    ensures { result.now ≡ kind_word kind }
{
    match kind {
        CommandKind::Parse => b"parse",
        CommandKind::List => b"list",
        CommandKind::More => b"more",
        CommandKind::Set => b"set",
        CommandKind::Macro => b"macro",
        CommandKind::Del => b"del",
        CommandKind::Version => b"version",
    }
}

/// A version that is told with nothing behind it.
pub(crate) fn version(told: &[u8]) -> Option<u64>
    ensures { MatchOption result
        ((v : ℕ) → IsNumber v → told.now ≡ codes "version " ++ decimal v → ⊥)
        (λ v. IsNumber v × (told.now ≡ codes "version " ++ decimal v)) }
{
    count(told, b"version ")
}

/// A version, and the bound that the sentence passes.
pub(crate) fn bound(told: &[u8]) -> Option<(u64, Bound)>
    ensures { MatchOption result
        ((v : ℕ) (bound : SeenBound) → IsNumber v → IsBoundInForm bound → told.now ≡ codes "version " ++ (decimal v ++ 32 ∷ joined (bound_pieces bound)) → ⊥)
        (λ r. IsNumber r.0 × IsBoundInForm r.1 × (told.now ≡ codes "version " ++ (decimal r.0 ++ 32 ∷ joined (bound_pieces r.1)))) }
{
    let Some((version, last)) = named_number(told, b"version ") else {
        return None;
    };
    let Some(bound) = bound_of(last) else {
        return None;
    };
    Some((version, bound))
}

// A bound.
fn bound_of(text: &[u8]) -> Option<Bound>
    ensures { MatchOption result
        ((bound : SeenBound) → IsBoundInForm bound → text.now ≡ joined (bound_pieces bound) → ⊥)
        (λ bound. IsBoundInForm bound × (text.now ≡ joined (bound_pieces bound))) }
{
    if let Some(words) = behind(text, b"too many words ") {
        let Some(count) = number_of(words) else {
            return None;
        };
        return Some(Bound::TooManyWords(count));
    }
    let Some(choices) = behind(text, b"too many choices ") else {
        return None;
    };
    let Some(count) = number_of(choices) else {
        return None;
    };
    Some(Bound::TooWide(count))
}

/// The version that refused an edit, and the cause as it is printed.
pub(crate) fn refusal(told: &[u8]) -> Option<(u64, &[u8])>
    requires { IsOneLine told.now }
    ensures { MatchOption result
        ((v : ℕ) (cause : List ℕ) → IsNumber v → IsCause cause → told.now ≡ codes "refused at " ++ (decimal v ++ 58 ∷ 32 ∷ cause) → ⊥)
        (λ r. IsNumber r.0 × IsCause r.1.now × (told.now ≡ codes "refused at " ++ (decimal r.0 ++ 58 ∷ 32 ∷ r.1.now))) }
{
    let Some(after) = behind(told, b"refused at ") else {
        return None;
    };
    let Some((piece, last)) = cut_at(after, b':') else {
        return None;
    };
    let Some(version) = number_of(piece) else {
        return None;
    };
    let Some(cause) = behind(last, b" ") else {
        return None;
    };
    if !is_cause(cause) {
        return None;
    }
    Some((version, cause))
}

// Whether the text is a cause for which an edit is refused.
fn is_cause(text: &[u8]) -> bool
    requires { IsOneLine text.now }
    ensures { IsTrue result ↔ IsCause text.now }
{
    if let Some(_name) = behind(text, b"unknown macro ") {
        return true;
    }
    if let Some(_level) = small_count(text, b"too deep ") {
        return true;
    }
    if let Some(_nodes) = count(text, b"too many nodes ") {
        return true;
    }
    if let Some(_choices) = count(text, b"too many choices ") {
        return true;
    }
    if let Some(_connectors) = small_count(text, b"too many connectors on a side ") {
        return true;
    }
    text == b"no such word".as_slice()
}

// The number of 64 bits that stands alone behind these bytes at the front.
pub(crate) fn count(text: &[u8], front: &[u8]) -> Option<u64>
    ensures { MatchOption result
        ((n : ℕ) → IsNumber n → text.now ≡ front.now ++ decimal n → ⊥)
        (λ n. IsNumber n × (text.now ≡ front.now ++ decimal n)) }
{
    let Some(number) = behind(text, front) else {
        return None;
    };
    number_of(number)
}

// The same with a number of 32 bits.
pub(crate) fn small_count(text: &[u8], front: &[u8]) -> Option<u32>
    ensures { MatchOption result
        ((n : ℕ) → IsSmallNumber n → text.now ≡ front.now ++ decimal n → ⊥)
        (λ n. IsSmallNumber n × (text.now ≡ front.now ++ decimal n)) }
{
    let Some(number) = behind(text, front) else {
        return None;
    };
    small_number_of(number)
}

/// How many edits the first line of the journal tells.
pub(crate) fn journal_count(line: &[u8]) -> Option<u64>
    ensures { MatchOption result
        ((n : ℕ) → IsNumber n → line.now ≡ codes "journal " ++ decimal n → ⊥)
        (λ n. IsNumber n × (line.now ≡ codes "journal " ++ decimal n)) }
{
    count(line, b"journal ")
}
