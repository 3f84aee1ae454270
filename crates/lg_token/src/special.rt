//! Special words: what stands for a token that the dictionary does not have, as `NUMBERS` for `3.5`.
ghost use Rattle.std.specs.Prelude.{◌≡◌, ◌≢◌, ◌↔◌, ◌<◌, ℕ, All, length, slice_index, IsTrue, MatchOption};
ghost use Rattle.std.specs.List.{list_all};
ghost use Rattle.lg_token.specs.Words.{is_capitalized, is_in_number, BeginsWithDigit, EndsWithDigit, IsNumber, IsHyphenated, special_word, Applies, MayStand, IsFirstSpecial};
ghost use Rattle.lg_token.specs.declared.special.Special.{Special as Kind};

use lg_dict::View;

/// The special words, after link-parser, in the order in which they are tried.
#[derive(Clone, Copy, Debug, PartialEq, Eq)]
pub enum Special {
    Numbers,
    Capitalized,
    Hyphenated,
    Unknown,
}

impl Special {
    /// The word, without a subscript.
    pub fn word(self) -> &'static [u8]
        ensures { result.now ≡ special_word self }
    {
        match self {
            Special::Numbers => b"NUMBERS",
            Special::Capitalized => b"CAPITALIZED-WORDS",
            Special::Hyphenated => b"HYPHENATED-WORDS",
            Special::Unknown => b"UNKNOWN-WORD",
        }
    }

    /// Whether the word may stand for a text, where the dictionary has it.
    pub fn applies(self, text: &[u8]) -> bool
        ensures { IsTrue result ↔ Applies self text.now }
    {
        match self {
            Special::Numbers => is_number(text),
            Special::Capitalized => is_capitalized(text),
            Special::Hyphenated => is_hyphenated(text),
            Special::Unknown => true,
        }
    }
}

const SPECIALS: [Special; 4] = [
    Special::Numbers,
    Special::Capitalized,
    Special::Hyphenated,
    Special::Unknown,
];

/// The first special word that applies to the text and that the dictionary has, with any subscript. No memory.
pub fn first_special(view: &View, text: &[u8]) -> Option<Special>
    ensures { MatchOption result ((special : Kind) → MayStand view.now text.now special → ⊥) (IsFirstSpecial view.now text.now) }
{
    SPECIALS
        .iter()
        .copied()
        .find(|special| may_stand(view, text, *special))
}

// Whether a special word applies to the text and the dictionary has it.
fn may_stand(view: &View, text: &[u8], special: Special) -> bool
    ensures { IsTrue result ↔ MayStand view.now text.now special }
{
    special.applies(text) && view.has(special.word())
}

/// Whether the text begins with A to Z.
pub(crate) fn is_capitalized(text: &[u8]) -> bool
    ensures { result ≡ is_capitalized text.now }
{
    text.first().is_some_and(u8::is_ascii_uppercase)
}

// Whether the text begins and ends with a digit and has only digits, `.` and `,`.
fn is_number(text: &[u8]) -> bool
    ensures { IsTrue result ↔ IsNumber text.now }
{
    begins_with_digit(text) && ends_with_digit(text) && is_all_in_number(text)
}

fn begins_with_digit(text: &[u8]) -> bool
    ensures { IsTrue result ↔ BeginsWithDigit text.now }
{
    text.first().is_some_and(u8::is_ascii_digit)
}

fn ends_with_digit(text: &[u8]) -> bool
    ensures { IsTrue result ↔ EndsWithDigit text.now }
{
    text.last().is_some_and(u8::is_ascii_digit)
}

fn is_all_in_number(text: &[u8]) -> bool
    ensures { result ≡ list_all is_in_number text.now }
{
    text.iter().all(|byte| is_in_number(*byte))
}

fn is_in_number(byte: u8) -> bool
    ensures { result ≡ is_in_number byte }
{
    byte.is_ascii_digit() || byte == b'.' || byte == b','
}

// Whether the text has a `-` somewhere between two bytes other than `-`.
fn is_hyphenated(text: &[u8]) -> bool
    ensures { IsTrue result ↔ IsHyphenated text.now }
{
    let Some(first) = first_other(text) else {
        return false;
    };
    let Some(last) = last_other(text) else {
        return false;
    };
    first < last && text[first..last].contains(&b'-')
}

// Where the first byte other than `-` stands.
fn first_other(text: &[u8]) -> Option<usize>
    ensures { MatchOption result (All (λ byte. byte ≡ 45) text.now) (λ at. (at < length text.now) × (slice_index text.now at ≢ 45) × ((k : ℕ) → k < at → slice_index text.now k ≡ 45)) }
{
    text.iter().position(|byte| *byte != b'-')
}

// Where the last byte other than `-` stands.
fn last_other(text: &[u8]) -> Option<usize>
    ensures { MatchOption result (All (λ byte. byte ≡ 45) text.now) (λ at. (at < length text.now) × (slice_index text.now at ≢ 45) × ((k : ℕ) → at < k → k < length text.now → slice_index text.now k ≡ 45)) }
{
    text.iter().rposition(|byte| *byte != b'-')
}
