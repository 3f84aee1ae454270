//! What a `list` asks for.

ghost use Rattle.std.specs.Prelude.{ℕ, List, MatchOption};
ghost use Rattle.lg_script.specs.Commands.{IsListing};
ghost use Rattle.lg_script.specs.Parts.{EndsInner};

use crate::line::{first_word, skip_blanks};
use crate::number::number_of;

/// A part of the listing of a sentence.
#[derive(Clone, Copy, Debug, PartialEq, Eq)]
pub(crate) struct Listing<'a> {
    pub from: u64,
    pub want: u64,
    pub sentence: &'a [u8],
}

/// Two numbers and a sentence.
pub(crate) fn listing_of(rest: &[u8]) -> Option<Listing<'_>>
    requires { EndsInner rest.now }
    ensures { MatchOption result
        ((from want : ℕ) (sentence : List ℕ) → IsListing rest.now from want sentence → ⊥)
        (λ l. IsListing rest.now l.from l.want l.sentence.now) }
{
    let (first, behind) = first_word(rest);
    let (second, end) = first_word(skip_blanks(behind));
    let sentence = skip_blanks(end);
    match number_of(first) {
        None => None,
        Some(from) => match number_of(second) {
            None => None,
            Some(want) => Some(Listing {
                from,
                want,
                sentence,
            }),
        },
    }
}
