//! Which sentences are listed.
ghost use Rattle.std.specs.Prelude.{◌≡◌, ◌<◌, ◌≤◌, ◌^◌, length, min, IfOk, IfErr, OnOk};
ghost use Rattle.std.specs.List.{sum_by};
ghost use Rattle.lg_gram.specs.Limits.{FORMULA_CHOICES};
ghost use Rattle.lg_token.specs.Bounds.{CHOICES_COUNTED, word_choices, all_choices, bound_of, AreListed, IsBeyond};
ghost use Rattle.lg_token.specs.Places.{HaveChoices};
ghost use Rattle.lg_token.specs.Steps.{AreLists};

use crate::count::count_tokens;
use crate::law::tokens_are_one_list;
use crate::lists::Named;
use crate::place::{Place, tokens_at, words_at};
use crate::tokenizing::places_in;
use lg_base::{NoMemory, Text, Texts};
use lg_dict::View;
use lg_gram::problem::POSITIONS;
use lg_gram::{Bound, Token, Tokens};
use std::alloc::Global;

// The most choices of all words of a sentence that is listed.
const LISTED_CHOICES: u64 = 4_000_000;

// Where the count of choices stops.
const CHOICES_COUNTED: u64 = 1 << 60;

/// The tokens of a sentence that is listed, or else the bound that it passes. The tokens are counted first, so that words are
/// made only where there are at most 252; then the choices, so that each token has its own words only where those are few enough.
///
/// The text has fewer than 2^32 bytes.
pub fn listed_tokens(
    alloc: Global,
    view: &View,
    text: &str,
) -> Result<Result<Tokens, Bound>, NoMemory>
    requires { length text.now < 2 ^ 32 }
    ensures listed { IfOk result (λ found. IfOk found (AreListed view.now text.now)) }
    ensures beyond { IfOk result (λ found. IfErr found (IsBeyond view.now text.now)) }
{
    tokens_are_one_list();
    let count = count_tokens(alloc, view, text)?;
    if count > POSITIONS as u64 {
        return Ok(Err(Bound::TooManyWords(count)));
    }
    let places = places_in(alloc, view, text)?;
    let mut lists = Vec::new(alloc);
    let choices = choices_at(alloc, view, &mut lists, &places)?;
    if choices > LISTED_CHOICES {
        return Ok(Err(Bound::TooWide(choices)));
    }
    let tokens = tokens_at(alloc, view, &mut lists, &places)?;
    Ok(Ok(tokens))
}

// How many choices the words of the tokens at these places have. The words of one token at a time are made.
fn choices_at<'a>(
    alloc: Global,
    view: &View,
    lists: &mut Vec<Named<'a>>,
    places: &[Place<'a>],
) -> Result<u64, NoMemory>
    requires { AreLists view.now lists.old.items }
    ensures choices { IfOk result (HaveChoices view.now places.now) }
    ensures lists { OnOk result (AreLists view.now lists.new.items) }
{
    let mut sum = 0;
    for place in places {
        let words = words_at(alloc, view, lists, place.kind, place.text)?;
        sum = (sum + choices_of(view, &words)).min(CHOICES_COUNTED);
    }
    Ok(sum)
}

/// Why these tokens are not listed, if they are not: there are more than 252, or else their words have more than 4,000,000
/// choices together, whose counting stops at 2^60. No memory.
pub fn bound_of(view: &View, tokens: &[Token]) -> Option<Bound>
    ensures { result ≡ bound_of view.now tokens.now }
{
    if tokens.len() > POSITIONS {
        return Some(Bound::TooManyWords(tokens.len() as u64));
    }
    let choices = all_choices(view, tokens);
    if choices > LISTED_CHOICES {
        Some(Bound::TooWide(choices))
    } else {
        None
    }
}

fn all_choices(view: &View, tokens: &[Token]) -> u64
    ensures { result ≡ min (all_choices view.now tokens.now) CHOICES_COUNTED }
{
    let mut sum = 0;
    for token in tokens {
        sum = (sum + choices_of(view, &token.words)).min(CHOICES_COUNTED);
    }
    sum
}

// How many choices the words of a token have.
fn choices_of(view: &View, words: &Texts) -> u64
    ensures { result ≡ min (sum_by (word_choices view.now) words.now) CHOICES_COUNTED }
{
    let mut sum = 0;
    for word in words.items() {
        sum = (sum + word_choices(view, word)).min(CHOICES_COUNTED);
    }
    sum
}

// How many choices a word has; none where the dictionary does not have it.
fn word_choices(view: &View, word: &Text) -> u64
    ensures value { result ≡ word_choices view.now word.now }
    ensures few { result ≤ FORMULA_CHOICES }
{
    view.get(word.bytes())
        .map_or(0, |formula| formula.choices())
}
