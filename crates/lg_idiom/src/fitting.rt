//! Which compounds of the dictionary fit at a position of a sentence.
ghost use Rattle.std.specs.Prelude.{◌≡◌, ◌<◌, ◌≤◌, ◌++◌, true, filter, take, drop, length, IfOk};
ghost use Rattle.std.specs.List.{list_all};
ghost use Rattle.lg_token.specs.Words.{is_capitalized, lowered, AreWords};
ghost use Rattle.lg_idiom.specs.Idioms.{AreFitting};
ghost use Rattle.lg_idiom.specs.Steps.{is_wall, is_later, do_follow, does_go_on, IsBegun};

use lg_base::{NoMemory, Text, Texts};
use lg_dict::{View, parts};
use lg_gram::Token;
use std::alloc::Global;

/// The compounds that fit at a position, increasing by bytes: the place of one of them is its rank.
pub(crate) fn fitting(
    alloc: Global,
    view: &View,
    tokens: &[Token],
    start: usize,
) -> Result<Texts, NoMemory>
    requires { start < length tokens.now }
    ensures { IfOk result (AreFitting view.now tokens.now start) }
{
    let token = &tokens[start];
    if is_wall(token) {
        return Ok(Texts::of(Vec::new(alloc)));
    }
    let words = begun(alloc, view, is_initial(tokens, start), token.text.bytes())?;
    going_on(alloc, words, &tokens[start + 1..])
}

// Whether it has an empty span.
fn is_wall(token: &Token) -> bool
    ensures { result ≡ is_wall token.now }
{
    token.from == token.to
}

// Whether only walls stand before this position.
fn is_initial(tokens: &[Token], start: usize) -> bool
    requires { start ≤ length tokens.now }
    ensures { result ≡ list_all is_wall (take start tokens.now) }
{
    tokens[..start].iter().all(is_wall)
}

// The compounds that begin with the text, or, for the first token that is no wall, with the lowered text. The latter
// stand after the others, since they begin with a small letter.
fn begun(alloc: Global, view: &View, initial: bool, text: &[u8]) -> Result<Texts, NoMemory>
    ensures { IfOk result (AreWords (IsBegun view.now initial text.now)) }
{
    let words = view.compounds(alloc, text)?;
    if !initial || !is_capitalized(text) {
        return Ok(words);
    }
    let lowered = lowered(alloc, text)?;
    joined(words, view.compounds(alloc, &lowered)?)
}

// Whether the text begins with A to Z.
fn is_capitalized(text: &[u8]) -> bool
    ensures { result ≡ is_capitalized text.now }
{
    text.first().is_some_and(u8::is_ascii_uppercase)
}

// The text with its first letter, A to Z, lowered.
fn lowered(alloc: Global, text: &[u8]) -> Result<Vec<u8>, NoMemory>
    requires { is_capitalized text.now ≡ true }
    ensures { IfOk result (λ copy. copy.items ≡ lowered text.now) }
{
    let mut copy = text.to_vec(alloc)?;
    copy[0] += b'a' - b'A';
    Ok(copy)
}

fn joined(first: Texts, second: Texts) -> Result<Texts, NoMemory>
    ensures { IfOk result (λ texts. texts ≡ first ++ second) }
{
    let mut items = first.into_items();
    items.append(&mut second.into_items())?;
    Ok(Texts::of(items))
}

// Those of the words for whose later parts these tokens stand.
fn going_on(alloc: Global, words: Texts, tokens: &[Token]) -> Result<Texts, NoMemory>
    ensures { IfOk result (λ texts. texts ≡ filter (does_go_on tokens.now) words) }
{
    let mut kept = Vec::new(alloc);
    for word in words.items() {
        if does_go_on(alloc, word.bytes(), tokens)? {
            kept.push(Text::of(alloc, word.bytes())?)?;
        }
    }
    Ok(Texts::of(kept))
}

fn does_go_on(alloc: Global, word: &[u8], tokens: &[Token]) -> Result<bool, NoMemory>
    ensures { IfOk result (λ is. is ≡ does_go_on tokens.now word.now) }
{
    let parts = parts(alloc, word)?;
    Ok(later_follow(parts.items(), tokens))
}

// Whether the tokens stand for the parts after the first.
fn later_follow(parts: &[Text], tokens: &[Token]) -> bool
    ensures { result ≡ do_follow (drop 1 parts.now) tokens.now }
{
    match parts.split_first() {
        Some((_, later)) => do_follow(later, tokens),
        None => true,
    }
}

// Whether the tokens stand for the parts, one after another.
fn do_follow(parts: &[Text], tokens: &[Token]) -> bool
    ensures { result ≡ do_follow parts.now tokens.now }
{
    let mut rest = tokens;
    for part in parts {
        let Some((token, after)) = rest.split_first() else {
            return false;
        };
        if !is_later(part, token) {
            return false;
        }
        rest = after;
    }
    true
}

fn is_later(part: &Text, token: &Token) -> bool
    ensures { result ≡ is_later part.now token.now }
{
    !is_wall(token) && token.text == *part
}
