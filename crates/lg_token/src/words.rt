//! The words of a token.
ghost use Rattle.std.specs.Prelude.{◌≡◌, ◌↔◌, ◌++◌, true, IsTrue, IfOk, OnOk};
ghost use Rattle.lg_token.specs.Words.{is_capitalized, lowered, IsKnown, IsNamed, IsSpecialWord, AreWords, AreTokenWords};
ghost use Rattle.lg_token.specs.Steps.{AreLists};

use crate::lists::{Named, words_of};
use crate::special::{first_special, is_capitalized};
use lg_base::{NoMemory, Texts};
use lg_dict::View;
use std::alloc::Global;

/// The words that a token stands for, increasing by bytes: those of its text, or, where there is none, those of the
/// first special word that applies to it and that the dictionary has. None is there where no special word is.
///
/// The initial token of a sentence also has the words of its text with the first letter lowered.
pub(crate) fn token_words<'a>(
    alloc: Global,
    view: &View,
    lists: &mut Vec<Named<'a>>,
    initial: bool,
    text: &'a [u8],
) -> Result<Texts, NoMemory>
    requires { AreLists view.now lists.old.items }
    ensures words { IfOk result (AreTokenWords view.now initial text.now) }
    ensures lists { OnOk result (AreLists view.now lists.new.items) }
{
    let words = named_words(alloc, view, lists, initial, text)?;
    if words.items().is_empty() {
        special_words(alloc, view, lists, text)
    } else {
        Ok(words)
    }
}

/// Whether the text has a word, also with its first letter lowered where it is the initial token. A text that is longer
/// than the longest word is not read.
pub(crate) fn is_known(
    alloc: Global,
    view: &View,
    initial: bool,
    text: &[u8],
) -> Result<bool, NoMemory>
    ensures { IfOk result (λ known. IsTrue known ↔ IsKnown view.now initial text.now) }
{
    if text.len() > view.longest() {
        return Ok(false);
    }
    if view.has(text) {
        return Ok(true);
    }
    if !initial || !is_capitalized(text) {
        return Ok(false);
    }
    let lowered = lowered(alloc, text)?;
    Ok(view.has(&lowered))
}

// The words of the text. Those of the lowered text stand after the others, since they begin with a small letter.
fn named_words<'a>(
    alloc: Global,
    view: &View,
    lists: &mut Vec<Named<'a>>,
    initial: bool,
    text: &'a [u8],
) -> Result<Texts, NoMemory>
    requires { AreLists view.now lists.old.items }
    ensures words { IfOk result (AreWords (IsNamed view.now initial text.now)) }
    ensures lists { OnOk result (AreLists view.now lists.new.items) }
{
    let words = words_of(alloc, view, lists, text)?;
    if !initial || !is_capitalized(text) {
        return Ok(words);
    }
    let lowered = lowered(alloc, text)?;
    joined(words, view.words_of(alloc, &lowered)?)
}

// The text with its first letter, A to Z, lowered.
fn lowered(alloc: Global, text: &[u8]) -> Result<Vec<u8>, NoMemory>
    requires { is_capitalized text.now ≡ true }
    ensures { IfOk result (λ copy. copy.items ≡ lowered text.now) }
{
    let mut copy = text.to_vec(alloc)?;
    copy[0] += b'a' - b'A';
    Ok(copy)
}

fn joined(first: Texts, second: Texts) -> Result<Texts, NoMemory>
    ensures { IfOk result (λ texts. texts ≡ first ++ second) }
{
    let mut items = first.into_items();
    items.append(&mut second.into_items())?;
    Ok(Texts::of(items))
}

fn special_words(
    alloc: Global,
    view: &View,
    lists: &mut Vec<Named<'_>>,
    text: &[u8],
) -> Result<Texts, NoMemory>
    requires { AreLists view.now lists.old.items }
    ensures words { IfOk result (AreWords (IsSpecialWord view.now text.now)) }
    ensures lists { OnOk result (AreLists view.now lists.new.items) }
{
    match first_special(view, text) {
        Some(special) => words_of(alloc, view, lists, special.word()),
        None => Ok(Texts::of(Vec::new(alloc))),
    }
}
