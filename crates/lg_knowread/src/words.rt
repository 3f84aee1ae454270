//! What the plain tokens of a knowledge text write: names of sections, kinds of domains and patterns.

ghost use Rattle.std.specs.Prelude.{◌≡◌};
ghost use Rattle.lg_knowread.specs.Words.{section_of, kind_of, pattern_of};
ghost use Rattle.lg_knowread.specs.View.{Gives};

use crate::fault::{Fault, Refusal};
use crate::knowledge::Pattern;
use lg_base::Text;
use lg_gram::{Label, capitals};
use std::alloc::Global;

/// A rule that looks for other links where one matches its trigger.
#[derive(Clone, Copy, Debug, PartialEq, Eq)]
pub(crate) enum Test {
    NoneOf,
    OneOf,
    NoneInGroup,
    OneInGroup,
}

/// What a statement is, by the name that it begins with.
#[derive(Clone, Copy, Debug, PartialEq, Eq)]
pub(crate) enum Section {
    Start,
    Ignore,
    Test(Test),
    Bounded,
    Cycle,
}

/// The section of this name.
pub(crate) fn section_of(word: &[u8]) -> Result<Section, Fault>
    ensures { result ≡ section_of word.now }
{
    if word == b"start".as_slice() {
        Ok(Section::Start)
    } else if word == b"ignore".as_slice() {
        Ok(Section::Ignore)
    } else if word == b"none".as_slice() {
        Ok(Section::Test(Test::NoneOf))
    } else if word == b"one".as_slice() {
        Ok(Section::Test(Test::OneOf))
    } else if word == b"none-in-group".as_slice() {
        Ok(Section::Test(Test::NoneInGroup))
    } else if word == b"one-in-group".as_slice() {
        Ok(Section::Test(Test::OneInGroup))
    } else if word == b"bounded".as_slice() {
        Ok(Section::Bounded)
    } else if word == b"cycle".as_slice() {
        Ok(Section::Cycle)
    } else {
        Err(Fault::UnknownSection)
    }
}

/// The kind of domain that a word writes: a letter from a to z.
pub(crate) fn kind_of(word: &[u8]) -> Result<u8, Fault>
    ensures { result ≡ kind_of word.now }
{
    match word {
        [kind] if kind.is_ascii_lowercase() => Ok(*kind),
        _ => Err(Fault::BadType),
    }
}

/// The pattern that a word writes: capital letters as far as they go, and then subscripts.
pub(crate) fn pattern_of(alloc: Global, word: &[u8]) -> Result<Pattern, Refusal>
    ensures { Gives result (pattern_of word.now) }
{
    let capitals = capitals(word);
    let caps = &word[..capitals];
    let subs = &word[capitals..];
    match Label::of(caps, subs) {
        Some(_) => Ok(Pattern {
            caps: Text::of(alloc, caps)?,
            subs: Text::of(alloc, subs)?,
        }),
        None => Err(Refusal::Fault(Fault::BadPattern)),
    }
}
