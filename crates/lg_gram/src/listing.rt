//! What a listing shows: the tokens of a sentence, and pages of its linkages.
ghost use Rattle.std.specs.Prelude.{◌≡◌};

use crate::linkage::Linkage;
use lg_base::{List, Text, Texts};

/// A token of a sentence: its bytes from `from` to `to`, as they stand there, and the dictionary words that it stands
/// for. A wall has an empty span.
#[derive(Clone, Debug, Drop)]
pub struct Token {
    pub from: u32,
    pub to: u32,
    pub text: Text,
    pub words: Texts,
}

/// A list of tokens.
pub type Tokens = List<Token>;

/// Why a sentence is not listed: it has so many tokens, or its words have so many choices.
#[derive(Clone, Copy, Debug, PartialEq, Eq)]
pub enum Bound {
    TooManyWords(u64),
    TooWide(u64),
}

/// The first rule that a linkage breaks, numbered from 1, and the positions of the least link at which it does.
#[derive(Clone, Copy, Debug, PartialEq, Eq)]
pub struct Violation {
    pub rule: u32,
    pub left: u32,
    pub right: u32,
}

/// A candidate that was looked at: its number, from 1, and the rule of post-processing that it breaks, if it breaks one.
#[derive(Debug, Drop)]
pub struct PageItem {
    pub number: u64,
    pub linkage: Linkage,
    pub broken: Option<Violation>,
}

/// A list of candidates that were looked at.
pub type PageItems = List<PageItem>;

/// A part of a listing: the candidates that were looked at, the number of the one after them, and whether there was
/// none after them.
#[derive(Debug, Drop)]
pub struct Page {
    pub items: PageItems,
    pub next: u64,
    pub end: bool,
}

/// The number of disjuncts of a sentence, before pruning and after it.
#[derive(Clone, Copy, Debug, PartialEq, Eq)]
pub struct Stats {
    pub disjuncts: u64,
    pub kept: u64,
}
