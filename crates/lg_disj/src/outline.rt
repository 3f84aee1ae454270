//! The disjuncts of a word in outline.
ghost use Rattle.std.specs.Prelude.{◌≡◌, ◌<◌, [], cond, length, map, get_or, IfOk};
ghost use Rattle.std.specs.List.{All};
ghost use Rattle.lg_disj.specs.Lists.{AreLists, lists_in};
ghost use Rattle.lg_disj.specs.Outlines.{IsLineOf, disjuncts_in, lists_on, outline, outlined};

use crate::lists::Lists;
use lg_base::{Cost, NoMemory};
use lg_gram::{Connector, Connectors, Disjunct, Disjuncts, Word};
use std::alloc::Global;
use std::marker::Model;

/// A disjunct in outline: the numbers of its lists among those of its word, and what it costs.
#[derive(Clone, Copy, Debug)]
pub struct Line {
    pub left: usize,
    pub right: usize,
    pub cost: Cost,
}

impl Line {
    /// The number of its list on a side, `true` the right.
    pub fn side(&self, right: bool) -> usize
        ensures { result ≡ cond right self.now.right self.now.left }
    {
        if right { self.right } else { self.left }
    }
}

/// The disjuncts of a word in outline: the lists to the left and to the right that they have, and a line for each disjunct. No disjunct is
/// made. Each list is there once or more.
///
/// Contracts see `{ word, lefts, rights, lines }`, and the disjuncts as `disjuncts_in`.
#[derive(Debug, Drop)]
pub struct Outline {
    word: Word,
    lefts: Lists,
    rights: Lists,
    lines: Vec<Line>,
}

impl Model for Outline {
    ghost use Rattle.lg_disj.specs.Outlines.{Outlined, outline, IsOutline};
    ghost use Rattle.lg_disj.specs.Lists.{AreLists, lists_in};

    ghost Value = { Outlined };

    ghost view = { λ o. outline o.word o.lefts o.rights o.lines.items };

    ghost invariant = { λ o. IsOutline o.word o.lefts o.rights o.lines.items };
}

impl Outline {
    /// The outline of these.
    pub(crate) fn of(word: Word, lefts: Lists, rights: Lists, lines: Vec<Line>) -> Outline
        requires lefts { AreLists lefts }
        requires rights { AreLists rights }
        requires lines { All (IsLineOf (outline word lefts rights lines.items)) lines.items }
        ensures { result ≡ outline word lefts rights lines.items }
    {
        Outline {
            word,
            lefts,
            rights,
            lines,
        }
    }

    /// The word.
    pub fn word(&self) -> &Word
        ensures { result.now ≡ self.now.word }
    {
        &self.word
    }

    /// How many lists there are on a side, `true` the right.
    pub fn count(&self, right: bool) -> usize
        ensures { result ≡ length (lists_on right self.now) }
    {
        if right {
            self.rights.len()
        } else {
            self.lefts.len()
        }
    }

    /// The list of a number on a side, `true` the right, from near to far.
    pub fn list(&self, right: bool, number: usize) -> &[Connector]
        requires { number < length (lists_on right self.now) }
        ensures { result.now ≡ get_or (lists_on right self.now) number [] }
    {
        if right {
            self.rights.get(number)
        } else {
            self.lefts.get(number)
        }
    }

    /// A line for each disjunct, in order.
    pub fn lines(&self) -> &[Line]
        ensures value { result.now ≡ self.now.lines }
        ensures within { All (IsLineOf self.now) self.now.lines }
    {
        self.lines.as_slice()
    }

    /// The disjuncts, in the same order. They share the word and their lists. The only error is running out of memory.
    pub fn disjuncts(&self, alloc: Global) -> Result<Disjuncts, NoMemory>
        ensures { IfOk result (λ ds. ds ≡ disjuncts_in self.now) }
    {
        let lefts = made(alloc, &self.lefts)?;
        let rights = made(alloc, &self.rights)?;
        disjuncts_of(alloc, &self.word, &lefts, &rights, &self.lines)
    }
}

// The disjuncts of the lines.
fn disjuncts_of(
    alloc: Global,
    word: &Word,
    lefts: &[Connectors],
    rights: &[Connectors],
    lines: &[Line],
) -> Result<Disjuncts, NoMemory>
    requires { All (IsLineOf (outlined word.now lefts.now rights.now lines.now)) lines.now }
    ensures { IfOk result (λ ds. ds ≡ disjuncts_in (outlined word.now lefts.now rights.now lines.now)) }
{
    let mut disjuncts = Vec::with_capacity(alloc, lines.len())?;
    for line in lines {
        disjuncts.push(Disjunct {
            word: word.clone()?,
            left: lefts[line.left].clone()?,
            right: rights[line.right].clone()?,
            cost: line.cost,
        })?;
    }
    Ok(Disjuncts::of(disjuncts))
}

// The lists, each made once.
fn made(alloc: Global, lists: &Lists) -> Result<Vec<Connectors>, NoMemory>
    requires { AreLists lists.now }
    ensures { IfOk result (λ made. made.items ≡ lists_in lists.now) }
{
    let mut made = Vec::with_capacity(alloc, lists.len())?;
    for number in 0..lists.len() {
        let list = lists.get(number).to_vec(alloc)?;
        made.push(Connectors::of(alloc, list)?)?;
    }
    Ok(made)
}
