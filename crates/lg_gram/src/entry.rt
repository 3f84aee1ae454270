//! Entries of a dictionary: as they are written, with macros still named, and as they are read, with macros put in.
ghost use Rattle.std.specs.Prelude.{◌≡◌, ◌+◌, Some, length, map, slice_get};
ghost use Rattle.std.specs.Option.{option_copied};
ghost use Rattle.std.specs.ControlFlow.{MatchControlFlow};
ghost use Rattle.lg_gram.specs.RawTrees.{raw_items, raw_tree_of, raw_trees_in, macros_of, macros_in};

use crate::connector::Connector;
use crate::formula::Formula;
use lg_base::{Cost, List, Text, Texts};
use std::ops::ControlFlow;

/// An entry that is read: its words and macros, the formula of all of them, the greatest number of brackets open at
/// once (a macro counting as one bracket round its own), and the line of its first token, from 1.
#[derive(Debug, Drop)]
pub struct Entry {
    pub words: Texts,
    pub macros: Texts,
    pub formula: Formula,
    pub level: u32,
    pub line: u32,
}

/// What an entry's item names: a word, a macro with its angle brackets, or a word file without its leading slash.
#[derive(Clone, Copy, Debug, PartialEq, Eq)]
pub enum ItemKind {
    Word,
    Macro,
    File,
}

/// What an entry defines.
#[derive(Clone, Debug, Drop, PartialEq, Eq)]
pub struct Item {
    pub kind: ItemKind,
    pub text: Text,
}

/// A list of items.
pub type Items = List<Item>;

/// An expression as it is written, in which macros are named.
#[cycle(raw)]
#[derive(Debug, Drop)]
pub enum RawExpr {
    /// `()`
    Empty,
    Conn(Connector),
    /// A macro's name with its angle brackets, and the number of brackets open there.
    Named(Text, u32),
    /// Members joined by `&`.
    And(RawExprs),
    /// Members joined by `or`.
    Or(RawExprs),
    /// An expression in square brackets, with their cost.
    Priced(Box<RawExpr>, Cost),
}

/// A list of expressions as they are written.
#[cycle(raw)]
#[derive(Debug, Drop)]
pub struct RawExprs {
    items: Vec<RawExpr>,
}

impl RawExprs {
    /// The list of these expressions.
    pub fn of(items: Vec<RawExpr>) -> RawExprs
        ensures { raw_items result ≡ items.items }
    {
        RawExprs { items }
    }

    /// The expressions.
    pub fn items(&self) -> &[RawExpr]
        ensures { result.now ≡ raw_items self.now }
    {
        self.items.as_slice()
    }

    /// The expressions, as a vector.
    pub fn into_items(self) -> Vec<RawExpr>
        ensures { result.items ≡ raw_items self }
    {
        let RawExprs { items } = self;
        items
    }
}

/// An entry as it is written: its items, its expression, the greatest number of brackets open at once, and the line of
/// its first token, from 1.
#[derive(Debug, Drop)]
pub struct RawEntry {
    pub items: Items,
    pub expr: RawExpr,
    pub level: u32,
    pub line: u32,
}

impl RawEntry {
    /// The name of the macro reference of that number, in reading order from 0. None past the last reference.
    pub fn macro_name(&self, index: u32) -> Option<&Text>
        ensures { option_copied result ≡ slice_get (map (λ m. m.0) (macros_of (raw_tree_of self.now.expr))) index }
    {
        reference(&self.expr, index).break_value()
    }
}

// The name of the reference of that number, or else the number less the references that there are.
#[cycle(reference)]
fn reference(e: &RawExpr, index: u32) -> ControlFlow<&Text, u32>
    ensures { let references = macros_of (raw_tree_of e.now) in
        MatchControlFlow result (λ left. left + length references ≡ index) (λ name. slice_get (map (λ m. m.0) references) index ≡ Some name.now) }
{
    match e {
        RawExpr::Empty => ControlFlow::Continue(index),
        RawExpr::Conn(_) => ControlFlow::Continue(index),
        RawExpr::Named(name, _) => {
            if index == 0 {
                ControlFlow::Break(name)
            } else {
                ControlFlow::Continue(index - 1)
            }
        }
        RawExpr::And(members) => reference_among(members, index),
        RawExpr::Or(members) => reference_among(members, index),
        RawExpr::Priced(inner, _) => reference(inner, index),
    }
}

#[cycle(reference)]
fn reference_among(members: &RawExprs, index: u32) -> ControlFlow<&Text, u32>
    ensures { let references = macros_in (raw_trees_in (raw_items members.now)) in
        MatchControlFlow result (λ left. left + length references ≡ index) (λ name. slice_get (map (λ m. m.0) references) index ≡ Some name.now) }
{
    let mut left = index;
    for member in members.items() {
        left = reference(member, left)?;
    }
    ControlFlow::Continue(left)
}
