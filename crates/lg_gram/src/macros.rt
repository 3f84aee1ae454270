//! Macros put into expressions.
ghost use Rattle.std.specs.Prelude.{◌≡◌, ◌+◌, ◌<◌, ◌^◌, ◌-◌, min, true, false, length, map, IfOk, IfSome, MatchOption, Some, None};
ghost use Rattle.std.specs.List.{position};
ghost use Rattle.std.specs.Option.{option_map};
ghost use Rattle.lg_gram.specs.Limits.{COUNTED, SIDE_COUNTED, REFERENCES_COUNTED, LEVEL_COUNTED};
ghost use Rattle.lg_gram.specs.Trees.{tree_of, trees_in, expr_items};
ghost use Rattle.lg_gram.specs.Measures.{node_count, nodes_in, choice_count, product_in, choices_in, side_count, side_in, longest_in};
ghost use Rattle.lg_gram.specs.RawTrees.{raw_tree_of, raw_trees_in, raw_items, macros_of, macros_in};
ghost use Rattle.lg_gram.specs.Filled.{filled, filled_in, put_in, macro_names, is_unknown, FirstUnknown, level_within, level_reached, highest, filled_level};

use crate::entry::{RawExpr, RawExprs};
use crate::expr::{Expr, Exprs};
use crate::formula::Formula;
use crate::sizes::Sizes;
use lg_base::{NoMemory, Text};
use std::alloc::Global;
use std::ops::ControlFlow;

/// How many brackets may be open at once, a macro counting as one round its own.
pub const LEVEL: u32 = 200;

/// What macros stand for.
pub trait Macros {
    ghost use Rattle.std.specs.Prelude.{List, ℕ, Option, IfSome, MatchOption, Some, None, ◌≡◌};
    ghost use Rattle.lg_gram.specs.Trees.{Tree, tree_of};
    ghost use Rattle.lg_gram.specs.Formulas.{IsFormula};

    ghost formulas: { Self → List ℕ → Option (Tree × ℕ) };

    /// The formula of the macro of that name, with its angle brackets, and the greatest number of brackets open in it
    /// at once. None where the macro is not known.
    fn named(&self, name: &[u8]) -> Option<(&Formula, u32)>
        ensures value { MatchOption result (formulas self.now name.now ≡ None) (λ m. formulas self.now name.now ≡ Some (tree_of m.0.now, m.1)) }
        ensures limits { IfSome result (λ m. IsFormula (tree_of m.0.now)) };
}

/// The measures of an expression with its macros put in, in one pass over the expression as it is written: a reference to
/// a macro takes no longer than its look-up.
#[cycle(filled_sizes)]
pub fn filled_sizes<M: Macros>(raw: &RawExpr, macros: &M) -> Sizes
    ensures nodes { result.nodes ≡ min (node_count (filled (M.formulas macros.now) (raw_tree_of raw.now))) COUNTED }
    ensures choices { result.choices ≡ min (choice_count (filled (M.formulas macros.now) (raw_tree_of raw.now))) COUNTED }
    ensures left { result.left ≡ min (side_count false (filled (M.formulas macros.now) (raw_tree_of raw.now))) SIDE_COUNTED }
    ensures right { result.right ≡ min (side_count true (filled (M.formulas macros.now) (raw_tree_of raw.now))) SIDE_COUNTED }
{
    match raw {
        RawExpr::Empty => Sizes::of_all(),
        RawExpr::Conn(c) => Sizes::of_leaf(c),
        RawExpr::Named(name, _) => macro_sizes(name, macros),
        RawExpr::And(members) => sizes_of_all(members, macros),
        RawExpr::Or(members) => sizes_of_any(members, macros),
        RawExpr::Priced(inner, _) => filled_sizes(inner, macros).priced(),
    }
}

#[cycle(filled_sizes)]
fn sizes_of_all<M: Macros>(members: &RawExprs, macros: &M) -> Sizes
    ensures nodes { result.nodes ≡ min (1 + nodes_in (filled_in (M.formulas macros.now) (raw_trees_in (raw_items members.now)))) COUNTED }
    ensures choices { result.choices ≡ min (product_in (filled_in (M.formulas macros.now) (raw_trees_in (raw_items members.now)))) COUNTED }
    ensures left { result.left ≡ min (side_in false (filled_in (M.formulas macros.now) (raw_trees_in (raw_items members.now)))) SIDE_COUNTED }
    ensures right { result.right ≡ min (side_in true (filled_in (M.formulas macros.now) (raw_trees_in (raw_items members.now)))) SIDE_COUNTED }
{
    let mut sizes = Sizes::of_all();
    for member in members.items() {
        sizes = sizes.and(filled_sizes(member, macros));
    }
    sizes
}

#[cycle(filled_sizes)]
fn sizes_of_any<M: Macros>(members: &RawExprs, macros: &M) -> Sizes
    ensures nodes { result.nodes ≡ min (1 + nodes_in (filled_in (M.formulas macros.now) (raw_trees_in (raw_items members.now)))) COUNTED }
    ensures choices { result.choices ≡ min (choices_in (filled_in (M.formulas macros.now) (raw_trees_in (raw_items members.now)))) COUNTED }
    ensures left { result.left ≡ min (longest_in false (filled_in (M.formulas macros.now) (raw_trees_in (raw_items members.now)))) SIDE_COUNTED }
    ensures right { result.right ≡ min (longest_in true (filled_in (M.formulas macros.now) (raw_trees_in (raw_items members.now)))) SIDE_COUNTED }
{
    let mut sizes = Sizes::of_any();
    for member in members.items() {
        sizes = sizes.or(filled_sizes(member, macros));
    }
    sizes
}

fn macro_sizes<M: Macros>(name: &Text, macros: &M) -> Sizes
    ensures nodes { result.nodes ≡ min (node_count (put_in (M.formulas macros.now name.now))) COUNTED }
    ensures choices { result.choices ≡ min (choice_count (put_in (M.formulas macros.now name.now))) COUNTED }
    ensures left { result.left ≡ min (side_count false (put_in (M.formulas macros.now name.now))) SIDE_COUNTED }
    ensures right { result.right ≡ min (side_count true (put_in (M.formulas macros.now name.now))) SIDE_COUNTED }
{
    match macros.named(name.bytes()) {
        None => Sizes::of_all(),
        Some((formula, _)) => formula.sizes(),
    }
}

/// The expression with its macros put in. A macro that is not known becomes `()`.
#[cycle(fill)]
pub fn fill<M: Macros>(alloc: Global, raw: &RawExpr, macros: &M) -> Result<Expr, NoMemory>
    ensures { IfOk result (λ e. tree_of e ≡ filled (M.formulas macros.now) (raw_tree_of raw.now)) }
{
    match raw {
        RawExpr::Empty => Ok(Expr::Empty),
        RawExpr::Conn(c) => Ok(Expr::Conn(*c)),
        RawExpr::Named(name, _) => macro_copied(alloc, name, macros),
        RawExpr::And(members) => Ok(Expr::And(fill_members(alloc, members, macros)?)),
        RawExpr::Or(members) => Ok(Expr::Or(fill_members(alloc, members, macros)?)),
        RawExpr::Priced(inner, cost) => {
            let inside = fill(alloc, inner, macros)?;
            Ok(Expr::Priced(Box::new(alloc, inside)?, *cost))
        }
    }
}

#[cycle(fill)]
fn fill_members<M: Macros>(alloc: Global, members: &RawExprs, macros: &M) -> Result<Exprs, NoMemory>
    ensures { IfOk result (λ es. trees_in (expr_items es) ≡ filled_in (M.formulas macros.now) (raw_trees_in (raw_items members.now))) }
{
    let mut exprs = Vec::with_capacity(alloc, members.items().len())?;
    for member in members.items() {
        exprs.push(fill(alloc, member, macros)?)?;
    }
    Ok(Exprs::of(exprs))
}

fn macro_copied<M: Macros>(alloc: Global, name: &Text, macros: &M) -> Result<Expr, NoMemory>
    ensures { IfOk result (λ e. tree_of e ≡ put_in (M.formulas macros.now name.now)) }
{
    match macros.named(name.bytes()) {
        None => Ok(Expr::Empty),
        Some((formula, _)) => formula.expr().copied(alloc),
    }
}

/// The number, in reading order from 0, of the first reference to a macro that is not known. Counting stops at
/// 2^32 - 1. None where all are known.
pub fn first_unknown<M: Macros>(raw: &RawExpr, macros: &M) -> Option<u32>
    ensures { result ≡ option_map (λ n. min n REFERENCES_COUNTED) (position (is_unknown (M.formulas macros.now)) (macro_names (raw_tree_of raw.now))) }
{
    unknown_from(raw, macros, 0).break_value()
}

// The number of the first reference that is not known, or else the number after the last, where the first has the
// number `first`.
#[cycle(first_unknown)]
fn unknown_from<M: Macros>(raw: &RawExpr, macros: &M, first: u32) -> ControlFlow<u32, u32>
    ensures { FirstUnknown (M.formulas macros.now) (macros_of (raw_tree_of raw.now)) first result }
{
    match raw {
        RawExpr::Empty => ControlFlow::Continue(first),
        RawExpr::Conn(_) => ControlFlow::Continue(first),
        RawExpr::Named(name, _) => match macros.named(name.bytes()) {
            None => ControlFlow::Break(first),
            Some(_) => ControlFlow::Continue(first.saturating_add(1)),
        },
        RawExpr::And(members) => unknown_among(members, macros, first),
        RawExpr::Or(members) => unknown_among(members, macros, first),
        RawExpr::Priced(inner, _) => unknown_from(inner, macros, first),
    }
}

#[cycle(first_unknown)]
fn unknown_among<M: Macros>(members: &RawExprs, macros: &M, first: u32) -> ControlFlow<u32, u32>
    ensures { FirstUnknown (M.formulas macros.now) (macros_in (raw_trees_in (raw_items members.now))) first result }
{
    let mut next = first;
    for member in members.items() {
        next = unknown_from(member, macros, next)?;
    }
    ControlFlow::Continue(next)
}

/// The greatest number of brackets open at once, with the macros put in: so many as are written and, at each reference, the
/// brackets open there, one for the macro and the macro's own. Counting stops at 2^32 - 1.
pub fn filled_level<M: Macros>(written: u32, raw: &RawExpr, macros: &M) -> u32
    ensures { result ≡ min (filled_level (M.formulas macros.now) written (raw_tree_of raw.now)) LEVEL_COUNTED }
{
    written.max(level_in(raw, macros))
}

#[cycle(filled_level)]
fn level_in<M: Macros>(raw: &RawExpr, macros: &M) -> u32
    ensures { result ≡ min (highest (map (level_reached (M.formulas macros.now)) (macros_of (raw_tree_of raw.now)))) LEVEL_COUNTED }
{
    match raw {
        RawExpr::Empty => 0,
        RawExpr::Conn(_) => 0,
        RawExpr::Named(name, depth) => depth
            .saturating_add(1)
            .saturating_add(macro_level(name, macros)),
        RawExpr::And(members) => level_among(members, macros),
        RawExpr::Or(members) => level_among(members, macros),
        RawExpr::Priced(inner, _) => level_in(inner, macros),
    }
}

#[cycle(filled_level)]
fn level_among<M: Macros>(members: &RawExprs, macros: &M) -> u32
    ensures { result ≡ min (highest (map (level_reached (M.formulas macros.now)) (macros_in (raw_trees_in (raw_items members.now))))) LEVEL_COUNTED }
{
    let mut greatest: u32 = 0;
    for member in members.items() {
        greatest = greatest.max(level_in(member, macros));
    }
    greatest
}

fn macro_level<M: Macros>(name: &Text, macros: &M) -> u32
    ensures { result ≡ level_within (M.formulas macros.now name.now) }
{
    match macros.named(name.bytes()) {
        None => 0,
        Some((_, level)) => level,
    }
}
