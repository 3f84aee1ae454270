//! Formulas without the leaves that nothing can be linked to.
ghost use Rattle.std.specs.Prelude.{◌≡◌, IfOk};
ghost use Rattle.std.specs.Option.{option_map};
ghost use Rattle.lg_gram.specs.Trees.{leaf, one_of, tree_of, trees_in, expr_items};
ghost use Rattle.lg_eprune.specs.Cuts.{is_met, is_whole, are_whole, any_of, cut, cut_all, cut_any, cut_word, cut_words, do_lose, has_member};

use crate::seen::{Seen, is_met};
use crate::words::{WordExpr, WordExprs};
use lg_base::NoMemory;
use lg_gram::{Connector, Expr, Exprs, Formula};
use std::alloc::Global;

/// Words of which what cannot be linked is taken away.
#[derive(Drop)]
pub(crate) struct Left {
    pub(crate) words: WordExprs,
    /// Whether anything went.
    pub(crate) is_less: bool,
}

/// The words without the leaves that are not met, and whether anything goes. A formula of which nothing goes is not copied.
pub(crate) fn cut_words(
    alloc: Global,
    words: WordExprs,
    right: bool,
    seen: &Seen,
) -> Result<Left, NoMemory>
    ensures words { IfOk result (λ left. left.words ≡ cut_words (is_met right seen.now) words) }
    ensures less { IfOk result (λ left. left.is_less ≡ do_lose (is_met right seen.now) words) }
{
    let mut kept = Vec::new(alloc);
    let mut is_less = false;
    for word in words.into_items() {
        if is_whole(word.formula.expr(), right, seen) {
            kept.push(word)?;
            continue;
        }
        is_less = true;
        let Some(left) = cut_word(alloc, word, right, seen)? else {
            continue;
        };
        kept.push(left)?;
    }
    Ok(Left {
        words: WordExprs::of(kept),
        is_less,
    })
}

fn cut_word(
    alloc: Global,
    word: WordExpr,
    right: bool,
    seen: &Seen,
) -> Result<Option<WordExpr>, NoMemory>
    ensures { IfOk result (λ left. left ≡ cut_word (is_met right seen.now) word) }
{
    let WordExpr { word, formula } = word;
    match cut(alloc, formula.expr(), right, seen)? {
        Some(left) => Ok(Some(WordExpr {
            word,
            formula: Formula::of_small(left),
        })),
        None => Ok(None),
    }
}

// Whether each leaf is met, and each `or` has a member.
#[cycle(whole)]
fn is_whole(e: &Expr, right: bool, seen: &Seen) -> bool
    ensures { result ≡ is_whole (is_met right seen.now) (tree_of e.now) }
{
    match e {
        Expr::Empty => true,
        Expr::Conn(connector) => is_met(connector, right, seen),
        Expr::And(members) => are_whole(members, right, seen),
        Expr::Or(members) => has_member(members) && are_whole(members, right, seen),
        Expr::Priced(inner, _) => is_whole(inner, right, seen),
    }
}

#[cycle(whole)]
fn are_whole(members: &Exprs, right: bool, seen: &Seen) -> bool
    ensures { result ≡ are_whole (is_met right seen.now) (trees_in (expr_items members.now)) }
{
    for member in members.items() {
        if !is_whole(member, right, seen) {
            return false;
        }
    }
    true
}

fn has_member(members: &Exprs) -> bool
    ensures { result ≡ has_member (trees_in (expr_items members.now)) }
{
    !members.items().is_empty()
}

// The expression without the leaves that are not met. None where it has no choice left.
#[cycle(cut)]
fn cut(alloc: Global, e: &Expr, right: bool, seen: &Seen) -> Result<Option<Expr>, NoMemory>
    ensures { IfOk result (λ left. option_map tree_of left ≡ cut (is_met right seen.now) (tree_of e.now)) }
{
    match e {
        Expr::Empty => Ok(Some(Expr::Empty)),
        Expr::Conn(connector) => Ok(cut_leaf(connector, right, seen)),
        Expr::And(members) => Ok(cut_all(alloc, members, right, seen)?.map(Expr::And)),
        Expr::Or(members) => Ok(any_of(cut_any(alloc, members, right, seen)?)),
        Expr::Priced(inner, cost) => match cut(alloc, inner, right, seen)? {
            Some(left) => Ok(Some(Expr::Priced(Box::new(alloc, left)?, *cost))),
            None => Ok(None),
        },
    }
}

// As `cut` does. Most members are leaves, so that these are looked at on the spot.
#[cycle(cut)]
fn cut_member(alloc: Global, e: &Expr, right: bool, seen: &Seen) -> Result<Option<Expr>, NoMemory>
    ensures { IfOk result (λ left. option_map tree_of left ≡ cut (is_met right seen.now) (tree_of e.now)) }
{
    match e {
        Expr::Conn(connector) => Ok(cut_leaf(connector, right, seen)),
        _ => cut(alloc, e, right, seen),
    }
}

fn cut_leaf(connector: &Connector, right: bool, seen: &Seen) -> Option<Expr>
    ensures { option_map tree_of result ≡ cut (is_met right seen.now) (leaf connector.now) }
{
    if is_met(connector, right, seen) {
        Some(Expr::Conn(*connector))
    } else {
        None
    }
}

fn any_of(members: Exprs) -> Option<Expr>
    ensures { option_map tree_of result ≡ any_of (trees_in (expr_items members)) }
{
    if members.items().is_empty() {
        None
    } else {
        Some(one_of(members))
    }
}

fn one_of(members: Exprs) -> Expr
    ensures { tree_of result ≡ one_of (trees_in (expr_items members)) }
{
    Expr::Or(members)
}

// The members, if something is left of each.
#[cycle(cut)]
fn cut_all(
    alloc: Global,
    members: &Exprs,
    right: bool,
    seen: &Seen,
) -> Result<Option<Exprs>, NoMemory>
    ensures { IfOk result (λ left. option_map (λ es. trees_in (expr_items es)) left ≡ cut_all (is_met right seen.now) (trees_in (expr_items members.now))) }
{
    let mut kept = Vec::with_capacity(alloc, members.items().len())?;
    for member in members.items() {
        match cut_member(alloc, member, right, seen)? {
            Some(left) => kept.push(left)?,
            None => return Ok(None),
        }
    }
    Ok(Some(Exprs::of(kept)))
}

// The members of which something is left.
#[cycle(cut)]
fn cut_any(alloc: Global, members: &Exprs, right: bool, seen: &Seen) -> Result<Exprs, NoMemory>
    ensures { IfOk result (λ left. trees_in (expr_items left) ≡ cut_any (is_met right seen.now) (trees_in (expr_items members.now))) }
{
    let mut kept = Vec::with_capacity(alloc, members.items().len())?;
    for member in members.items() {
        let Some(left) = cut_member(alloc, member, right, seen)? else {
            continue;
        };
        kept.push(left)?;
    }
    Ok(Exprs::of(kept))
}
