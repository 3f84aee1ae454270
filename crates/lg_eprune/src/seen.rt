//! The connectors that a sweep has seen.
ghost use Rattle.std.specs.Prelude.{◌≡◌, ◌<◌, ◌↔◌, [], ◌∷◌, IsTrue, OnOk, IfOk, length, if◌then◌else◌};
ghost use Rattle.std.specs.List.{All, Contains, list_any};
ghost use Rattle.std.specs.Bool.{beq};
ghost use Rattle.lg_gram.specs.Trees.{tree_of, trees_in, expr_items};
ghost use Rattle.lg_eprune.specs.Cuts.{do_match, do_join, is_met, class_of as class_in, leaves, leaves_in, listed_at, word_leaves, Adds, IsSeen, Lists};

use crate::words::WordExpr;
use lg_base::NoMemory;
use lg_gram::{Connector, Expr, Exprs, matches};
use std::alloc::Global;
use std::marker::Model;

// How many classes of capital letters there are.
const CLASSES: usize = 256;

/// Distinct connectors, by a class of their capital letters. Contracts see a list of connectors for each class.
#[derive(Drop)]
pub(crate) struct Seen {
    rows: Vec<Vec<Connector>>,
}

impl Model for Seen {
    ghost use Rattle.std.specs.Prelude.{◌≡◌, List, length, map};
    ghost use Rattle.lg_gram.specs.Connectors.{Connector as Shown};

    ghost Value = { List (List Shown) };

    ghost view = { λ s. map (λ row. row.items) s.rows.items };

    ghost invariant = { λ s. length s.rows.items ≡ 256 };
}

impl Seen {
    /// A table of no connectors.
    pub(crate) fn new(alloc: Global) -> Result<Seen, NoMemory>
        ensures { IfOk result (λ seen. IsSeen seen []) }
    {
        let rows = empty(alloc)?;
        Ok(Seen { rows })
    }

    // The connectors of the class of these capital letters.
    fn listed(&self, caps: &[u8]) -> &[Connector]
        ensures { result.now ≡ listed_at self.now caps.now }
    {
        &self.rows[class_of(caps)]
    }

    // Adds a connector, if it is not there.
    fn add(&mut self, connector: &Connector) -> Result<(), NoMemory>
        ensures { OnOk result (Lists self.old (connector.now ∷ []) self.new) }
    {
        let class = class_of(connector.caps());
        add_to(&mut self.rows[class], connector)?;
        Ok(())
    }
}

fn empty(alloc: Global) -> Result<Vec<Vec<Connector>>, NoMemory>
    ensures long { IfOk result (λ rows. length rows.items ≡ 256) }
    ensures none { IfOk result (λ rows. All (λ row. row.items ≡ []) rows.items) }
{
    let mut rows = Vec::with_capacity(alloc, CLASSES)?;
    for _number in 0..CLASSES {
        rows.push(Vec::new(alloc))?;
    }
    Ok(rows)
}

// The class of some capital letters.
fn class_of(caps: &[u8]) -> usize
    ensures value { result ≡ class_in caps.now }
    ensures small { result < CLASSES }
{
    let mut number = 0;
    for letter in caps {
        number = (number * 31 + *letter as usize) % CLASSES;
    }
    number
}

fn add_to(row: &mut Vec<Connector>, connector: &Connector) -> Result<(), NoMemory>
    ensures { OnOk result (Adds row.old.items connector.now row.new.items) }
{
    if is_in(row, connector) {
        return Ok(());
    }
    row.push(*connector)?;
    Ok(())
}

fn is_in(row: &[Connector], connector: &Connector) -> bool
    ensures { IsTrue result ↔ Contains row.now connector.now }
{
    row.iter().any(|other| is_same(other, connector))
}

fn is_same(a: &Connector, b: &Connector) -> bool
    ensures { IsTrue result ↔ (a.now ≡ b.now) }
{
    a == b
}

fn is_match(left: &Connector, right: &Connector) -> bool
    ensures { result ≡ do_match left.now right.now }
{
    matches(left, right)
}

fn joins(seen: &Connector, connector: &Connector) -> bool
    ensures { result ≡ do_join seen.now connector.now }
{
    is_match(seen, connector) || is_match(connector, seen)
}

/// Whether a connector has the direction `right`, or one that was seen joins it.
#[tactic(auto, unfolding(crate::specs::Cuts::stays))]
pub(crate) fn is_met(connector: &Connector, right: bool, seen: &Seen) -> bool
    ensures { result ≡ is_met right seen.now connector.now }
{
    connector.is_right() == right || is_joined(connector, seen)
}

// Whether one that was seen joins the connector.
fn is_joined(connector: &Connector, seen: &Seen) -> bool
    ensures { result ≡ list_any (λ d. do_join d connector.now) (listed_at seen.now connector.now.caps) }
{
    seen.listed(connector.caps())
        .iter()
        .any(|other| joins(other, connector))
}

/// Adds the connectors of a direction that stand in the formulas of these words.
pub(crate) fn see_words(seen: &mut Seen, right: bool, words: &[WordExpr]) -> Result<(), NoMemory>
    ensures { OnOk result (Lists seen.old (word_leaves right words.now) seen.new) }
{
    for word in words {
        see_leaves(word.formula.expr(), right, seen)?;
    }
    Ok(())
}

// Adds the connectors of a direction.
#[cycle(leaves)]
fn see_leaves(e: &Expr, right: bool, seen: &mut Seen) -> Result<(), NoMemory>
    ensures { OnOk result (Lists seen.old (leaves right (tree_of e.now)) seen.new) }
{
    match e {
        Expr::Empty => see_none(seen),
        Expr::Conn(connector) => see_leaf(connector, right, seen),
        Expr::And(members) => see_leaves_in(members, right, seen),
        Expr::Or(members) => see_leaves_in(members, right, seen),
        Expr::Priced(inner, _) => see_leaves(inner, right, seen),
    }
}

fn see_none(seen: &mut Seen) -> Result<(), NoMemory>
    ensures { OnOk result (Lists seen.old [] seen.new) }
{
    Ok(())
}

fn see_leaf(connector: &Connector, right: bool, seen: &mut Seen) -> Result<(), NoMemory>
    ensures { OnOk result (Lists seen.old (if beq connector.now.right right then connector.now ∷ [] else []) seen.new) }
{
    if connector.is_right() == right {
        seen.add(connector)
    } else {
        see_none(seen)
    }
}

#[cycle(leaves)]
fn see_leaves_in(members: &Exprs, right: bool, seen: &mut Seen) -> Result<(), NoMemory>
    ensures { OnOk result (Lists seen.old (leaves_in right (trees_in (expr_items members.now))) seen.new) }
{
    for member in members.items() {
        see_leaves(member, right, seen)?;
    }
    Ok(())
}
