//! The choices of an expression.
ghost use Rattle.std.specs.Prelude.{◌≡◌, ◌≤◌, ◌↔◌, [], ◌∷◌, ◌++◌, map, length, slice_get, Some, true, IsTrue, IfOk, OnOk};
ghost use Rattle.std.specs.List.{All};
ghost use Rattle.lg_gram.specs.Limits.{FORMULA_NODES};
ghost use Rattle.lg_gram.specs.Trees.{tree_of, trees_in, expr_items};
ghost use Rattle.lg_gram.specs.Formulas.{prices_are_small, prices_in_are_small};
ghost use Rattle.lg_gram.specs.Measures.{single, choices_of, picks_of, choices_of_any, node_count, nodes_in};
ghost use Rattle.lg_disj.specs.Choices.{IsSided};
ghost use Rattle.lg_disj.specs.Places.{listed, IsArena};
ghost use Rattle.lg_disj.specs.Grown.{Grows, Lists, StandFor, ComesAs};
ghost use Rattle.lg_disj.specs.Picked.{picked, IsReady};

use crate::arena::Choices;
use crate::guesses::{Guesses, slot_of_connector};
use crate::product::{Picks, bare, products, push_picks};
use lg_base::{Cost, NoMemory};
use lg_gram::law::choices_are_counted;
use lg_gram::{Connector, Expr, Exprs, choices};
use std::alloc::Global;

/// Adds the choices of an expression, in the order of its members, and the connectors that they have as leaves. Those
/// that have the same two lists are not merged.
#[cycle(choices)]
pub(crate) fn choices_of(
    alloc: Global,
    e: &Expr,
    leaves: &mut Vec<Connector>,
    guesses: &mut Guesses,
    all: &mut Choices,
) -> Result<(), NoMemory>
    requires nodes { node_count (tree_of e.now) ≤ FORMULA_NODES }
    requires prices { prices_are_small (tree_of e.now) ≡ true }
    requires arena { IsArena all.old }
    ensures leaves { OnOk result (Grows leaves.old.items leaves.new.items) }
    ensures exact { OnOk result (Lists leaves.new.items (listed all.old) (listed all.new) (choices_of (tree_of e.now))) }
    ensures arena { OnOk result (IsArena all.new) }
{
    match e {
        Expr::Empty => all.push(&[], &[], &[], &[], Cost::of(0))?,
        Expr::Conn(connector) => push_single(connector, leaves, guesses, all)?,
        Expr::And(members) => {
            // The members before one that has no choice may have any number of products.
            if !has_no_choice(e) {
                let picks = picks_of(alloc, members, leaves, guesses)?;
                push_picks(alloc, picks, all)?;
            }
        }
        Expr::Or(members) => choices_of_any(alloc, members, leaves, guesses, all)?,
        Expr::Priced(inner, price) => {
            let first = all.len();
            choices_of(alloc, inner, leaves, guesses, all)?;
            all.add_price(first, *price);
        }
    }
    Ok(())
}

// Every way to pick one choice of each member: those of the members before the last, and the choices of the last.
#[cycle(choices)]
fn picks_of(
    alloc: Global,
    members: &Exprs,
    leaves: &mut Vec<Connector>,
    guesses: &mut Guesses,
) -> Result<Picks, NoMemory>
    requires nodes { nodes_in (trees_in (expr_items members.now)) ≤ FORMULA_NODES }
    requires prices { prices_in_are_small (trees_in (expr_items members.now)) ≡ true }
    ensures leaves { IfOk result (λ all. Grows leaves.old.items leaves.new.items) }
    ensures exact { IfOk result (λ picks. StandFor leaves.new.items (picked picks) (picks_of (trees_in (expr_items members.now)))) }
    ensures ready { IfOk result IsReady }
{
    let mut firsts = bare(alloc)?;
    let mut last = bare(alloc)?;
    for member in members.items() {
        let mut next = Choices::new(alloc);
        choices_of(alloc, member, leaves, guesses, &mut next)?;
        firsts = products(alloc, firsts, last)?;
        last = next;
    }
    Ok(Picks { firsts, last })
}

// The choices of each member, one list after another.
#[cycle(choices)]
fn choices_of_any(
    alloc: Global,
    members: &Exprs,
    leaves: &mut Vec<Connector>,
    guesses: &mut Guesses,
    all: &mut Choices,
) -> Result<(), NoMemory>
    requires nodes { nodes_in (trees_in (expr_items members.now)) ≤ FORMULA_NODES }
    requires prices { prices_in_are_small (trees_in (expr_items members.now)) ≡ true }
    requires arena { IsArena all.old }
    ensures leaves { OnOk result (Grows leaves.old.items leaves.new.items) }
    ensures exact { OnOk result (Lists leaves.new.items (listed all.old) (listed all.new) (choices_of_any (trees_in (expr_items members.now)))) }
    ensures arena { OnOk result (IsArena all.new) }
{
    for member in members.items() {
        choices_of(alloc, member, leaves, guesses, all)?;
    }
    Ok(())
}

// The choice of a connector alone.
fn push_single(
    connector: &Connector,
    leaves: &mut Vec<Connector>,
    guesses: &mut Guesses,
    all: &mut Choices,
) -> Result<(), NoMemory>
    requires { IsArena all.old }
    ensures leaves { OnOk result (Grows leaves.old.items leaves.new.items) }
    ensures exact { OnOk result (Lists leaves.new.items (listed all.old) (listed all.new) (single connector.now ∷ [])) }
    ensures arena { OnOk result (IsArena all.new) }
{
    // What `caps` says of the name holds of each connector, and lets the order tell connectors apart.
    let _capitals = connector.caps();
    let place = leaf_of(connector, leaves, guesses)?;
    if connector.is_right() {
        all.push(&[], &[], &[place], &[], Cost::of(0))
    } else {
        all.push(&[place], &[], &[], &[], Cost::of(0))
    }
}

// The place of a leaf that is this connector: one that is there, where the guess finds it, or else a new one.
fn leaf_of(
    connector: &Connector,
    leaves: &mut Vec<Connector>,
    guesses: &mut Guesses,
) -> Result<usize, NoMemory>
    ensures { IfOk result (λ n. ComesAs leaves.old.items leaves.new.items connector.now n) }
{
    let slot = slot_of_connector(connector);
    let guess = guesses.at(slot);
    if is_leaf(leaves, guess, connector) {
        return Ok(guess);
    }
    let place = leaves.len();
    leaves.push(*connector)?;
    let _old = guesses.replace(slot, place);
    Ok(place)
}

fn is_leaf(leaves: &[Connector], place: usize, connector: &Connector) -> bool
    ensures { IsTrue result → slice_get leaves.now place ≡ Some connector.now }
{
    match leaves.get(place) {
        Some(leaf) => is_one(leaf, connector),
        None => false,
    }
}

fn is_one(a: &Connector, b: &Connector) -> bool
    ensures { IsTrue result → a.now ≡ b.now }
{
    a == b
}

fn has_no_choice(e: &Expr) -> bool
    ensures { IsTrue result ↔ (choices_of (tree_of e.now) ≡ []) }
{
    choices_are_counted();
    choices(e) == 0
}
