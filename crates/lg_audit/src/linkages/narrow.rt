//! Formulas without the connectors that a line does not show.

ghost use Rattle.std.specs.Prelude.{◌≡◌, IfOk};
ghost use Rattle.lg_gram.specs.Trees.{leaf, tree_of, trees_in, expr_items};
ghost use Rattle.lg_audit.specs.Printed.{is_shown, narrowed, all_narrowed, IsNarrowedTo};
ghost use Rattle.lg_audit.specs.Views.{texts};

use crate::linkages::sides::{is_shown, pieces};
use lg_base::NoMemory;
use lg_gram::{Connector, Expr, Exprs, Formula};
use std::alloc::Global;

/// The formula without the connectors that these sides do not show, so that only what can be shown so is expanded.
pub(crate) fn narrowed(
    alloc: Global,
    formula: &Formula,
    left: &[u8],
    right: &[u8],
) -> Result<Formula, NoMemory>
    ensures { IfOk result (λ f. IsNarrowedTo left.now right.now (tree_of formula.now) (tree_of f)) }
{
    let lefts = pieces(alloc, left)?;
    let rights = pieces(alloc, right)?;
    let expr = narrow(alloc, formula.expr(), lefts.as_slice(), rights.as_slice())?;
    Ok(Formula::of_small(expr))
}

#[cycle(narrow)]
fn narrow(alloc: Global, e: &Expr, lefts: &[&[u8]], rights: &[&[u8]]) -> Result<Expr, NoMemory>
    ensures { IfOk result (λ new. tree_of new ≡ narrowed (is_shown (texts lefts.now) (texts rights.now)) (tree_of e.now)) }
{
    match e {
        Expr::Empty => Ok(Expr::Empty),
        Expr::Conn(connector) => narrow_leaf(alloc, connector, lefts, rights),
        Expr::And(members) => Ok(Expr::And(narrow_all(alloc, members, lefts, rights)?)),
        Expr::Or(members) => Ok(Expr::Or(narrow_all(alloc, members, lefts, rights)?)),
        Expr::Priced(inner, cost) => {
            let inside = narrow(alloc, inner, lefts, rights)?;
            Ok(Expr::Priced(Box::new(alloc, inside)?, *cost))
        }
    }
}

fn narrow_leaf(
    alloc: Global,
    connector: &Connector,
    lefts: &[&[u8]],
    rights: &[&[u8]],
) -> Result<Expr, NoMemory>
    ensures { IfOk result (λ new. tree_of new ≡ narrowed (is_shown (texts lefts.now) (texts rights.now)) (leaf connector.now)) }
{
    if is_shown(alloc, connector, lefts, rights)? {
        Ok(Expr::Conn(*connector))
    } else {
        Ok(Expr::Or(Exprs::of(Vec::new(alloc))))
    }
}

#[cycle(narrow)]
fn narrow_all(
    alloc: Global,
    members: &Exprs,
    lefts: &[&[u8]],
    rights: &[&[u8]],
) -> Result<Exprs, NoMemory>
    ensures { IfOk result (λ news. trees_in (expr_items news) ≡ all_narrowed (is_shown (texts lefts.now) (texts rights.now)) (trees_in (expr_items members.now))) }
{
    let mut kept = Vec::with_capacity(alloc, members.items().len())?;
    for member in members.items() {
        kept.push(narrow(alloc, member, lefts, rights)?)?;
    }
    Ok(Exprs::of(kept))
}
