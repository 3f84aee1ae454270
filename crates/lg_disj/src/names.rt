//! The names of a formula's connectors.
ghost use Rattle.lg_gram.specs.Trees.{tree_of, trees_in, expr_items};
ghost use Rattle.lg_disj.specs.Exist.{HasNames, HaveNames};

use lg_gram::{Expr, Exprs, Formula};

/// Each connector of the formula has a name that may be written. The function changes nothing: a caller whose proof needs the
/// fact calls it. Its time is that of a look at each node. No memory.
pub fn see_names(formula: &Formula)
    ensures { HasNames (tree_of formula.now) }
{
    see(formula.expr());
}

#[cycle(see)]
fn see(e: &Expr)
    ensures { HasNames (tree_of e.now) }
{
    match e {
        Expr::Empty => {}
        Expr::Conn(connector) => {
            // What `caps` says of the name holds of each connector.
            let _capitals = connector.caps();
        }
        Expr::And(members) => see_all(members),
        Expr::Or(members) => see_all(members),
        Expr::Priced(inner, _) => see(inner),
    }
}

#[cycle(see)]
fn see_all(members: &Exprs)
    ensures { HaveNames (trees_in (expr_items members.now)) }
{
    for member in members.items() {
        see(member);
    }
}
