//! A walk through an expression, from near to far.
ghost use Rattle.std.specs.Prelude.{◌≡◌, ◌-◌, ◌∷◌, [], IfOk, Some, cond};
ghost use Rattle.lg_gram.specs.Measures.{no_connectors, single, choices_of, picks_of, choices_of_any};
ghost use Rattle.lg_gram.specs.Trees.{empty, leaf, all_of, one_of, priced, tree_of, trees_in, expr_items};
ghost use Rattle.lg_reach.specs.Ends.{alone};
ghost use Rattle.lg_reach.specs.Climbs.{IsNoFarther, IsWithin, at_first, beyond, seen};
ghost use Rattle.lg_reach.specs.Walks.{Walks, behind_link, nearer_by, nearer_of};

use crate::nearest::Stand;
use crate::site::Sites;
use lg_base::{Cost, NoMemory};
use lg_gram::{Connector, Expr, Exprs};
use std::mem;

/// How long the next link of a side is at least, and whether none of that side comes before it.
#[derive(Clone, Copy, Debug)]
pub(crate) struct Next {
    pub(crate) least: usize,
    pub(crate) first: bool,
}

impl Next {
    /// How long the last link before it is at least; 0 where there may be none.
    pub(crate) fn length(self) -> usize
        ensures { result ≡ self.least - 1 }
    {
        self.least.saturating_sub(1)
    }

    /// So long as the shorter of the two, and the first where both are.
    fn or(self, other: Next) -> Next
        ensures { result ≡ nearer_of self other }
    {
        Next {
            least: self.least.min(other.least),
            first: self.first && other.first,
        }
    }

    /// After a link that is at least so long.
    fn after(length: usize) -> Next
        ensures { IsNoFarther result (beyond length) }
    {
        Next {
            least: length.saturating_add(1),
            first: false,
        }
    }
}

/// The next links to the left and to the right.
#[derive(Clone, Copy, Debug)]
pub(crate) struct Least {
    pub(crate) left: Next,
    pub(crate) right: Next,
}

impl Least {
    /// Before the nearest links.
    pub(crate) fn first() -> Least
        ensures { result ≡ at_first }
    {
        let next = Next {
            least: 1,
            first: true,
        };
        Least {
            left: next,
            right: next,
        }
    }

    /// At each side so long as the shorter of the two.
    fn or(self, other: Least) -> Least
        ensures { result ≡ nearer_by (Some self) other }
    {
        Least {
            left: self.left.or(other.left),
            right: self.right.or(other.right),
        }
    }

    /// After a link of this connector that is at least so long.
    fn after(self, connector: &Connector, length: usize) -> Least
        ensures { IsWithin result (behind_link connector.now length self) }
    {
        if connector.is_right() {
            Least {
                right: Next::after(length),
                ..self
            }
        } else {
            Least {
                left: Next::after(length),
                ..self
            }
        }
    }

    fn on(self, right: bool) -> Next
        ensures { result ≡ cond right self.right self.left }
    {
        if right { self.right } else { self.left }
    }
}

// The nearer of the two on each side, if there is one before.
fn nearer(before: Option<Least>, next: Least) -> Least
    ensures { result ≡ nearer_by before next }
{
    match before {
        None => next,
        Some(before) => before.or(next),
    }
}

/// What is left of an expression, and how long links behind it are at least.
#[derive(Drop)]
pub(crate) struct Left<T> {
    pub(crate) what: T,
    pub(crate) least: Least,
}

/// The expression without the choices whose links cannot reach a partner. The sites get the connectors of what is left.
#[cycle(reach)]
pub(crate) fn reach(
    e: Expr,
    stand: &Stand<'_>,
    start: Least,
    sites: &mut Sites,
) -> Result<Option<Left<Expr>>, NoMemory>
    ensures { IfOk result (λ left. Walks sites.old sites.new stand.now start (choices_of (tree_of e)) (seen left)) }
{
    match e {
        Expr::Empty => Ok(reach_nothing(stand, start, sites)),
        Expr::Conn(connector) => reach_leaf(&connector, stand, start, sites),
        Expr::And(members) => reach_all(members.into_items(), stand, start, sites),
        Expr::Or(members) => reach_any(members.into_items(), stand, start, sites),
        Expr::Priced(inner, cost) => reach_priced(inner, cost, stand, start, sites),
    }
}

fn reach_nothing(stand: &Stand<'_>, start: Least, sites: &Sites) -> Option<Left<Expr>>
    ensures { Walks sites.now sites.now stand.now start (no_connectors ∷ []) (seen result) }
{
    Some(Left {
        what: nothing(),
        least: start,
    })
}

fn reach_leaf(
    connector: &Connector,
    stand: &Stand<'_>,
    start: Least,
    sites: &mut Sites,
) -> Result<Option<Left<Expr>>, NoMemory>
    ensures { IfOk result (λ left. Walks sites.old sites.new stand.now start (single connector.now ∷ []) (seen left)) }
{
    let next = start.on(connector.is_right());
    let Some(length) = stand.nearest(connector, next) else {
        return Ok(None);
    };
    let lone = is_alone(next.first, connector);
    sites.add(stand.position, connector, length, lone)?;
    Ok(Some(Left {
        what: leaf(connector),
        least: start.after(connector, length),
    }))
}

// Whether a connector, which is the first of its side or may not be, has one link, the nearest.
fn is_alone(first: bool, connector: &Connector) -> bool
    ensures { result ≡ alone first connector.now }
{
    first && !connector.is_multi()
}

// What is left of an expression in brackets stands where it stood.
#[cycle(reach)]
fn reach_priced(
    mut inner: Box<Expr>,
    cost: Cost,
    stand: &Stand<'_>,
    start: Least,
    sites: &mut Sites,
) -> Result<Option<Left<Expr>>, NoMemory>
    ensures { IfOk result (λ left. Walks sites.old sites.new stand.now start (choices_of (priced (tree_of inner.value) cost)) (seen left)) }
{
    let e = mem::replace(&mut *inner, Expr::Empty);
    let Some(left) = reach(e, stand, start, sites)? else {
        return Ok(None);
    };
    *inner = left.what;
    Ok(Some(Left {
        what: Expr::Priced(inner, cost),
        least: left.least,
    }))
}

// What is left of each member stands where the member stood.
#[cycle(reach)]
fn reach_all(
    mut members: Vec<Expr>,
    stand: &Stand<'_>,
    start: Least,
    sites: &mut Sites,
) -> Result<Option<Left<Expr>>, NoMemory>
    ensures { IfOk result (λ left. Walks sites.old sites.new stand.now start (picks_of (trees_in members.items)) (seen left)) }
{
    let mut least = start;
    for place in 0..members.len() {
        let member = mem::replace(&mut members[place], Expr::Empty);
        let Some(left) = reach(member, stand, least, sites)? else {
            return Ok(None);
        };
        members[place] = left.what;
        least = left.least;
    }
    Ok(Some(Left {
        what: all_of(Exprs::of(members)),
        least,
    }))
}

// What is left of the members stands at the first places.
#[cycle(reach)]
fn reach_any(
    mut members: Vec<Expr>,
    stand: &Stand<'_>,
    start: Least,
    sites: &mut Sites,
) -> Result<Option<Left<Expr>>, NoMemory>
    ensures { IfOk result (λ left. Walks sites.old sites.new stand.now start (choices_of_any (trees_in members.items)) (seen left)) }
{
    let mut kept = 0;
    let mut least: Option<Least> = None;
    for place in 0..members.len() {
        let member = mem::replace(&mut members[place], Expr::Empty);
        let Some(left) = reach(member, stand, start, sites)? else {
            continue;
        };
        members[kept] = left.what;
        kept += 1;
        least = Some(nearer(least, left.least));
    }
    members.truncate(kept);
    match least {
        None => Ok(None),
        Some(least) => Ok(Some(Left {
            what: one_of(Exprs::of(members)),
            least,
        })),
    }
}

fn nothing() -> Expr
    ensures { tree_of result ≡ empty }
{
    Expr::Empty
}

fn leaf(connector: &Connector) -> Expr
    ensures { tree_of result ≡ leaf connector.now }
{
    Expr::Conn(*connector)
}

fn all_of(members: Exprs) -> Expr
    ensures { tree_of result ≡ all_of (trees_in (expr_items members)) }
{
    Expr::And(members)
}

fn one_of(members: Exprs) -> Expr
    ensures { tree_of result ≡ one_of (trees_in (expr_items members)) }
{
    Expr::Or(members)
}
