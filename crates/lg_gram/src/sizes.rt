//! The measures of an expression, against the limits of a formula.
ghost use Rattle.std.specs.Prelude.{◌≡◌, ◌+◌, ◌*◌, ◌^◌, ◌-◌, min, max, true, false, if◌then◌else◌};
ghost use Rattle.lg_gram.specs.Limits.{COUNTED, SIDE_COUNTED};
ghost use Rattle.lg_gram.specs.Trees.{leaf, tree_of, trees_in, expr_items};
ghost use Rattle.lg_gram.specs.Measures.{node_count, nodes_in, choice_count, product_in, choices_in, side_count, side_in, longest_in, depth_of, depth_in};
ghost use Rattle.lg_gram.specs.Measured.{HasSizes};
ghost use Rattle.lg_gram.specs.Formulas.{prices_are_small, prices_in_are_small, is_small_price};

use crate::connector::Connector;
use crate::expr::{Expr, Exprs};
use lg_base::Cost;

// Where the counts of nodes and of choices stop.
const COUNTED: u64 = 1 << 40;

/// The measures of an expression: its nodes, its choices, and the connectors that it has on each side where it has the
/// most. Counting stops at 2^40, and at 2^32 - 1 for a side.
#[derive(Clone, Copy, Debug)]
pub struct Sizes {
    pub nodes: u64,
    pub choices: u64,
    pub left: u32,
    pub right: u32,
}

impl Sizes {
    /// Of no members, joined by `&`, or of `()`.
    pub(crate) fn of_all() -> Sizes
        ensures { result ≡ record { nodes = 1; choices = 1; left = 0; right = 0 } }
    {
        Sizes {
            nodes: 1,
            choices: 1,
            left: 0,
            right: 0,
        }
    }

    /// Of no members, joined by `or`.
    pub(crate) fn of_any() -> Sizes
        ensures { result ≡ record { nodes = 1; choices = 0; left = 0; right = 0 } }
    {
        Sizes {
            nodes: 1,
            choices: 0,
            left: 0,
            right: 0,
        }
    }

    /// Of a connector.
    pub(crate) fn of_leaf(c: &Connector) -> Sizes
        ensures { HasSizes (leaf c.now) result }
    {
        Sizes {
            nodes: 1,
            choices: 1,
            left: u32::from(!c.is_right()),
            right: u32::from(c.is_right()),
        }
    }

    /// In square brackets.
    pub(crate) fn priced(self) -> Sizes
        ensures { result ≡ record self { nodes = min (1 + self.nodes) COUNTED } }
    {
        Sizes {
            nodes: self.nodes.saturating_add(1).min(COUNTED),
            ..self
        }
    }

    /// With one more member, joined by `&`.
    pub(crate) fn and(self, member: Sizes) -> Sizes
        ensures nodes { result.nodes ≡ min (self.nodes + member.nodes) COUNTED }
        ensures choices { result.choices ≡ min (self.choices * member.choices) COUNTED }
        ensures left { result.left ≡ min (self.left + member.left) SIDE_COUNTED }
        ensures right { result.right ≡ min (self.right + member.right) SIDE_COUNTED }
    {
        Sizes {
            nodes: self.nodes.saturating_add(member.nodes).min(COUNTED),
            choices: self.choices.saturating_mul(member.choices).min(COUNTED),
            left: self.left.saturating_add(member.left),
            right: self.right.saturating_add(member.right),
        }
    }

    /// With one more member, joined by `or`.
    pub(crate) fn or(self, member: Sizes) -> Sizes
        ensures nodes { result.nodes ≡ min (self.nodes + member.nodes) COUNTED }
        ensures choices { result.choices ≡ min (self.choices + member.choices) COUNTED }
        ensures left { result.left ≡ max self.left member.left }
        ensures right { result.right ≡ max self.right member.right }
    {
        Sizes {
            nodes: self.nodes.saturating_add(member.nodes).min(COUNTED),
            choices: self.choices.saturating_add(member.choices).min(COUNTED),
            left: self.left.max(member.left),
            right: self.right.max(member.right),
        }
    }

    /// The connectors on the side that has more of them.
    pub(crate) fn longest_side(self) -> u32
        ensures { result ≡ max self.left self.right }
    {
        self.left.max(self.right)
    }

    /// The connectors on a side, `true` the right.
    pub(crate) fn side(self, right: bool) -> u32
        ensures { result ≡ (if right then self.right else self.left) }
    {
        if right { self.right } else { self.left }
    }
}

/// The measures of an expression, in one pass.
#[cycle(sizes)]
pub fn sizes_of(e: &Expr) -> Sizes
    ensures nodes { result.nodes ≡ min (node_count (tree_of e.now)) COUNTED }
    ensures choices { result.choices ≡ min (choice_count (tree_of e.now)) COUNTED }
    ensures left { result.left ≡ min (side_count false (tree_of e.now)) SIDE_COUNTED }
    ensures right { result.right ≡ min (side_count true (tree_of e.now)) SIDE_COUNTED }
{
    match e {
        Expr::Empty => Sizes::of_all(),
        Expr::Conn(c) => Sizes::of_leaf(c),
        Expr::And(members) => sizes_of_all(members),
        Expr::Or(members) => sizes_of_any(members),
        Expr::Priced(inner, _) => sizes_of(inner).priced(),
    }
}

#[cycle(sizes)]
fn sizes_of_all(members: &Exprs) -> Sizes
    ensures nodes { result.nodes ≡ min (1 + nodes_in (trees_in (expr_items members.now))) COUNTED }
    ensures choices { result.choices ≡ min (product_in (trees_in (expr_items members.now))) COUNTED }
    ensures left { result.left ≡ min (side_in false (trees_in (expr_items members.now))) SIDE_COUNTED }
    ensures right { result.right ≡ min (side_in true (trees_in (expr_items members.now))) SIDE_COUNTED }
{
    let mut sizes = Sizes::of_all();
    for member in members.items() {
        sizes = sizes.and(sizes_of(member));
    }
    sizes
}

#[cycle(sizes)]
fn sizes_of_any(members: &Exprs) -> Sizes
    ensures nodes { result.nodes ≡ min (1 + nodes_in (trees_in (expr_items members.now))) COUNTED }
    ensures choices { result.choices ≡ min (choices_in (trees_in (expr_items members.now))) COUNTED }
    ensures left { result.left ≡ min (longest_in false (trees_in (expr_items members.now))) SIDE_COUNTED }
    ensures right { result.right ≡ min (longest_in true (trees_in (expr_items members.now))) SIDE_COUNTED }
{
    let mut sizes = Sizes::of_any();
    for member in members.items() {
        sizes = sizes.or(sizes_of(member));
    }
    sizes
}

/// How many nodes an expression has, each variant one. Counting stops at 2^40.
pub fn nodes(e: &Expr) -> u64
    ensures { result ≡ min (node_count (tree_of e.now)) COUNTED }
{
    sizes_of(e).nodes
}

/// How many choices an expression has: products over `And`, sums over `Or`. Counting stops at 2^40.
pub fn choices(e: &Expr) -> u64
    ensures { result ≡ min (choice_count (tree_of e.now)) COUNTED }
{
    sizes_of(e).choices
}

/// The greater of the numbers of connectors that an expression has on its two sides, each where it has the most.
/// Counting stops at 2^32 - 1.
pub fn longest_side(e: &Expr) -> u32
    ensures { result ≡ min (max (side_count false (tree_of e.now)) (side_count true (tree_of e.now))) SIDE_COUNTED }
{
    sizes_of(e).longest_side()
}

// Where the count of the depth stops, past the limit of a formula.
const DEPTH_COUNTED: u32 = 1000;

/// How far the deepest leaf lies below the root, counted to 1000.
#[cycle(depth)]
pub(crate) fn depth(e: &Expr) -> u32
    ensures { result ≡ min (depth_of (tree_of e.now)) 1000 }
{
    match e {
        Expr::Empty => 0,
        Expr::Conn(_) => 0,
        Expr::And(members) => depth_of_deepest(members),
        Expr::Or(members) => depth_of_deepest(members),
        Expr::Priced(inner, _) => (depth(inner) + 1).min(DEPTH_COUNTED),
    }
}

#[cycle(depth)]
fn depth_of_deepest(members: &Exprs) -> u32
    ensures { result ≡ min (depth_in (trees_in (expr_items members.now))) 1000 }
{
    let mut deepest: u32 = 0;
    for member in members.items() {
        deepest = deepest.max(depth(member) + 1).min(DEPTH_COUNTED);
    }
    deepest
}

/// Whether each bracket's cost lies within the bounds of a formula.
#[cycle(prices)]
pub(crate) fn are_prices_small(e: &Expr) -> bool
    ensures { result ≡ prices_are_small (tree_of e.now) }
{
    match e {
        Expr::Empty => true,
        Expr::Conn(_) => true,
        Expr::And(members) => are_prices_in_small(members),
        Expr::Or(members) => are_prices_in_small(members),
        Expr::Priced(inner, cost) => is_small(*cost) && are_prices_small(inner),
    }
}

// The most thousandths of a bracket's cost, from zero.
const PRICE: i64 = 10_000_000;

fn is_small(cost: Cost) -> bool
    ensures { result ≡ is_small_price cost }
{
    cost.thousandths() >= -PRICE && cost.thousandths() <= PRICE
}

#[cycle(prices)]
fn are_prices_in_small(members: &Exprs) -> bool
    ensures { result ≡ prices_in_are_small (trees_in (expr_items members.now)) }
{
    for member in members.items() {
        if !are_prices_small(member) {
            return false;
        }
    }
    true
}
