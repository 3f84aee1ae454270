//! Linkages, and the order in which they are listed.
ghost use Rattle.std.specs.Prelude.{◌≡◌, ◌≤◌, ◌<◌, ◌^◌, ◌↔◌, length, Some, IsTrue, MatchOption};
ghost use Rattle.std.specs.List.{All, sum_by};
ghost use Rattle.std.specs.List.Sorted.{IsStrictlySortedBy};
ghost use Rattle.std.specs.Option.{option_cmp};
ghost use Rattle.std.specs.Cmp.Lexicographic.{slice_cmp};
ghost use Rattle.std.specs.Cmp.{partial_order_from_own_ties};
ghost use Rattle.std.specs.Cmp.Rules.{comparing};
ghost use Rattle.std.specs.Ordering.{as_partial_cmp};
ghost use Rattle.std.proofs.Common.{rules};
ghost use Rattle.lg_base.specs.Costs.{IsWithinCosts};
ghost use Rattle.lg_gram.specs.Limits.{LINKAGE_POSITIONS};
ghost use Rattle.lg_gram.specs.Disjuncts.{disjunct_cmp};
ghost use Rattle.lg_gram.specs.Rules.{Joins, rights_of, lefts_of};
ghost use Rattle.lg_gram.specs.Labels.{ends_of, label_at};
ghost use Rattle.lg_gram.specs.Linkages.{Linkage as Seen, IsLinkage, unlinked, total_cost, total_length, linkage_cmp, tie_cmp, cost_sum, cost_of, HasSmallCost, link_cmp, IsForward, link_length};

use crate::connector::{Connector, link_label};
use crate::disjunct::{Chosen, Disjunct, side};
use crate::label::Label;
use crate::order::{Ranked, is_rising, rank_lists};
use crate::problem::DISJUNCT_COST;
use lg_base::{Cost, List};
use std::cmp::Ordering;
use std::marker::Model;

/// The most positions of a linkage.
pub const LINKAGE_POSITIONS: usize = 252;

// One more than the most links of a linkage.
const LINKS_END: usize = 1 << 32;

/// A link from place `lplace` of the right list at position `left` to place `rplace` of the left list at position
/// `right`. Positions and places count from 0, places from near to far.
#[derive(Clone, Copy, Debug, PartialEq, Eq)]
pub struct Link {
    pub left: u32,
    pub lplace: u32,
    pub right: u32,
    pub rplace: u32,
}

impl Ranked for Link {
    ghost use Rattle.lg_gram.specs.Linkages.{link_cmp};
    ghost use Rattle.std.specs.Cmp.Rules.{comparing};
    ghost use Rattle.std.proofs.Common.{rules};

    ghost rank = { link_cmp };

    fn rank(&self, other: &Link) -> Ordering {
        self.left.cmp(&other.left).then(
            self.right.cmp(&other.right).then(
                self.lplace
                    .cmp(&other.lplace)
                    .then(self.rplace.cmp(&other.rplace)),
            ),
        )
    }

    ghost total = { Prim.search (comparing, rules) depth 12 };
}

impl Ord for Link {
    ghost cmp = { link_cmp };

    ghost total = { Prim.search (comparing, rules) depth 12 };

    ghost matches_partial_cmp = { Prim.search (comparing, rules) depth 12 };

    ghost matches_eq = { Prim.search (comparing, rules) depth 14 };

    fn cmp(&self, other: &Link) -> Ordering {
        self.rank(other)
    }
}

impl PartialOrd for Link {
    ghost partial_cmp = { as_partial_cmp link_cmp };

    ghost laws = { partial_order_from_own_ties (Prim.search (comparing, rules) depth 12) (Prim.search (comparing, rules) depth 14) };

    fn partial_cmp(&self, other: &Link) -> Option<Ordering> {
        Some(self.rank(other))
    }
}

impl Link {
    /// The connectors at the link's two places, at its left word and at its right word. None where one of the places is
    /// empty.
    pub fn ends(&self, chosen: &[Option<Disjunct>]) -> Option<(Connector, Connector)>
        ensures { result ≡ ends_of chosen.now self.now }
    {
        let from = side(chosen, true, self.left)
            .get(self.lplace as usize)
            .copied();
        let to = side(chosen, false, self.right)
            .get(self.rplace as usize)
            .copied();
        from.zip(to)
    }
}

/// A list of links.
pub type Links = List<Link>;

/// What each position uses, and the links, strictly increasing by left, right, lplace and rplace. Each link goes to the
/// right. There are at most 252 positions and 2^32 - 1 links, and no cost is more than 10^13 thousandths from zero.
///
/// Contracts see `{ chosen, links }`.
#[derive(Clone, Debug, Drop)]
pub struct Linkage {
    chosen: Chosen,
    links: Links,
}

impl Model for Linkage {
    ghost use Rattle.lg_gram.specs.Linkages.{Linkage as Seen, IsLinkage};

    ghost Value = { Seen };

    ghost view = { λ g. record { chosen = g.chosen; links = g.links } };

    ghost invariant = { λ g. IsLinkage (record { chosen = g.chosen; links = g.links }) };
}

impl Linkage {
    /// The linkage of these choices and links. None where they are none.
    pub fn of(chosen: Chosen, links: Links) -> Option<Linkage>
        ensures { let g : Seen = record { chosen = chosen; links = links } in
            MatchOption result (IsLinkage g → ⊥) (λ linkage. (linkage ≡ g) × IsLinkage g) }
    {
        if is_linkage(chosen.items(), links.items()) {
            Some(Linkage { chosen, links })
        } else {
            None
        }
    }

    /// The linkage of these choices and links, of which it is known that they are one: none of them is looked at. No memory.
    pub fn of_known(chosen: Chosen, links: Links) -> Linkage
        requires { IsLinkage (record { chosen = chosen; links = links }) }
        ensures { result ≡ record { chosen = chosen; links = links } }
    {
        Linkage { chosen, links }
    }

    /// What each position uses.
    pub fn chosen(&self) -> &[Option<Disjunct>]
        ensures value { result.now ≡ self.now.chosen }
        ensures limits { IsLinkage self.now }
    {
        self.chosen.items()
    }

    /// The links.
    pub fn links(&self) -> &[Link]
        ensures value { result.now ≡ self.now.links }
        ensures limits { IsLinkage self.now }
    {
        self.links.items()
    }

    /// The label of a link that joins two connectors that match.
    pub fn label(&self, link: &Link) -> Label
        requires { Joins (rights_of self.now) (lefts_of self.now) link.now }
        ensures { label_at self.now link.now ≡ Some result }
    {
        let (from, to) = link.ends(self.chosen()).unwrap();
        link_label(&from, &to)
    }

    /// How many positions are unlinked.
    pub fn unused(&self) -> u32
        ensures { result ≡ unlinked self.now }
    {
        self.chosen.items().iter().filter(|o| o.is_none()).count() as u32
    }

    /// The sum of the costs of the chosen disjuncts.
    pub fn cost(&self) -> Cost
        ensures { result ≡ total_cost self.now }
    {
        Cost::of(sum_of_costs(self.chosen.items()))
    }

    /// The sum of `right - left` over the links.
    pub fn length(&self) -> u64
        ensures { result ≡ total_length self.now }
    {
        sum_of_lengths(self.links.items())
    }

    /// The order in which linkages of one problem are listed: the fewest unlinked positions first, then the least cost,
    /// then the least length (these three are link-parser's), then the choice at each position, none before a disjunct,
    /// then the places of the link of each pair of positions, none before a link.
    pub fn compare(&self, other: &Linkage) -> Ordering
        ensures { result ≡ linkage_cmp self.now other.now }
    {
        self.unused()
            .cmp(&other.unused())
            .then(self.cost().cmp(&other.cost()))
            .then(self.length().cmp(&other.length()))
            .then(rank_lists(self.chosen(), other.chosen()))
            .then(compare_ties(self.links(), other.links()))
    }
}

fn is_linkage(chosen: &[Option<Disjunct>], links: &[Link]) -> bool
    ensures { IsTrue result ↔ IsLinkage (record { chosen = chosen.now; links = links.now }) }
{
    chosen.len() <= LINKAGE_POSITIONS
        && links.len() < LINKS_END
        && links.iter().all(|l| l.left < l.right)
        && is_rising(links)
        && chosen.iter().all(|o| has_small_cost(o))
}

fn has_small_cost(choice: &Option<Disjunct>) -> bool
    ensures { IsTrue result ↔ HasSmallCost choice.now }
{
    match choice {
        None => true,
        Some(disjunct) => {
            let cost = disjunct.cost.thousandths();
            cost >= -DISJUNCT_COST && cost <= DISJUNCT_COST
        }
    }
}

fn sum_of_costs(choices: &[Option<Disjunct>]) -> i64
    requires few { length choices.now ≤ LINKAGE_POSITIONS }
    requires small { All HasSmallCost choices.now }
    ensures value { result ≡ cost_sum choices.now }
    ensures within { IsWithinCosts result }
{
    let mut sum: i64 = 0;
    for choice in choices {
        sum += cost_of_choice(choice);
    }
    sum
}

fn cost_of_choice(choice: &Option<Disjunct>) -> i64
    ensures { result ≡ cost_of choice.now }
{
    match choice {
        None => 0,
        Some(disjunct) => disjunct.cost.thousandths(),
    }
}

fn sum_of_lengths(links: &[Link]) -> u64
    requires few { length links.now < 2 ^ 32 }
    requires forward { All IsForward links.now }
    ensures { result ≡ sum_by link_length links.now }
{
    let mut sum: u64 = 0;
    for link in links {
        sum += u64::from(link.right - link.left);
    }
    sum
}

impl Ranked for Option<Disjunct> {
    ghost use Rattle.std.specs.Option.{option_cmp};
    ghost use Rattle.lg_gram.specs.Disjuncts.{disjunct_cmp};
    ghost use Rattle.std.specs.Cmp.Rules.{comparing};
    ghost use Rattle.std.proofs.Common.{rules};

    ghost rank = { option_cmp disjunct_cmp };

    fn rank(&self, other: &Option<Disjunct>) -> Ordering {
        match (self, other) {
            (None, None) => Ordering::Equal,
            (None, Some(_)) => Ordering::Less,
            (Some(_), None) => Ordering::Greater,
            (Some(x), Some(y)) => x.compare(y),
        }
    }

    ghost total = { Prim.search (comparing, rules) depth 12 };
}

fn compare_tie(a: &Link, b: &Link) -> Ordering
    ensures { result ≡ tie_cmp a.now b.now }
{
    b.left
        .cmp(&a.left)
        .then(b.right.cmp(&a.right))
        .then(a.lplace.cmp(&b.lplace).then(a.rplace.cmp(&b.rplace)))
}

fn compare_ties(a: &[Link], b: &[Link]) -> Ordering
    ensures { result ≡ slice_cmp tie_cmp a.now b.now }
{
    for i in 0..a.len().min(b.len()) {
        let order = compare_tie(&a[i], &b[i]);
        if order != Ordering::Equal {
            return order;
        }
    }
    a.len().cmp(&b.len())
}
