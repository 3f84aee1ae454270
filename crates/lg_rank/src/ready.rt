//! Parts that are spelled, so that they can be compared.
ghost use Rattle.std.specs.Prelude.{◌≡◌};
ghost use Rattle.std.specs.Cmp.Lexicographic.{slice_cmp};
ghost use Rattle.lg_gram.specs.Linkages.{tie_cmp};
ghost use Rattle.lg_rank.specs.Values.{value_of, value_cmp};

use crate::part::Part;
use crate::small::SmallLink;
use lg_gram::Link;
use std::cmp::Ordering;
use std::marker::Model;

/// A part with its choices and its links. Contracts see the part.
#[derive(Debug, Drop)]
pub struct Ready {
    part: Part,
    choices: Vec<u32>,
    links: Vec<SmallLink>,
}

impl Model for Ready {
    ghost use Rattle.std.specs.Prelude.{◌≡◌};
    ghost use Rattle.std.specs.Coded.{codes};
    ghost use Rattle.lg_rank.specs.contracts.part.Part as p;
    ghost use Rattle.lg_rank.specs.declared.part.Part.{Part as Seen};
    ghost use Rattle.lg_rank.specs.Values.{value_of};

    ghost Value = { Seen };

    ghost coded = { Prim.hlevel (codes, p.the_row.coded) };

    ghost view = { λ r. r.part };

    ghost invariant = { λ r. (r.choices.items ≡ (value_of r.part).choices) × (r.links.items ≡ (value_of r.part).links) };
}

fn compare_tie(a: &Link, b: &Link) -> Ordering
    ensures { result ≡ tie_cmp a.now b.now }
{
    b.left
        .cmp(&a.left)
        .then(b.right.cmp(&a.right))
        .then(a.lplace.cmp(&b.lplace).then(a.rplace.cmp(&b.rplace)))
}

fn compare_links(a: &[SmallLink], b: &[SmallLink]) -> Ordering
    ensures { result ≡ slice_cmp tie_cmp a.now b.now }
{
    for i in 0..a.len().min(b.len()) {
        let order = compare_tie(&a[i].full(), &b[i].full());
        if order != Ordering::Equal {
            return order;
        }
    }
    a.len().cmp(&b.len())
}

impl Ready {
    /// The part with its choices and its links.
    pub fn of(part: Part, choices: Vec<u32>, links: Vec<SmallLink>) -> Ready
        requires choices { choices.items ≡ (value_of part).choices }
        requires links { links.items ≡ (value_of part).links }
        ensures { result ≡ part }
    {
        Ready {
            part,
            choices,
            links,
        }
    }

    /// For each position 0 where it is unlinked and else one more than the number of its disjunct.
    pub fn choices(&self) -> &[u32]
        ensures { result.now ≡ (value_of self.now).choices }
    {
        self.choices.as_slice()
    }

    /// The links in order.
    pub fn links(&self) -> &[SmallLink]
        ensures { result.now ≡ (value_of self.now).links }
    {
        self.links.as_slice()
    }

    /// The part.
    pub fn part(&self) -> &Part
        ensures { result.now ≡ self.now }
    {
        &self.part
    }

    /// The part, without what was spelled.
    pub fn into_part(self) -> Part
        ensures { result ≡ self }
    {
        self.part
    }

    /// The order of two parts of one region.
    pub fn compare(&self, other: &Ready) -> Ordering
        ensures { result ≡ value_cmp (value_of self.now) (value_of other.now) }
    {
        let spans = self.part.span.cmp(&other.part.span);
        let order = self.part.cost.cmp(&other.part.cost).then(spans);
        if order != Ordering::Equal {
            return order;
        }
        let choices = self.choices.as_slice().cmp(other.choices.as_slice());
        choices.then(compare_links(self.links.as_slice(), other.links.as_slice()))
    }
}
