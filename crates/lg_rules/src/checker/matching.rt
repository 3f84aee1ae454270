//! Matching: each link joins two connectors that match.
ghost use Rattle.std.specs.Prelude.{◌≡◌, ◌↔◌, ◌<◌, ◌^◌, [], length, IsTrue, IfNone, IfSome};
ghost use Rattle.lg_gram.specs.Rules.{Joins, IsMatched, HasLink, rights_of, lefts_of};
ghost use Rattle.lg_rules.specs.Least.{IsLeast};
ghost use Rattle.lg_rules.specs.Places.{ArePlaced, linkage_of};
ghost use Rattle.lg_rules.specs.Verdicts.{UnmatchedAt};

use lg_gram::{Disjunct, Link, matches};

/// The least number of a link whose connectors do not match.
pub(super) fn first_unmatched(chosen: &[Option<Disjunct>], links: &[Link]) -> Option<u32>
    requires few_links { length links.now < 2 ^ 32 }
    requires placed { ArePlaced (linkage_of chosen.now links.now) }
    ensures some { IfSome result (IsLeast (UnmatchedAt (linkage_of chosen.now links.now))) }
    ensures none { let g = linkage_of chosen.now links.now in
        IfNone result (IsMatched (rights_of g) (lefts_of g) (HasLink g)) }
{
    for (n, link) in links.iter().enumerate() {
        if !joins(chosen, link) {
            return Some(n as u32);
        }
    }
    None
}

fn joins(chosen: &[Option<Disjunct>], link: &Link) -> bool
    ensures { let g = linkage_of chosen.now [] in IsTrue result ↔ Joins (rights_of g) (lefts_of g) link.now }
{
    match link.ends(chosen) {
        Some((a, b)) => matches(&a, &b),
        None => false,
    }
}
