//! The checker: the rules in turn, each with its least case.
ghost use Rattle.std.specs.Prelude.{◌≡◌, ◌≤◌, ◌↔◌, length};
ghost use Rattle.std.specs.List.Sorted.{IsStrictlySortedBy};
ghost use Rattle.lg_gram.specs.Limits.{LINKAGE_POSITIONS};
ghost use Rattle.lg_gram.specs.Linkages.{link_cmp};
ghost use Rattle.lg_gram.specs.Rules.{Good};
ghost use Rattle.lg_rules.specs.Places.{IsOf, ArePlaced, HasShortSides, linkage_of};
ghost use Rattle.lg_rules.specs.Verdicts.{IsVerdict, IsSound};

mod connectivity;
mod exclusion;
mod matching;
mod ordering;
mod planarity;
mod satisfaction;

use crate::verdict::Verdict;
use lg_gram::law::links_are_ordered;
use lg_gram::{Disjunct, Link, Linkage, Problem};

/// The first rule that the linkage breaks, at its least case: matching, satisfaction, planarity, connectivity,
/// exclusion and ordering, in this order; Good exactly where it keeps all of them.
pub fn check(problem: &Problem, g: &Linkage) -> Verdict
    requires { IsOf problem.now g.now }
    ensures verdict { IsVerdict g.now result }
    ensures good { (result ≡ Verdict.Good) ↔ Good problem.now g.now }
{
    let positions = problem.positions();
    let chosen = g.chosen();
    prove!(chosen.len() == positions.len());
    verdict_of(chosen, g.links())
}

/// The same of choices and links that are no linkage's yet. Without short sides a place might have no number of 32 bits.
pub(crate) fn verdict_of(chosen: &[Option<Disjunct>], links: &[Link]) -> Verdict
    requires few { length chosen.now ≤ LINKAGE_POSITIONS }
    requires short { HasShortSides (linkage_of chosen.now links.now) }
    requires placed { ArePlaced (linkage_of chosen.now links.now) }
    requires rise { IsStrictlySortedBy link_cmp links.now }
    ensures verdict { IsVerdict (linkage_of chosen.now links.now) result }
    ensures good { (result ≡ Verdict.Good) ↔ IsSound (linkage_of chosen.now links.now) }
{
    links_are_ordered();
    if let Some(link) = matching::first_unmatched(chosen, links) {
        return Verdict::Unmatched(link);
    }
    if let Some((position, right, place)) = satisfaction::first_unsatisfied(chosen, links) {
        return Verdict::Unsatisfied(position, right, place);
    }
    if let Some((outer, inner)) = planarity::first_crossing(links) {
        return Verdict::Crossing(outer, inner);
    }
    if let Some(position) = connectivity::first_apart(chosen, links) {
        return Verdict::Apart(position);
    }
    if let Some((one, other)) = exclusion::first_twins(links) {
        return Verdict::Twice(one, other);
    }
    if let Some((position, right, place)) = ordering::first_disorder(chosen, links) {
        return Verdict::Order(position, right, place);
    }
    Verdict::Good
}
