//! Satisfaction: each connector has a link, and just one unless it is multi.
ghost use Rattle.std.specs.Prelude.{◌≡◌, ◌↔◌, ◌≤◌, Bool, length, IsTrue, IfNone, IfSome};
ghost use Rattle.std.specs.List.{count_by};
ghost use Rattle.std.specs.List.Sorted.{IsStrictlySortedBy};
ghost use Rattle.lg_gram.specs.Limits.{LINKAGE_POSITIONS};
ghost use Rattle.lg_gram.specs.Linkages.{link_cmp};
ghost use Rattle.lg_gram.specs.Rules.{IsSatisfied, HasLink, rights_of, lefts_of};
ghost use Rattle.lg_rules.specs.Least.{IsLeast, IsLeastOfSides, IsLeastPlace};
ghost use Rattle.lg_rules.specs.Places.{HasShortSides, linkage_of};
ghost use Rattle.lg_rules.specs.Checks.{is_at, IsCount, AreServed};
ghost use Rattle.lg_rules.specs.Verdicts.{UnsatisfiedAt};

use crate::sides::stands_at;
use lg_gram::law::links_are_ordered;
use lg_gram::{Connector, Disjunct, Link, side};

/// Position, side (true: the right) and place of the first connector with no link, or with two where it is not multi.
pub(super) fn first_unsatisfied(
    chosen: &[Option<Disjunct>],
    links: &[Link],
) -> Option<(u32, bool, u32)>
    requires few { length chosen.now ≤ LINKAGE_POSITIONS }
    requires short { HasShortSides (linkage_of chosen.now links.now) }
    requires rise { IsStrictlySortedBy link_cmp links.now }
    ensures some { IfSome result (λ c. IsLeastPlace (UnsatisfiedAt (linkage_of chosen.now links.now)) c.0 c.1 c.2) }
    ensures none { let g = linkage_of chosen.now links.now in
        IfNone result (IsSatisfied (rights_of g) (lefts_of g) (HasLink g)) }
{
    for position in 0..chosen.len() as u32 {
        if let Some((right, place)) = first_of_position(chosen, links, position) {
            return Some((position, right, place));
        }
    }
    None
}

fn first_of_position(
    chosen: &[Option<Disjunct>],
    links: &[Link],
    position: u32,
) -> Option<(bool, u32)>
    requires short { HasShortSides (linkage_of chosen.now links.now) }
    requires rise { IsStrictlySortedBy link_cmp links.now }
    ensures some { let g = linkage_of chosen.now links.now in
        IfSome result (λ c. IsLeastOfSides (UnsatisfiedAt g position) c.0 c.1) }
    ensures none { let g = linkage_of chosen.now links.now in
        IfNone result ((right : Bool) → AreServed g position right) }
{
    if let Some(place) = first_of_side(chosen, links, position, false) {
        return Some((false, place));
    }
    if let Some(place) = first_of_side(chosen, links, position, true) {
        return Some((true, place));
    }
    None
}

fn first_of_side(
    chosen: &[Option<Disjunct>],
    links: &[Link],
    position: u32,
    right: bool,
) -> Option<u32>
    requires short { HasShortSides (linkage_of chosen.now links.now) }
    requires rise { IsStrictlySortedBy link_cmp links.now }
    ensures some { IfSome result (IsLeast (UnsatisfiedAt (linkage_of chosen.now links.now) position right)) }
    ensures none { IfNone result (AreServed (linkage_of chosen.now links.now) position right) }
{
    links_are_ordered();
    for (place, connector) in side(chosen, right, position).iter().enumerate() {
        let place = place as u32;
        if !may_have(connector, count_at(links, right, position, place)) {
            return Some(place);
        }
    }
    None
}

// Whether the connector may have so many links.
fn may_have(connector: &Connector, count: usize) -> bool
    ensures { IsTrue result ↔ IsCount connector.now.multi count }
{
    if connector.is_multi() {
        count >= 1
    } else {
        count == 1
    }
}

fn count_at(links: &[Link], right: bool, position: u32, place: u32) -> usize
    ensures { result ≡ count_by (is_at right position place) links.now }
{
    links
        .iter()
        .filter(|link| stands_at(link, right, position, place))
        .count()
}
