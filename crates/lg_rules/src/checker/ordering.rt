//! Ordering: what is joined at an earlier place of a side is nearer.
ghost use Rattle.std.specs.Prelude.{◌≡◌, ◌↔◌, ◌≤◌, ℕ, Bool, [], length, IsTrue, IfNone, IfSome};
ghost use Rattle.std.specs.List.{Any, Contains};
ghost use Rattle.lg_gram.specs.Limits.{LINKAGE_POSITIONS};
ghost use Rattle.lg_gram.specs.Linkages.{link_length};
ghost use Rattle.lg_gram.specs.Rules.{IsOrdered, HasLink};
ghost use Rattle.lg_rules.specs.Least.{IsLeast, IsLeastOfSides, IsLeastPlace};
ghost use Rattle.lg_rules.specs.Places.{ArePlaced, HasShortSides, linkage_of};
ghost use Rattle.lg_rules.specs.Checks.{IsOutdone};
ghost use Rattle.lg_rules.specs.Verdicts.{OrderAt};

use crate::sides::stands_at;
use lg_gram::{Disjunct, Link, side};

/// Position, side (true: the right) and place of the first connector that joins a word not nearer than a word joined at
/// a later place of that side.
pub(super) fn first_disorder(
    chosen: &[Option<Disjunct>],
    links: &[Link],
) -> Option<(u32, bool, u32)>
    requires few { length chosen.now ≤ LINKAGE_POSITIONS }
    requires short { HasShortSides (linkage_of chosen.now links.now) }
    requires placed { ArePlaced (linkage_of chosen.now links.now) }
    ensures some { IfSome result (λ c. IsLeastPlace (OrderAt (linkage_of chosen.now links.now)) c.0 c.1 c.2) }
    ensures none { IfNone result (IsOrdered (HasLink (linkage_of chosen.now links.now))) }
{
    for position in 0..chosen.len() as u32 {
        if let Some((right, place)) = first_of_position(chosen, links, position) {
            return Some((position, right, place));
        }
    }
    None
}

fn first_of_position(
    chosen: &[Option<Disjunct>],
    links: &[Link],
    position: u32,
) -> Option<(bool, u32)>
    requires short { HasShortSides (linkage_of chosen.now links.now) }
    requires placed { ArePlaced (linkage_of chosen.now links.now) }
    ensures some { let g = linkage_of chosen.now links.now in
        IfSome result (λ c. IsLeastOfSides (OrderAt g position) c.0 c.1) }
    ensures none { let g = linkage_of chosen.now links.now in
        IfNone result ((right : Bool) (place : ℕ) → OrderAt g position right place → ⊥) }
{
    if let Some(place) = first_of_side(chosen, links, position, false) {
        return Some((false, place));
    }
    if let Some(place) = first_of_side(chosen, links, position, true) {
        return Some((true, place));
    }
    None
}

fn first_of_side(
    chosen: &[Option<Disjunct>],
    links: &[Link],
    position: u32,
    right: bool,
) -> Option<u32>
    requires short { HasShortSides (linkage_of chosen.now links.now) }
    requires placed { ArePlaced (linkage_of chosen.now links.now) }
    ensures some { IfSome result (IsLeast (OrderAt (linkage_of chosen.now links.now) position right)) }
    ensures none { let g = linkage_of chosen.now links.now in
        IfNone result ((place : ℕ) → OrderAt g position right place → ⊥) }
{
    for place in 0..side(chosen, right, position).len() as u32 {
        if is_disordered(links, position, right, place) {
            return Some(place);
        }
    }
    None
}

// Whether some link at the place joins a word not nearer than one joined at a later place.
fn is_disordered(links: &[Link], position: u32, right: bool, place: u32) -> bool
    ensures { IsTrue result ↔ OrderAt (linkage_of [] links.now) position right place }
{
    links.iter().any(|link| stands_at(link, right, position, place)
        && is_outdone(links, right, link))
}

// Whether some link at a later place of the link's own side is not longer.
fn is_outdone(links: &[Link], right: bool, link: &Link) -> bool
    ensures { IsTrue result ↔ Any (IsOutdone right link.now) links.now }
{
    links.iter().any(|other| outdoes(other, right, link))
}

fn outdoes(other: &Link, right: bool, link: &Link) -> bool
    ensures { IsTrue result ↔ IsOutdone right link.now other.now }
{
    let is_later = if right {
        other.left == link.left && link.lplace < other.lplace
    } else {
        other.right == link.right && link.rplace < other.rplace
    };
    is_later && span(other) <= span(link)
}

fn span(link: &Link) -> u32
    ensures { result ≡ link_length link.now }
{
    link.right.saturating_sub(link.left)
}
