//! What the lister looks at before it goes on. Where a test fails, no good linkage is left to find there.
ghost use Rattle.std.specs.Prelude.{◌≡◌, ◌↔◌, ℕ, ◌<◌, ◌≤◌, length, IsTrue};
ghost use Rattle.std.specs.List.{All, Any};
ghost use Rattle.lg_gram.specs.Connectors.{Match};
ghost use Rattle.lg_gram.specs.Limits.{LINKAGE_POSITIONS};
ghost use Rattle.lg_gram.specs.Rules.{right_list};
ghost use Rattle.lg_rules.specs.Partners.{FitsChoice, right_at, left_at};
ghost use Rattle.lg_rules.specs.Prunes.{HasPartner, CanStand, HasRight, HasLeft, AllReached, IsCovered, IsUncrossed, IsInOrder, IsAlone, AreCompatible};

use crate::list::candidates::{left_at, right_at, rights};
use lg_gram::{Connector, Disjunct, Link, matches};

fn offers(choice: &Option<Disjunct>, connector: &Connector) -> bool
    ensures { IsTrue result ↔ Any (λ a. Match a connector.now) (right_list choice.now) }
{
    rights(choice).iter().any(|a| matches(a, connector))
}

#[tactic(auto, unfolding(crate::specs::Prunes::HasPartner))]
fn has_partner(chosen: &[Option<Disjunct>], connector: &Connector) -> bool
    ensures { IsTrue result ↔ HasPartner chosen.now connector.now }
{
    chosen.iter().any(|choice| offers(choice, connector))
}

fn have_partners(chosen: &[Option<Disjunct>], connectors: &[Connector]) -> bool
    ensures { IsTrue result ↔ All (HasPartner chosen.now) connectors.now }
{
    connectors
        .iter()
        .all(|connector| has_partner(chosen, connector))
}

/// Whether the next word, before so many more, can use the disjunct: neither side has more connectors than there are
/// positions on that side, and each connector to its left has one that matches among the words chosen so far.
pub(crate) fn can_stand(chosen: &[Option<Disjunct>], after: usize, disjunct: &Disjunct) -> bool
    ensures { IsTrue result ↔ CanStand chosen.now after disjunct.now }
{
    let left = disjunct.left.items();
    left.len() <= chosen.len()
        && disjunct.right.items().len() <= after
        && have_partners(chosen, left)
}

#[tactic(auto, unfolding(crate::specs::Prunes::HasRight))]
fn has_right(links: &[Link], position: u32, place: u32) -> bool
    ensures { IsTrue result ↔ HasRight links.now position place }
{
    links
        .iter()
        .any(|l| l.left == position && l.lplace == place)
}

#[tactic(auto, unfolding(crate::specs::Prunes::HasLeft))]
fn has_left(links: &[Link], position: u32, place: u32) -> bool
    ensures { IsTrue result ↔ HasLeft links.now position place }
{
    links
        .iter()
        .any(|l| l.right == position && l.rplace == place)
}

fn right_reached(links: &[Link], position: u32, places: u32) -> bool
    ensures { IsTrue result ↔ ((p : ℕ) → p < places → HasRight links.now position p) }
{
    for place in 0..places {
        if !has_right(links, position, place) {
            return false;
        }
    }
    true
}

fn left_reached(links: &[Link], position: u32, places: u32) -> bool
    ensures { IsTrue result ↔ ((p : ℕ) → p < places → HasLeft links.now position p) }
{
    for place in 0..places {
        if !has_left(links, position, place) {
            return false;
        }
    }
    true
}

/// Whether each connector of the choice has one of the links.
pub(crate) fn all_reached(chosen: &[Option<Disjunct>], links: &[Link]) -> bool
    requires positions { length chosen.now ≤ LINKAGE_POSITIONS }
    requires fit { All FitsChoice chosen.now }
    ensures { IsTrue result ↔ AllReached chosen.now links.now }
{
    for position in 0..chosen.len() as u32 {
        if !right_reached(links, position, right_at(chosen, position).len() as u32) {
            return false;
        }
        if !left_reached(links, position, left_at(chosen, position).len() as u32) {
            return false;
        }
    }
    true
}

/// Whether both places of a link that is left out have another one, taken or to come.
pub(crate) fn is_covered(taken: &[Link], later: &[Link], link: &Link) -> bool
    ensures { IsTrue result ↔ IsCovered taken.now later.now link.now }
{
    (has_right(taken, link.left, link.lplace) || has_right(later, link.left, link.lplace))
        && (has_left(taken, link.right, link.rplace) || has_left(later, link.right, link.rplace))
}

fn is_uncrossed(a: &Link, b: &Link) -> bool
    ensures { IsTrue result ↔ IsUncrossed a.now b.now }
{
    !(a.left < b.left && b.left < a.right && a.right < b.right)
}

fn is_in_order(a: &Link, b: &Link) -> bool
    ensures { IsTrue result ↔ IsInOrder a.now b.now }
{
    !(a.left == b.left && a.lplace < b.lplace && a.right >= b.right)
        && !(a.right == b.right && a.rplace < b.rplace && b.left >= a.left)
}

fn is_alone(a: &Link, b: &Link) -> bool
    ensures { IsTrue result ↔ IsAlone a.now b.now }
{
    a.left != b.left || a.right != b.right || a == b
}

fn are_compatible(a: &Link, b: &Link) -> bool
    ensures { IsTrue result ↔ AreCompatible a.now b.now }
{
    is_uncrossed(a, b)
        && is_uncrossed(b, a)
        && is_in_order(a, b)
        && is_in_order(b, a)
        && is_alone(a, b)
}

/// Whether the link can stand beside each of those that are taken.
pub(crate) fn fits(taken: &[Link], link: &Link) -> bool
    ensures { IsTrue result ↔ All (λ t. AreCompatible t link.now) taken.now }
{
    taken.iter().all(|t| are_compatible(t, link))
}
