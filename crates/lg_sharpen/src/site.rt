//! Sites: the connectors of lists, with how far away their partners may be.
ghost use Rattle.std.specs.Prelude.{◌≡◌, ◌↔◌, ◌≤◌, ◌+◌, true, IsTrue};
ghost use Rattle.std.specs.List.{All};
ghost use Rattle.lg_sharpen.specs.Sites.{IsOpen, IsWider, MatchOn, MeetsOver, StaysUnder};

use lg_gram::{Connector, matches};
use lg_member::Wide;

/// How many words away a partner may be: from one distance up to the end, which is none of them.
#[derive(Clone, Copy)]
pub(crate) struct Span {
    pub(crate) from: u32,
    pub(crate) end: u32,
}

/// A connector of a list, and how far away its partners may be.
#[derive(Clone, Copy)]
pub(crate) struct Site {
    pub(crate) connector: Connector,
    pub(crate) span: Span,
    /// It is the first of its list, and each of its links is the nearest: it takes one link alone.
    pub(crate) nearest: bool,
    /// A connector stands behind it on its list, whose links are farther.
    pub(crate) later: bool,
    /// How long each link of the connector before it is at least; 0 where there is none.
    pub(crate) before: u32,
    /// More than the length of some link of a connector behind it, where there is one.
    pub(crate) behind: u32,
    /// How long some link of its position to the other side is at least; 0 where there may be none.
    pub(crate) need: u32,
}

/// Whether each of the sites has a distance left.
pub(crate) fn are_open(sites: &[Site]) -> bool
    ensures { IsTrue result ↔ All IsOpen sites.now }
{
    sites.iter().all(|s| s.span.from < s.span.end)
}

/// Whether two sites over this distance, the first of a list to the right, or to the left, can be linked, where the other may, or
/// may not, have its nearest link over the distance.
pub(crate) fn meets(right: bool, lone: bool, distance: u32, site: &Site, other: &Site) -> bool
    ensures { IsTrue result ↔ MeetsOver right lone distance site.now other.now }
{
    other.span.from <= distance
        && distance < other.span.end
        && implies(other.nearest, lone)
        && are_not_both(site.later, other.later)
        && has_room(site.before, other.before, distance)
        && stays_under(site, other, distance)
        && stays_under(other, site, distance)
        && matches_on(right, &site.connector, &other.connector)
}

// Links of later places on both sides of a link would cross.
fn are_not_both(a: bool, b: bool) -> bool
    ensures { IsTrue result ↔ (a ≡ true → b ≡ true → ⊥) }
{
    !(a && b)
}

// Links of earlier places on both sides of a link may meet, and do not cross.
fn has_room(a: u32, b: u32, distance: u32) -> bool
    ensures { IsTrue result ↔ (a + b ≤ distance) }
{
    u64::from(a) + u64::from(b) <= u64::from(distance)
}

// A link behind the site's goes farther than those of the other's position that lead away from it, since they would cross.
fn stays_under(site: &Site, other: &Site, distance: u32) -> bool
    ensures { IsTrue result ↔ StaysUnder site.now other.now distance }
{
    !site.later || u64::from(distance) + u64::from(other.need) < u64::from(site.behind)
}

fn matches_on(right: bool, a: &Connector, b: &Connector) -> bool
    ensures { IsTrue result ↔ MatchOn right a.now b.now }
{
    if right { matches(a, b) } else { matches(b, a) }
}

impl Wide for Site {
    ghost use Rattle.std.proofs.Common.{arith, refl};

    ghost wider = { IsWider };

    /// Whether what meets the other site meets this one too.
    fn is_wider(&self, site: &Site) -> bool {
        self.span.from <= site.span.from
            && site.span.end <= self.span.end
            && implies(self.nearest, site.nearest)
            && implies(self.later, site.later)
            && self.before <= site.before
            && site.behind <= self.behind
            && self.need <= site.need
            && is_same_connector(&self.connector, &site.connector)
    }

    ghost itself = { λ s. record { from = omega arith; end = omega arith; nearest = λ n. n; later = λ n. n; before = omega arith; behind = omega arith; need = omega arith; connector = refl } };
}

fn implies(wide: bool, nearest: bool) -> bool
    ensures { IsTrue result ↔ (wide ≡ true → nearest ≡ true) }
{
    !wide || nearest
}

fn is_same_connector(a: &Connector, b: &Connector) -> bool
    ensures { IsTrue result ↔ (a.now ≡ b.now) }
{
    a == b
}
