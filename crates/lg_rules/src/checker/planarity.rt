//! Planarity: no two links cross.
ghost use Rattle.std.specs.Prelude.{◌↔◌, ◌<◌, ◌^◌, [], length, IsTrue, IfNone, IfSome};
ghost use Rattle.std.specs.List.{All, Contains};
ghost use Rattle.lg_gram.specs.Rules.{IsPlanar};
ghost use Rattle.lg_rules.specs.Least.{IsLeast, IsLeastPair};
ghost use Rattle.lg_rules.specs.Places.{linkage_of};
ghost use Rattle.lg_rules.specs.Checks.{IsSuch, Crosses};
ghost use Rattle.lg_rules.specs.Verdicts.{CrossingAt};

use lg_gram::Link;

/// The least numbers of two links that cross, the one that begins first named first.
pub(super) fn first_crossing(links: &[Link]) -> Option<(u32, u32)>
    requires { length links.now < 2 ^ 32 }
    ensures some { IfSome result (λ c. IsLeastPair (CrossingAt (linkage_of [] links.now)) c.0 c.1) }
    ensures none { IfNone result (IsPlanar (Contains links.now)) }
{
    for (m, link) in links.iter().enumerate() {
        if let Some(n) = first_crossed(links, link) {
            return Some((m as u32, n));
        }
    }
    None
}

fn first_crossed(links: &[Link], link: &Link) -> Option<u32>
    requires { length links.now < 2 ^ 32 }
    ensures some { IfSome result (IsLeast (IsSuch (Crosses link.now) links.now)) }
    ensures none { IfNone result (All (λ l. Crosses link.now l → ⊥) links.now) }
{
    for (n, other) in links.iter().enumerate() {
        if crosses(link, other) {
            return Some(n as u32);
        }
    }
    None
}

fn crosses(link: &Link, other: &Link) -> bool
    ensures { IsTrue result ↔ Crosses link.now other.now }
{
    link.left < other.left && other.left < link.right && link.right < other.right
}
