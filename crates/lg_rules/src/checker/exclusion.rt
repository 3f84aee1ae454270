//! Exclusion: no two links join the same two positions.
ghost use Rattle.std.specs.Prelude.{◌≡◌, ◌≢◌, ◌↔◌, ◌<◌, ◌^◌, ℕ, Some, [], length, slice_get, IsTrue, IfNone, IfSome};
ghost use Rattle.std.specs.List.{Contains};
ghost use Rattle.lg_gram.specs.Rules.{IsExclusive};
ghost use Rattle.lg_gram.specs.declared.linkage.Link.{Link};
ghost use Rattle.lg_rules.specs.Least.{IsLeast, IsLeastPair};
ghost use Rattle.lg_rules.specs.Places.{linkage_of};
ghost use Rattle.lg_rules.specs.Checks.{IsSuch, IsTwin};
ghost use Rattle.lg_rules.specs.Verdicts.{TwiceAt};

use lg_gram::Link;

/// The least numbers of two links with the same two positions.
pub(super) fn first_twins(links: &[Link]) -> Option<(u32, u32)>
    requires { length links.now < 2 ^ 32 }
    ensures some { IfSome result (λ c. IsLeastPair (TwiceAt (linkage_of [] links.now)) c.0 c.1) }
    ensures none { IfNone result (IsExclusive (Contains links.now)) }
{
    for (m, link) in links.iter().enumerate() {
        if let Some(n) = first_twin(links, m, link) {
            return Some((m as u32, n));
        }
    }
    None
}

// The first link but the one of number m that has the positions of this one.
fn first_twin(links: &[Link], m: usize, link: &Link) -> Option<u32>
    requires { length links.now < 2 ^ 32 }
    ensures some { IfSome result (IsLeast (λ n. (m ≢ n) × IsSuch (IsTwin link.now) links.now n)) }
    ensures none { IfNone result ((n : ℕ) (l : Link) → m ≢ n → slice_get links.now n ≡ Some l → IsTwin link.now l → ⊥) }
{
    for (n, other) in links.iter().enumerate() {
        if n != m && is_twin(link, other) {
            return Some(n as u32);
        }
    }
    None
}

fn is_twin(link: &Link, other: &Link) -> bool
    ensures { IsTrue result ↔ IsTwin link.now other.now }
{
    link.left == other.left && link.right == other.right
}
