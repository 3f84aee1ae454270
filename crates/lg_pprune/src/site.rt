//! Sites: the connectors of lists, with where their links may end.
ghost use Rattle.std.specs.Prelude.{◌≡◌, ◌<◌, ◌↔◌, length, IsTrue};
ghost use Rattle.lg_pprune.specs.Sites.{IsSiteOf, IsWider, Meets, MeetsAt, MeetsOn};

use lg_gram::{Connector, matches};
use lg_member::{Side, Wide};

/// A connector at a position, and the positions where its link may end: from one of them up to the end, which is none of
/// them.
#[derive(Clone, Copy, Debug)]
pub(crate) struct Site {
    pub(crate) connector: Connector,
    pub(crate) position: u32,
    pub(crate) from: usize,
    pub(crate) end: usize,
}

/// The site of the connector at a place of a list, which is one to the right, or to the left, among so many words.
pub(crate) fn site_of(side: &Side<'_>, right: bool, words: u32, place: usize) -> Site
    requires { place < length side.now.list.now }
    ensures { IsSiteOf right words side.now.position side.now.list.now place result }
{
    let list = side.list;
    let position = side.position as usize;
    let (from, end) = if right {
        (
            position + place + 1,
            (words as usize + place + 1).saturating_sub(list.len()),
        )
    } else {
        (list.len() - (place + 1), position.saturating_sub(place))
    };
    Site {
        connector: list[place],
        position: side.position,
        from,
        end,
    }
}

/// Whether a site, of a list to the right, or to the left, and one of the other side can be linked, and that one is of the position.
pub(crate) fn meets_at(right: bool, position: usize, site: &Site, other: &Site) -> bool
    ensures { IsTrue result ↔ MeetsAt right position site.now other.now }
{
    other.position as usize == position && meets_on(right, site, other)
}

fn meets_on(right: bool, site: &Site, other: &Site) -> bool
    ensures { IsTrue result ↔ MeetsOn right site.now other.now }
{
    if right {
        meets(site, other)
    } else {
        meets(other, site)
    }
}

// The same, of a site of a list to the right and one of a list to the left.
fn meets(a: &Site, b: &Site) -> bool
    ensures { IsTrue result ↔ Meets a.now b.now }
{
    let left = a.position as usize;
    let right = b.position as usize;
    a.from <= right
        && right < a.end
        && b.from <= left
        && left < b.end
        && matches(&a.connector, &b.connector)
}

impl Wide for Site {
    ghost use Rattle.std.proofs.Common.{arith, refl};

    ghost wider = { IsWider };

    /// Whether what meets the other site meets this one too.
    fn is_wider(&self, site: &Site) -> bool {
        self.position == site.position
            && self.from <= site.from
            && site.end <= self.end
            && is_same_connector(&self.connector, &site.connector)
    }

    ghost itself = { λ s. record { connector = refl; position = refl; from = omega arith; end = omega arith } };
}

fn is_same_connector(a: &Connector, b: &Connector) -> bool
    ensures { IsTrue result ↔ (a.now ≡ b.now) }
{
    a == b
}
