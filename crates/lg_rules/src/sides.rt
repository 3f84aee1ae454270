//! Whether a link stands at a place of a side.
ghost use Rattle.std.specs.Prelude.{◌≡◌};
ghost use Rattle.lg_rules.specs.Checks.{is_at};

use lg_gram::Link;

/// Whether the link stands at this place of this side (true: the right) of the position.
pub(crate) fn stands_at(link: &Link, right: bool, position: u32, place: u32) -> bool
    ensures { result ≡ is_at right position place link.now }
{
    if right {
        link.left == position && link.lplace == place
    } else {
        link.right == position && link.rplace == place
    }
}
