//! The steps of a pass: what each makes of a view, and what it tells.
ghost use Rattle.lg_log.specs.Views.{spent_view, without_first, first_alone, joined};
ghost use Rattle.lg_log.specs.Steps.{Looks, Publishes, Settles};

use crate::view::View;
use atomic_table::{Join, Play, Split};

/// A load of the word just after all that was seen.
pub struct Look;

impl Play<(), View> for Look {
    ghost then = { Looks };
}

/// An exchange of zero for a code, in the word just after all that was seen.
pub struct Publish;

impl Play<(), View> for Publish {
    ghost then = { Publishes };
}

/// The load after a join, which tells what the two passes know of each other.
pub struct Settle;

impl Play<(), View> for Settle {
    ghost then = { Settles };
}

/// The first session goes to a new pass.
pub struct GiveFirst;

impl Split<View> for GiveFirst {
    ghost left = { without_first };

    ghost right = { first_alone };
}

/// One pass takes over what the other knows and carries.
pub struct TakeOver;

impl Join<View> for TakeOver {
    ghost both = { joined };

    ghost spent = { spent_view };
}
