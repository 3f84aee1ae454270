//! Disjuncts that need not be made.
ghost use Rattle.std.specs.Prelude.{◌≡◌};
ghost use Rattle.lg_member.specs.Members.{formed};

use lg_base::Cost;
use lg_gram::{Connector, Disjunct, Word};

/// A disjunct that need not be made: its word, its lists from near to far, and what it costs, each borrowed from where it stands.
///
/// Contracts see the disjunct as `formed`.
#[derive(Clone, Copy)]
pub struct Form<'a> {
    pub word: &'a Word,
    pub left: &'a [Connector],
    pub right: &'a [Connector],
    pub cost: &'a Cost,
}

/// The form of a disjunct that is made.
pub(crate) fn form_of(disjunct: &Disjunct) -> Form<'_>
    ensures { formed result ≡ disjunct.now }
{
    Form {
        word: &disjunct.word,
        left: disjunct.left.items(),
        right: disjunct.right.items(),
        cost: &disjunct.cost,
    }
}
