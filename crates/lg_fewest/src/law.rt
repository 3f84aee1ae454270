//! A law of spans, the contract of a function without a body.
ghost use Rattle.std.specs.Prelude.{List};
ghost use Rattle.lg_gram.specs.Connectors.{Connector};
ghost use Rattle.lg_gram.specs.declared.disjunct.Disjunct.{Disjunct};
ghost use Rattle.lg_region.specs.Fronts.{AreListsOf};
ghost use Rattle.lg_fewest.specs.Least.{SumsDecide};

use lg_region::law::{alternatives_decide, cuts_are_valid, numbers_tell_lists_apart};

/// The numbers of unlinked words of the linkages of a span are the sums over its cuts, and those of the sentence the sums over its
/// first linked words.
pub(crate) fn sums_decide()
    ensures { (positions : List (List Disjunct)) (lists : List (List Connector)) → AreListsOf positions lists → SumsDecide (record { positions = positions; lists = lists }) }
{
    alternatives_decide();
    cuts_are_valid();
    numbers_tell_lists_apart();
}
