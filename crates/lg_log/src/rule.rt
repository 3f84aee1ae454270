//! What is always true of the words of a log and of all views.
ghost use Rattle.lg_log.specs.Rule.{IsKept, ZeroIsTheEnd, AllSessionsSeeAll, NoSessionTwice, JoinsCompose, JoinsKeepBoth};
ghost use Rattle.lg_log.specs.Views.{first_view};

use crate::view::View;
use atomic_table::TableRule;

/// The rule that each step keeps. The table is told the counts of the sessions.
pub struct LogRule;

impl TableRule<(), View, Vec<u32>> for LogRule {
    ghost holds = { λ counts state. IsKept counts.items state };

    ghost first = { λ counts. first_view counts.items };
}

/// What holds of every log at every time: a pass finds a zero exactly where it has seen the whole history, a pass that carries
/// every session has seen the whole history, and no session is carried by two passes.
pub fn log_laws()
    ensures end { ZeroIsTheEnd }
    ensures whole { AllSessionsSeeAll }
    ensures apart { NoSessionTwice }
{}

/// What holds of a pass that takes over two passes, one after the other: the list of each of the three begins its last list,
/// and what follows there has no code of the sessions that this pass carried. `both` is for the first two, after the second
/// call of `join`; `compose` is for longer rows of calls.
pub fn joins_compose()
    ensures compose { JoinsCompose }
    ensures both { JoinsKeepBoth }
{}
