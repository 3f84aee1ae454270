//! The law of both prunings, and that of idioms.
ghost use Rattle.lg_answer.specs.Alive.{AliveAreKept};
ghost use Rattle.lg_answer.specs.Idioms.{IdiomsStayWhole};

use lg_idiom::{
    chains_are_whole, joints_join_neighbours, plain_linkages_stay, taken_are_chains,
    taken_are_laid_over, taken_are_one,
};

/// Expression pruning takes away no disjunct that power pruning would keep: each connector of a disjunct that is alive is live. The function
/// does nothing: a caller whose proof needs the fact calls it.
pub fn expression_pruning_keeps_what_is_alive()
    ensures { AliveAreKept }
{}

/// Where the dictionary's own formulas have no joint, each problem with the good linkages of a sentence's with idioms uses chains whole or
/// not at all, joins only neighbours by joints, and keeps the linkages of the sentence without idioms. The function does nothing: a caller
/// whose proof needs the fact calls it.
pub(crate) fn idioms_stay_whole()
    ensures { IdiomsStayWhole }
{
    chains_are_whole();
    joints_join_neighbours();
    plain_linkages_stay();
    taken_are_chains();
    taken_are_laid_over();
    taken_are_one();
}
