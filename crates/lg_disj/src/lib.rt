//! The disjuncts of a word: the ways to use it that its formula stands for, each once and at its least cost.
#![tactic(auto)]

ghost use Rattle.std.specs.Prelude.{◌≤◌, length, IfOk};
ghost use Rattle.std.specs.List.{All};
ghost use Rattle.lg_gram.specs.Limits.{FORMULA_CHOICES};
ghost use Rattle.lg_gram.specs.Trees.{tree_of};
ghost use Rattle.lg_gram.specs.Measures.{choice_count};
ghost use Rattle.lg_gram.specs.Disjuncts.{AreDisjuncts};
ghost use Rattle.lg_gram.specs.Problems.{FitsProblem};
ghost use Rattle.lg_disj.specs.Outlines.{disjuncts_in};

mod arena;
mod arrange;
mod cheapest;
mod choices;
mod guesses;
pub mod law;
mod lists;
mod names;
mod numbers;
pub mod outline;
mod outlining;
mod product;
mod ranks;

use crate::arena::Choices;
use crate::cheapest::cheapest;
use crate::choices::choices_of;
use crate::guesses::Guesses;
use crate::outlining::outline_of;
pub use law::expressions_have_disjuncts;
use lg_base::{NoMemory, Text};
use lg_gram::law::choices_are_counted;
use lg_gram::{Disjuncts, Formula};
pub use names::see_names;
pub use outline::{Line, Outline};
use std::alloc::Global;

/// The disjuncts of a word: the distinct pairs of lists among the choices of its formula, each at its least cost,
/// strictly increasing by left list and right list.
///
/// There are at most 1,000,000, since a formula has no more choices. A disjunct has at most 255 connectors on a side, and
/// its cost is at most 10^13 thousandths from zero. The call fails only where memory runs out. Its memory grows in
/// proportion to the choices and their lengths, and so does its time, but for lists that are copied once for each member
/// of an `&` behind them that has a connector, and for two sorts: of the distinct lists, and of the choices by the
/// numbers of their lists.
pub fn expand(alloc: Global, word: &Text, formula: &Formula) -> Result<Disjuncts, NoMemory>
    ensures disjuncts { IfOk result (λ ds. AreDisjuncts word.now (tree_of formula.now) ds) }
    ensures fits { IfOk result (λ ds. All FitsProblem ds) }
    ensures few { IfOk result (λ ds. length ds ≤ choice_count (tree_of formula.now)) }
    ensures limit { IfOk result (λ ds. length ds ≤ FORMULA_CHOICES) }
{
    let outline = outlined(alloc, word, formula)?;
    outline.disjuncts(alloc)
}

/// The same in outline: no disjunct is made. Where most of them are taken away again, that takes less time and memory.
pub fn outlined(alloc: Global, word: &Text, formula: &Formula) -> Result<Outline, NoMemory>
    ensures disjuncts { IfOk result (λ o. AreDisjuncts word.now (tree_of formula.now) (disjuncts_in o)) }
    ensures fits { IfOk result (λ o. All FitsProblem (disjuncts_in o)) }
    ensures few { IfOk result (λ o. length (disjuncts_in o) ≤ choice_count (tree_of formula.now)) }
    ensures limit { IfOk result (λ o. length (disjuncts_in o) ≤ FORMULA_CHOICES) }
{
    choices_are_counted();
    let mut leaves = Vec::new(alloc);
    let mut all = Choices::new(alloc);
    let mut guesses = Guesses::new();
    choices_of(alloc, formula.expr(), &mut leaves, &mut guesses, &mut all)?;
    let kept = cheapest(alloc, &leaves, all)?;
    outline_of(alloc, word, &leaves, &kept)
}
