//! The problem of a sentence, whole or without the choices that no linkage can use.
ghost use Rattle.std.specs.Prelude.{IfOk};
ghost use Rattle.lg_answer.specs.Steps.{AreOfSentence, HaveProblem, IsNarrowed};
ghost use Rattle.lg_answer.specs.Wide.{IsReady, problem_of};

use crate::expanded::expanded;
use crate::exprs::exprs_in_use;
use crate::wide::Wide;
use lg_base::NoMemory;
use lg_dict::View;
use lg_disj::expressions_have_disjuncts;
use lg_eprune::{eprune, linkages_are_live};
use lg_gram::law::choices_are_counted;
use lg_gram::{Problem, Tokens};
use lg_idiom::added_are_few;
use std::alloc::Global;

/// The problem of these tokens, with idioms or without: a position for each, with the disjuncts of all its words and of what idioms
/// add there, in order and each once. The only error is running out of memory.
pub(crate) fn whole(
    alloc: Global,
    view: &View,
    tokens: &Tokens,
    idioms: bool,
) -> Result<Problem, NoMemory>
    requires listed { AreOfSentence view.now tokens.now }
    ensures { IfOk result (HaveProblem idioms view.now tokens.now) }
{
    expressions_have_disjuncts();
    choices_are_counted();
    added_are_few();
    let words = exprs_in_use(alloc, view, tokens, idioms)?;
    let positions = expanded(alloc, words.items())?;
    Ok(Problem::of_known(positions))
}

/// The words of these tokens, with idioms or without, whose problem has the good linkages of theirs. Their formulas are pruned, so that most of the
/// disjuncts that no linkage uses are never made. The only error is running out of memory.
pub(crate) fn narrowed(
    alloc: Global,
    view: &View,
    tokens: &Tokens,
    idioms: bool,
) -> Result<Wide, NoMemory>
    requires listed { AreOfSentence view.now tokens.now }
    ensures narrowed { IfOk result (λ wide. IsNarrowed idioms view.now tokens.now (problem_of wide)) }
    ensures ready { IfOk result IsReady }
{
    expressions_have_disjuncts();
    linkages_are_live();
    choices_are_counted();
    added_are_few();
    let words = exprs_in_use(alloc, view, tokens, idioms)?;
    let live = eprune(alloc, words)?;
    Ok(Wide::Words(live))
}
