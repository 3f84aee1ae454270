//! The disjunct that a line shows.

ghost use Rattle.std.specs.Prelude.{◌≡◌, ◌↔◌, Contains, IfOk, IsTrue, MatchOption, Some};
ghost use Rattle.std.specs.FinMap.{get};
ghost use Rattle.lg_gram.specs.Disjuncts.{IsDisjunctOf};
ghost use Rattle.lg_gram.specs.Trees.{tree_of};
ghost use Rattle.lg_gram.specs.declared.disjunct.Disjunct.{Disjunct as Seen};
ghost use Rattle.lg_audit.specs.Printed.{IsPrintedSo, IsPrintedOf, IsPrintedBy};
ghost use Rattle.lg_audit.specs.Pages.{IsShownAs, IsFoundAs};

use crate::linkages::narrow::narrowed;
use crate::linkages::sides::side_text;
use crate::shown::ShownChoice;
use lg_base::{Cost, NoMemory, Text};
use lg_dict::View;
use lg_disj::{expand, see_names};
use lg_gram::law::names_are_written;
use lg_gram::{Disjunct, Formula};
use std::alloc::Global;

/// The disjunct of one of these words that is shown so, if there is one. Of the word's formula only what can be shown so is expanded.
pub(crate) fn choice_of(
    alloc: Global,
    view: &View,
    words: &[Text],
    shown: &ShownChoice<'_>,
) -> Result<Option<Disjunct>, NoMemory>
    ensures { IfOk result (λ r. MatchOption r ((d : Seen) → IsShownAs view.now words.now shown.now d → ⊥) (IsFoundAs view.now words.now shown.now)) }
{
    if !has_word(words, shown.word) {
        return Ok(None);
    }
    match view.get(shown.word) {
        Some(formula) => printed_by(
            alloc,
            shown.word,
            formula,
            shown.left,
            shown.right,
            shown.cost,
        ),
        None => Ok(None),
    }
}

fn has_word(words: &[Text], word: &[u8]) -> bool
    ensures { IsTrue result ↔ Contains words.now word.now }
{
    words.iter().any(|other| is_text(other, word))
}

fn is_text(text: &Text, bytes: &[u8]) -> bool
    ensures { IsTrue result ↔ (text.now ≡ bytes.now) }
{
    text.bytes() == bytes
}

// The disjunct of the formula that is printed so.
fn printed_by(
    alloc: Global,
    word: &[u8],
    formula: &Formula,
    left: &[u8],
    right: &[u8],
    cost: Cost,
) -> Result<Option<Disjunct>, NoMemory>
    ensures { IfOk result (λ r. MatchOption r
        ((d : Seen) → IsDisjunctOf word.now (tree_of formula.now) d → IsPrintedSo left.now right.now cost d → ⊥)
        (IsPrintedBy word.now (tree_of formula.now) left.now right.now cost)) }
{
    names_are_written();
    see_names(formula);
    let word = Text::of(alloc, word)?;
    let narrow = narrowed(alloc, formula, left, right)?;
    let disjuncts = expand(alloc, &word, &narrow)?;
    printed_of(alloc, disjuncts.items(), left, right, cost)
}

// The one of these disjuncts that is printed so.
fn printed_of(
    alloc: Global,
    disjuncts: &[Disjunct],
    left: &[u8],
    right: &[u8],
    cost: Cost,
) -> Result<Option<Disjunct>, NoMemory>
    ensures { IfOk result (λ r. MatchOption r
        ((d : Seen) → Contains disjuncts.now d → IsPrintedSo left.now right.now cost d → ⊥)
        (IsPrintedOf disjuncts.now left.now right.now cost)) }
{
    for disjunct in disjuncts {
        if is_printed_so(alloc, disjunct, left, right, cost)? {
            let copy = copy_of(disjunct)?;
            return Ok(Some(copy));
        }
    }
    Ok(None)
}

fn is_printed_so(
    alloc: Global,
    disjunct: &Disjunct,
    left: &[u8],
    right: &[u8],
    cost: Cost,
) -> Result<bool, NoMemory>
    ensures { IfOk result (λ is. IsTrue is ↔ IsPrintedSo left.now right.now cost disjunct.now) }
{
    let lefts = side_text(alloc, disjunct.left.items())?;
    let rights = side_text(alloc, disjunct.right.items())?;
    Ok(disjunct.cost == cost && lefts.as_slice() == left && rights.as_slice() == right)
}

/// A copy of a disjunct.
pub(crate) fn copy_of(disjunct: &Disjunct) -> Result<Disjunct, NoMemory>
    ensures { IfOk result (λ copy. copy ≡ disjunct.now) }
{
    let copy = disjunct.clone()?;
    Ok(copy)
}
