//! From formulas to what is left of them, and back.
ghost use Rattle.std.specs.Prelude.{◌≡◌, ◌⊎◌, IfOk, IfSome};

use crate::words::{Part, Parts};
use lg_base::{List, NoMemory, Text};
use lg_eprune::{PositionExprs, WordExpr, WordExprs};
use lg_gram::Formula;
use std::alloc::Global;

/// The words of the positions, each with a copy of its expression.
pub(crate) fn parts_of<'a>(
    alloc: Global,
    positions: &'a [WordExprs],
) -> Result<Vec<Parts<'a>>, NoMemory>
    ensures { IfOk result (λ parts. parts.items ≡ positions.now) }
{
    let mut parts = Vec::with_capacity(alloc, positions.len())?;
    for words in positions {
        parts.push(parts_of_words(alloc, words.items())?)?;
    }
    Ok(parts)
}

fn parts_of_words<'a>(alloc: Global, words: &'a [WordExpr]) -> Result<Parts<'a>, NoMemory>
    ensures { IfOk result (λ parts. parts ≡ words.now) }
{
    let mut parts = Vec::with_capacity(alloc, words.len())?;
    for word in words {
        parts.push(Part {
            word: &word.word,
            expr: word.formula.expr().copied(alloc)?,
        })?;
    }
    Ok(List::of(parts))
}

/// The words of the positions with the formulas of what is left; those of the whole ones in their place, should one pass a limit, which a part
/// of a formula does not.
pub(crate) fn formulas_of(
    alloc: Global,
    positions: &[WordExprs],
    left: Vec<Parts<'_>>,
) -> Result<PositionExprs, NoMemory>
    ensures { IfOk result (λ all. (all ≡ left.entry.items) ⊎ (all ≡ positions.now)) }
{
    match formulas_left(alloc, left)? {
        Some(all) => Ok(all),
        None => copied(alloc, positions),
    }
}

// The formulas of what is left. None where one passes a limit.
fn formulas_left(alloc: Global, left: Vec<Parts<'_>>) -> Result<Option<PositionExprs>, NoMemory>
    ensures { IfOk result (λ all. IfSome all (λ words. words ≡ left.entry.items)) }
{
    let mut all = Vec::with_capacity(alloc, left.len())?;
    for parts in left {
        let Some(words) = words_left(alloc, parts)? else {
            return Ok(None);
        };
        all.push(words)?;
    }
    Ok(Some(PositionExprs::of(all)))
}

fn words_left(alloc: Global, parts: Parts<'_>) -> Result<Option<WordExprs>, NoMemory>
    ensures { IfOk result (λ all. IfSome all (λ words. words ≡ parts.entry)) }
{
    let mut words = Vec::with_capacity(alloc, parts.items().len())?;
    for part in parts.into_items() {
        let Part { word, expr } = part;
        let Some(formula) = Formula::of(expr) else {
            return Ok(None);
        };
        let word = Text::of(alloc, word.bytes())?;
        words.push(WordExpr { word, formula })?;
    }
    Ok(Some(WordExprs::of(words)))
}

// The same words with the same formulas.
fn copied(alloc: Global, positions: &[WordExprs]) -> Result<PositionExprs, NoMemory>
    ensures { IfOk result (λ copies. copies ≡ positions.now) }
{
    let mut copies = Vec::with_capacity(alloc, positions.len())?;
    for words in positions {
        copies.push(copied_words(alloc, words.items())?)?;
    }
    Ok(PositionExprs::of(copies))
}

fn copied_words(alloc: Global, words: &[WordExpr]) -> Result<WordExprs, NoMemory>
    ensures { IfOk result (λ copies. copies ≡ words.now) }
{
    let mut copies = Vec::with_capacity(alloc, words.len())?;
    for word in words {
        copies.push(WordExpr {
            word: Text::of(alloc, word.word.bytes())?,
            formula: word.formula.copied(alloc)?,
        })?;
    }
    Ok(WordExprs::of(copies))
}
