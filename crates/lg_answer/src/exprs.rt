//! The words of a sentence with their formulas.
ghost use Rattle.std.specs.Prelude.{◌≡◌, ◌++◌, All, IfOk, OnOk};
ghost use Rattle.lg_gram.specs.Trees.{tree_of};
ghost use Rattle.lg_answer.specs.Steps.{AreOfSentence, AreNamed, AreWordTrees, AddsTree, AreWordTreesFor, AreExprsInUse, behind};

use lg_base::{NoMemory, Text};
use lg_dict::View;
use lg_disj::see_names;
use lg_eprune::{PositionExprs, WordExpr, WordExprs};
use lg_gram::{Formula, Token, Tokens};
use lg_idiom::idioms;
use std::alloc::Global;

/// The words of each token with their formulas; where idioms are in use, behind them what these add there. The only error is
/// running out of memory.
pub(crate) fn exprs_in_use(
    alloc: Global,
    view: &View,
    tokens: &Tokens,
    with_idioms: bool,
) -> Result<PositionExprs, NoMemory>
    requires listed { AreOfSentence view.now tokens.now }
    ensures { IfOk result (AreExprsInUse with_idioms view.now tokens.now) }
{
    let words = exprs_of(alloc, view, tokens.items())?;
    if !with_idioms {
        return Ok(words);
    }
    let added = idioms(alloc, view, tokens)?;
    see_positions(added.items());
    let all = both(alloc, words, added)?;
    Ok(all)
}

// The words of each token with their formulas.
fn exprs_of(alloc: Global, view: &View, tokens: &[Token]) -> Result<PositionExprs, NoMemory>
    ensures { IfOk result (AreWordTreesFor view.now tokens.now) }
{
    let mut positions = Vec::with_capacity(alloc, tokens.len())?;
    for token in tokens {
        positions.push(words_of(alloc, view, token.words.items())?)?;
    }
    Ok(PositionExprs::of(positions))
}

fn words_of(alloc: Global, view: &View, words: &[Text]) -> Result<WordExprs, NoMemory>
    ensures { IfOk result (AreWordTrees view.now words.now) }
{
    let mut all = Vec::new(alloc);
    for word in words {
        add_expr(alloc, view, word, &mut all)?;
    }
    Ok(WordExprs::of(all))
}

// Adds a word with its formula, if the dictionary has it.
fn add_expr(
    alloc: Global,
    view: &View,
    word: &Text,
    all: &mut Vec<WordExpr>,
) -> Result<(), NoMemory>
    ensures { OnOk result (AddsTree view.now word.now all.old.items all.new.items) }
{
    match view.get(word.bytes()) {
        Some(formula) => {
            see_names(formula);
            let expr = expr_of(alloc, word, formula)?;
            all.push(expr)?;
            Ok(())
        }
        None => Ok(()),
    }
}

fn expr_of(alloc: Global, word: &Text, formula: &Formula) -> Result<WordExpr, NoMemory>
    ensures { IfOk result (λ e. e ≡ record { word = word.now; tree = tree_of formula.now }) }
{
    let word = Text::of(alloc, word.bytes())?;
    let formula = formula.copied(alloc)?;
    Ok(WordExpr { word, formula })
}

// The connectors of all these formulas have names. The functions change nothing.
fn see_positions(positions: &[WordExprs])
    ensures { All AreNamed positions.now }
{
    for words in positions {
        see_words(words.items());
    }
}

fn see_words(words: &[WordExpr])
    ensures { AreNamed words.now }
{
    for word in words {
        see_names(&word.formula);
    }
}

// The words of each position, and behind them what is added there.
fn both(
    alloc: Global,
    words: PositionExprs,
    added: PositionExprs,
) -> Result<PositionExprs, NoMemory>
    ensures { IfOk result (λ all. all ≡ behind words added) }
{
    let mut all = Vec::with_capacity(alloc, words.items().len())?;
    for (own, more) in words.into_items().into_iter().zip(added.into_items()) {
        all.push(joined(own, more)?)?;
    }
    Ok(PositionExprs::of(all))
}

fn joined(words: WordExprs, added: WordExprs) -> Result<WordExprs, NoMemory>
    ensures { IfOk result (λ all. all ≡ words ++ added) }
{
    let mut all = words.into_items();
    let mut more = added.into_items();
    all.append(&mut more)?;
    Ok(WordExprs::of(all))
}
