//! What chains add to the positions of a sentence.
ghost use Rattle.std.specs.Prelude.{◌≡◌, ◌+◌, [], true, length, All, IfOk, OnOk};
ghost use Rattle.lg_idiom.specs.Steps.{covers, added_by};
ghost use Rattle.lg_idiom.specs.Sentences.{AreAddedTo, HasAdded, LiesWithin, rows};

use crate::chain::Chain;
use lg_base::{NoMemory, Text};
use lg_eprune::{PositionExprs, WordExpr, WordExprs};
use std::alloc::Global;

/// What these chains add to each of so many positions, in their order. The time is linear in the positions and in what is
/// added.
pub(crate) fn positions_of(
    alloc: Global,
    chains: &[Chain],
    count: usize,
) -> Result<PositionExprs, NoMemory>
    requires { All (LiesWithin count) chains.now }
    ensures { IfOk result (AreAddedTo chains.now count) }
{
    let mut positions = empty(alloc, count)?;
    for chain in chains {
        add(alloc, &mut positions, chain)?;
    }
    listed(alloc, positions)
}

// So many positions without words.
fn empty(alloc: Global, count: usize) -> Result<Vec<Vec<WordExpr>>, NoMemory>
    ensures { IfOk result (λ positions. AreAddedTo [] count (rows positions.items)) }
{
    let mut positions = Vec::with_capacity(alloc, count)?;
    for _position in 0..count {
        positions.push(Vec::new(alloc))?;
    }
    Ok(positions)
}

// Adds to each position of a chain what it adds there.
fn add(alloc: Global, positions: &mut [Vec<WordExpr>], chain: &Chain) -> Result<(), NoMemory>
    requires { LiesWithin (length positions.old) chain.now }
    ensures { OnOk result (HasAdded chain.now (chain.now.start + chain.now.count) (rows positions.old) (rows positions.new)) }
{
    for position in chain.start()..chain.end() {
        let word = added_by(alloc, chain, position)?;
        positions[position].push(word)?;
    }
    Ok(())
}

fn added_by(alloc: Global, chain: &Chain, position: usize) -> Result<WordExpr, NoMemory>
    requires { covers position chain.now ≡ true }
    ensures { IfOk result (λ word. word ≡ added_by position chain.now) }
{
    let formula = chain.formula_at(alloc, position - chain.start())?;
    let word = Text::of(alloc, chain.word())?;
    Ok(WordExpr { word, formula })
}

// The same positions as lists.
fn listed(alloc: Global, positions: Vec<Vec<WordExpr>>) -> Result<PositionExprs, NoMemory>
    ensures { IfOk result (λ lists. lists ≡ rows positions.items) }
{
    let mut lists = Vec::with_capacity(alloc, positions.len())?;
    for words in positions {
        lists.push(WordExprs::of(words))?;
    }
    Ok(PositionExprs::of(lists))
}
