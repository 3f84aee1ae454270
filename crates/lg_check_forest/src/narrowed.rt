//! Expression pruning beside a body that is its definition.
use crate::problems::{are_equal, connectors, pair};
use crate::pruned::{Prune, slowly};
use lg_base::Text;
use lg_disj::expand;
use lg_eprune::{PositionExprs, WordExpr, WordExprs, eprune};
use lg_gram::{Disjuncts, Expr, Exprs, Formula, Positions, Problem};
use std::alloc::Global;
use std::test::Fail;

// The connectors of the letters, joined by `&`.
fn choice(alloc: Global, letters: &[u8]) -> Result<Expr, Fail> {
    let mut members = Vec::new(alloc);
    for connector in connectors(alloc, letters)? {
        members.push(Expr::Conn(connector))?;
    }
    Ok(Expr::And(Exprs::of(members)))
}

/// The choices of a word, joined by `or`.
pub fn choices(alloc: Global, word: &str) -> Result<Expr, Fail> {
    let mut members = Vec::new(alloc);
    for letters in word.as_bytes().split(|byte| *byte == b'|') {
        members.push(choice(alloc, letters)?)?;
    }
    Ok(Expr::Or(Exprs::of(members)))
}

// A word with the choices of one word behind those of another.
fn word(alloc: Global, seed: u32) -> Result<WordExprs, Fail> {
    let (first, second) = pair(seed);
    let mut members = Vec::new(alloc);
    members.push(choices(alloc, first)?)?;
    members.push(choices(alloc, second)?)?;
    let formula = Formula::of(Expr::And(Exprs::of(members))).ok_or("no formula")?;
    let mut words = Vec::new(alloc);
    words.push(WordExpr {
        word: Text::of(alloc, b"w")?,
        formula,
    })?;
    Ok(WordExprs::of(words))
}

/// One of a family of sentences of two to eight words.
pub fn sentence(alloc: Global, seed: u32) -> Result<PositionExprs, Fail> {
    let mut rest = seed;
    let mut positions = Vec::new(alloc);
    for _ in 0..2 + seed % 7 {
        positions.push(word(alloc, rest)?)?;
        rest = rest / 5 + seed % 61;
    }
    Ok(PositionExprs::of(positions))
}

/// The problem of these words, at most one a position.
pub fn problem(alloc: Global, sentence: &PositionExprs) -> Result<Problem, Fail> {
    let mut positions = Vec::new(alloc);
    for words in sentence.items() {
        match words.items() {
            [word] => positions.push(expand(alloc, &word.word, &word.formula)?)?,
            _ => positions.push(Disjuncts::of(Vec::new(alloc)))?,
        }
    }
    Ok(Problem::of(Positions::of(positions)).ok_or("no problem")?)
}

// Whether the formulas that are left have the disjuncts that the definition leaves.
fn agrees(alloc: Global, seed: u32) -> Result<bool, Fail> {
    let whole = sentence(alloc, seed)?;
    let slow = slowly(alloc, Prune::Expressions, &problem(alloc, &whole)?)?;
    let live = eprune(alloc, whole)?;
    Ok(are_equal(&problem(alloc, &live)?, &slow))
}

fn all_agree(alloc: Global, from: u32, to: u32) -> Result<bool, Fail> {
    for seed in from..to {
        if !agrees(alloc, seed)? {
            return Ok(false);
        }
    }
    Ok(true)
}

// 500 sentences, in five tests for the time that a test may take.
#[test]
fn as_its_definition(rt: HostRuntime) -> Result<(), Fail> {
    assert!(rt; all_agree(rt.alloc(), 0, 100)?);
    Ok(())
}

#[test]
fn as_its_definition_from_100(rt: HostRuntime) -> Result<(), Fail> {
    assert!(rt; all_agree(rt.alloc(), 100, 200)?);
    Ok(())
}

#[test]
fn as_its_definition_from_200(rt: HostRuntime) -> Result<(), Fail> {
    assert!(rt; all_agree(rt.alloc(), 200, 300)?);
    Ok(())
}

#[test]
fn as_its_definition_from_300(rt: HostRuntime) -> Result<(), Fail> {
    assert!(rt; all_agree(rt.alloc(), 300, 400)?);
    Ok(())
}

#[test]
fn as_its_definition_from_400(rt: HostRuntime) -> Result<(), Fail> {
    assert!(rt; all_agree(rt.alloc(), 400, 500)?);
    Ok(())
}
