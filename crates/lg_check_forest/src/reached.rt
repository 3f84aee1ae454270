//! Formulas within reach: beside the whole ones, and by hand.
use crate::narrowed::{choices, problem, sentence};
use crate::problems::are_same;
use crate::sharpened::{expect_counts, level};
use lg_base::Text;
use lg_eprune::{PositionExprs, WordExpr, WordExprs, eprune};
use lg_gram::{Formula, Problem};
use lg_reach::within_reach;
use std::alloc::Global;
use std::test::Fail;

// Whether the formulas within reach have the same linkages with so many unlinked words.
fn agrees(alloc: Global, seed: u32, nulls: u32) -> Result<bool, Fail> {
    let whole = sentence(alloc, seed)?;
    if nulls as usize > whole.items().len() {
        return Ok(true);
    }
    let near = within_reach(alloc, whole.items(), nulls)?;
    let all = level(alloc, &problem(alloc, &whole)?, nulls)?;
    let left = level(alloc, &problem(alloc, &near)?, nulls)?;
    Ok(are_same(left.as_slice(), all.as_slice()))
}

fn all_agree(alloc: Global, from: u32, to: u32) -> Result<bool, Fail> {
    for seed in from..to {
        for nulls in 0..4 {
            if !agrees(alloc, seed, nulls)? {
                return Ok(false);
            }
        }
    }
    Ok(true)
}

// 300 sentences, in three tests for the time that a test may take.
#[test]
fn as_the_whole_formulas(rt: HostRuntime) -> Result<(), Fail> {
    assert!(rt; all_agree(rt.alloc(), 0, 100)?);
    Ok(())
}

#[test]
fn as_the_whole_formulas_from_100(rt: HostRuntime) -> Result<(), Fail> {
    assert!(rt; all_agree(rt.alloc(), 100, 200)?);
    Ok(())
}

#[test]
fn as_the_whole_formulas_from_200(rt: HostRuntime) -> Result<(), Fail> {
    assert!(rt; all_agree(rt.alloc(), 200, 300)?);
    Ok(())
}

// A word a position, with these choices.
fn by_hand(alloc: Global, words: &[&str]) -> Result<PositionExprs, Fail> {
    let mut positions = Vec::new(alloc);
    for word in words {
        let mut exprs = Vec::new(alloc);
        exprs.push(WordExpr {
            word: Text::of(alloc, b"w")?,
            formula: Formula::of(choices(alloc, *word)?).ok_or("no formula")?,
        })?;
        positions.push(WordExprs::of(exprs))?;
    }
    Ok(PositionExprs::of(positions))
}

// What is within reach with so many unlinked words.
fn near(alloc: Global, words: &[&str], nulls: u32) -> Result<Problem, Fail> {
    let sentence = by_hand(alloc, words)?;
    problem(alloc, &within_reach(alloc, sentence.items(), nulls)?)
}

// `B+ & A+` wants its `A` farther than its `B`, where no word stands; then nothing wants the last word, which each choice matches.
#[test]
fn no_word_is_far_enough(rt: HostRuntime) -> Result<(), Fail> {
    let alloc = rt.alloc();
    let live = eprune(alloc, by_hand(alloc, &["BA|A", "a", "b"])?)?;
    expect_counts(&rt, &problem(alloc, &live)?, [2, 1, 1]);
    let near = within_reach(alloc, live.items(), 3)?;
    expect_counts(&rt, &problem(alloc, &near)?, [1, 1, 0]);
    Ok(())
}

// `C- & B-` of the last word reaches the first word by its `C`, so its `B` would have to reach past the front.
#[test]
fn no_word_is_before_the_first(rt: HostRuntime) -> Result<(), Fail> {
    let alloc = rt.alloc();
    let left = near(alloc, &["C", "B", "cb|bc"], 3)?;
    expect_counts(&rt, &left, [1, 1, 1]);
    Ok(())
}

// The word under the link has no partner, so the gap is filled only where one word may be unlinked.
#[test]
fn gaps_are_filled(rt: HostRuntime) -> Result<(), Fail> {
    let alloc = rt.alloc();
    expect_counts(&rt, &near(alloc, &["A", "X", "a"], 0)?, [0, 0, 0]);
    expect_counts(&rt, &near(alloc, &["A", "X", "a"], 1)?, [1, 0, 1]);
    Ok(())
}

// The word under the link links with the other end of that link, which is not the nearest there.
#[test]
fn filled_gaps_stay(rt: HostRuntime) -> Result<(), Fail> {
    let alloc = rt.alloc();
    expect_counts(&rt, &near(alloc, &["A", "X", "xa"], 0)?, [1, 1, 1]);
    Ok(())
}

// The word under the link needs none, but then nothing joins it to the others.
#[test]
fn nothing_is_under_the_nearest_of_both(rt: HostRuntime) -> Result<(), Fail> {
    let alloc = rt.alloc();
    expect_counts(&rt, &near(alloc, &["A", "", "a"], 0)?, [0, 1, 0]);
    expect_counts(&rt, &near(alloc, &["A", "", "a"], 1)?, [1, 1, 1]);
    Ok(())
}
