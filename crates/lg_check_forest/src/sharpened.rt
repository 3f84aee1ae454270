//! Sharper problems beside those that they stand for, level by level.
use crate::problems::{are_same, drawn, padded, padded_problem};
use crate::ranked::listed;
use lg_base::Steps;
use lg_forest::{solve_at, spell_all};
use lg_gram::{Linkage, Problem};
use lg_sharpen::{sharpen, sharpened};
use std::alloc::Global;
use std::process::Abort;
use std::test::Fail;

/// All linkages with exactly so many unlinked words.
pub fn level(alloc: Global, problem: &Problem, nulls: u32) -> Result<Vec<Linkage>, Fail> {
    if nulls as usize > problem.positions().len() {
        return Err("too many unlinked words")?;
    }
    let forest = solve_at(alloc, problem, nulls, &mut Steps::start())?;
    Ok(spell_all(alloc, problem, &forest)?)
}

// Whether the problem that is sharpened for so many unlinked words has the same linkages with as many.
fn agrees(alloc: Global, seed: u32, nulls: u32) -> Result<bool, Fail> {
    let problem = padded(alloc, seed)?;
    if nulls as usize > problem.positions().len() {
        return Ok(true);
    }
    let whole = level(alloc, &problem, nulls)?;
    let sharp = sharpen(alloc, problem, nulls)?;
    let left = level(alloc, &sharp, nulls)?;
    Ok(are_same(left.as_slice(), whole.as_slice()))
}

fn all_agree(alloc: Global, from: u32, to: u32) -> Result<bool, Fail> {
    for seed in from..to {
        for nulls in 0..9 {
            if !agrees(alloc, seed, nulls)? {
                return Ok(false);
            }
        }
    }
    Ok(true)
}

#[test]
fn each_level(rt: HostRuntime) -> Result<(), Fail> {
    assert!(rt; all_agree(rt.alloc(), 0, 100)?);
    Ok(())
}

// The linkages with exactly so many unlinked words, as they are listed.
fn in_order(alloc: Global, problem: Problem, nulls: u32) -> Result<Vec<Linkage>, Fail> {
    if nulls as usize > problem.positions().len() {
        return Err("too many unlinked words")?;
    }
    let forest = solve_at(alloc, &problem, nulls, &mut Steps::start())?;
    listed(alloc, problem, forest)
}

// Whether the problem that is sharpened for at most so many unlinked words lists these linkages, which have this number of them.
fn lists(alloc: Global, seed: u32, most: u32, nulls: u32, list: &[Linkage]) -> Result<bool, Fail> {
    let problem = drawn(alloc, seed)?;
    let sharp = sharpened(alloc, &problem, most)?.ok_or("too small to be sharpened")?;
    let left = in_order(alloc, sharp, nulls)?;
    Ok(are_same(left.as_slice(), list))
}

// The most unlinked words that problems are sharpened for here.
const MOST: u32 = 2;

// Whether the problem of a seed and all that are sharper list the same linkages with so many unlinked words.
fn lists_agree(alloc: Global, seed: u32, nulls: u32) -> Result<bool, Fail> {
    let problem = drawn(alloc, seed)?;
    let whole = in_order(alloc, problem, nulls)?;
    for most in nulls..MOST + 1 {
        if !lists(alloc, seed, most, nulls, whole.as_slice())? {
            return Ok(false);
        }
    }
    Ok(true)
}

fn all_lists_agree(alloc: Global, from: u32, to: u32) -> Result<bool, Fail> {
    for seed in from..to {
        for nulls in 0..MOST + 1 {
            if !lists_agree(alloc, seed, nulls)? {
                return Ok(false);
            }
        }
    }
    Ok(true)
}

// 500 problems, in five tests for the time that a test may take.
#[test]
fn as_the_whole_problem(rt: HostRuntime) -> Result<(), Fail> {
    assert!(rt; all_lists_agree(rt.alloc(), 0, 100)?);
    Ok(())
}

#[test]
fn as_the_whole_problem_from_100(rt: HostRuntime) -> Result<(), Fail> {
    assert!(rt; all_lists_agree(rt.alloc(), 100, 200)?);
    Ok(())
}

#[test]
fn as_the_whole_problem_from_200(rt: HostRuntime) -> Result<(), Fail> {
    assert!(rt; all_lists_agree(rt.alloc(), 200, 300)?);
    Ok(())
}

#[test]
fn as_the_whole_problem_from_300(rt: HostRuntime) -> Result<(), Fail> {
    assert!(rt; all_lists_agree(rt.alloc(), 300, 400)?);
    Ok(())
}

#[test]
fn as_the_whole_problem_from_400(rt: HostRuntime) -> Result<(), Fail> {
    assert!(rt; all_lists_agree(rt.alloc(), 400, 500)?);
    Ok(())
}

/// Wants so many disjuncts at each of three positions.
pub fn expect_counts<R: Abort>(rt: &R, problem: &Problem, counts: [usize; 3]) {
    match problem.positions() {
        [first, second, third] => {
            assert!(rt; first.items().len() == counts[0]);
            assert!(rt; second.items().len() == counts[1]);
            assert!(rt; third.items().len() == counts[2]);
        }
        _ => assert!(rt; false),
    }
}

// A link of two connectors that are the nearest on their sides leaves the words between them unlinked.
#[test]
fn no_word_between(rt: HostRuntime) -> Result<(), Fail> {
    let alloc = rt.alloc();
    let problem = padded_problem(alloc, "A|B", &["bA", "a"])?;
    let sharp = sharpen(alloc, problem, 0)?;
    expect_counts(&rt, &sharp, [1, 1, 1]);
    Ok(())
}

#[test]
fn one_word_between(rt: HostRuntime) -> Result<(), Fail> {
    let alloc = rt.alloc();
    let problem = padded_problem(alloc, "A|B", &["b", "a"])?;
    let sharp = sharpen(alloc, problem, 1)?;
    expect_counts(&rt, &sharp, [2, 1, 1]);
    Ok(())
}
