//! The ranked listing beside the slow lister and beside all linkages of a forest.
ghost use Rattle.std.specs.Prelude.{ℕ};
ghost use Rattle.lg_forest.specs.Forests.{IsForest};

use crate::problems::{are_same, made, problem};
use lg_base::Steps;
use lg_forest::{Forest, solve, solve_at, spell_all};
use lg_gram::{Linkage, Problem};
use lg_rank::Ranked;
use lg_rules::{PLAIN_POSITIONS, plain_list};
use std::alloc::Global;
use std::test::Fail;
use std::thread::Threads;

// More linkages than a problem of the tests has.
const MOST: usize = 1_000_000;

/// All that is listed by the forest, one by one.
pub fn listed(alloc: Global, problem: Problem, forest: Forest) -> Result<Vec<Linkage>, Fail>
    requires { (from : ℕ) × IsForest problem from forest }
{
    let mut ranked = Ranked::new(alloc, problem, forest)?;
    let mut list = Vec::new(alloc);
    for _ in 0..MOST {
        match ranked.next(alloc)? {
            Some(linkage) => list.push(linkage)?,
            None => return Ok(list),
        }
    }
    Err("too many linkages")?
}

// Whether the slow lister, the forest and the ranked listing have the same linkages in the same order.
fn agrees<R: Threads + Sync>(rt: &R, alloc: Global, problem: Problem) -> Result<bool, Fail> {
    if problem.positions().len() > PLAIN_POSITIONS {
        return Err("too many positions")?;
    }
    let plain = plain_list(alloc, &problem)?;
    let forest = solve(rt, alloc, &problem, 1, &mut Steps::start())?;
    let all = spell_all(alloc, &problem, &forest)?;
    let list = listed(alloc, problem, forest)?;
    Ok(are_same(all.as_slice(), plain.as_slice()) && are_same(list.as_slice(), plain.as_slice()))
}

fn all_agree<R: Threads + Sync>(rt: &R, alloc: Global, from: u32, to: u32) -> Result<bool, Fail> {
    for seed in from..to {
        let problem = made(alloc, seed)?;
        if !agrees(rt, alloc, problem)? {
            return Ok(false);
        }
    }
    Ok(true)
}

// Sentences of which each shows one rule: all words linked, none, one under a link, two links of one pair, connectors that take
// more links, disjuncts without connectors, no words, and chains.
const SENTENCES: [&[&str]; 12] = [
    &["D", "dS|do", "sO", "D", "dS|do"],
    &["S|o", "s"],
    &["D", "S|o", "sO", "dS|do"],
    &["D", "dS|do", "S|o", "s"],
    &["AB", "ab"],
    &["A|B", "a|b"],
    &["A", "A", "|@a"],
    &["@A@A", "a", "a", "a"],
    &["", ""],
    &[],
    &["|X|x|xX", "|X|x|xX", "|X|x|xX", "|X|x|xX"],
    &["A|B", "aA|aB|bA|bB", "aA|aB|bA|bB", "a|b"],
];

#[test]
fn as_the_slow_lister_by_rules(rt: HostRuntime) -> Result<(), Fail> {
    let alloc = rt.alloc();
    for words in SENTENCES {
        assert!(rt; agrees(&rt, alloc, problem(alloc, words)?)?);
    }
    Ok(())
}

// 500 problems, in five tests for the time that a test may take.
#[test]
fn as_the_slow_lister(rt: HostRuntime) -> Result<(), Fail> {
    assert!(rt; all_agree(&rt, rt.alloc(), 0, 100)?);
    Ok(())
}

#[test]
fn as_the_slow_lister_from_100(rt: HostRuntime) -> Result<(), Fail> {
    assert!(rt; all_agree(&rt, rt.alloc(), 100, 200)?);
    Ok(())
}

#[test]
fn as_the_slow_lister_from_200(rt: HostRuntime) -> Result<(), Fail> {
    assert!(rt; all_agree(&rt, rt.alloc(), 200, 300)?);
    Ok(())
}

#[test]
fn as_the_slow_lister_from_300(rt: HostRuntime) -> Result<(), Fail> {
    assert!(rt; all_agree(&rt, rt.alloc(), 300, 400)?);
    Ok(())
}

#[test]
fn as_the_slow_lister_from_400(rt: HostRuntime) -> Result<(), Fail> {
    assert!(rt; all_agree(&rt, rt.alloc(), 400, 500)?);
    Ok(())
}

fn level_agrees(alloc: Global, seed: u32, nulls: u32) -> Result<bool, Fail> {
    let problem = made(alloc, seed)?;
    if nulls as usize > problem.positions().len() {
        return Ok(true);
    }
    let forest = solve_at(alloc, &problem, nulls, &mut Steps::start())?;
    let all = spell_all(alloc, &problem, &forest)?;
    let list = listed(alloc, problem, forest)?;
    Ok(are_same(list.as_slice(), all.as_slice()))
}

#[test]
fn each_level(rt: HostRuntime) -> Result<(), Fail> {
    for seed in 0..100 {
        for nulls in 0..9 {
            assert!(rt; level_agrees(rt.alloc(), seed, nulls)?, "{seed} {nulls}");
        }
    }
    Ok(())
}

// The listing of the problem of a seed, with so many unlinked words.
fn ranked_at(alloc: Global, seed: u32, nulls: u32) -> Result<Ranked, Fail> {
    let problem = made(alloc, seed)?;
    if nulls as usize > problem.positions().len() {
        return Err("too many unlinked words")?;
    }
    let forest = solve_at(alloc, &problem, nulls, &mut Steps::start())?;
    Ok(Ranked::new(alloc, problem, forest)?)
}

fn next_of(alloc: Global, ranked: &mut Ranked) -> Result<Option<Linkage>, Fail> {
    if ranked.position() > MOST as u64 {
        return Err("too many linkages")?;
    }
    Ok(ranked.next(alloc)?)
}

fn passes_one(alloc: Global, ranked: &mut Ranked) -> Result<bool, Fail> {
    if ranked.position() > MOST as u64 {
        return Err("too many linkages")?;
    }
    Ok(ranked.pass(alloc)?)
}

// All that is listed from here on.
fn all_of(alloc: Global, ranked: &mut Ranked) -> Result<Vec<Linkage>, Fail> {
    let mut list = Vec::new(alloc);
    for _ in 0..MOST {
        match next_of(alloc, ranked)? {
            Some(linkage) => list.push(linkage)?,
            None => return Ok(list),
        }
    }
    Err("too many linkages")?
}

// Whether nothing is left to be passed over or taken, and both change nothing.
fn has_ended(alloc: Global, ranked: &mut Ranked, count: usize) -> Result<bool, Fail> {
    if passes_one(alloc, ranked)? || ranked.position() != count as u64 {
        return Ok(false);
    }
    Ok(next_of(alloc, ranked)?.is_none() && ranked.position() == count as u64)
}

// Passes over so many linkages and takes one, again and again: whether each is the one that stands there in the list, up to its end.
fn goes_on_as(
    alloc: Global,
    ranked: &mut Ranked,
    list: &[Linkage],
    passed: usize,
) -> Result<bool, Fail> {
    let mut rest = passed;
    for linkage in list {
        let agrees = if rest > 0 {
            rest -= 1;
            passes_one(alloc, ranked)?
        } else {
            rest = passed;
            is_next(alloc, ranked, linkage)?
        };
        if !agrees {
            return Ok(false);
        }
    }
    has_ended(alloc, ranked, list.len())
}

fn is_next(alloc: Global, ranked: &mut Ranked, linkage: &Linkage) -> Result<bool, Fail> {
    match next_of(alloc, ranked)? {
        Some(next) => Ok(next.chosen() == linkage.chosen() && next.links() == linkage.links()),
        None => Ok(false),
    }
}

// Whether passing over each number of linkages, up to all that there are, leaves those behind them.
fn passing_agrees(alloc: Global, seed: u32, nulls: u32) -> Result<bool, Fail> {
    let mut first = ranked_at(alloc, seed, nulls)?;
    let list = all_of(alloc, &mut first)?;
    for passed in 1..list.len() + 1 {
        let mut ranked = ranked_at(alloc, seed, nulls)?;
        if !goes_on_as(alloc, &mut ranked, list.as_slice(), passed)? {
            return Ok(false);
        }
    }
    Ok(true)
}

// Of these problems 40 have several linkages.
#[test]
fn passing_over(rt: HostRuntime) -> Result<(), Fail> {
    for seed in 0..100 {
        for nulls in 0..3 {
            assert!(rt; passing_agrees(rt.alloc(), seed, nulls)?, "{seed} {nulls}");
        }
    }
    Ok(())
}

// The level of as many unlinked words as there are words has the linkage that links nothing, and no other one.
#[test]
fn all_words_unlinked(rt: HostRuntime) -> Result<(), Fail> {
    let alloc = rt.alloc();
    let problem = problem(alloc, &["S|o", "s"])?;
    assert_eq!(rt; problem.positions().len(), 2);
    let forest = solve_at(alloc, &problem, 2, &mut Steps::start())?;
    let mut ranked = Ranked::new(alloc, problem, forest)?;
    assert_eq!(rt; ranked.nulls(), 2);
    assert!(rt; ranked.next(alloc)?.is_some());
    assert_eq!(rt; ranked.position(), 1);
    assert!(rt; ranked.next(alloc)?.is_none());
    assert_eq!(rt; ranked.position(), 1);
    Ok(())
}
