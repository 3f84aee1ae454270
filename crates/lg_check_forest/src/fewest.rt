//! The least number of unlinked words, beside that of a search level by level.
use crate::problems::{made, problem};
use lg_base::Steps;
use lg_fewest::fewest;
use lg_forest::solve;
use lg_gram::Problem;
use std::alloc::Global;
use std::test::Fail;
use std::thread::Threads;

// What `solve` finds is what `fewest` finds.
fn agrees<R: Threads + Sync>(rt: &R, alloc: Global, problem: &Problem) -> Result<bool, Fail> {
    let least = fewest(alloc, problem)?;
    let forest = solve(rt, alloc, problem, 1, &mut Steps::start())?;
    Ok(least == forest.unused())
}

fn all_agree<R: Threads + Sync>(rt: &R, alloc: Global, from: u32, to: u32) -> Result<bool, Fail> {
    for seed in from..to {
        let problem = made(alloc, seed)?;
        if !agrees(rt, alloc, &problem)? {
            return Ok(false);
        }
    }
    Ok(true)
}

#[test]
fn of_a_family(rt: HostRuntime) -> Result<(), Fail> {
    assert!(rt; all_agree(&rt, rt.alloc(), 0, 400)?);
    Ok(())
}

#[test]
fn of_few_words(rt: HostRuntime) -> Result<(), Fail> {
    let alloc = rt.alloc();
    let all = problem(alloc, &["a", "B"])?;
    assert_eq!(rt; fewest(alloc, &all)?, 2);
    let none = problem(alloc, &["S|o", "s"])?;
    assert_eq!(rt; fewest(alloc, &none)?, 0);
    let middle = problem(alloc, &["S|o", "b", "s"])?;
    assert_eq!(rt; fewest(alloc, &middle)?, 1);
    Ok(())
}

// Words that are unlinked before, between and behind linked ones.
#[test]
fn of_a_long_problem(rt: HostRuntime) -> Result<(), Fail> {
    let alloc = rt.alloc();
    let long = problem(
        alloc,
        &[
            "b", "A", "c", "a", "A", "A", "A", "A", "a", "D", "d", "A|a", "A|a", "b",
        ],
    )?;
    assert!(rt; agrees(&rt, alloc, &long)?);
    Ok(())
}
