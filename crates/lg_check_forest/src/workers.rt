//! The forest by several workers beside the one that the caller finds alone.
use crate::problems::problem;
use indexmap::IndexMap;
use lg_base::{Own, Steps};
use lg_forest::{Forest, solve, solve_at, solve_at_by};
use lg_gram::Problem;
use lg_region::{Alt, Alts, Key};
use std::alloc::Global;
use std::test::Fail;
use std::thread::Threads;

// More keys than a forest of the tests has.
const MOST: usize = 1_000_000;

// The keys that are still to be looked at, and those that were.
#[derive(Drop)]
struct Walk {
    waiting: Vec<Key>,
    met: IndexMap<Key, bool>,
}

impl Walk {
    fn meet(&mut self, key: Option<Key>) -> Result<(), Fail> {
        if let Some(key) = key {
            if self.met.get(&key).is_none() {
                self.met.insert(key, true)?;
                self.waiting.push(key)?;
            }
        }
        Ok(())
    }

    // Whether both lists are the same. Meets the keys of each alternative.
    fn compare(&mut self, first: &Alts, second: &Alts) -> Result<bool, Fail> {
        if first.len() != second.len() {
            return Ok(false);
        }
        for index in 0..first.len() {
            let alt = first.get(index);
            if alt != second.get(index) {
                return Ok(false);
            }
            if let Alt::Split { lkey, rkey, .. } = alt {
                self.meet(lkey)?;
                self.meet(rkey)?;
            }
        }
        Ok(true)
    }
}

// Whether both forests have the same alternatives for every key that a walk from the whole sentence meets.
fn are_same(alloc: Global, first: &Forest, second: &Forest) -> Result<bool, Fail> {
    let mut walk = Walk {
        waiting: Vec::new(alloc),
        met: IndexMap::new(alloc),
    };
    walk.meet(Some(Key::Whole {
        nulls: first.unused(),
    }))?;
    for _ in 0..MOST {
        let Some(key) = walk.waiting.pop() else {
            return Ok(first.nodes() == second.nodes());
        };
        let same = match (first.alts(&key), second.alts(&key)) {
            (Some(one), Some(other)) => walk.compare(one, other)?,
            (one, other) => one.is_none() && other.is_none(),
        };
        if !same {
            return Ok(false);
        }
    }
    Err("too many keys")?
}

// 122 words, each of which is linked to the next one in two ways.
fn chain(alloc: Global) -> Result<Problem, Fail> {
    let mut words = ["aA|aB|bA|bB"; 122];
    words[0] = "A|B";
    words[121] = "a|b";
    problem(alloc, &words)
}

// The forest by so many workers, and the steps of the caller.
fn solved<R: Threads + Sync>(
    rt: &R,
    alloc: Global,
    problem: &Problem,
    workers: u32,
) -> Result<(Forest, u128), Fail> {
    if workers < 1 || workers > 16 {
        return Err("no number of workers")?;
    }
    let mut steps = Steps::<Own>::start();
    let forest = solve(rt, alloc, problem, workers, &mut steps)?;
    Ok((forest, steps.count()))
}

#[test]
fn four_workers_save_steps(rt: HostRuntime) -> Result<(), Fail> {
    let alloc = rt.alloc();
    let problem = chain(alloc)?;
    let (alone, all) = solved(&rt, alloc, &problem, 1)?;
    let (shared, fewer) = solved(&rt, alloc, &problem, 4)?;
    assert!(rt; fewer < all);
    assert!(rt; are_same(alloc, &alone, &shared)?);
    Ok(())
}

#[test]
fn sixteen_workers(rt: HostRuntime) -> Result<(), Fail> {
    let alloc = rt.alloc();
    let problem = chain(alloc)?;
    let (alone, _all) = solved(&rt, alloc, &problem, 1)?;
    let (shared, _fewer) = solved(&rt, alloc, &problem, 16)?;
    assert!(rt; are_same(alloc, &alone, &shared)?);
    Ok(())
}

#[test]
fn workers_at_one_number(rt: HostRuntime) -> Result<(), Fail> {
    let alloc = rt.alloc();
    let problem = chain(alloc)?;
    if problem.positions().is_empty() {
        return Err("no words")?;
    }
    let mut steps = Steps::<Own>::start();
    let alone = solve_at(alloc, &problem, 1, &mut steps)?;
    let mut fewer = Steps::<Own>::start();
    let shared = solve_at_by(&rt, alloc, &problem, 1, 4, &mut fewer)?;
    assert!(rt; fewer.count() < steps.count());
    assert!(rt; are_same(alloc, &alone, &shared)?);
    Ok(())
}
