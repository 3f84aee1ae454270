//! Power pruning beside a body that is its definition, and the linkages of what it leaves.
ghost use Rattle.std.specs.Prelude.{◌<◌, length};

use crate::problems::{are_equal, are_same, made, problem};
use lg_base::Steps;
use lg_forest::{solve, spell_all};
use lg_gram::{Connector, Disjunct, Disjuncts, Positions, Problem, matches};
use lg_pprune::pprune;
use lg_rules::{PLAIN_POSITIONS, plain_list};
use std::alloc::Global;
use std::test::Fail;
use std::thread::Threads;

// A connector with its position, its place on its side, and how many connectors the side has from it on.
#[derive(Clone, Copy)]
struct Site<'a> {
    position: usize,
    place: usize,
    rest: usize,
    connector: &'a Connector,
}

// Which set of disjuncts is wanted.
#[derive(Clone, Copy)]
pub enum Prune {
    /// That of expression pruning: partners stand on the side that a connector points to.
    Expressions,
    /// That of power pruning: there is room between partners and beside them for the links of the connectors before and behind them.
    Power,
}

// Whether one to the right and one to the left can be linked, among so many positions.
fn are_partners(prune: Prune, positions: usize, right: Site<'_>, left: Site<'_>) -> bool {
    if !matches(right.connector, left.connector) {
        return false;
    }
    match prune {
        Prune::Expressions => right.position < left.position,
        Prune::Power => have_room(positions, right, left),
    }
}

fn have_room(positions: usize, right: Site<'_>, left: Site<'_>) -> bool {
    left.position.saturating_sub(right.position) > right.place.max(left.place)
        && right.rest <= positions.saturating_sub(left.position)
        && left.rest <= right.position.saturating_add(1)
}

fn site_at(position: usize, place: usize, connectors: &[Connector]) -> Option<Site<'_>> {
    let connector = connectors.get(place)?;
    Some(Site {
        position,
        place,
        rest: connectors.len().saturating_sub(place),
        connector,
    })
}

// Whether some disjunct has a partner on its left side of this connector to the right.
fn has_left_partner(prune: Prune, problem: &Problem, right: Site<'_>) -> bool {
    let positions = problem.positions();
    for j in 0..positions.len() {
        for disjunct in positions[j].items() {
            let connectors = disjunct.left.items();
            for q in 0..connectors.len() {
                if let Some(left) = site_at(j, q, connectors) {
                    if are_partners(prune, positions.len(), right, left) {
                        return true;
                    }
                }
            }
        }
    }
    false
}

fn has_right_partner(prune: Prune, problem: &Problem, left: Site<'_>) -> bool {
    let positions = problem.positions();
    for i in 0..positions.len() {
        for disjunct in positions[i].items() {
            let connectors = disjunct.right.items();
            for p in 0..connectors.len() {
                if let Some(right) = site_at(i, p, connectors) {
                    if are_partners(prune, positions.len(), right, left) {
                        return true;
                    }
                }
            }
        }
    }
    false
}

// Whether each connector of the disjunct has a partner.
fn is_supported(prune: Prune, problem: &Problem, position: usize, disjunct: &Disjunct) -> bool {
    let right = disjunct.right.items();
    for p in 0..right.len() {
        if let Some(site) = site_at(position, p, right) {
            if !has_left_partner(prune, problem, site) {
                return false;
            }
        }
    }
    let left = disjunct.left.items();
    for q in 0..left.len() {
        if let Some(site) = site_at(position, q, left) {
            if !has_right_partner(prune, problem, site) {
                return false;
            }
        }
    }
    true
}

// The disjuncts of a position that are supported.
fn supported(
    alloc: Global,
    prune: Prune,
    problem: &Problem,
    position: usize,
) -> Result<Disjuncts, Fail>
    requires { position < length problem.now }
{
    let mut kept = Vec::new(alloc);
    for disjunct in problem.positions()[position].items() {
        if is_supported(prune, problem, position, disjunct) {
            kept.push(disjunct.clone()?)?;
        }
    }
    Ok(Disjuncts::of(kept))
}

fn round(alloc: Global, prune: Prune, problem: &Problem) -> Result<Problem, Fail> {
    let mut positions = Vec::new(alloc);
    for i in 0..problem.positions().len() {
        positions.push(supported(alloc, prune, problem, i)?)?;
    }
    Ok(Problem::of(Positions::of(positions)).ok_or("no problem")?)
}

/// Rounds of taking away what is not supported, until nothing is taken away.
pub fn slowly(alloc: Global, prune: Prune, problem: &Problem) -> Result<Problem, Fail> {
    let mut last = round(alloc, prune, problem)?;
    for _ in 0..1000 {
        let next = round(alloc, prune, &last)?;
        if are_equal(&next, &last) {
            return Ok(next);
        }
        last = next;
    }
    Err("too many rounds")?
}

// Whether pruning leaves what its definition says, with the linkages of the whole problem.
fn agrees<R: Threads + Sync>(rt: &R, alloc: Global, seed: u32) -> Result<bool, Fail> {
    let whole = made(alloc, seed)?;
    if whole.positions().len() > PLAIN_POSITIONS {
        return Err("too many positions")?;
    }
    let plain = plain_list(alloc, &whole)?;
    let slow = slowly(alloc, Prune::Power, &whole)?;
    let pruned = pprune(alloc, whole)?;
    if !are_equal(&pruned, &slow) {
        return Ok(false);
    }
    let forest = solve(rt, alloc, &pruned, 1, &mut Steps::start())?;
    let all = spell_all(alloc, &pruned, &forest)?;
    Ok(are_same(all.as_slice(), plain.as_slice()))
}

fn all_agree<R: Threads + Sync>(rt: &R, alloc: Global, from: u32, to: u32) -> Result<bool, Fail> {
    for seed in from..to {
        if !agrees(rt, alloc, seed)? {
            return Ok(false);
        }
    }
    Ok(true)
}

// 500 problems, in five tests for the time that a test may take.
#[test]
fn as_its_definition(rt: HostRuntime) -> Result<(), Fail> {
    assert!(rt; all_agree(&rt, rt.alloc(), 0, 100)?);
    Ok(())
}

#[test]
fn as_its_definition_from_100(rt: HostRuntime) -> Result<(), Fail> {
    assert!(rt; all_agree(&rt, rt.alloc(), 100, 200)?);
    Ok(())
}

#[test]
fn as_its_definition_from_200(rt: HostRuntime) -> Result<(), Fail> {
    assert!(rt; all_agree(&rt, rt.alloc(), 200, 300)?);
    Ok(())
}

#[test]
fn as_its_definition_from_300(rt: HostRuntime) -> Result<(), Fail> {
    assert!(rt; all_agree(&rt, rt.alloc(), 300, 400)?);
    Ok(())
}

#[test]
fn as_its_definition_from_400(rt: HostRuntime) -> Result<(), Fail> {
    assert!(rt; all_agree(&rt, rt.alloc(), 400, 500)?);
    Ok(())
}

// A partner may stand over an unlinked word, and a connector that has none takes its disjunct with it.
#[test]
fn over_an_unlinked_word(rt: HostRuntime) -> Result<(), Fail> {
    let alloc = rt.alloc();
    let pruned = pprune(alloc, problem(alloc, &["A|B", "C", "a|d"])?)?;
    match pruned.positions() {
        [first, second, third] => {
            assert!(rt;
                first.items().len() == 1 && second.items().is_empty() && third.items().len() == 1
            );
        }
        _ => assert!(rt; false),
    }
    Ok(())
}
