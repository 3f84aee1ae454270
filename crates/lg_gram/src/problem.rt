//! Problems: what the rules are asked about.
ghost use Rattle.std.specs.Prelude.{◌≡◌, ◌≤◌, ◌↔◌, length, IsTrue, MatchOption};
ghost use Rattle.std.specs.List.{sum_by};
ghost use Rattle.lg_gram.specs.Limits.{DISJUNCTS};
ghost use Rattle.lg_gram.specs.Problems.{IsProblem, IsPosition, FitsProblem};

use crate::disjunct::{Disjunct, Disjuncts, Positions};
use crate::formula;
use crate::order::is_rising;
use std::marker::Model;

/// The most positions of a problem.
pub const POSITIONS: usize = 252;

/// The most disjuncts of a problem.
pub const DISJUNCTS: usize = 8_000_000;

/// The most connectors on a side of a disjunct.
pub const SIDE: usize = formula::SIDE as usize;

/// The most thousandths of a disjunct's cost, from zero.
pub const DISJUNCT_COST: i64 = 10_000_000_000_000;

/// The disjuncts of each position of a sentence, each list strictly increasing by word, left list and right list. There
/// are at most 252 positions and 8,000,000 disjuncts, at most 255 connectors on a side, and no cost is more than 10^13
/// thousandths from zero.
///
/// Contracts see the list of positions.
#[derive(Debug, Drop)]
pub struct Problem {
    positions: Positions,
}

impl Model for Problem {
    ghost use Rattle.std.specs.Prelude.{List};
    ghost use Rattle.lg_gram.specs.declared.disjunct.Disjunct.{Disjunct as Seen};
    ghost use Rattle.lg_gram.specs.Problems.{IsProblem};

    ghost Value = { List (List Seen) };

    ghost view = { λ p. p.positions };

    ghost invariant = { λ p. IsProblem p.positions };
}

impl Problem {
    /// The problem of these positions. None where they pass a limit or a list does not increase.
    pub fn of(positions: Positions) -> Option<Problem>
        ensures { MatchOption result (IsProblem positions → ⊥) (λ p. (p ≡ positions) × IsProblem positions) }
    {
        if is_problem(positions.items()) {
            Some(Problem { positions })
        } else {
            None
        }
    }

    /// The problem of these positions, of which it is known that they are one: no list is looked at. No memory.
    pub fn of_known(positions: Positions) -> Problem
        requires { IsProblem positions }
        ensures { result ≡ positions }
    {
        Problem { positions }
    }

    /// The positions.
    pub fn positions(&self) -> &[Disjuncts]
        ensures value { result.now ≡ self.now }
        ensures limits { IsProblem self.now }
    {
        self.positions.items()
    }
}

fn is_problem(positions: &[Disjuncts]) -> bool
    ensures { IsTrue result ↔ IsProblem positions.now }
{
    positions.len() <= POSITIONS
        && are_few(positions)
        && positions.iter().all(|p| is_position(p.items()))
}

fn are_few(positions: &[Disjuncts]) -> bool
    ensures { IsTrue result ↔ (sum_by length positions.now ≤ DISJUNCTS) }
{
    let mut left = DISJUNCTS;
    for position in positions {
        let count = position.items().len();
        if count > left {
            return false;
        }
        left -= count;
    }
    true
}

fn is_position(disjuncts: &[Disjunct]) -> bool
    ensures { IsTrue result ↔ IsPosition disjuncts.now }
{
    disjuncts.iter().all(|d| fits(d)) && is_rising(disjuncts)
}

fn fits(disjunct: &Disjunct) -> bool
    ensures { IsTrue result ↔ FitsProblem disjunct.now }
{
    let cost = disjunct.cost.thousandths();
    disjunct.left.items().len() <= SIDE
        && disjunct.right.items().len() <= SIDE
        && cost >= -DISJUNCT_COST
        && cost <= DISJUNCT_COST
}
