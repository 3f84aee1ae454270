//! What is searched for a sentence.
ghost use Rattle.std.specs.Prelude.{◌≡◌, ◌≤◌, ◌+◌, length, map, IfOk, IfSome, IsTrue};
ghost use Rattle.std.specs.List.{sum_by};
ghost use Rattle.lg_disj.specs.Outlines.{all_in};
ghost use Rattle.lg_gram.specs.Limits.{DISJUNCTS, POSITIONS};
ghost use Rattle.lg_answer.specs.Searches.{blanks};
ghost use Rattle.lg_answer.specs.Steps.{IsWithin};
ghost use Rattle.lg_answer.specs.Wide.{AreExpandable, HasNoFewer, IsAsGood, IsReady, KeepsFew, all_disjuncts, problem_of};

use crate::expanded::{all_rise, expanded, in_outline};
use lg_base::NoMemory;
use lg_disj::Outline;
use lg_eprune::{PositionExprs, WordExprs};
use lg_gram::Problem;
use lg_gram::problem::{DISJUNCTS, POSITIONS};
use lg_member::Outlines;
use lg_reach::within_reach;
use lg_sharpen::{sharpen, sharpen_outlines};
use std::alloc::Global;

/// A problem, or the formulas of the words of each position, of which a problem is made for each number of unlinked words: it needs fewer of their
/// choices where fewer words may be unlinked.
#[derive(Drop)]
pub(crate) enum Wide {
    Problem(Problem),
    Words(PositionExprs),
}

impl Wide {
    /// The problem itself, or one of all choices. The only error is running out of memory.
    pub(crate) fn into_problem(self, alloc: Global) -> Result<Problem, NoMemory>
        requires { IsReady self }
        ensures { IfOk result (IsAsGood (problem_of self)) }
    {
        match self {
            Wide::Problem(problem) => Ok(problem),
            Wide::Words(words) => whole_of(alloc, &words),
        }
    }

    /// The same, sharpened for any number of unlinked words. The only error is running out of memory.
    pub(crate) fn into_sharp(self, alloc: Global) -> Result<Problem, NoMemory>
        requires { IsReady self }
        ensures { IfOk result (IsAsGood (problem_of self)) }
    {
        match self {
            Wide::Problem(problem) => sharpest(alloc, problem),
            Wide::Words(words) => sharpest_words(alloc, &words),
        }
    }

    /// How many positions there are. No memory.
    pub(crate) fn len(&self) -> u32
        requires { IsReady self.now }
        ensures { result ≡ length (problem_of self.now) }
    {
        match self {
            Wide::Problem(problem) => problem.positions().len() as u32,
            Wide::Words(words) => words.items().len() as u32,
        }
    }

    /// How many positions have nothing that can be linked: so many words are unlinked at least. No memory.
    pub(crate) fn blanks(&self) -> u32
        requires { IsReady self.now }
        ensures least { HasNoFewer (problem_of self.now) result }
        ensures few { result ≤ length (problem_of self.now) }
    {
        match self {
            Wide::Problem(problem) => blanks_of(problem),
            Wide::Words(words) => words_without(words.items()),
        }
    }
}

// How many positions have no disjunct.
pub(crate) fn blanks_of(problem: &Problem) -> u32
    ensures value { result ≡ blanks problem.now }
    ensures few { result ≤ length problem.now }
{
    problem
        .positions()
        .iter()
        .filter(|position| position.items().is_empty())
        .count() as u32
}

// How many positions have no word with a formula.
fn words_without(words: &[WordExprs]) -> u32
    requires { length words.now ≤ POSITIONS }
    ensures least { HasNoFewer (all_disjuncts words.now) result }
    ensures few { result ≤ length words.now }
{
    words
        .iter()
        .filter(|position| position.items().is_empty())
        .count() as u32
}

// The problem of all choices of the words.
fn whole_of(alloc: Global, words: &PositionExprs) -> Result<Problem, NoMemory>
    requires { AreExpandable words.now }
    ensures { IfOk result (IsAsGood (all_disjuncts words.now)) }
{
    let positions = expanded(alloc, words.items())?;
    Ok(Problem::of_known(positions))
}

// The problem sharpened for any number of unlinked words.
fn sharpest(alloc: Global, problem: Problem) -> Result<Problem, NoMemory>
    ensures { IfOk result (IsAsGood problem) }
{
    let most = problem.positions().len() as u32;
    let sharp = sharpen(alloc, problem, most)?;
    Ok(sharp)
}

// The same of words.
fn sharpest_words(alloc: Global, words: &PositionExprs) -> Result<Problem, NoMemory>
    requires { AreExpandable words.now }
    ensures { IfOk result (IsAsGood (all_disjuncts words.now)) }
{
    let most = words.items().len() as u32;
    let sharp = sharpened_words(alloc, words, most)?;
    Ok(sharp)
}

/// A problem of these words that is sharpened for so many unlinked words. The only error is running out of memory.
pub(crate) fn sharpened_words(
    alloc: Global,
    words: &PositionExprs,
    nulls: u32,
) -> Result<Problem, NoMemory>
    requires { AreExpandable words.now }
    ensures { IfOk result (KeepsFew (all_disjuncts words.now) nulls) }
{
    if let Some(near) = within(alloc, words.items(), nulls)? {
        return sharp_within(alloc, words, &near, nulls);
    }
    let problem = whole_of(alloc, words)?;
    let sharp = sharpen(alloc, problem, nulls)?;
    Ok(sharp)
}

// The same by what is within reach, in outline.
fn sharp_within(
    alloc: Global,
    words: &PositionExprs,
    near: &[Outlines],
    nulls: u32,
) -> Result<Problem, NoMemory>
    requires { IsWithin words.now nulls (map all_in near.now) }
    ensures { IfOk result (KeepsFew (all_disjuncts words.now) nulls) }
{
    let sharp = sharpen_outlines(alloc, near, nulls)?;
    Ok(sharp)
}

// The choices that are within reach where so few words are unlinked, as disjuncts in outline. None where the words of some position do not
// increase, as those of idioms may not, or where a limit is passed.
fn within(alloc: Global, words: &[WordExprs], nulls: u32) -> Result<Option<Vec<Outlines>>, NoMemory>
    ensures { IfOk result (λ found. IfSome found (λ near. IsWithin words.now nulls (map all_in near.items))) }
{
    let near = within_reach(alloc, words, nulls)?;
    if near.items().len() > POSITIONS || !all_rise(near.items()) {
        return Ok(None);
    }
    let outlines = in_outline(alloc, near.items())?;
    if !are_few(&outlines) {
        return Ok(None);
    }
    Ok(Some(outlines))
}

// Whether these positions have no more disjuncts than a problem may have.
fn are_few(positions: &[Outlines]) -> bool
    ensures { IsTrue result → sum_by length (map all_in positions.now) ≤ DISJUNCTS }
{
    let mut left = DISJUNCTS;
    for outlines in positions {
        let Some(rest) = less(left, outlines.items()) else {
            return false;
        };
        left = rest;
    }
    true
}

// What is left of a number when the disjuncts of these words are taken from it. None where they are more.
fn less(left: usize, outlines: &[Outline]) -> Option<usize>
    ensures { IfSome result (λ rest. length (all_in outlines.now) + rest ≡ left) }
{
    let mut rest = left;
    for outline in outlines {
        rest = rest.checked_sub(outline.lines().len())?;
    }
    Some(rest)
}
