//! Numbers of the lists of a problem.
ghost use Rattle.std.specs.Prelude.{◌≡◌, ◌+◌, ◌<◌, ◌≤◌, ◌↔◌, [], false, length, slice_index_or, IsTrue, MatchOption, IfOk};
ghost use Rattle.lg_gram.specs.Problems.{IsProblem};
ghost use Rattle.lg_gram.specs.declared.disjunct.Disjunct.{Disjunct};
ghost use Rattle.lg_region.specs.Alike.{last_of};
ghost use Rattle.lg_region.specs.Fronts.{AreListsOf, list_of};
ghost use Rattle.lg_region.specs.Keys.{IsDisjunctAt};
ghost use Rattle.lg_region.specs.Numbered.{HasSides};
ghost use Rattle.lg_region.specs.Chains.{class_of as class_of_list, list_on, IsNext, IsByClass, IsRunEnd};
ghost use Rattle.lg_region.specs.Ways.{HasWay, IsEndOf};

use crate::chains::{ByClass, Side, by_class};
use crate::matching::Matching;
use crate::numbering::{Sides, ends_of, numbered};
use crate::ways::End;
use indexmap::IndexSet;
use lg_base::NoMemory;
use lg_gram::{Connector, Problem};
use std::alloc::Global;
use std::marker::Model;

/// The numbers of the lists of a problem: 0 is the empty list, and 1, 2, .. are the front parts of the lists of its
/// disjuncts, each once, in the order in which they are met: by position, by disjunct, the left list before the right one,
/// shorter front parts first.
///
/// Contracts see `{ positions, lists }`: the problem, and the lists of the numbers from 1 on.
#[derive(Drop)]
pub struct Lists<'a> {
    problem: &'a Problem,
    fronts: Vec<&'a [Connector]>,
    ends: Vec<End>,
    matching: Matching,
    firsts: Vec<u32>,
    sides: Vec<Vec<Sides>>,
    lefts: Vec<ByClass>,
    rights: Vec<ByClass>,
}

impl<'a> Model for Lists<'a> {
    ghost use Rattle.lg_region.specs.Fronts.{Numbering};

    ghost Value = { Numbering };

    ghost use Rattle.lg_region.specs.Kept.{numbering, IsKept};

    ghost view = { numbering };

    ghost invariant = { IsKept };
}

impl<'a> Lists<'a> {
    /// The numbers of the lists of a problem. It takes some twenty-five bytes for each disjunct, less than two hundred for each
    /// list, and two thousand for each position. While they are made it takes as much again for each list.
    pub fn of(alloc: Global, problem: &'a Problem) -> Result<Lists<'a>, NoMemory>
        ensures positions { IfOk result (λ lists. lists.positions ≡ problem.now) }
        ensures lists { IfOk result (λ lists. AreListsOf problem.now lists.lists) }
    {
        let mut fronts = Vec::new(alloc);
        let mut tails = IndexSet::new(alloc);
        let positions = problem.positions();
        let sides = numbered(alloc, &mut fronts, &mut tails, positions)?;
        let mut kinds = IndexSet::new(alloc);
        let mut firsts = Vec::new(alloc);
        let ends = ends_of(alloc, &fronts, &tails, &mut kinds, &mut firsts)?;
        let matching = Matching::of(alloc, kinds.as_slice())?;
        let lefts = by_class(alloc, Side::Left, positions, &ends, &sides)?;
        let rights = by_class(alloc, Side::Right, positions, &ends, &sides)?;
        Ok(Lists {
            problem,
            fronts,
            ends,
            matching,
            firsts,
            sides,
            lefts,
            rights,
        })
    }

    /// The list of a number, from near to far. None where the number is above the last. No memory.
    pub fn get(&self, id: u32) -> Option<&[Connector]>
        ensures value { MatchOption result (length self.now.lists < id) (λ list. (id ≤ length self.now.lists) × (list.now ≡ list_of self.now.lists id)) }
        ensures lists { AreListsOf self.now.positions self.now.lists }
    {
        let fronts = &self.fronts;
        if id == 0 {
            return Some(&[]);
        }
        let index = id as usize - 1;
        if index < fronts.len() {
            Some(fronts[index])
        } else {
            None
        }
    }

    /// The lists are numbered as said above. The function does nothing: a caller whose proof needs the fact calls it.
    pub fn are_numbered(&self)
        ensures { AreListsOf self.now.positions self.now.lists }
    {
        let _fronts = &self.fronts;
    }

    /// The problem keeps the limits of problems. The function does nothing: a caller whose proof needs the fact calls it.
    pub fn keep_limits(&self)
        ensures { IsProblem self.now.positions }
    {
        let _fronts = &self.fronts;
    }

    /// How many words there are. No memory.
    pub(crate) fn words(&self) -> u32
        ensures { result ≡ length self.now.positions }
    {
        self.problem.positions().len() as u32
    }

    /// How many disjuncts a word has. No memory.
    pub(crate) fn count(&self, word: u32) -> u32
        requires { word < length self.now.positions }
        ensures { result ≡ length (slice_index_or self.now.positions word []) }
    {
        self.problem.positions()[word as usize].items().len() as u32
    }

    /// The numbers of the two lists of a disjunct. No memory.
    pub(crate) fn sides(&self, word: u32, number: u32) -> Sides
        requires { number < length (slice_index_or self.now.positions word []) }
        ensures { (d : Disjunct) → IsDisjunctAt self.now.positions word number d → HasSides self.now.lists d result }
    {
        self.sides[word as usize][number as usize]
    }

    /// The class of a list. No memory.
    pub(crate) fn class(&self, id: u32) -> u32
        requires { id ≤ length self.now.lists }
        ensures value { result ≡ class_of_list (list_of self.now.lists id) }
        ensures small { result < 256 }
    {
        match self.end(id) {
            Some(end) => end.class as u32,
            None => 0,
        }
    }

    /// The first disjunct of a word whose list on this side has a class, or how many disjuncts there are. No memory.
    pub(crate) fn first(&self, side: Side, class: u32, word: u32) -> u32
        requires word { word < length self.now.positions }
        requires class { class < 256 }
        ensures { IsNext side (slice_index_or self.now.positions word []) class 0 result }
    {
        self.by_class(side, word).chain.firsts[class as usize]
    }

    /// The next disjunct of a word that has the class of this one on this side, or how many disjuncts there are. No memory.
    pub(crate) fn next(&self, side: Side, word: u32, number: u32) -> u32
        requires word { word < length self.now.positions }
        requires listed { number < length (slice_index_or self.now.positions word []) }
        ensures { (d : Disjunct) → IsDisjunctAt self.now.positions word number d → IsNext side (slice_index_or self.now.positions word []) (class_of_list (list_on side d)) (number + 1) result }
    {
        self.by_class(side, word).chain.nexts[number as usize]
    }

    /// The next disjunct of a word that has the class of this one on this side, and another left list, or how many disjuncts there
    /// are. No memory.
    pub(crate) fn run_end(&self, side: Side, word: u32, number: u32) -> u32
        requires word { word < length self.now.positions }
        requires listed { number < length (slice_index_or self.now.positions word []) }
        ensures { (d : Disjunct) → IsDisjunctAt self.now.positions word number d → IsRunEnd side (slice_index_or self.now.positions word []) d number result }
    {
        self.by_class(side, word).runs[number as usize]
    }

    // The disjuncts of one word by class.
    fn by_class(&self, side: Side, word: u32) -> &ByClass
        requires { word < length self.now.positions }
        ensures { IsByClass side (slice_index_or self.now.positions word []) result.now }
    {
        match side {
            Side::Left => &self.lefts[word as usize],
            Side::Right => &self.rights[word as usize],
        }
    }

    /// The first list that ends with the same connector as this one; 0 for the empty list. No memory.
    pub(crate) fn last(&self, id: u32) -> u32
        requires { id ≤ length self.now.lists }
        ensures { last_of (list_of self.now.lists result) ≡ last_of (list_of self.now.lists id) }
    {
        if id == 0 {
            return 0;
        }
        self.firsts[self.ends[id as usize - 1].kind as usize]
    }

    /// Whether two lists have a way on with a joint: both have a last connector, and the two match. No memory.
    pub(crate) fn can_join(&self, near: u32, far: u32) -> bool
        requires near { near ≤ length self.now.lists }
        requires far { far ≤ length self.now.lists }
        ensures { IsTrue result ↔ HasWay self.now.lists near far false }
    {
        if near == 0 || far == 0 {
            return false;
        }
        let first = self.ends[near as usize - 1];
        let second = self.ends[far as usize - 1];
        self.matching.has(first.kind, second.kind)
    }

    /// The end of a list. None where it is empty. No memory.
    pub(crate) fn end(&self, id: u32) -> Option<End>
        requires { id ≤ length self.now.lists }
        ensures value { MatchOption result (id ≡ 0) (IsEndOf self.now.lists id) }
        ensures lists { AreListsOf self.now.positions self.now.lists }
    {
        let ends = &self.ends;
        if id == 0 {
            return None;
        }
        Some(ends[id as usize - 1])
    }
}
