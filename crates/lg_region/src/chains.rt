//! The disjuncts of a word by the capital letters of the last connector of one of their lists.
ghost use Rattle.std.specs.Prelude.{◌≡◌, ◌<◌, ◌≤◌, ◌^◌, length, map, IfOk};
ghost use Rattle.std.specs.List.{AllZip};
ghost use Rattle.lg_gram.specs.Problems.{IsProblem};
ghost use Rattle.lg_region.specs.Chains.{class_of, class_of_caps as class_of_letters, classes_on, IsByClass, IsChain};
ghost use Rattle.lg_region.specs.Fronts.{list_of};
ghost use Rattle.lg_region.specs.Numbered.{number_on, AreEndsOf, AreRuns, AreSidesOf, EndsRun, HasSides};

use crate::numbering::Sides;
use crate::ways::End;
use lg_base::NoMemory;
use lg_gram::{Disjunct, Disjuncts};
use std::alloc::Global;

// How many classes there are.
const CLASSES: usize = 256;

/// The one of its two lists by which a disjunct is found.
#[derive(Clone, Copy, Debug, PartialEq, Eq)]
pub enum Side {
    Left,
    Right,
}

/// What has classes, by its numbers: the first of each class, and for each the next one of its class. Where there is none it is
/// how many there are.
#[derive(Debug, Drop)]
pub(crate) struct Chain {
    pub(crate) firsts: Vec<u32>,
    pub(crate) nexts: Vec<u32>,
}

/// The disjuncts of a word by the class of their list on one side: their chain, and for each the end of its run, the next one of
/// its class that has another left list. Where there is none it is how many disjuncts there are.
#[derive(Debug, Drop)]
pub(crate) struct ByClass {
    pub(crate) chain: Chain,
    pub(crate) runs: Vec<u32>,
}

impl Side {
    // The number of the list of a disjunct on this side.
    fn number(self, sides: &Sides) -> u32
        ensures { result ≡ number_on self sides.now }
    {
        match self {
            Side::Left => sides.left,
            Side::Right => sides.right,
        }
    }
}

/// The class of some capital letters.
pub(crate) fn class_of_caps(caps: &[u8]) -> u8
    ensures { result ≡ class_of_letters caps.now }
{
    let mut class = 0;
    for letter in caps {
        class = (class * 31 + u32::from(*letter)) % CLASSES as u32;
    }
    class as u8
}

/// The disjuncts of all words by the class of their list on one side. The numbers of their lists tell which have the same left list.
pub(crate) fn by_class(
    alloc: Global,
    side: Side,
    positions: &[Disjuncts],
    ends: &[End],
    sides: &[Vec<Sides>],
) -> Result<Vec<ByClass>, NoMemory>
    requires problem { IsProblem positions.now }
    requires sides { (lists : _) × (kinds : _) × AreEndsOf lists kinds ends.now × AreSidesOf lists positions.now (map (λ v. v.items) sides.now) }
    ensures { IfOk result (λ words. AllZip (IsByClass side) positions.now words.items) }
{
    let mut words = Vec::new(alloc);
    for index in 0..positions.len() {
        let word = word_by_class(alloc, side, positions[index].items(), ends, &sides[index])?;
        words.push(word)?;
    }
    Ok(words)
}

// Those of one word.
fn word_by_class(
    alloc: Global,
    side: Side,
    disjuncts: &[Disjunct],
    ends: &[End],
    row: &[Sides],
) -> Result<ByClass, NoMemory>
    requires few { length disjuncts.now < 2 ^ 32 }
    requires sides { (lists : _) × (kinds : _) × AreEndsOf lists kinds ends.now × AllZip (HasSides lists) disjuncts.now row.now }
    ensures { IfOk result (IsByClass side disjuncts.now) }
{
    let classes = classes_of(alloc, side, disjuncts, ends, row)?;
    let chain = chain_of(alloc, &classes)?;
    let runs = runs_of(alloc, &chain.nexts, row)?;
    Ok(ByClass { chain, runs })
}

// The classes of the lists of disjuncts on one side.
fn classes_of(
    alloc: Global,
    side: Side,
    disjuncts: &[Disjunct],
    ends: &[End],
    row: &[Sides],
) -> Result<Vec<u8>, NoMemory>
    requires { (lists : _) × (kinds : _) × AreEndsOf lists kinds ends.now × AllZip (HasSides lists) disjuncts.now row.now }
    ensures { IfOk result (λ classes. classes.items ≡ classes_on side disjuncts.now) }
{
    let mut classes = Vec::with_capacity(alloc, disjuncts.len())?;
    for sides in row {
        classes.push(class_in(ends, side.number(sides)))?;
    }
    Ok(classes)
}

// The class of the list of a number: lists whose last connectors have the same capital letters have the same class.
fn class_in(ends: &[End], id: u32) -> u8
    requires { id ≤ length ends.now }
    ensures { (lists : _) (kinds : _) → AreEndsOf lists kinds ends.now → result ≡ class_of (list_of lists id) }
{
    if id == 0 {
        return 0;
    }
    ends[id as usize - 1].class
}

/// The chain of what has these classes.
pub(crate) fn chain_of(alloc: Global, classes: &[u8]) -> Result<Chain, NoMemory>
    requires { length classes.now < 2 ^ 32 }
    ensures { IfOk result (IsChain classes.now) }
{
    let count = classes.len() as u32;
    let mut firsts = vec![in alloc; count; CLASSES]?;
    let mut nexts = vec![in alloc; count; classes.len()]?;
    for number in (0..count).rev() {
        let class = classes[number as usize] as usize;
        nexts[number as usize] = firsts[class];
        firsts[class] = number;
    }
    Ok(Chain { firsts, nexts })
}

// The end of the run of each disjunct, by the next one of its class.
fn runs_of(alloc: Global, nexts: &[u32], row: &[Sides]) -> Result<Vec<u32>, NoMemory>
    requires { length nexts.now ≡ length row.now }
    ensures { IfOk result (λ runs. AreRuns nexts.now row.now 0 runs.items) }
{
    let mut runs = vec![in alloc; 0; row.len()]?;
    for number in (0..row.len()).rev() {
        runs[number] = run_end(row, &runs, number, nexts[number]);
    }
    Ok(runs)
}

// The end of a run goes on to that of the next disjunct of the class, where both have the same left list.
fn run_end(row: &[Sides], runs: &[u32], number: usize, next: u32) -> u32
    requires level { length runs.now ≡ length row.now }
    requires listed { number < length row.now }
    ensures { EndsRun row.now runs.now number next result }
{
    let index = next as usize;
    if index < row.len() && row[index].left == row[number].left {
        return runs[index];
    }
    next
}
