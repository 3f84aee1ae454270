//! Numbers of the lists of rows, which compare as the lists do.
ghost use Rattle.std.specs.Prelude.{◌≡◌, map, IsTrue, IfOk};
ghost use Rattle.std.specs.List.Sorted.{IsSorted, IsPermutation};
ghost use Rattle.lg_disj.specs.Ranks.{part_or, AreRanksBy, IsRankBy, lent_cmp, StandsAt, Comes, HavePlaces, renumbered, AreNumbered};
ghost use Rattle.lg_disj.specs.Ranks.{lists_numbers_cmp, numbers_cmp};

use crate::arena::Row;
use crate::guesses::{Guesses, slot_of};
use crate::ranks::rank_at;
use indexmap::IndexSet;
use lg_base::NoMemory;
use std::alloc::Global;
use std::cmp::Ordering;

/// A row, and the numbers of its two lists.
#[derive(Clone, Copy, Debug)]
pub(crate) struct Numbered {
    pub(crate) left: usize,
    pub(crate) right: usize,
    pub(crate) row: Row,
}

impl Numbered {
    /// The number on a side, `true` the right.
    pub(crate) fn number(&self, right: bool) -> usize {
        if right { self.right } else { self.left }
    }

    /// The order by left list, right list and cost.
    pub(crate) fn compare(&self, other: &Numbered) -> Ordering
        ensures { result ≡ numbers_cmp self.now other.now }
    {
        self.compare_lists(other)
            .then(self.row.cost.cmp(&other.row.cost))
    }

    /// The order by left list and right list. Costs take no part.
    pub(crate) fn compare_lists(&self, other: &Numbered) -> Ordering
        ensures { result ≡ lists_numbers_cmp self.now other.now }
    {
        self.left
            .cmp(&other.left)
            .then(self.right.cmp(&other.right))
    }
}

/// The rows with numbers of their lists that compare as the lists do.
pub(crate) fn with_ranks(
    alloc: Global,
    ranked: &[usize],
    rows: &[Row],
) -> Result<Vec<Numbered>, NoMemory>
    ensures { IfOk result (λ numbered. AreNumbered ranked.now rows.now numbered.items) }
{
    let mut lists = IndexSet::new(alloc);
    let mut numbered = with_places(alloc, ranked, &mut lists, rows)?;
    let ranks = ranks_of_lists(alloc, lists.as_slice())?;
    renumber(&mut numbered, &ranks);
    Ok(numbered)
}

// The rows with the places of their lists among the distinct ones, in the order first met.
fn with_places<'a>(
    alloc: Global,
    ranked: &'a [usize],
    lists: &mut IndexSet<&'a [usize]>,
    rows: &[Row],
) -> Result<Vec<Numbered>, NoMemory>
    ensures { IfOk result (λ numbered. HavePlaces ranked.now lists.new.keys rows.now numbered.items) }
{
    let mut guesses = Guesses::new();
    let mut numbered = Vec::with_capacity(alloc, rows.len())?;
    for row in rows {
        let left = place_of(lists, &mut guesses, part_or(ranked, row.from, row.middle))?;
        let right = place_of(lists, &mut guesses, part_or(ranked, row.middle, row.end))?;
        numbered.push(Numbered {
            left,
            right,
            row: *row,
        })?;
    }
    Ok(numbered)
}

// The place of a list. Where the guess finds it, it is not looked up by its hash.
fn place_of<'a>(
    lists: &mut IndexSet<&'a [usize]>,
    guesses: &mut Guesses,
    list: &'a [usize],
) -> Result<usize, NoMemory>
    ensures { IfOk result (λ n. Comes lists.old.keys lists.new.keys list.now n) }
{
    let slot = slot_of(list);
    let guess = guesses.at(slot);
    if is_at(lists, guess, list) {
        return Ok(guess);
    }
    let (place, _) = lists.insert_full(list)?;
    let _old = guesses.replace(slot, place);
    Ok(place)
}

fn is_at(lists: &IndexSet<&[usize]>, place: usize, list: &[usize]) -> bool
    ensures { IsTrue result → StandsAt lists.now.keys list.now place }
{
    match lists.get_index(place) {
        Some(known) => *known == list,
        None => false,
    }
}

// The rank of each list: how many of them come before it.
fn ranks_of_lists(alloc: Global, lists: &[&[usize]]) -> Result<Vec<usize>, NoMemory>
    ensures { IfOk result (λ ranks. AreRanksBy lent_cmp lists.now ranks.items) }
{
    let sorted = lists_in_order(alloc, lists)?;
    let mut ranks = Vec::with_capacity(alloc, lists.len())?;
    for list in lists {
        ranks.push(rank_of_list(&sorted, list))?;
    }
    Ok(ranks)
}

fn lists_in_order<'a>(alloc: Global, lists: &[&'a [usize]]) -> Result<Vec<&'a [usize]>, NoMemory>
    ensures order { IfOk result (λ sorted. IsSorted lent_cmp sorted.items) }
    ensures moved { IfOk result (λ sorted. IsPermutation lists.now sorted.items) }
{
    let mut sorted = Vec::with_capacity(alloc, lists.len())?;
    sorted.extend_from_slice(lists)?;
    sorted.sort()?;
    Ok(sorted)
}

fn rank_of_list(sorted: &[&[usize]], list: &&[usize]) -> usize
    requires { IsSorted lent_cmp sorted.now }
    ensures { IsRankBy lent_cmp sorted.now list.now result }
{
    sorted.partition_point(|other| other.cmp(list) == Ordering::Less)
}

// The ranks in place of the places.
fn renumber(numbered: &mut [Numbered], ranks: &[usize])
    ensures { numbered.new ≡ map (renumbered ranks.now) numbered.old }
{
    for one in numbered.iter_mut() {
        one.left = rank_at(ranks, one.left);
        one.right = rank_at(ranks, one.right);
    }
}

fn part_or(ranks: &[usize], from: usize, to: usize) -> &[usize]
    ensures { result.now ≡ part_or from to ranks.now }
{
    if from <= to && to <= ranks.len() {
        &ranks[from..to]
    } else {
        &[]
    }
}

/// The rows without the numbers.
pub(crate) fn rows_of(alloc: Global, numbered: &[Numbered]) -> Result<Vec<Row>, NoMemory>
    ensures { IfOk result (λ rows. rows.items ≡ map (λ k. k.row) numbered.now) }
{
    let mut rows = Vec::with_capacity(alloc, numbered.len())?;
    for one in numbered {
        rows.push(one.row)?;
    }
    Ok(rows)
}
