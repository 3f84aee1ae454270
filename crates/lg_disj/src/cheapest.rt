//! The cheapest of the choices that have the same two lists.
ghost use Rattle.std.specs.Prelude.{◌≡◌, ◌<◌, ◌≤◌, ◌↔◌, List, length, map, get_or, IfOk};
ghost use Rattle.std.specs.List.{All, Contains};
ghost use Rattle.std.specs.List.Sorted.{IsStrictlySortedBy};
ghost use Rattle.lg_gram.specs.Measures.{Choice as Seen};
ghost use Rattle.lg_disj.specs.Choices.{lists_cmp, IsCheapest};
ghost use Rattle.lg_disj.specs.Places.{choice_by, listed, IsArena};
ghost use Rattle.lg_disj.specs.Grown.{IsPlaced, StandFor};
ghost use Rattle.lg_disj.specs.Ranks.{IsKept};

use crate::arena::{Choices, Row};
use crate::arrange::arrange;
use crate::numbers::{Numbered, rows_of, with_ranks};
use crate::ranks::{ranks_at, ranks_of};
use lg_base::NoMemory;
use lg_gram::Connector;
use lg_gram::law::connectors_are_ordered;
use std::alloc::Global;
use std::cmp::Ordering;

/// The choices that are left, and beside each the numbers by which it was sorted: one for its left list and one for its right list. Two
/// choices have the same number on a side where their lists there are the same.
#[derive(Debug, Drop)]
pub(crate) struct Kept {
    pub(crate) choices: Choices,
    pub(crate) numbered: Vec<Numbered>,
}

impl Kept {
    /// The number of a list on a side, `true` the right.
    pub(crate) fn number(&self, right: bool, choice: usize) -> usize {
        match self.numbered.get(choice) {
            Some(one) => one.number(right),
            None => 0,
        }
    }
}

/// Of the choices that have the same two lists one of the least cost, by left list and right list.
pub(crate) fn cheapest(alloc: Global, leaves: &[Connector], all: Choices) -> Result<Kept, NoMemory>
    requires arena { IsArena all }
    requires stand { StandFor leaves.now (listed all) (map (choice_by leaves.now) (listed all)) }
    ensures rise { IfOk result (λ kept. IsStrictlySortedBy lists_cmp (map (choice_by leaves.now) (listed kept.choices))) }
    ensures exactly { IfOk result (λ kept. (c : Seen) → Contains (map (choice_by leaves.now) (listed kept.choices)) c ↔ IsCheapest (map (choice_by leaves.now) (listed all)) c) }
    ensures few { IfOk result (λ kept. length (listed kept.choices) ≤ length (listed all)) }
    ensures arena { IfOk result (λ kept. IsArena kept.choices) }
    ensures placed { IfOk result (λ kept. All (IsPlaced leaves.now) (listed kept.choices)) }
{
    connectors_are_ordered();
    let ranks = ranks_of(alloc, leaves)?;
    let Choices { places, rows } = all;
    let ranked = ranks_at(alloc, &ranks, &places)?;
    let numbered = kept_rows(alloc, &ranked, &rows)?;
    let rows = rows_of(alloc, &numbered)?;
    let choices = Choices { places, rows };
    Ok(Kept { choices, numbered })
}

// The rows that are left, with the numbers of their lists.
fn kept_rows(alloc: Global, ranked: &[usize], rows: &[Row]) -> Result<Vec<Numbered>, NoMemory>
    ensures kept { IfOk result (λ kept. IsKept ranked.now rows.now (map (λ k. k.row) kept.items)) }
    ensures few { IfOk result (λ kept. length kept.items ≤ length rows.now) }
{
    let mut numbered = with_ranks(alloc, ranked, rows)?;
    arrange(alloc, &mut numbered)?;
    numbered.sort_by(|a, b| a.compare(b))?;
    numbered.dedup_by(|next, kept| next.compare_lists(kept) == Ordering::Equal);
    Ok(numbered)
}
