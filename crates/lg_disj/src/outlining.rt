//! Choices as disjuncts in outline: a list that several of them have stands there once.
ghost use Rattle.std.specs.Prelude.{◌≡◌, ◌<◌, ◌↔◌, ℕ, List, length, map, take, get_or, cond, IsTrue, IfOk, OnOk};
ghost use Rattle.std.specs.List.{All};
ghost use Rattle.lg_disj.specs.Choices.{disjunct_of};
ghost use Rattle.lg_disj.specs.Lists.{AreLists, lists_in};
ghost use Rattle.lg_disj.specs.Outlines.{disjuncts_in};
ghost use Rattle.lg_disj.specs.Places.{no_places, side_of, leaf_at, choice_by, listed, IsArena};
ghost use Rattle.lg_disj.specs.Grown.{IsPlaced};
ghost use Rattle.lg_disj.specs.Made.{AreMade, AreMadeOn, Comes, list_of_choice};

use crate::arrange::most_of;
use crate::cheapest::Kept;
use crate::lists::Lists;
use crate::outline::{Line, Outline};
use lg_base::{NoMemory, Text};
use lg_gram::{Connector, Word};
use std::alloc::Global;
use std::mem;

/// The choices as disjuncts of a word in outline, in the same order.
pub(crate) fn outline_of(
    alloc: Global,
    word: &Text,
    leaves: &[Connector],
    kept: &Kept,
) -> Result<Outline, NoMemory>
    requires arena { IsArena kept.now.choices }
    requires placed { All (IsPlaced leaves.now) (listed kept.now.choices) }
    ensures { IfOk result (λ o. disjuncts_in o ≡ map (disjunct_of word.now) (map (choice_by leaves.now) (listed kept.now.choices))) }
{
    let word = Word::of(alloc, word.bytes())?;
    let (mut lefts, mut rights) = (Lists::new(alloc), Lists::new(alloc));
    let lines = lines_of(alloc, leaves, kept, &mut lefts, &mut rights)?;
    Ok(Outline::of(word, lefts, rights, lines))
}

// A line for each choice. The lists that they have come to `lefts` and `rights`, which have none at first.
fn lines_of(
    alloc: Global,
    leaves: &[Connector],
    kept: &Kept,
    lefts: &mut Lists,
    rights: &mut Lists,
) -> Result<Vec<Line>, NoMemory>
    requires arena { IsArena kept.now.choices }
    requires placed { All (IsPlaced leaves.now) (listed kept.now.choices) }
    requires lefts { AreLists lefts.old }
    requires rights { AreLists rights.old }
    ensures lefts { OnOk result (AreLists lefts.new) }
    ensures rights { OnOk result (AreLists rights.new) }
    ensures lines { IfOk result (λ lines. AreMade leaves.now (lists_in lefts.new) (lists_in rights.new) (listed kept.now.choices) lines.items) }
{
    let mut left_met = Met::of(alloc, kept, false)?;
    let mut right_met = Met::of(alloc, kept, true)?;
    let mut lines = Vec::with_capacity(alloc, kept.choices.len())?;
    for number in 0..kept.choices.len() {
        let left = number_of(leaves, kept, false, number, &lines, lefts, &mut left_met)?;
        let right = number_of(leaves, kept, true, number, &lines, rights, &mut right_met)?;
        let cost = kept.choices.cost(number);
        lines.push(Line { left, right, cost })?;
    }
    Ok(lines)
}

// The number of the list of a choice on a side, `true` the right: that of an earlier choice with the same list, where one was met.
fn number_of(
    leaves: &[Connector],
    kept: &Kept,
    right: bool,
    choice: usize,
    made: &[Line],
    lists: &mut Lists,
    met: &mut Met,
) -> Result<usize, NoMemory>
    requires arena { IsArena kept.now.choices }
    requires placed { All (IsPlaced leaves.now) (listed kept.now.choices) }
    requires within { choice < length (listed kept.now.choices) }
    requires lists { AreLists lists.old }
    requires made { AreMadeOn right leaves.now (lists_in lists.old) (take choice (listed kept.now.choices)) made.now }
    ensures lists { OnOk result (AreLists lists.new) }
    ensures number { IfOk result (λ k. Comes (lists_in lists.old) (lists_in lists.new) (list_of_choice right leaves.now (get_or (listed kept.now.choices) choice no_places)) k) }
{
    let places = kept.choices.side(right, choice);
    let guess = met.replace(kept.number(right, choice), choice);
    if guess < made.len() && is_same(kept.choices.side(right, guess), places) {
        return Ok(made[guess].side(right));
    }
    let number = lists.len();
    lists.push(leaves, places)?;
    Ok(number)
}

fn is_same(a: &[usize], b: &[usize]) -> bool
    ensures { IsTrue result ↔ (a.now ≡ b.now) }
{
    a == b
}

/// For each number of a list the choice that had it last. One that none had yet has no choice, or another one's.
#[derive(Drop)]
struct Met {
    choices: Vec<usize>,
}

impl Met {
    // For the lists of a side, `true` the right.
    fn of(alloc: Global, kept: &Kept, right: bool) -> Result<Met, NoMemory> {
        let count = most_of(&kept.numbered, right).saturating_add(1);
        let choices = vec![in alloc; usize::MAX; count]?;
        Ok(Met { choices })
    }

    // The choice that had it last. From now on it is this one.
    fn replace(&mut self, number: usize, choice: usize) -> usize {
        match self.choices.get_mut(number) {
            Some(kept) => mem::replace(kept, choice),
            None => usize::MAX,
        }
    }
}
