//! The work of numbering lists.
ghost use Rattle.std.specs.Prelude.{◌≡◌, ◌+◌, ◌<◌, ◌^◌, map, length, IfOk, OnOk};
ghost use Rattle.std.specs.List.{flat_map};
ghost use Rattle.lg_gram.specs.Problems.{IsProblem};
ghost use Rattle.lg_region.specs.Fronts.{all_fronts, fronts as front_parts, fronts_of};
ghost use Rattle.lg_region.specs.Numbered.{Admits, AreEndsOf, AreFirstsOf, AreNumbered, AreShort, AreSidesOf, AreTailsOf, GivesNumber, GivesSides, MeetsKind, Numbers};

use crate::chains::class_of_caps;
use crate::ways::End;
use indexmap::IndexSet;
use lg_base::NoMemory;
use lg_gram::{Connector, Disjunct, Disjuncts};
use std::alloc::Global;

/// A list but the empty one: the number of the list without its last connector, and that connector.
#[derive(Clone, Copy, Debug, PartialEq, Eq, Hash)]
pub(crate) struct Tail {
    pub(crate) shorter: u32,
    pub(crate) last: Connector,
}

/// The numbers of the two lists of a disjunct.
#[derive(Clone, Copy, Debug)]
pub(crate) struct Sides {
    pub(crate) left: u32,
    pub(crate) right: u32,
}

/// The numbers of the lists of all disjuncts. `fronts` becomes the lists of the numbers from 1 on, and `tails` the table by
/// which they are found; both are empty at first.
pub(crate) fn numbered<'a>(
    alloc: Global,
    fronts: &mut Vec<&'a [Connector]>,
    tails: &mut IndexSet<Tail>,
    positions: &'a [Disjuncts],
) -> Result<Vec<Vec<Sides>>, NoMemory>
    requires problem { IsProblem positions.now }
    requires empty { length fronts.old.items ≡ 0 }
    requires no_tails { length tails.old.keys ≡ 0 }
    ensures lists { OnOk result (AreNumbered (all_fronts positions.now) (map (λ f. f.now) fronts.new.items) tails.new.keys) }
    ensures few { OnOk result (length tails.new.keys < 2 ^ 32) }
    ensures sides { IfOk result (λ sides. AreSidesOf (map (λ f. f.now) fronts.new.items) positions.now (map (λ v. v.items) sides.items)) }
{
    let mut rows = Vec::new(alloc);
    for position in positions {
        let row = row_of(alloc, fronts, tails, position.items())?;
        rows.push(row)?;
    }
    Ok(rows)
}

// The numbers of the lists of the disjuncts of one position.
fn row_of<'a>(
    alloc: Global,
    fronts: &mut Vec<&'a [Connector]>,
    tails: &mut IndexSet<Tail>,
    disjuncts: &'a [Disjunct],
) -> Result<Vec<Sides>, NoMemory>
    requires level { length tails.old.keys ≡ length fronts.old.items }
    requires room { length fronts.old.items + length (flat_map fronts_of disjuncts.now) < 2 ^ 32 }
    ensures numbers { OnOk result (Numbers (map (λ f. f.now) fronts.old.items) tails.old.keys (map (λ f. f.now) fronts.new.items) tails.new.keys (flat_map fronts_of disjuncts.now)) }
    ensures sides { IfOk result (λ row. GivesSides (map (λ f. f.now) fronts.old.items) tails.old.keys (map (λ f. f.now) fronts.new.items) disjuncts.now row.items) }
{
    let mut row = Vec::new(alloc);
    for disjunct in disjuncts {
        let left = number_of(fronts, tails, disjunct.left.items())?;
        let right = number_of(fronts, tails, disjunct.right.items())?;
        row.push(Sides { left, right })?;
    }
    Ok(row)
}

// The number of a list, whose front parts get numbers too.
fn number_of<'a>(
    fronts: &mut Vec<&'a [Connector]>,
    tails: &mut IndexSet<Tail>,
    list: &'a [Connector],
) -> Result<u32, NoMemory>
    requires level { length tails.old.keys ≡ length fronts.old.items }
    requires room { length fronts.old.items + length (front_parts list.now) < 2 ^ 32 }
    ensures numbers { OnOk result (Numbers (map (λ f. f.now) fronts.old.items) tails.old.keys (map (λ f. f.now) fronts.new.items) tails.new.keys (front_parts list.now)) }
    ensures id { IfOk result (λ id. GivesNumber (map (λ f. f.now) fronts.old.items) tails.old.keys (map (λ f. f.now) fronts.new.items) list.now id) }
{
    let mut id = 0;
    for index in 0..list.len() {
        let tail = Tail {
            shorter: id,
            last: list[index],
        };
        id = admit(fronts, tails, tail, &list[..index + 1])?;
    }
    Ok(id)
}

// The number of a list with this end: a new one where the list has none yet.
fn admit<'a>(
    fronts: &mut Vec<&'a [Connector]>,
    tails: &mut IndexSet<Tail>,
    tail: Tail,
    front: &'a [Connector],
) -> Result<u32, NoMemory>
    requires level { length tails.old.keys ≡ length fronts.old.items }
    requires room { length fronts.old.items + 1 < 2 ^ 32 }
    ensures { IfOk result (λ id. Admits (map (λ f. f.now) fronts.old.items) tails.old.keys (map (λ f. f.now) fronts.new.items) tails.new.keys tail front.now id) }
{
    let (index, is_new) = tails.insert_full(tail)?;
    if is_new {
        fronts.push(front)?;
    }
    Ok(index as u32 + 1)
}

/// The ends of all lists but the empty one, in the order of their numbers. `kinds` becomes their last connectors, each once, in the
/// order in which they are met, and `firsts` the number of the first list that ends with each; both are empty at first.
pub(crate) fn ends_of(
    alloc: Global,
    fronts: &[&[Connector]],
    tails: &IndexSet<Tail>,
    kinds: &mut IndexSet<Connector>,
    firsts: &mut Vec<u32>,
) -> Result<Vec<End>, NoMemory>
    requires few { length tails.now.keys < 2 ^ 32 }
    requires short { AreShort (map (λ f. f.now) fronts.now) }
    requires tails { AreTailsOf (map (λ f. f.now) fronts.now) tails.now.keys }
    requires no_kinds { length kinds.old.keys ≡ 0 }
    requires no_firsts { length firsts.old.items ≡ 0 }
    ensures ends { IfOk result (λ ends. AreEndsOf (map (λ f. f.now) fronts.now) kinds.new.keys ends.items) }
    ensures firsts { OnOk result (AreFirstsOf (map (λ f. f.now) fronts.now) kinds.new.keys firsts.new.items) }
{
    let mut ends = Vec::with_capacity(alloc, fronts.len())?;
    for index in 0..fronts.len() {
        let tail = tails[index];
        let id = index as u32 + 1;
        let kind = kind_of(kinds, firsts, tail.last, id)?;
        ends.push(End {
            id,
            place: fronts[index].len() as u32 - 1,
            shorter: tail.shorter,
            kind,
            class: class_of_caps(tail.last.caps()),
            is_multi: tail.last.is_multi(),
        })?;
    }
    Ok(ends)
}

// The kind of the last connector of a list: a new one where no list before it ends so.
fn kind_of(
    kinds: &mut IndexSet<Connector>,
    firsts: &mut Vec<u32>,
    last: Connector,
    id: u32,
) -> Result<u32, NoMemory>
    requires room { length kinds.old.keys + 1 < 2 ^ 32 }
    ensures { IfOk result (λ kind. MeetsKind kinds.old.keys firsts.old.items kinds.new.keys firsts.new.items last id kind) }
{
    let (kind, is_new) = kinds.insert_full(last)?;
    if is_new {
        firsts.push(id)?;
    }
    Ok(kind as u32)
}
