//! The disjuncts of a problem, with the numbers of their sides.
ghost use Rattle.std.specs.Prelude.{◌≡◌, ◌≤◌, ◌↔◌, length, IfOk, IfSome, OnOk, IsTrue};
ghost use Rattle.lg_gram.specs.Limits.{POSITIONS};
ghost use Rattle.lg_member.specs.Members.{AddsMembers, AreMembers, Grows, IsSideAt, side_on};

use crate::form::{Form, form_of};
use crate::hints::Hints;
use crate::side::Side;
use lg_base::NoMemory;
use lg_gram::{Connector, Disjunct, Disjuncts};
use std::alloc::Global;

/// A disjunct at a position, and the numbers of its left and its right list.
#[derive(Clone, Copy)]
pub struct Member<'a> {
    pub position: u32,
    pub form: Form<'a>,
    pub left: usize,
    pub right: usize,
}

impl Member<'_> {
    /// The number of its right list, or of its left list.
    pub fn side(&self, right: bool) -> usize
        ensures { result ≡ side_on right self.now }
    {
        if right { self.right } else { self.left }
    }
}

/// All disjuncts of the positions, in order, each with the numbers of its lists among `lefts` and `rights`, which get them. There are at most
/// 252 positions. The only error is running out of memory: what the two lists had stands in front still, and some that were
/// added may stand behind it.
pub fn members_of<'a>(
    alloc: Global,
    positions: &'a [Disjuncts],
    lefts: &mut Vec<Side<'a>>,
    rights: &mut Vec<Side<'a>>,
) -> Result<Vec<Member<'a>>, NoMemory>
    requires { length positions.now ≤ POSITIONS }
    ensures lefts { Grows lefts.old.items lefts.new.items }
    ensures rights { Grows rights.old.items rights.new.items }
    ensures members { IfOk result (λ members. AreMembers positions.now lefts.new.items rights.new.items members.items) }
{
    let mut left_hints = Hints::new(alloc);
    let mut right_hints = Hints::new(alloc);
    let mut members = Vec::with_capacity(alloc, count_of(positions))?;
    for (position, disjuncts) in positions.iter().enumerate() {
        push_members(
            position as u32,
            disjuncts.items(),
            lefts,
            rights,
            &mut left_hints,
            &mut right_hints,
            &mut members,
        )?;
    }
    Ok(members)
}

// How many disjuncts there are, for the room that their list wants.
fn count_of(positions: &[Disjuncts]) -> usize {
    let mut count: usize = 0;
    for disjuncts in positions {
        count = count.saturating_add(disjuncts.items().len());
    }
    count
}

fn push_members<'a>(
    position: u32,
    disjuncts: &'a [Disjunct],
    lefts: &mut Vec<Side<'a>>,
    rights: &mut Vec<Side<'a>>,
    left_hints: &mut Hints<'a>,
    right_hints: &mut Hints<'a>,
    members: &mut Vec<Member<'a>>,
) -> Result<(), NoMemory>
    ensures lefts { Grows lefts.old.items lefts.new.items }
    ensures rights { Grows rights.old.items rights.new.items }
    ensures added { OnOk result (AddsMembers position disjuncts.now lefts.old.items rights.old.items lefts.new.items rights.new.items members.old.items members.new.items) }
{
    for disjunct in disjuncts {
        let left = number_of(lefts, left_hints, position, disjunct.left.items())?;
        let right = number_of(rights, right_hints, position, disjunct.right.items())?;
        members.push(Member {
            position,
            form: form_of(disjunct),
            left,
            right,
        })?;
    }
    Ok(())
}

// The number of a list of a position: that which it has, where the hints find it.
fn number_of<'a>(
    sides: &mut Vec<Side<'a>>,
    hints: &mut Hints<'a>,
    position: u32,
    list: &'a [Connector],
) -> Result<usize, NoMemory>
    ensures grows { Grows sides.old.items sides.new.items }
    ensures number { IfOk result (λ k. IsSideAt sides.new.items k position list.now) }
{
    if let Some(number) = known(sides, hints, position, list) {
        hints.met(number);
        return Ok(number);
    }
    let number = sides.len();
    sides.push(Side { position, list })?;
    hints.add(list, number)?;
    hints.met(number);
    Ok(number)
}

// The number of a list of a position, where the hints find one.
fn known(sides: &[Side<'_>], hints: &Hints<'_>, position: u32, list: &[Connector]) -> Option<usize>
    ensures { IfSome result (λ k. IsSideAt sides.now k position list.now) }
{
    let first = hints.first();
    if is_at(sides, first, position, list) {
        return Some(first);
    }
    let second = hints.second();
    if is_at(sides, second, position, list) {
        return Some(second);
    }
    let equal = hints.equal(list);
    if is_at(sides, equal, position, list) {
        return Some(equal);
    }
    None
}

fn is_at(sides: &[Side<'_>], number: usize, position: u32, list: &[Connector]) -> bool
    ensures { IsTrue result → IsSideAt sides.now number position list.now }
{
    number < sides.len() && is_side(&sides[number], position, list)
}

fn is_side(side: &Side<'_>, position: u32, list: &[Connector]) -> bool
    ensures { IsTrue result ↔ ((side.now.position ≡ position) × (side.now.list.now ≡ list.now)) }
{
    side.position == position && is_same(side.list, list)
}

fn is_same(a: &[Connector], b: &[Connector]) -> bool
    ensures { IsTrue result ↔ (a.now ≡ b.now) }
{
    a == b
}
