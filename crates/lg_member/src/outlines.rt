//! The disjuncts of a sentence in outline, with the numbers of their sides.
ghost use Rattle.std.specs.Prelude.{◌≤◌, ◌<◌, [], true, false, length, map, cond, get_or, IfOk, OnOk};
ghost use Rattle.lg_gram.specs.Limits.{POSITIONS};
ghost use Rattle.lg_disj.specs.Outlines.{IsLineOf, all_in, disjuncts_in, lists_on};
ghost use Rattle.lg_member.specs.Members.{AddsLines, AddsMembers, AreMembers, Grows, HasSides, IsSideAt};

use crate::form::Form;
use crate::member::Member;
use crate::side::Side;
use lg_base::{List, NoMemory};
use lg_disj::{Line, Outline};
use std::alloc::Global;

/// The disjuncts of the words of a position in outline, those of one word after those of another.
pub type Outlines = List<Outline>;

/// All disjuncts of the positions, in order, each with the numbers of its lists among `lefts` and `rights`, which get them. There are at
/// most 252 positions. The only error is running out of memory: what the two lists had stands in front still, and some that were added
/// may stand behind it.
pub fn members_in<'a>(
    alloc: Global,
    positions: &'a [Outlines],
    lefts: &mut Vec<Side<'a>>,
    rights: &mut Vec<Side<'a>>,
) -> Result<Vec<Member<'a>>, NoMemory>
    requires { length positions.now ≤ POSITIONS }
    ensures lefts { Grows lefts.old.items lefts.new.items }
    ensures rights { Grows rights.old.items rights.new.items }
    ensures members { IfOk result (λ members. AreMembers (map all_in positions.now) lefts.new.items rights.new.items members.items) }
{
    let mut members = Vec::with_capacity(alloc, count_of(positions))?;
    for (position, outlines) in positions.iter().enumerate() {
        push_outlines(
            position as u32,
            outlines.items(),
            lefts,
            rights,
            &mut members,
        )?;
    }
    Ok(members)
}

// How many disjuncts there are, for the room that their list wants.
fn count_of(positions: &[Outlines]) -> usize {
    let mut count: usize = 0;
    for outlines in positions {
        for outline in outlines.items() {
            count = count.saturating_add(outline.lines().len());
        }
    }
    count
}

fn push_outlines<'a>(
    position: u32,
    outlines: &'a [Outline],
    lefts: &mut Vec<Side<'a>>,
    rights: &mut Vec<Side<'a>>,
    members: &mut Vec<Member<'a>>,
) -> Result<(), NoMemory>
    ensures lefts { Grows lefts.old.items lefts.new.items }
    ensures rights { Grows rights.old.items rights.new.items }
    ensures added { OnOk result (AddsMembers position (all_in outlines.now) lefts.old.items rights.old.items lefts.new.items rights.new.items members.old.items members.new.items) }
{
    for outline in outlines {
        push_outline(position, outline, lefts, rights, members)?;
    }
    Ok(())
}

fn push_outline<'a>(
    position: u32,
    outline: &'a Outline,
    lefts: &mut Vec<Side<'a>>,
    rights: &mut Vec<Side<'a>>,
    members: &mut Vec<Member<'a>>,
) -> Result<(), NoMemory>
    ensures lefts { Grows lefts.old.items lefts.new.items }
    ensures rights { Grows rights.old.items rights.new.items }
    ensures added { OnOk result (AddsMembers position (disjuncts_in outline.now) lefts.old.items rights.old.items lefts.new.items rights.new.items members.old.items members.new.items) }
{
    let left = lefts.len();
    let right = rights.len();
    push_sides(position, outline, false, lefts)?;
    push_sides(position, outline, true, rights)?;
    push_lines(position, outline, left, right, lefts, rights, members)
}

// Adds the lists of a word on a side, `true` the right, as sides of a position.
fn push_sides<'a>(
    position: u32,
    outline: &'a Outline,
    right: bool,
    sides: &mut Vec<Side<'a>>,
) -> Result<(), NoMemory>
    ensures grows { Grows sides.old.items sides.new.items }
    ensures sides { OnOk result (HasSides position (lists_on right outline.now) (length sides.old.items) sides.new.items) }
{
    for number in 0..outline.count(right) {
        let list = outline.list(right, number);
        sides.push(Side { position, list })?;
    }
    Ok(())
}

// Adds the disjuncts of a word, whose lists are the sides from `left` on, and from `right` on.
fn push_lines<'a>(
    position: u32,
    outline: &'a Outline,
    left: usize,
    right: usize,
    lefts: &[Side<'a>],
    rights: &[Side<'a>],
    members: &mut Vec<Member<'a>>,
) -> Result<(), NoMemory>
    requires lefts { HasSides position (lists_on false outline.now) left lefts.now }
    requires rights { HasSides position (lists_on true outline.now) right rights.now }
    ensures { OnOk result (AddsLines position (disjuncts_in outline.now) lefts.now rights.now members.old.items members.new.items) }
{
    for line in outline.lines() {
        let first = number_of(position, outline, line, false, left, lefts);
        let second = number_of(position, outline, line, true, right, rights);
        members.push(Member {
            position,
            form: Form {
                word: outline.word(),
                left: lefts[first].list,
                right: rights[second].list,
                cost: &line.cost,
            },
            left: first,
            right: second,
        })?;
    }
    Ok(())
}

// The number of a line's list on a side, `true` the right, where the lists of its word are the sides from `first` on. Contracts alone
// read the position, the word and the sides.
fn number_of(
    _position: u32,
    _outline: &Outline,
    line: &Line,
    right: bool,
    first: usize,
    _sides: &[Side<'_>],
) -> usize
    requires line { IsLineOf _outline.now line.now }
    requires sides { HasSides _position (lists_on right _outline.now) first _sides.now }
    ensures within { result < length _sides.now }
    ensures side { IsSideAt _sides.now result _position (get_or (lists_on right _outline.now) (cond right line.now.right line.now.left) []) }
{
    first + line.side(right)
}
