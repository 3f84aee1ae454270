//! Sharper problems.
ghost use Rattle.std.specs.Prelude.{List, map, IfOk, IfSome, OnOk};
ghost use Rattle.std.specs.List.{All};
ghost use Rattle.lg_disj.specs.Outlines.{all_in};
ghost use Rattle.lg_gram.specs.Problems.{IsProblem};
ghost use Rattle.lg_gram.specs.declared.disjunct.Disjunct.{Disjunct};
ghost use Rattle.lg_member.specs.Members.{IsKnown};
ghost use Rattle.lg_sharpen.specs.Bounds.{AreMembersOf, KeepsChosen};
ghost use Rattle.lg_sharpen.specs.Sharp.{IsSharpened};

use crate::rounds::settle;
use lg_base::NoMemory;
use lg_gram::Problem;
use lg_member::{
    Member, Outlines, Side, members_go_by_rounds, members_in, members_of, rows_are_problems,
    rows_of,
};
use std::alloc::Global;

// With fewer disjuncts than this a problem stays as it is.
const SMALL: usize = 200;

/// A problem with the good linkages that have at most so many unlinked words, and with fewer disjuncts.
///
/// Each connector has a nearest and a farthest position that a partner of it can have, by those of its neighbours on the list: links of
/// the connectors of a side end one behind the other. A partner lies within these bounds, and the connector within the partner's. The
/// words under the nearest link of a word, to one side of it, link among themselves and with that link's other end alone; those that
/// have no disjunct for that are unlinked, and so are those elsewhere that have none left, so all these are no more than `nulls`. Where
/// a link is the nearest of both its ends, all words under it are unlinked. A link has farther links at one of its ends alone, and
/// under each of them the links of the other end that lead away from it; and the nearer links of both its ends have room under it,
/// since links do not cross. What cannot have all its links by this is taken away, in three rounds. A problem with fewer than 200
/// disjuncts stays as it is. The only error is running out of memory.
pub fn sharpen(alloc: Global, problem: Problem, nulls: u32) -> Result<Problem, NoMemory>
    ensures { IfOk result (IsSharpened problem nulls) }
{
    if is_small(&problem) {
        return Ok(problem);
    }
    let sharp = sharper(alloc, &problem, nulls)?;
    Ok(sharp)
}

/// The same of the disjuncts of words in outline, of which those that are left are made, and no others.
pub fn sharpen_outlines(
    alloc: Global,
    positions: &[Outlines],
    nulls: u32,
) -> Result<Problem, NoMemory>
    requires { IsProblem (map all_in positions.now) }
    ensures { IfOk result (IsSharpened (map all_in positions.now) nulls) }
{
    let mut lefts = Vec::new(alloc);
    let mut rights = Vec::new(alloc);
    let members = members_in(alloc, positions, &mut lefts, &mut rights)?;
    left_of(
        alloc,
        positions.len() as u32,
        nulls,
        &lefts,
        &rights,
        members,
    )
}

/// The same beside the problem, which stays; none where the problem has fewer than 200 disjuncts.
pub fn sharpened(alloc: Global, problem: &Problem, nulls: u32) -> Result<Option<Problem>, NoMemory>
    ensures { IfOk result (λ sharp. IfSome sharp (IsSharpened problem.now nulls)) }
{
    if is_small(problem) {
        return Ok(None);
    }
    let sharp = sharper(alloc, problem, nulls)?;
    Ok(Some(sharp))
}

// Whether sharpening would cost more than it saves.
fn is_small(problem: &Problem) -> bool
    ensures { IsProblem problem.now }
{
    let mut left = SMALL;
    for position in problem.positions() {
        let count = position.items().len();
        if count >= left {
            return false;
        }
        left -= count;
    }
    true
}

fn sharper(alloc: Global, problem: &Problem, nulls: u32) -> Result<Problem, NoMemory>
    ensures { IfOk result (IsSharpened problem.now nulls) }
{
    let positions = problem.positions();
    let mut lefts = Vec::new(alloc);
    let mut rights = Vec::new(alloc);
    let members = members_of(alloc, positions, &mut lefts, &mut rights)?;
    left_of(
        alloc,
        positions.len() as u32,
        nulls,
        &lefts,
        &rights,
        members,
    )
}

// The problem of those of the members of so many words that are left.
fn left_of(
    alloc: Global,
    words: u32,
    nulls: u32,
    lefts: &[Side<'_>],
    rights: &[Side<'_>],
    mut members: Vec<Member<'_>>,
) -> Result<Problem, NoMemory>
    requires { (positions : List (List Disjunct)) × AreMembersOf positions words lefts.now rights.now members.items }
    ensures { (positions : List (List Disjunct)) → AreMembersOf positions words lefts.now rights.now members.entry.items → IfOk result (IsSharpened positions nulls) }
{
    let most = nulls as u64 + 1;
    settle_many(alloc, words, most, lefts, rights, &mut members)?;
    let rows = rows_of(alloc, words, &members)?;
    rows_are_problems();
    Ok(Problem::of_known(rows))
}

// Takes members away that no linkage can choose in which fewer than `most` words are unlinked. Where there are few, they stay.
fn settle_many(
    alloc: Global,
    words: u32,
    most: u64,
    lefts: &[Side<'_>],
    rights: &[Side<'_>],
    members: &mut Vec<Member<'_>>,
) -> Result<(), NoMemory>
    requires { All (IsKnown lefts.now rights.now) members.old.items }
    ensures { OnOk result (KeepsChosen words most members.old.items members.new.items) }
{
    members_go_by_rounds();
    if members.len() < SMALL {
        return Ok(());
    }
    settle(alloc, words, most, lefts, rights, members)
}
