//! Rounds of sharpening.
ghost use Rattle.std.specs.Prelude.{◌≡◌, length, IfOk, OnOk};
ghost use Rattle.std.specs.List.{All};
ghost use Rattle.lg_member.specs.Members.{IsKnown};
ghost use Rattle.lg_sharpen.specs.Bounds.{AreOpen, KeepsChosen, KeepsStanding};
ghost use Rattle.lg_sharpen.specs.Sites.{items_in};

use crate::gaps::gaps_of;
use crate::narrow::narrow_all;
use crate::needs::note_needs;
use crate::site::{Site, are_open};
use crate::start::sites_of;
use crate::table::table_of;
use lg_base::NoMemory;
use lg_member::{Member, Side, keep, members_go_by_rounds, used};
use std::alloc::Global;

// How many rounds there are. A fourth takes some three of a hundred disjuncts more away.
const ROUNDS: u32 = 3;

/// Takes members away that no linkage can choose in which fewer than `most` words are unlinked.
pub(crate) fn settle(
    alloc: Global,
    words: u32,
    most: u64,
    lefts: &[Side<'_>],
    rights: &[Side<'_>],
    members: &mut Vec<Member<'_>>,
) -> Result<(), NoMemory>
    requires { All (IsKnown lefts.now rights.now) members.old.items }
    ensures { OnOk result (KeepsChosen words most members.old.items members.new.items) }
{
    let mut left_lists = sites_of(alloc, false, words, lefts)?;
    let mut right_lists = sites_of(alloc, true, words, rights)?;
    rounds(
        alloc,
        words,
        most,
        lefts,
        rights,
        &mut left_lists,
        &mut right_lists,
        members,
    )?;
    Ok(())
}

fn rounds(
    alloc: Global,
    words: u32,
    most: u64,
    lefts: &[Side<'_>],
    rights: &[Side<'_>],
    left_lists: &mut [Vec<Site>],
    right_lists: &mut [Vec<Site>],
    members: &mut Vec<Member<'_>>,
) -> Result<(), NoMemory>
    requires known { All (IsKnown lefts.now rights.now) members.old.items }
    requires left { length left_lists.old ≡ length lefts.now }
    requires right { length right_lists.old ≡ length rights.now }
    ensures { OnOk result (KeepsStanding words most (items_in left_lists.old) (items_in right_lists.old) members.old.items (items_in left_lists.new) (items_in right_lists.new) members.new.items) }
{
    members_go_by_rounds();
    for _ in 0..ROUNDS {
        note_needs(alloc, left_lists, right_lists, members)?;
        round(
            alloc,
            words,
            most,
            lefts,
            rights,
            left_lists,
            right_lists,
            members,
        )?;
    }
    Ok(())
}

// Narrows the lists of the members, and takes those away of which a connector has no partner left.
fn round(
    alloc: Global,
    words: u32,
    most: u64,
    lefts: &[Side<'_>],
    rights: &[Side<'_>],
    left_lists: &mut [Vec<Site>],
    right_lists: &mut [Vec<Site>],
    members: &mut Vec<Member<'_>>,
) -> Result<(), NoMemory>
    requires known { All (IsKnown lefts.now rights.now) members.old.items }
    requires left { length left_lists.old ≡ length lefts.now }
    requires right { length right_lists.old ≡ length rights.now }
    ensures { OnOk result (KeepsStanding words most (items_in left_lists.old) (items_in right_lists.old) members.old.items (items_in left_lists.new) (items_in right_lists.new) members.new.items) }
{
    let left_used = used(alloc, false, lefts, rights, members)?;
    let right_used = used(alloc, true, lefts, rights, members)?;
    let gaps = gaps_of(alloc, words, most, left_lists, right_lists, members)?;
    let left_sites = table_of(alloc, words, lefts, &left_used, left_lists)?;
    narrow_all(
        true,
        most,
        &gaps,
        rights,
        &right_used,
        &left_sites,
        right_lists,
    );
    let right_sites = table_of(alloc, words, rights, &right_used, right_lists)?;
    narrow_all(
        false,
        most,
        &gaps,
        lefts,
        &left_used,
        &right_sites,
        left_lists,
    );
    let left_open = which_open(alloc, left_lists)?;
    let right_open = which_open(alloc, right_lists)?;
    keep(&left_open, &right_open, members);
    Ok(())
}

// Which lists have a distance left for each of their sites.
fn which_open(alloc: Global, lists: &[Vec<Site>]) -> Result<Vec<bool>, NoMemory>
    ensures { IfOk result (λ flags. AreOpen (items_in lists.now) flags.items) }
{
    let mut flags = Vec::new(alloc);
    for index in 0..lists.len() {
        let flag = are_open(&lists[index]);
        flags.push(flag)?;
    }
    Ok(flags)
}
