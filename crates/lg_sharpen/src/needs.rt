//! What the links on the other side of a word need.
//!
//! A link of a word under a farther link, away from it, ends no farther than that one, since links do not cross.
ghost use Rattle.std.specs.Prelude.{◌≡◌, slice_index_or, IfOk, OnOk};
ghost use Rattle.lg_sharpen.specs.Bounds.{KeepsNeeds, SetsNeed, SetsNeeds};
ghost use Rattle.lg_sharpen.specs.Needs.{AreNeeds, IsFar, IsFarAt, LowersAt};
ghost use Rattle.lg_sharpen.specs.Sites.{items_in};

use crate::site::Site;
use lg_base::NoMemory;
use lg_member::Member;
use std::alloc::Global;

/// Notes at the sites of each list how far the links on the other side go at least, by the members that have the list.
pub(crate) fn note_needs(
    alloc: Global,
    left_lists: &mut [Vec<Site>],
    right_lists: &mut [Vec<Site>],
    members: &[Member<'_>],
) -> Result<(), NoMemory>
    ensures { OnOk result (KeepsNeeds (items_in left_lists.old) (items_in right_lists.old) members.now (items_in left_lists.new) (items_in right_lists.new)) }
{
    let left_needs = needs_of(alloc, false, left_lists.len(), right_lists, members)?;
    let right_needs = needs_of(alloc, true, right_lists.len(), left_lists, members)?;
    set_needs(&left_needs, left_lists);
    set_needs(&right_needs, right_lists);
    Ok(())
}

// For each list to the right, or to the left, how far the links on the other side go at least.
fn needs_of(
    alloc: Global,
    right: bool,
    count: usize,
    others: &[Vec<Site>],
    members: &[Member<'_>],
) -> Result<Vec<u32>, NoMemory>
    ensures { IfOk result (λ needs. AreNeeds right (items_in others.now) members.now needs.items) }
{
    let mut needs = vec![in alloc; u32::MAX; count]?;
    note_far(right, others, members, &mut needs);
    Ok(needs)
}

fn note_far(right: bool, others: &[Vec<Site>], members: &[Member<'_>], needs: &mut [u32])
    ensures { AreNeeds right (items_in others.now) members.now needs.new }
{
    for member in members {
        let far = far_at(others, member.side(!right));
        lower_at(needs, member.side(right), far);
    }
}

// How long the farthest link of a list is at least.
fn far_at(lists: &[Vec<Site>], index: usize) -> u32
    ensures { IsFarAt (items_in lists.now) index result }
{
    if index < lists.len() {
        far(&lists[index])
    } else {
        0
    }
}

fn far(sites: &[Site]) -> u32
    ensures { IsFar sites.now result }
{
    if sites.is_empty() {
        return 0;
    }
    let last = sites.len() - 1;
    let site = sites[last];
    site.span.from
}

// Makes a number no greater than another.
fn lower_at(needs: &mut [u32], index: usize, need: u32)
    ensures { LowersAt index need needs.old needs.new }
{
    if index < needs.len() {
        needs[index] = needs[index].min(need);
    }
}

fn set_needs(needs: &[u32], lists: &mut [Vec<Site>])
    ensures { SetsNeeds needs.now (items_in lists.old) (items_in lists.new) }
{
    for index in 0..lists.len() {
        set_need(need_at(needs, index), &mut lists[index]);
    }
}

fn need_at(needs: &[u32], index: usize) -> u32
    ensures { result ≡ slice_index_or needs.now index 0 }
{
    needs.get(index).copied().unwrap_or(0)
}

fn set_need(need: u32, sites: &mut Vec<Site>)
    ensures { SetsNeed need sites.old.items sites.new.items }
{
    if has_need(need, sites) {
        return;
    }
    let count = sites.len();
    for place in 0..count {
        let old = sites[place];
        sites[place] = Site { need, ..old };
    }
}

// Whether the need was noted before: all sites of a list have the same.
fn has_need(need: u32, sites: &[Site]) -> bool {
    match sites.first() {
        Some(site) => site.need == need,
        None => true,
    }
}
