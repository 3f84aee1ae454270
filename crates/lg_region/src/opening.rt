//! How the alternatives of a region begin, so that a caller need not make those whose left key it has no use for.
ghost use Rattle.std.specs.Prelude.{◌≡◌, ◌≢◌, ◌+◌, ◌++◌, ◌<◌, ◌≤◌, ◌↔◌, [], length, map, slice_index_or, IfNone, IfOk, IfSome, IsTrue, OnOk};
ghost use Rattle.lg_region.specs.Alike.{BeginsWith, end_of, last_of};
ghost use Rattle.lg_region.specs.Fronts.{list_of};
ghost use Rattle.lg_region.specs.Openings.{AreBeginnings, BeginsSo, GroupsOfWord, HasRight, HasRoomFor, IsGapOf, begins_at, ended, left_of};
ghost use Rattle.lg_region.specs.Groups.{IsGroup, IsKnownGap, StandsIn, region_of_gap};
ghost use Rattle.lg_region.specs.Keys.{IsAltOfRegion, IsValidKey};
ghost use Rattle.lg_region.specs.declared.group.Gap.{Gap as SeenGap};
ghost use Rattle.lg_region.specs.Ways.{AddsExactly, KeepsFront};

use crate::alternative::Alt;
use crate::group::{Gap, Group, Right, group_at, lead_of, rights};
use crate::key::Key;
use crate::lists::Lists;
use crate::ways::{OnWay, Way, has_way, push_ways};
use lg_base::NoMemory;
use std::alloc::Global;

/// How regions begin that begin alike: the left end, the number of its list, and how many words are unlinked to the left of the
/// word that cuts them. Where that list is empty, the last connector of the right list tells the disjuncts that can cut them: `last`
/// is the number of a list that ends with it, the same one for all that do. Where it is not empty, `last` is 0.
#[derive(Clone, Copy, Debug, PartialEq, Eq)]
pub struct Origin {
    pub left: u32,
    pub llist: u32,
    pub nulls: u32,
    pub last: u32,
}

/// How the alternatives of a group begin that have one left key: how the two left lists go on, and how many words are unlinked on
/// the left.
#[derive(Clone, Copy, Debug)]
pub struct Beginning {
    pub nulls: u32,
    pub way: Way,
}

impl OnWay for Beginning {
    ghost on = { begins_at };

    fn on(nulls: u32, way: Way) -> Beginning {
        Beginning { nulls, way }
    }
}

impl Beginning {
    /// The left key.
    pub fn key(&self, gap: &Gap, group: &Group) -> Key
        ensures { result ≡ left_of gap.now group.now self.now }
    {
        Key::Region {
            left: gap.left,
            right: group.word,
            llist: self.way.near,
            rlist: self.way.far,
            nulls: self.nulls,
        }
    }
}

/// The region of a key, with the class of the disjuncts that can cut it. None for the whole sentence, and where both lists are
/// empty. No memory.
pub fn gap_of(lists: &Lists<'_>, key: Key) -> Option<Gap>
    requires { IsValidKey lists.now.positions lists.now.lists key }
    ensures gap { IfSome result (IsGapOf lists.now key) }
    ensures none { IfNone result ((gap : SeenGap) → IsGapOf lists.now key gap → ⊥) }
{
    match key {
        Key::Whole { .. } => None,
        Key::Region {
            left,
            right,
            llist,
            rlist,
            nulls,
        } => {
            if llist == 0 && rlist == 0 {
                return None;
            }
            let lead = lead_of(lists, llist, rlist);
            Some(Gap {
                left,
                right,
                llist,
                rlist,
                nulls,
                lead,
            })
        }
    }
}

/// How a region begins, with so many unlinked words to the left of the word that cuts it. No memory.
pub fn origin_of(lists: &Lists<'_>, gap: &Gap, nulls: u32) -> Origin
    requires gap { (key : _) × IsGapOf lists.now key gap.now }
    requires few { nulls ≤ gap.now.nulls }
    ensures begins { BeginsWith lists.entry.now result gap.now }
    ensures nulls { result.nulls ≡ nulls }
{
    Origin {
        left: gap.left,
        llist: gap.llist,
        nulls,
        last: last_that_leads(lists, gap),
    }
}

// The first list that ends with the same connector as the right one, where the left one is empty.
fn last_that_leads(lists: &Lists<'_>, gap: &Gap) -> u32
    requires { gap.now.rlist ≤ length lists.now.lists }
    ensures { gap.now.llist ≡ 0 → last_of (list_of lists.entry.now.lists gap.now.rlist) ≡ last_of (list_of lists.entry.now.lists result) }
{
    if gap.llist == 0 {
        lists.last(gap.rlist)
    } else {
        0
    }
}

/// The words before this one can cut a region with so many unlinked words to their left: the others of its unlinked words have room
/// behind them. No memory.
pub fn end_with(gap: &Gap, nulls: u32) -> u32
    requires { nulls ≤ gap.now.nulls }
    ensures { result ≡ end_of gap.now nulls }
{
    gap.right.saturating_sub(gap.nulls - nulls)
}

/// The groups of a region at one of its words: each alternative that cuts it there stands in exactly one. They stand in this vector, and what
/// it has is gone.
pub fn groups_at(
    lists: &Lists<'_>,
    gap: &Gap,
    word: u32,
    spare: Vec<Group>,
) -> Result<Vec<Group>, NoMemory>
    requires known { IsKnownGap lists.now gap.now }
    requires after { gap.now.left < word }
    requires before { word < gap.now.right }
    requires within { gap.now.right ≤ length lists.now.positions }
    ensures { IfOk result (λ groups. GroupsOfWord lists.entry.now gap.now word (length (slice_index_or lists.entry.now.positions word [])) [] groups.items) }
{
    let mut groups = spare;
    groups.clear();
    push_groups(lists, gap, word, &mut groups)?;
    Ok(groups)
}

// Adds the groups of a word.
fn push_groups(
    lists: &Lists<'_>,
    gap: &Gap,
    word: u32,
    groups: &mut Vec<Group>,
) -> Result<(), NoMemory>
    requires known { IsKnownGap lists.now gap.now }
    requires after { gap.now.left < word }
    requires before { word < gap.now.right }
    requires within { gap.now.right ≤ length lists.now.positions }
    ensures { OnOk result (GroupsOfWord lists.entry.now gap.now word (length (slice_index_or lists.entry.now.positions word [])) groups.old.items groups.new.items) }
{
    let count = lists.count(word);
    let mut from = lists.first(gap.lead.side, gap.lead.class, word);
    while from < count {
        let group = group_at(lists, gap, word, from);
        groups.push(group)?;
        from = group.to;
    }
    Ok(())
}

/// How the alternatives of a group begin that leave so many words unlinked on the left, each way once, and no other. They stand in this
/// vector, and what it has is gone.
pub fn beginnings(
    lists: &Lists<'_>,
    gap: &Gap,
    group: &Group,
    nulls: u32,
    spare: Vec<Beginning>,
) -> Result<Vec<Beginning>, NoMemory>
    requires gap { IsKnownGap lists.now gap.now }
    requires group { IsGroup lists.now gap.now group.now }
    ensures { IfOk result (λ begins. AreBeginnings lists.entry.now gap.now group.now nulls begins.items) }
{
    lists.are_numbered();
    let mut begins = spare;
    begins.clear();
    let room = has_room(gap, group.word, nulls);
    if !room {
        return Ok(begins);
    }
    let found = has_right(lists, gap, group);
    if !found {
        return Ok(begins);
    }
    push_ways(
        lists,
        nulls,
        gap.llist,
        group.left,
        gap.llist == 0,
        &mut begins,
    )?;
    Ok(begins)
}

// Whether so many words can be unlinked to the left of a word, and the others of the region to its right.
fn has_room(gap: &Gap, word: u32, nulls: u32) -> bool
    requires after { gap.now.left < word }
    requires before { word < gap.now.right }
    ensures { IsTrue result ↔ HasRoomFor gap.now word nulls }
{
    nulls <= gap.nulls && nulls < word - gap.left && gap.nulls - nulls < gap.right - word
}

// Whether some disjunct of the group can cut the region.
fn has_right(lists: &Lists<'_>, gap: &Gap, group: &Group) -> bool
    requires gap { IsKnownGap lists.now gap.now }
    requires group { IsGroup lists.now gap.now group.now }
    ensures { IsTrue result ↔ HasRight lists.entry.now gap.now group.now }
{
    lists.are_numbered();
    let mut number = group.from;
    while number < group.to {
        let sides = lists.sides(group.word, number);
        let found = has_way(lists, sides.right, gap.rlist, gap.llist != 0);
        if found {
            return true;
        }
        number = lists.next(gap.lead.side, group.word, number);
    }
    false
}

/// Adds the alternatives of a group that begin so. The only error is running out of memory: what the list had stands in front
/// still, and some that were added may stand behind it.
pub fn push_endings(
    alloc: Global,
    lists: &Lists<'_>,
    gap: &Gap,
    group: &Group,
    begin: &Beginning,
    out: &mut Vec<Alt>,
) -> Result<(), NoMemory>
    requires gap { IsKnownGap lists.now gap.now }
    requires group { IsGroup lists.now gap.now group.now }
    requires begins { (a : _) × IsAltOfRegion lists.now.positions lists.now.lists (region_of_gap lists.now.lists gap.now) a × StandsIn group.now.word group.now.from group.now.to a × BeginsSo gap.now group.now begin.now a }
    ensures kept { KeepsFront out.old.items out.new.items }
    ensures endings { OnOk result (AddsExactly out.old.items out.new.items (λ a. IsAltOfRegion lists.entry.now.positions lists.entry.now.lists (region_of_gap lists.entry.now.lists gap.now) a × StandsIn group.now.word group.now.from group.now.to a × BeginsSo gap.now group.now begin.now a)) }
{
    lists.are_numbered();
    let rights = rights(lists, gap, group, Vec::new(alloc))?;
    push_ended(gap, group, begin, &rights, out)
}

/// Adds the alternatives of a group that begin so and go on with these disjuncts. The only error is running out of memory: what the
/// list had stands in front still, and some that were added may stand behind it.
pub fn push_ended(
    gap: &Gap,
    group: &Group,
    begin: &Beginning,
    rights: &[Right],
    out: &mut Vec<Alt>,
) -> Result<(), NoMemory>
    requires { begin.now.nulls ≤ gap.now.nulls }
    ensures kept { KeepsFront out.old.items out.new.items }
    ensures added { OnOk result (out.new.items ≡ out.old.items ++ map (ended gap.now group.now begin.now) rights.now) }
{
    let lkey = begin.key(gap, group);
    for right in rights {
        let rkey = right.key(gap, group, gap.nulls - begin.nulls);
        out.push(Alt::Split {
            word: group.word,
            disjunct: right.disjunct,
            to_left: begin.way.joint,
            to_right: right.way.joint,
            lkey: Some(lkey),
            rkey: Some(rkey),
        })?;
    }
    Ok(())
}
