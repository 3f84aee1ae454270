//! The disjuncts of a word that can cut a region, by groups with the same left list.
ghost use Rattle.std.specs.Prelude.{◌≡◌, ◌≢◌, ◌+◌, ◌<◌, ◌≤◌, [], length, slice_index_or, IfOk};
ghost use Rattle.lg_region.specs.Fronts.{list_of};
ghost use Rattle.lg_region.specs.Parts.{Region};
ghost use Rattle.lg_region.specs.Ways.{AreExactly};
ghost use Rattle.lg_region.specs.Groups.{key_behind, IsGroup, IsKnownGap, IsNextLed, IsRightOf, Leads, left_lead, right_lead, right_of};

use crate::chains::Side;
use crate::key::Key;
use crate::lists::Lists;
use crate::ways::{OnWay, Way, push_ways};
use lg_base::NoMemory;

/// The class of the disjuncts that can cut a region, on the side of the list that decides.
#[derive(Clone, Copy, Debug)]
pub struct Lead {
    pub side: Side,
    pub class: u32,
}

/// A region in numbers, and which disjuncts can cut it.
#[derive(Clone, Copy, Debug)]
pub struct Gap {
    pub left: u32,
    pub right: u32,
    pub llist: u32,
    pub rlist: u32,
    pub nulls: u32,
    pub lead: Lead,
}

/// Disjuncts of a word, from one number up to another, of which those that can cut the region have the same left list, by its
/// number.
#[derive(Clone, Copy, Debug)]
pub struct Group {
    pub word: u32,
    pub left: u32,
    pub from: u32,
    pub to: u32,
}

/// A disjunct of a word by its number, and how its right list goes on.
#[derive(Clone, Copy, Debug)]
pub struct Right {
    pub disjunct: u32,
    pub way: Way,
}

impl OnWay for Right {
    ghost on = { right_of };

    fn on(number: u32, way: Way) -> Right {
        Right {
            disjunct: number,
            way,
        }
    }
}

impl Right {
    /// The right key of an alternative that cuts the region at the word of the group with this disjunct, and leaves so many words
    /// unlinked behind that word.
    pub fn key(&self, gap: &Gap, group: &Group, nulls: u32) -> Key
        ensures { result ≡ key_behind gap.now group.now nulls self.now }
    {
        Key::Region {
            left: group.word,
            right: gap.right,
            llist: self.way.near,
            rlist: self.way.far,
            nulls,
        }
    }
}

// Which disjuncts can cut a region with these lists: those that can be joined with its left list, or, where that is empty,
// with its right one.
pub(crate) fn lead_of(lists: &Lists<'_>, llist: u32, rlist: u32) -> Lead
    requires llist { llist ≤ length lists.now.lists }
    requires rlist { rlist ≤ length lists.now.lists }
    ensures small { result.class < 256 }
    ensures led { (k : Region) → k.llist ≡ list_of lists.entry.now.lists llist → k.rlist ≡ list_of lists.entry.now.lists rlist → Leads result lists.entry.now.positions k }
    ensures left { llist ≢ 0 → result ≡ left_lead lists.entry.now llist }
    ensures right { llist ≡ 0 → result ≡ right_lead lists.entry.now rlist }
{
    lists.are_numbered();
    if llist == 0 {
        Lead {
            side: Side::Right,
            class: lists.class(rlist),
        }
    } else {
        Lead {
            side: Side::Left,
            class: lists.class(llist),
        }
    }
}

// The disjuncts of a word from this one on that have its left list where they have the class.
pub(crate) fn group_at(lists: &Lists<'_>, gap: &Gap, word: u32, from: u32) -> Group
    requires after { gap.now.left < word }
    requires before { word < gap.now.right }
    requires within { word < length lists.now.positions }
    requires listed { from < length (slice_index_or lists.now.positions word []) }
    requires led { IsNextLed lists.now gap.now.lead word from from }
    ensures word { result.word ≡ word }
    ensures from { result.from ≡ from }
    ensures later { from < result.to }
    ensures group { IsGroup lists.entry.now gap.now result }
    ensures led { IsNextLed lists.entry.now gap.now.lead word result.to result.to }
{
    let left = lists.sides(word, from).left;
    let to = lists.run_end(gap.lead.side, word, from);
    Group {
        word,
        left,
        from,
        to,
    }
}

/// The disjuncts of the group that can cut the region, with each way on of their right lists. They are the same for each region that
/// ends here with the same list and looks for the same class of disjuncts. They stand in this vector, and what it has is gone.
pub fn rights(
    lists: &Lists<'_>,
    gap: &Gap,
    group: &Group,
    spare: Vec<Right>,
) -> Result<Vec<Right>, NoMemory>
    requires gap { IsKnownGap lists.now gap.now }
    requires group { IsGroup lists.now gap.now group.now }
    ensures { IfOk result (λ rights. AreExactly rights.items (IsRightOf lists.entry.now gap.now group.now)) }
{
    let mut rights = spare;
    rights.clear();
    let mut number = group.from;
    while number < group.to {
        let sides = lists.sides(group.word, number);
        push_ways(
            lists,
            number,
            sides.right,
            gap.rlist,
            gap.llist != 0,
            &mut rights,
        )?;
        number = lists.next(gap.lead.side, group.word, number);
    }
    Ok(rights)
}
