//! Regions with a list: how the regions begin that begin alike is looked at once, and each alternative begins as one of these openings.
ghost use Rattle.std.specs.Prelude.{◌≡◌, ◌<◌, ◌≤◌, IfOk, OnOk};
ghost use Rattle.std.specs.List.{Contains};
ghost use Rattle.std.specs.Map.{keys_of};
ghost use Rattle.lg_region.specs.Alike.{BeginsWith, end_of};
ghost use Rattle.lg_region.specs.Groups.{IsGroup, StandsIn};
ghost use Rattle.lg_region.specs.Openings.{LeavesLeft, left_of};
ghost use Rattle.lg_forest.specs.Demands.{AsksNext};
ghost use Rattle.lg_forest.specs.Forests.{AreLive};
ghost use Rattle.lg_forest.specs.Goes.{Goes, IsReady, IsValidGap, gap_width, key_of};
ghost use Rattle.lg_forest.specs.Halves.{AddsLive, AsksAmong};
ghost use Rattle.lg_forest.specs.Opened.{AddsStarts, AsksLeft, IsAny, IsLiveStart, IsOpening, IsStart, OpensWord, StandsAt, StartsSo};

use super::Search;
use crate::openings::{Opening, Start};
use lg_base::{NoMemory, Steps};
use lg_region::{
    Alt, Alts, Gap, Group, Lists, Origin, alternatives_are_small, alternatives_end, beginnings,
    end_with, groups_at, origin_of, regions_begin_alike,
};

impl Search {
    // The live alternatives of a region, by how many words they leave unlinked on the left.
    #[cycle(search)]
    pub(super) fn explore_gap<L>(
        &mut self,
        lists: &Lists<'_>,
        gap: &Gap,
        steps: &mut Steps<L>,
    ) -> Result<Alts, NoMemory>
        requires ready { IsReady lists.now (gap_width gap.now) self.old steps.old }
        requires gap { IsValidGap lists.now gap.now }
        ensures live { let n = lists.entry.now in IfOk result (AreLive n.positions n.lists (key_of gap.now)) }
        ensures goes { let n = lists.entry.now in OnOk result (Goes n (AsksNext n.positions n.lists (key_of gap.now)) 0 self.old steps.old self.new steps.new) }
        ensures later { steps.old ≤ steps.new }
    {
        alternatives_are_small();
        regions_begin_alike();
        lists.are_numbered();
        lists.keep_limits();
        let mut live = Vec::new(self.alloc);
        for nulls in 0..gap.nulls + 1 {
            self.explore_opening(lists, gap, nulls, &mut live, steps)?;
        }
        Alts::of(self.alloc, &live)
    }

    // Adds the live alternatives that leave so many words unlinked on the left, from the ways to begin whose left key has a linkage:
    // these are the same wherever regions end that begin alike.
    #[cycle(search)]
    fn explore_opening<L>(
        &mut self,
        lists: &Lists<'_>,
        gap: &Gap,
        nulls: u32,
        live: &mut Vec<Alt>,
        steps: &mut Steps<L>,
    ) -> Result<(), NoMemory>
        requires ready { IsReady lists.now (gap_width gap.now) self.old steps.old }
        requires gap { IsValidGap lists.now gap.now }
        requires few { nulls ≤ gap.now.nulls }
        ensures live { OnOk result (AddsLive lists.entry.now (key_of gap.now) (LeavesLeft nulls) live.old.items live.new.items) }
        ensures goes { let n = lists.entry.now in OnOk result (Goes n (AsksAmong n (key_of gap.now) (LeavesLeft nulls)) 0 self.old steps.old self.new steps.new) }
        ensures later { steps.old ≤ steps.new }
    {
        regions_begin_alike();
        lists.are_numbered();
        let origin = origin_of(lists, gap, nulls);
        if self.memory.openings.is_shut(&origin, end_with(gap, nulls)) {
            return Ok(());
        }
        let opening = self.open(lists, gap, &origin, steps)?;
        for index in 0..opening.starts.len() {
            let start = opening.starts[index];
            self.explore_start(lists, gap, &origin, &start, live, steps)?;
        }
        self.memory.openings.put(origin, opening)?;
        Ok(())
    }

    // Adds the live alternatives that start so, if the region has room behind the word of the start. Their left key has a linkage.
    #[cycle(search)]
    fn explore_start<L>(
        &mut self,
        lists: &Lists<'_>,
        gap: &Gap,
        origin: &Origin,
        start: &Start,
        live: &mut Vec<Alt>,
        steps: &mut Steps<L>,
    ) -> Result<(), NoMemory>
        requires ready { IsReady lists.now (gap_width gap.now) self.old steps.old }
        requires gap { IsValidGap lists.now gap.now }
        requires alike { BeginsWith lists.now origin.now gap.now }
        requires start { start.now.group.word < end_of gap.now origin.now.nulls → IsStart lists.now gap.now start.now }
        requires level { start.now.begin.nulls ≡ origin.now.nulls }
        requires left { IsLiveStart lists.now gap.now start.now }
        requires there { start.now.group.word < end_of gap.now origin.now.nulls → Contains (keys_of self.old.table) (left_of gap.now start.now.group start.now.begin) }
        ensures live { OnOk result (AddsLive lists.entry.now (key_of gap.now) (StartsSo gap.now start.now) live.old.items live.new.items) }
        ensures goes { let n = lists.entry.now in OnOk result (Goes n (AsksAmong n (key_of gap.now) (StartsSo gap.now start.now)) 0 self.old steps.old self.new steps.new) }
        ensures later { steps.old ≤ steps.new }
    {
        regions_begin_alike();
        alternatives_end();
        lists.are_numbered();
        let end = end_with(gap, origin.nulls);
        if start.group.word >= end {
            return Ok(());
        }
        self.explore_ending(lists, gap, start, live, steps)
    }

    // The opening of the region, where all its words were looked at. In the memory one without words stays in its place.
    #[cycle(search)]
    fn open<L>(
        &mut self,
        lists: &Lists<'_>,
        gap: &Gap,
        origin: &Origin,
        steps: &mut Steps<L>,
    ) -> Result<Opening, NoMemory>
        requires ready { IsReady lists.now (gap_width gap.now) self.old steps.old }
        requires gap { IsValidGap lists.now gap.now }
        requires alike { BeginsWith lists.now origin.now gap.now }
        ensures opened { IfOk result (IsOpening lists.entry.now self.new.table origin.now) }
        ensures done { IfOk result (λ opening. end_of gap.now origin.now.nulls ≤ opening.done) }
        ensures goes { let n = lists.entry.now in OnOk result (Goes n (AsksLeft n (key_of gap.now) origin.now.nulls IsAny) 0 self.old steps.old self.new steps.new) }
        ensures later { steps.old ≤ steps.new }
    {
        regions_begin_alike();
        lists.are_numbered();
        lists.keep_limits();
        let none = Opening::none(self.alloc, gap.left);
        let taken = self.memory.openings.take(origin, none)?;
        let mut opening = match taken {
            Some(opening) => opening,
            None => Opening::none(self.alloc, gap.left),
        };
        let end = end_with(gap, origin.nulls);
        for word in opening.done..end {
            self.open_word(lists, gap, origin.nulls, word, &mut opening, steps)?;
        }
        Ok(opening)
    }

    // Looks at one word more.
    #[cycle(search)]
    fn open_word<L>(
        &mut self,
        lists: &Lists<'_>,
        gap: &Gap,
        nulls: u32,
        word: u32,
        opening: &mut Opening,
        steps: &mut Steps<L>,
    ) -> Result<(), NoMemory>
        requires ready { IsReady lists.now (gap_width gap.now) self.old steps.old }
        requires gap { IsValidGap lists.now gap.now }
        requires after { gap.now.left < word }
        requires before { word < gap.now.right }
        ensures opens { OnOk result (OpensWord lists.entry.now gap.now nulls word opening.old opening.new) }
        ensures goes { let n = lists.entry.now in OnOk result (Goes n (AsksLeft n (key_of gap.now) nulls (StandsAt word)) 0 self.old steps.old self.new steps.new) }
        ensures later { steps.old ≤ steps.new }
    {
        lists.keep_limits();
        let spare = self.spare.take_groups(self.alloc);
        let groups = groups_at(lists, gap, word, spare)?;
        for index in 0..groups.len() {
            let group = &groups[index];
            self.open_group(lists, gap, group, nulls, &mut opening.starts, steps)?;
        }
        self.spare.keep_groups(groups);
        opening.done = word + 1;
        Ok(())
    }

    // Adds the starts of a group that leave so many words unlinked on the left and whose left key has a linkage.
    #[cycle(search)]
    fn open_group<L>(
        &mut self,
        lists: &Lists<'_>,
        gap: &Gap,
        group: &Group,
        nulls: u32,
        starts: &mut Vec<Start>,
        steps: &mut Steps<L>,
    ) -> Result<(), NoMemory>
        requires ready { IsReady lists.now (gap_width gap.now) self.old steps.old }
        requires gap { IsValidGap lists.now gap.now }
        requires group { IsGroup lists.now gap.now group.now }
        ensures starts { OnOk result (AddsStarts lists.entry.now gap.now nulls group.now starts.old.items starts.new.items) }
        ensures goes { let n = lists.entry.now in OnOk result (Goes n (AsksLeft n (key_of gap.now) nulls (StandsIn group.now.word group.now.from group.now.to)) 0 self.old steps.old self.new steps.new) }
        ensures later { steps.old ≤ steps.new }
    {
        let spare = self.spare.take_begins(self.alloc);
        let begins = beginnings(lists, gap, group, nulls, spare)?;
        for index in 0..begins.len() {
            let begin = &begins[index];
            let lkey = begin.key(gap, group);
            if self.visit(lists, lkey, steps)? {
                starts.push(Start {
                    group: *group,
                    begin: *begin,
                })?;
            }
        }
        self.spare.keep_begins(begins);
        Ok(())
    }
}
