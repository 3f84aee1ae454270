//! Starts whose left key has a linkage: which disjuncts of their group go on is looked at once for all regions that end alike.
ghost use Rattle.std.specs.Prelude.{◌≡◌, ◌-◌, ◌≤◌, IfOk, OnOk};
ghost use Rattle.lg_region.specs.Openings.{left_of};
ghost use Rattle.lg_region.specs.Ways.{AreExactly};
ghost use Rattle.lg_forest.specs.Demands.{HasLinkageUnder};
ghost use Rattle.lg_forest.specs.Ends.{AsksRight, IsLiveRight};
ghost use Rattle.lg_forest.specs.Goes.{Goes, IsReady, IsValidGap, gap_width, key_of};
ghost use Rattle.lg_forest.specs.Halves.{AddsLive, AsksAmong};
ghost use Rattle.lg_forest.specs.Opened.{IsStart, StartsSo};

use super::Search;
use crate::halves::Half;
use crate::openings::Start;
use lg_base::{NoMemory, Steps};
use lg_region::{Alt, Gap, Lists, Right, alternatives_end, push_ended, rights};

impl Search {
    // Adds the live alternatives that start so, where their left key has a linkage: those whose right key has one too.
    #[cycle(search)]
    pub(super) fn explore_ending<L>(
        &mut self,
        lists: &Lists<'_>,
        gap: &Gap,
        start: &Start,
        live: &mut Vec<Alt>,
        steps: &mut Steps<L>,
    ) -> Result<(), NoMemory>
        requires ready { IsReady lists.now (gap_width gap.now) self.old steps.old }
        requires gap { IsValidGap lists.now gap.now }
        requires start { IsStart lists.now gap.now start.now }
        requires left { HasLinkageUnder lists.now.positions lists.now.lists (left_of gap.now start.now.group start.now.begin) }
        ensures live { OnOk result (AddsLive lists.entry.now (key_of gap.now) (StartsSo gap.now start.now) live.old.items live.new.items) }
        ensures goes { let n = lists.entry.now in OnOk result (Goes n (AsksRight n gap.now start.now.group (gap.now.nulls - start.now.begin.nulls)) 0 self.old steps.old self.new steps.new) }
        ensures later { steps.old ≤ steps.new }
    {
        alternatives_end();
        lists.are_numbered();
        lists.keep_limits();
        let nulls = gap.nulls - start.begin.nulls;
        let half = Half::of(gap, &start.group, nulls);
        if self.memory.shut.has(&half) {
            return Ok(());
        }
        if let Some(rights) = self.memory.halves.get(&half) {
            return push_ended(gap, &start.group, &start.begin, rights, live);
        }
        let found = self.explore_rights(lists, gap, start, nulls, steps)?;
        if found.is_empty() {
            self.spare.keep_rights(found);
            return self.memory.shut.add(&half);
        }
        push_ended(gap, &start.group, &start.begin, &found, live)?;
        self.memory.halves.put(half, &found)?;
        self.spare.keep_rights(found);
        Ok(())
    }

    // The disjuncts of the group of a start whose right key has a linkage, with so many words unlinked behind their word.
    #[cycle(search)]
    fn explore_rights<L>(
        &mut self,
        lists: &Lists<'_>,
        gap: &Gap,
        start: &Start,
        nulls: u32,
        steps: &mut Steps<L>,
    ) -> Result<Vec<Right>, NoMemory>
        requires ready { IsReady lists.now (gap_width gap.now) self.old steps.old }
        requires gap { IsValidGap lists.now gap.now }
        requires start { IsStart lists.now gap.now start.now }
        requires nulls { nulls ≡ gap.now.nulls - start.now.begin.nulls }
        ensures live { IfOk result (λ rights. AreExactly rights.items (IsLiveRight lists.entry.now gap.now start.now.group nulls)) }
        ensures goes { let n = lists.entry.now in OnOk result (Goes n (AsksRight n gap.now start.now.group nulls) 0 self.old steps.old self.new steps.new) }
        ensures later { steps.old ≤ steps.new }
    {
        alternatives_end();
        lists.are_numbered();
        let spare = self.spare.take_rights(self.alloc);
        let all = rights(lists, gap, &start.group, spare)?;
        let mut live = self.spare.take_rights(self.alloc);
        live.clear();
        for index in 0..all.len() {
            let right = &all[index];
            let rkey = right.key(gap, &start.group, nulls);
            if self.visit(lists, rkey, steps)? {
                live.push(*right)?;
            }
        }
        self.spare.keep_rights(all);
        Ok(live)
    }
}
