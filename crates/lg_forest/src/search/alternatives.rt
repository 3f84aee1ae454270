//! Alternatives: which of them are live, each by its left key and then by its right one.
ghost use Rattle.std.specs.Prelude.{◌≡◌, ◌↔◌, ◌+◌, ◌<◌, ◌≤◌, ◌^◌, suc, Some, length, IsTrue, IfOk, OnOk, IfSome};
ghost use Rattle.lg_region.specs.Keys.{IsValidKey};
ghost use Rattle.lg_forest.specs.Demands.{HasLinkageUnder, AsksNext};
ghost use Rattle.lg_forest.specs.Forests.{IsLive, AreLive};
ghost use Rattle.lg_forest.specs.Goes.{Goes, IsReady};
ghost use Rattle.lg_forest.specs.Known.{AreAltsOf, AreKnown};
ghost use Rattle.lg_forest.specs.Search.{HasValidKeys, IsLast, AsksOf, key_width, part_bound, alt_bound};

use super::Search;
use crate::known::Known;
use lg_base::{NoMemory, Steps};
use lg_region::{Alt, Alts, Key, Lists, expand_key};
use std::alloc::Global;

/// The left key that was asked for last, and whether it has a linkage. Alternatives with the same left key stand together.
#[derive(Clone, Copy)]
struct Last {
    key: Option<Key>,
    live: bool,
}

impl Search {
    // The live alternatives of a key, from all of its alternatives, which are known or are made.
    #[cycle(search)]
    pub(super) fn explore_all<L>(
        &mut self,
        lists: &Lists<'_>,
        key: Key,
        steps: &mut Steps<L>,
    ) -> Result<Alts, NoMemory>
        requires ready { IsReady lists.now (suc (key_width lists.now.positions key)) self.old steps.old }
        requires key { IsValidKey lists.now.positions lists.now.lists key }
        ensures live { let n = lists.entry.now in IfOk result (AreLive n.positions n.lists key) }
        ensures goes { let n = lists.entry.now in OnOk result (Goes n (AsksNext n.positions n.lists key) 1 self.old steps.old self.new steps.new) }
        ensures later { steps.old ≤ steps.new }
    {
        self.table.is_short();
        let alts = alts_of(self.alloc, lists, &mut self.memory.known, key, steps)?;
        let mut flags = Vec::new(self.alloc);
        let mut last = Last {
            key: None,
            live: true,
        };
        for index in 0..alts.len() {
            let live = self.is_live(lists, alts.get(index), &mut last, steps)?;
            flags.push(live)?;
        }
        Ok(alts.keep(flags.as_slice()))
    }

    // Whether each key of an alternative has a linkage. The right key is asked for only where the left one has one.
    #[cycle(search)]
    fn is_live<L>(
        &mut self,
        lists: &Lists<'_>,
        alt: Alt,
        last: &mut Last,
        steps: &mut Steps<L>,
    ) -> Result<bool, NoMemory>
        requires ready { IsReady lists.now (alt_bound lists.now.positions alt) self.old steps.old }
        requires keys { HasValidKeys lists.now alt }
        requires last { IsLast lists.now self.old.table last.old }
        ensures live { let n = lists.entry.now in IfOk result (λ live. IsTrue live ↔ IsLive n.positions n.lists alt) }
        ensures last { OnOk result (IsLast lists.entry.now self.new.table last.new) }
        ensures goes { OnOk result (Goes lists.entry.now (AsksOf lists.entry.now alt) 0 self.old steps.old self.new steps.new) }
        ensures later { steps.old ≤ steps.new }
    {
        match alt {
            Alt::AllNull => Ok(true),
            Alt::Split { lkey, rkey, .. } => {
                if self.visit_left(lists, lkey, last, steps)? {
                    self.visit_part(lists, rkey, steps)
                } else {
                    Ok(false)
                }
            }
        }
    }

    // The same as `visit_part`, which is called only where the key is not the last one.
    #[cycle(search)]
    fn visit_left<L>(
        &mut self,
        lists: &Lists<'_>,
        key: Option<Key>,
        last: &mut Last,
        steps: &mut Steps<L>,
    ) -> Result<bool, NoMemory>
        requires ready { IsReady lists.now (part_bound lists.now.positions key) self.old steps.old }
        requires key { IfSome key (IsValidKey lists.now.positions lists.now.lists) }
        requires last { IsLast lists.now self.old.table last.old }
        ensures found { let n = lists.entry.now in IfOk result (λ found. IsTrue found ↔ IfSome key (HasLinkageUnder n.positions n.lists)) }
        ensures last { OnOk result (IsLast lists.entry.now self.new.table last.new) }
        ensures goes { OnOk result (Goes lists.entry.now (λ k. key ≡ Some k) 0 self.old steps.old self.new steps.new) }
        ensures later { steps.old ≤ steps.new }
    {
        if last.key == key {
            return Ok(last.live);
        }
        let live = self.visit_part(lists, key, steps)?;
        *last = Last { key, live };
        Ok(live)
    }

    // Whether some linkage lies under the key of a part; true where there is no key.
    #[cycle(search)]
    fn visit_part<L>(
        &mut self,
        lists: &Lists<'_>,
        key: Option<Key>,
        steps: &mut Steps<L>,
    ) -> Result<bool, NoMemory>
        requires ready { IsReady lists.now (part_bound lists.now.positions key) self.old steps.old }
        requires key { IfSome key (IsValidKey lists.now.positions lists.now.lists) }
        ensures found { let n = lists.entry.now in IfOk result (λ found. IsTrue found ↔ IfSome key (HasLinkageUnder n.positions n.lists)) }
        ensures goes { OnOk result (Goes lists.entry.now (λ k. key ≡ Some k) 0 self.old steps.old self.new steps.new) }
        ensures later { steps.old ≤ steps.new }
    {
        match key {
            None => Ok(true),
            Some(key) => self.visit(lists, key, steps),
        }
    }
}

// The alternatives of a key. Where they are known, they are taken, and that is no step.
fn alts_of<L>(
    alloc: Global,
    lists: &Lists<'_>,
    known: &mut Known,
    key: Key,
    steps: &mut Steps<L>,
) -> Result<Alts, NoMemory>
    requires key { IsValidKey lists.now.positions lists.now.lists key }
    requires known { AreKnown lists.now known.old }
    requires room { steps.old < 2 ^ 127 }
    ensures alts { let n = lists.entry.now in IfOk result (AreAltsOf n.positions n.lists key) }
    ensures kept { AreKnown lists.entry.now known.new }
    ensures fewer { length known.new ≤ length known.old }
    ensures steps { steps.new + length known.old ≡ 1 + steps.old + length known.new }
    ensures later { steps.old ≤ steps.new }
{
    if let Some(alts) = known.take(&key) {
        return Ok(alts);
    }
    expand_key(alloc, lists, key, steps)
}
