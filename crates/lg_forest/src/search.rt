//! The search: each key that is asked for is expanded once, depth first.
ghost use Rattle.std.specs.Prelude.{◌≡◌, ◌↔◌, ◌≤◌, suc, [], length, IsTrue, IfOk, OnOk};
ghost use Rattle.lg_gram.specs.Levels.{IsFewest};
ghost use Rattle.lg_region.specs.Keys.{IsValidKey};
ghost use Rattle.lg_forest.specs.Demands.{HasLinkageUnder, AsksNext};
ghost use Rattle.lg_forest.specs.Forests.{AreLive};
ghost use Rattle.lg_forest.specs.Goes.{Goes, IsReady};
ghost use Rattle.lg_forest.specs.Search.{IsWholeFrom, key_width};

mod alternatives;
mod ends;
mod openings;

use crate::known::Known;
use crate::memory::Memory;
use crate::table::Table;
use lg_base::{NoMemory, Steps};
use lg_region::{Alts, Key, Lists, Spare, gap_of};
use std::alloc::Global;

/// What the search has found: the keys that were asked for, and what it remembers beside them.
#[derive(Drop)]
pub(crate) struct Search {
    alloc: Global,
    table: Table,
    memory: Memory,
    spare: Spare,
}

impl Search {
    /// Before the search: no key, and what workers found. No memory.
    pub(crate) fn of(alloc: Global, known: Known) -> Search
        ensures table { result.table ≡ [] }
        ensures known { result.memory.known ≡ known }
        ensures openings { result.memory.openings ≡ [] }
        ensures halves { result.memory.halves ≡ [] }
        ensures shut { result.memory.shut ≡ [] }
    {
        let table = Table::new(alloc);
        let memory = Memory::of(alloc, known);
        Search {
            alloc,
            table,
            memory,
            spare: Spare::new(alloc),
        }
    }

    /// The keys that were asked for.
    pub(crate) fn into_table(self) -> Table
        ensures { result ≡ self.table }
    {
        let Search { table, .. } = self;
        table
    }

    /// The fewest unlinked words of a linkage of the whole sentence. Puts all that is asked for into the table, which is empty.
    pub(crate) fn fewest<L>(
        &mut self,
        lists: &Lists<'_>,
        last: u32,
        steps: &mut Steps<L>,
    ) -> Result<u32, NoMemory>
        requires ready { IsReady lists.now (suc (suc last)) self.old steps.old }
        requires last { last ≡ length lists.now.positions }
        requires empty { self.old.table ≡ [] }
        ensures fewest { let n = lists.entry.now in IfOk result (IsFewest n.positions) }
        ensures goes { IfOk result (λ nulls. Goes lists.entry.now (IsWholeFrom 0 (suc nulls)) 0 self.old steps.old self.new steps.new) }
        ensures later { steps.old ≤ steps.new }
    {
        for nulls in 0..last {
            if self.visit(lists, Key::Whole { nulls }, steps)? {
                return Ok(nulls);
            }
        }
        self.visit(lists, Key::Whole { nulls: last }, steps)?;
        Ok(last)
    }

    /// Whether some linkage lies under a key. Puts the key into the table, with all that is asked for from it.
    #[cycle(search)]
    pub(crate) fn visit<L>(
        &mut self,
        lists: &Lists<'_>,
        key: Key,
        steps: &mut Steps<L>,
    ) -> Result<bool, NoMemory>
        requires ready { IsReady lists.now (suc (key_width lists.now.positions key)) self.old steps.old }
        requires key { IsValidKey lists.now.positions lists.now.lists key }
        ensures found { let n = lists.entry.now in IfOk result (λ found. IsTrue found ↔ HasLinkageUnder n.positions n.lists key) }
        ensures goes { OnOk result (Goes lists.entry.now (λ k. k ≡ key) 0 self.old steps.old self.new steps.new) }
        ensures later { steps.old ≤ steps.new }
    {
        lists.keep_limits();
        if let Some(live) = self.table.is_live(&key) {
            return Ok(live);
        }
        let live = self.explore(lists, key, steps)?;
        let found = !live.is_empty();
        self.table.add(key, live)?;
        Ok(found)
    }

    // The live alternatives of a key. Puts all that the key asks for into the table.
    #[cycle(search)]
    fn explore<L>(
        &mut self,
        lists: &Lists<'_>,
        key: Key,
        steps: &mut Steps<L>,
    ) -> Result<Alts, NoMemory>
        requires ready { IsReady lists.now (suc (key_width lists.now.positions key)) self.old steps.old }
        requires key { IsValidKey lists.now.positions lists.now.lists key }
        ensures live { let n = lists.entry.now in IfOk result (AreLive n.positions n.lists key) }
        ensures goes { let n = lists.entry.now in OnOk result (Goes n (AsksNext n.positions n.lists key) 1 self.old steps.old self.new steps.new) }
        ensures later { steps.old ≤ steps.new }
    {
        self.table.is_short();
        if self.memory.known.has(&key) {
            return self.explore_all(lists, key, steps);
        }
        match gap_of(lists, key) {
            None => self.explore_all(lists, key, steps),
            Some(gap) => {
                steps.tick();
                self.explore_gap(lists, &gap, steps)
            }
        }
    }
}
