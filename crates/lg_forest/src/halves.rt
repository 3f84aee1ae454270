//! What is known of the regions that end alike: the disjuncts of a group whose right key has a linkage.
ghost use Rattle.std.specs.Prelude.{◌≡◌, ◌≢◌, ◌<◌, ◌++◌, ◌⊎◌, [], List, IfOk, MatchOption, OnErr, OnOk};
ghost use Rattle.std.specs.List.{Contains};
ghost use Rattle.std.specs.Map.{keys_of};
ghost use Rattle.lg_region.specs.declared.group.Right.{Right as SeenRight};
ghost use Rattle.lg_forest.specs.Ends.{half_from};
ghost use Rattle.lg_forest.specs.Runs.{IsRun, run_of};

use crate::slots::Slots;
use lg_base::NoMemory;
use lg_region::{Gap, Group, Right};
use std::alloc::Global;
use std::marker::Model;

// So many disjuncts may stand there before others are put behind them, and fewer may be put at once: else it is out of memory.
const MOST_RIGHTS: usize = 1 << 31;

/// A group of disjuncts of a word, and how a region ends behind that word: its right end, the number of its right list, and how many
/// words are unlinked there. `is_alone` is true where its left list is empty, and `class` is the class of the disjuncts that can cut it.
///
/// Words and numbers of unlinked words are below 256.
#[derive(Clone, Copy, Debug, PartialEq, Eq)]
pub(crate) struct Half {
    pub(crate) word: u8,
    pub(crate) right: u8,
    pub(crate) nulls: u8,
    pub(crate) is_alone: bool,
    pub(crate) from: u32,
    pub(crate) to: u32,
    pub(crate) class: u32,
    pub(crate) rlist: u32,
}

impl Half {
    /// The half of a region that a group cuts with so many unlinked words behind its word.
    pub(crate) fn of(gap: &Gap, group: &Group, nulls: u32) -> Half
        requires word { group.now.word < 256 }
        requires right { gap.now.right < 256 }
        requires nulls { nulls < 256 }
        ensures { result ≡ half_from gap.now group.now nulls }
    {
        Half {
            word: group.word as u8,
            right: gap.right as u8,
            nulls: nulls as u8,
            is_alone: gap.llist == 0,
            from: group.from,
            to: group.to,
            class: gap.lead.class,
            rlist: gap.rlist,
        }
    }
}

/// Where the disjuncts of a half stand among those of all: from one place up to another.
#[derive(Clone, Copy, Debug)]
pub(crate) struct Run {
    start: u32,
    end: u32,
}

/// Halves, each with the disjuncts of its group that can cut a region and whose right key has a linkage, and their ways on. Contracts
/// see the pairs.
#[derive(Drop)]
pub(crate) struct Halves {
    found: Slots<Half, Run>,
    rights: Vec<Right>,
}

impl Model for Halves {
    ghost use Rattle.std.specs.Prelude.{List, map};
    ghost use Rattle.lg_region.specs.declared.group.Right.{Right as AnyRight};
    ghost use Rattle.lg_forest.specs.Runs.{AreRuns, ends_of};
    ghost use Rattle.lg_forest.specs.declared.halves.Half.{Half as SeenHalf};

    ghost Value = { List (SeenHalf × List AnyRight) };

    ghost view = { λ h. map (ends_of h.rights.items) h.found };

    ghost invariant = { λ h. AreRuns h.found h.rights.items };
}

impl Halves {
    /// No half. No memory.
    pub(crate) fn new(alloc: Global) -> Halves
        ensures { result ≡ [] }
    {
        Halves {
            found: Slots::new(alloc),
            rights: Vec::new(alloc),
        }
    }

    /// The disjuncts of a half. None where it is not there. No memory.
    pub(crate) fn get(&self, half: &Half) -> Option<&[Right]>
        ensures { MatchOption result (Contains (keys_of self.now) half.now → ⊥) (λ rights. Contains self.now (half.now, rights.now)) }
    {
        let Some(place) = self.found.get(half) else {
            return None;
        };
        Some(&self.rights[place.start as usize..place.end as usize])
    }

    /// Puts the disjuncts of a half in, in place of those that are there. The only error is running out of memory, and then nothing has
    /// changed.
    pub(crate) fn put(&mut self, half: Half, rights: &[Right]) -> Result<(), NoMemory>
        ensures put { OnOk result ((h : Half) (x : List SeenRight) → Contains self.new (h, x) → Contains self.old (h, x) ⊎ ((h ≡ half) × (x ≡ rights.now))) }
        ensures there { OnOk result (Contains self.new (half, rights.now)) }
        ensures kept { OnOk result ((h : Half) (x : List SeenRight) → h ≢ half → Contains self.old (h, x) → Contains self.new (h, x)) }
        ensures unchanged { OnErr result (self.new ≡ self.old) }
    {
        let place = run_behind(&mut self.rights, rights)?;
        self.found.put(half, place)?;
        Ok(())
    }
}

// Puts disjuncts last, and tells where they stand then. The only error is running out of memory, and then nothing has changed.
fn run_behind(all: &mut Vec<Right>, rights: &[Right]) -> Result<Run, NoMemory>
    ensures run { IfOk result (IsRun all.new.items) }
    ensures stands { IfOk result (λ run. run_of all.new.items run ≡ rights.now) }
    ensures grown { OnOk result (all.new.items ≡ all.old.items ++ rights.now) }
    ensures unchanged { OnErr result (all.new.items ≡ all.old.items) }
{
    let start = all.len();
    if start > MOST_RIGHTS || rights.len() > MOST_RIGHTS - 1 {
        return Err(NoMemory);
    }
    all.extend_from_slice(rights)?;
    Ok(Run {
        start: start as u32,
        end: all.len() as u32,
    })
}
