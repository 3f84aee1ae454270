//! The keys that were asked for, each with its live alternatives.
ghost use Rattle.std.specs.Prelude.{◌≡◌, ◌≢◌, ◌↔◌, ◌<◌, ◌^◌, [], IsTrue, MatchOption, OnErr, OnOk, List, length};
ghost use Rattle.std.specs.List.{Contains};
ghost use Rattle.std.specs.Map.{keys_of};
ghost use Rattle.lg_region.specs.Fronts.{AreOnce};
ghost use Rattle.lg_region.specs.declared.alternative.Alt.{Alt};
ghost use Rattle.lg_region.specs.declared.key.Key.{Key};
ghost use Rattle.lg_forest.specs.Entries.{IsEntered};
ghost use Rattle.lg_forest.specs.KeyRows.{IsSmall};

use crate::dead::DeadKeys;
use crate::slots::Slots;
use lg_base::NoMemory;
use lg_region::{Alts, Key};
use std::alloc::Global;
use std::marker::Model;

/// Keys, each with its live alternatives; a key without a linkage has none. Contracts see the pairs.
///
/// Most keys have no linkage, and of these it has a bit each.
#[derive(Drop)]
pub(crate) struct Table {
    live: Slots<Key, Alts>,
    dead: DeadKeys,
}

impl Model for Table {
    ghost use Rattle.std.specs.Prelude.{List};
    ghost use Rattle.lg_region.specs.declared.key.Key.{Key as SeenKey};
    ghost use Rattle.lg_region.specs.declared.alternative.Alt.{Alt as SeenAlt};
    ghost use Rattle.lg_forest.specs.Entries.{AreEntries, entries_of};

    ghost Value = { List (SeenKey × List SeenAlt) };

    ghost view = { λ t. entries_of t.live t.dead };

    ghost invariant = { λ t. AreEntries t.live t.dead };
}

impl Table {
    /// A table without keys. No memory.
    pub(crate) fn new(alloc: Global) -> Table
        ensures { result ≡ [] }
    {
        Table {
            live: Slots::new(alloc),
            dead: DeadKeys::new(alloc),
        }
    }

    /// There are few keys, each once. The function does nothing: a caller whose proof needs the fact calls it.
    pub(crate) fn is_short(&self)
        ensures few { length self.now < 2 ^ 63 }
        ensures once { AreOnce (keys_of self.now) }
    {
        self.dead.is_short();
        let _live = self.live.len();
    }

    /// Whether a key has an alternative. None where the key is not there. Contracts see no change. No memory.
    pub(crate) fn is_live(&mut self, key: &Key) -> Option<bool>
        ensures live { MatchOption result (Contains (keys_of self.old) key.now → ⊥) (λ live. (alts : List Alt) × Contains self.old (key.now, alts) × (IsTrue live ↔ (alts ≢ []))) }
        ensures same { self.new ≡ self.old }
    {
        if self.dead.has(key) {
            return Some(false);
        }
        match self.live.get(key) {
            Some(_alts) => Some(true),
            None => None,
        }
    }

    /// Adds a key that is not there. The only error is running out of memory, and then nothing has changed.
    pub(crate) fn add(&mut self, key: Key, alts: Alts) -> Result<(), NoMemory>
        requires fresh { Contains (keys_of self.old) key → ⊥ }
        requires small { IsSmall key }
        ensures entered { OnOk result (IsEntered self.old key alts self.new) }
        ensures unchanged { OnErr result (self.new ≡ self.old) }
    {
        if alts.is_empty() {
            self.dead.add(&key)
        } else {
            self.live.add(key, alts)
        }
    }

    /// The keys that have an alternative.
    pub(crate) fn into_live(self) -> Slots<Key, Alts>
        ensures { (k : Key) (alts : List Alt) → Contains result (k, alts) ↔ (Contains self (k, alts) × (alts ≢ [])) }
    {
        let Table { live, .. } = self;
        live
    }
}
