//! The alternatives that workers found.
ghost use Rattle.std.specs.Prelude.{◌≡◌, ◌↔◌, ◌+◌, [], ◌⊎◌, IsTrue, MatchOption, OnErr, OnOk, List, length};
ghost use Rattle.std.specs.List.{Contains};
ghost use Rattle.std.specs.Map.{keys_of};
ghost use Rattle.lg_region.specs.declared.key.Key.{Key};
ghost use Rattle.lg_region.specs.declared.alternative.Alt.{Alt};

use indexmap::IndexMap;
use lg_base::NoMemory;
use lg_region::{Alts, Key};
use std::alloc::Global;
use std::marker::Model;

/// Keys, each with alternatives. Contracts see the pairs.
#[derive(Drop)]
pub(crate) struct Known {
    found: IndexMap<Key, Alts>,
}

impl Model for Known {
    ghost use Rattle.std.specs.Prelude.{List};
    ghost use Rattle.lg_region.specs.declared.key.Key.{Key as SeenKey};
    ghost use Rattle.lg_region.specs.declared.alternative.Alt.{Alt as SeenAlt};

    ghost Value = { List (SeenKey × List SeenAlt) };

    ghost view = { λ k. k.found.entries };
}

impl Known {
    /// Nothing is known. No memory.
    pub fn nothing(alloc: Global) -> Known
        ensures { result ≡ [] }
    {
        Known {
            found: IndexMap::new(alloc),
        }
    }

    /// Whether the alternatives of a key are here. No memory.
    pub fn has(&self, key: &Key) -> bool
        ensures { IsTrue result ↔ Contains (keys_of self.now) key.now }
    {
        if self.found.is_empty() {
            return false;
        }
        self.found.contains_key(key)
    }

    /// Takes the alternatives of a key out. None where the key is not there. No memory.
    pub fn take(&mut self, key: &Key) -> Option<Alts>
        ensures taken { MatchOption result ((Contains (keys_of self.old) key.now → ⊥) × (length self.new ≡ length self.old)) (λ alts. Contains self.old (key.now, alts) × (length self.new + 1 ≡ length self.old)) }
        ensures left { (k : Key) (alts : List Alt) → Contains self.new (k, alts) → Contains self.old (k, alts) }
    {
        self.found.swap_remove(key)
    }

    /// Adds the alternatives of a key, in place of those that it has. The only error is running out of memory, and then nothing
    /// has changed.
    pub fn add(&mut self, key: Key, alts: Alts) -> Result<(), NoMemory>
        ensures added { OnOk result ((k : Key) (a : List Alt) → Contains self.new (k, a) → Contains self.old (k, a) ⊎ ((k ≡ key) × (a ≡ alts))) }
        ensures there { OnOk result (Contains self.new (key, alts)) }
        ensures unchanged { OnErr result (self.new ≡ self.old) }
    {
        self.found.insert(key, alts)?;
        Ok(())
    }
}
