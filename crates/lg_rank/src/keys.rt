//! Keys and their numbers.
ghost use Rattle.std.specs.Prelude.{◌≡◌, [], IfOk, MatchOption, OnErr};
ghost use Rattle.lg_rank.specs.Fronts.{IsIn};
ghost use Rattle.lg_rank.specs.Keyed.{IsFirstPlace, AddsKey};

use indexmap::IndexSet;
use lg_base::NoMemory;
use lg_region::Key;
use std::alloc::Global;
use std::marker::Model;

/// Keys, each once. The number of a key is its place, from 0. Contracts see their list.
#[derive(Drop)]
pub(crate) struct Keys {
    items: IndexSet<Key>,
}

impl Model for Keys {
    ghost use Rattle.std.specs.Prelude.{List};
    ghost use Rattle.lg_region.specs.declared.key.Key.{Key as Seen};

    ghost Value = { List Seen };

    ghost view = { λ k. k.items.keys };
}

impl Keys {
    /// No keys. No memory.
    pub fn new(alloc: Global) -> Keys
        ensures { result ≡ [] }
    {
        Keys {
            items: IndexSet::new(alloc),
        }
    }

    /// The number of a key. None where the key is not there.
    pub fn number(&self, key: &Key) -> Option<usize>
        ensures { MatchOption result (IsIn self.now key.now → ⊥) (IsFirstPlace self.now key.now) }
    {
        self.items.get_index_of(key)
    }

    /// Adds a key, and tells its number, and whether it is new. Nothing changes where it is there. The only error is running out of
    /// memory, and then nothing has changed.
    pub fn add(&mut self, key: Key) -> Result<(usize, bool), NoMemory>
        ensures added { IfOk result (λ both. AddsKey self.old key self.new both.0 both.1) }
        ensures unchanged { OnErr result (self.new ≡ self.old) }
    {
        let (number, is_new) = self.items.insert_full(key)?;
        Ok((number, is_new))
    }
}
