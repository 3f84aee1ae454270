//! Lengths of words and of their stems.
ghost use Rattle.std.specs.Prelude.{◌≡◌, [], ℕ, true, OnOk};
ghost use Rattle.lg_dict.specs.Lengths.{has_length, HasLengths};

use crate::subscript::stem;
use indexmap::IndexSet;
use lg_base::NoMemory;
use std::alloc::Global;
use std::marker::Model;

/// Lengths in bytes, each once. Contracts see their list.
#[derive(Drop)]
pub(crate) struct Lengths {
    set: IndexSet<usize>,
}

impl Model for Lengths {
    ghost use Rattle.std.specs.Prelude.{List, ℕ};

    ghost Value = { List ℕ };

    ghost view = { λ l. l.set.keys };
}

impl Lengths {
    /// No lengths. It takes no memory.
    pub(crate) fn new(alloc: Global) -> Lengths
        ensures { result ≡ [] }
    {
        Lengths {
            set: IndexSet::new(alloc),
        }
    }

    /// Whether a length is there. No memory.
    pub(crate) fn has(&self, length: usize) -> bool
        ensures { result ≡ has_length self.now length }
    {
        self.set.contains(&length)
    }

    /// Adds the length of a word and that of its stem. All that were there stay, out of memory too.
    pub(crate) fn add_word(&mut self, word: &[u8]) -> Result<(), NoMemory>
        ensures kept { (n : ℕ) → has_length self.old n ≡ true → has_length self.new n ≡ true }
        ensures added { OnOk result (HasLengths self.new word.now) }
    {
        self.add(word.len())?;
        self.add(stem(word).len())
    }

    // Adds a length. All that were there stay, out of memory too.
    fn add(&mut self, length: usize) -> Result<(), NoMemory>
        ensures kept { (n : ℕ) → has_length self.old n ≡ true → has_length self.new n ≡ true }
        ensures added { OnOk result (has_length self.new length ≡ true) }
    {
        self.set.insert(length)?;
        Ok(())
    }
}
