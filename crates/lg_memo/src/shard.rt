//! Shards of a memo.
ghost use Rattle.std.specs.Prelude.{◌≡◌, ◌↔◌, ◌<◌, ◌≤◌, ◌^◌, ◌++◌, [], ◌∷◌, true, false, length, IfOk, IfErr, IfSome, IsNone};
ghost use Rattle.lg_memo.specs.Entries.{AreRight, has_key};

use crate::fact::Fact;
use lg_base::NoMemory;
use std::alloc::Global;

/// A shard of a memo: its number, and at most 2^62 entries.
#[derive(Drop)]
pub struct Shard<T: Fact> {
    pub(crate) number: u32,
    pub(crate) entries: Vec<(T::Key, T::Value)>,
    ghost few: { length entries.items ≤ 2 ^ 62 },
}

impl<T: Fact> Shard<T> {
    // A shard with no entry.
    pub(crate) fn empty(alloc: Global, number: u32) -> Shard<T>
        ensures number { result.number ≡ number }
        ensures entries { result.entries.items ≡ [] }
    {
        let entries = Vec::new(alloc);
        Shard { number, entries }
    }

    /// The pairs of a key and a value, in the order in which they were kept. No memory.
    pub fn entries(&self) -> &[(T::Key, T::Value)]
        ensures entries { result.now ≡ self.now.entries.items }
        ensures few { length self.now.entries.items ≤ 2 ^ 62 }
    {
        self.entries.as_slice()
    }

    /// The same pairs, moved out of the shard, which is no more. No memory.
    pub fn into_entries(self) -> Vec<(T::Key, T::Value)>
        ensures { result.items ≡ self.entries.items }
    {
        let Shard { entries, .. } = self;
        entries
    }

    /// A value that is right for the key, under each name under which all entries are right. `Ok(None)` comes exactly where no entry has the same key.
    /// The only error is running out of memory.
    pub fn find(&self, alloc: Global, key: &T::Key) -> Result<Option<T::Value>, NoMemory>
        ensures right { (name : T.Name) → AreRight T.right name self.now.entries.items → IfOk result (λ found. IfSome found (λ value. T.right name key.now value)) }
        ensures none { IfOk result (λ found. IsNone found ↔ (has_key T.same self.now.entries.items key.now ≡ false)) }
    {
        let Some(value) = self.value_of(key) else {
            return Ok(None);
        };
        let copied = T::copy(alloc, value)?;
        Ok(Some(copied))
    }

    // The value of the first entry with the same key.
    fn value_of(&self, key: &T::Key) -> Option<&T::Value>
        ensures right { (name : T.Name) → AreRight T.right name self.now.entries.items → IfSome result (λ value. T.right name key.now value.now) }
        ensures none { IsNone result ↔ (has_key T.same self.now.entries.items key.now ≡ false) }
    {
        for entry in self.entries.iter() {
            if T::same(&entry.0, key) {
                return Some(&entry.1);
            }
        }
        None
    }

    /// Keeps a pair, behind the others. There are fewer than 2^62 entries. The only error is running out of memory: the pair is then dropped, and nothing changed.
    pub fn keep(&mut self, key: T::Key, value: T::Value) -> Result<(), NoMemory>
        requires room { length self.old.entries.items < 2 ^ 62 }
        ensures number { self.new.number ≡ self.old.number }
        ensures kept { IfOk result (λ _. self.new.entries.items ≡ self.old.entries.items ++ (key, value) ∷ []) }
        ensures unchanged { IfErr result (λ _. self.new.entries.items ≡ self.old.entries.items) }
    {
        self.entries.push((key, value))?;
        Ok(())
    }
}
