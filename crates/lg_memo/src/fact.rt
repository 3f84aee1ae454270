//! What a memo keeps.
ghost use Rattle.std.specs.Prelude.{◌≡◌, Bool, IfOk};

use lg_base::NoMemory;
use std::alloc::Global;

/// Keys and values, and what it is that a value is right for a key. That is a matter of a name, which the whole memo has.
pub trait Fact {
    ghost use Rattle.lg_memo.specs.Entries.{AreAlike};

    /// What the values are of. It is for contracts alone.
    type Name;

    type Key: Drop + Send;

    type Value: Drop + Send;

    // The value is right for the key under the name.
    ghost right: { Self.Name → Self.Key → Self.Value → Type 0 };

    // Whether two keys are the same.
    ghost same: { Self.Key → Self.Key → Bool };

    /// A number by which the shard of a key is chosen.
    fn place(key: &Self::Key) -> u64;

    /// Whether two keys are the same. They then have the same right values, under every name.
    fn same(a: &Self::Key, b: &Self::Key) -> bool
        ensures { result ≡ same a.now b.now };

    /// Another value, which is right wherever this one is. The only error is running out of memory.
    fn copy(alloc: Global, value: &Self::Value) -> Result<Self::Value, NoMemory>
        ensures { IfOk result (λ copied. (name : Self.Name) (key : Self.Key) → right name key value.now → right name key copied) };

    ghost alike: { AreAlike right same };
}
