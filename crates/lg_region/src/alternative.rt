//! Alternatives of a key.
ghost use Rattle.std.specs.Prelude.{◌≡◌, ◌<◌, ◌↔◌, IsTrue, [], length, map, Some, slice_get, IfOk, Contains};
ghost use Rattle.lg_region.specs.Keys.{kept};
ghost use Rattle.lg_region.specs.Small.{IsSmall, full};
ghost use Rattle.lg_region.specs.declared.alternative.Alt.{Alt};

use crate::key::{Joint, Key};
use crate::small::Small;
use lg_base::NoMemory;
use std::alloc::Global;
use std::marker::Model;

/// One way to cut what a key stands for: nothing is linked, or a word is, with the disjunct of that number, from 0, in its
/// position's list, the joints with the two ends, and the keys of what is left on both sides.
///
/// Under `Key::Whole` the words before the first linked one are unlinked: there are no joints, and `lkey` is None.
#[derive(Clone, Copy, Debug, PartialEq, Eq)]
pub enum Alt {
    AllNull,
    Split {
        word: u32,
        disjunct: u32,
        to_left: Option<Joint>,
        to_right: Option<Joint>,
        lkey: Option<Key>,
        rkey: Option<Key>,
    },
}

/// Alternatives, each in 36 bytes. Contracts see their list.
#[derive(Debug, Drop)]
pub struct Alts {
    items: Vec<Small>,
}

impl Model for Alts {
    ghost use Rattle.std.specs.Prelude.{List};
    ghost use Rattle.lg_region.specs.declared.alternative.Alt.{Alt as Seen};

    ghost Value = { List Seen };

    ghost use Rattle.std.specs.Prelude.{map};
    ghost use Rattle.lg_region.specs.Small.{full};

    ghost view = { λ a. map full a.items.items };
}

impl Alts {
    /// The list of these alternatives. Most keys have none, and then nothing is called.
    #[inline]
    pub fn of(alloc: Global, alts: &[Alt]) -> Result<Alts, NoMemory>
        requires { (a : Alt) → Contains alts.now a → IsSmall a }
        ensures { IfOk result (λ list. list ≡ alts.now) }
    {
        if alts.is_empty() {
            let items = Vec::new(alloc);
            return Ok(Alts { items });
        }
        let items = small_of(alloc, alts)?;
        Ok(Alts { items })
    }

    /// How many there are.
    pub fn len(&self) -> usize
        ensures { result ≡ length self.now }
    {
        self.items.len()
    }

    /// Whether there is none.
    pub fn is_empty(&self) -> bool
        ensures { IsTrue result ↔ (self.now ≡ []) }
    {
        self.items.is_empty()
    }

    /// The alternative at an index, from 0.
    pub fn get(&self, index: usize) -> Alt
        requires { index < length self.now }
        ensures { slice_get self.now index ≡ Some result }
    {
        self.items[index].full()
    }

    /// The same alternatives once more. The only error is running out of memory.
    pub fn copied(&self, alloc: Global) -> Result<Alts, NoMemory>
        ensures { IfOk result (λ copy. copy ≡ self.now) }
    {
        let items = self.items.as_slice().to_vec(alloc)?;
        Ok(Alts { items })
    }

    /// Those whose flag is true, in order. No memory.
    pub fn keep(self, live: &[bool]) -> Alts
        requires { length live.now ≡ length self }
        ensures { result ≡ kept self live.now }
    {
        let Alts { mut items } = self;
        let mut count = 0;
        for index in 0..items.len() {
            if live[index] {
                items[count] = items[index];
                count += 1;
            }
        }
        items.truncate(count);
        Alts { items }
    }
}

// The same, each in few bytes.
fn small_of(alloc: Global, alts: &[Alt]) -> Result<Vec<Small>, NoMemory>
    requires { (a : Alt) → Contains alts.now a → IsSmall a }
    ensures { IfOk result (λ items. map full items.items ≡ alts.now) }
{
    let mut items = Vec::with_capacity(alloc, alts.len())?;
    for alt in alts {
        items.push(Small::of(*alt))?;
    }
    Ok(items)
}
