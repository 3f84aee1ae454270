//! Sets of keys, by a bit for each.
ghost use Rattle.std.specs.Prelude.{◌≡◌, ◌↔◌, ◌<◌, ◌^◌, ◌⊎◌, ℕ, [], suc, length, IsTrue, OnErr, OnOk};
ghost use Rattle.std.specs.List.{Contains};
ghost use Rattle.lg_region.specs.Fronts.{AreOnce};
ghost use Rattle.lg_base.specs.Bits.{bit_at};

use crate::slots::Slots;
use crate::spread::Spread;
use lg_base::NoMemory;
use lg_region::Key;
use std::alloc::Global;
use std::marker::Model;

// The words and numbers of unlinked words that have room in a row are below this.
const LIMIT: u32 = 256;

// How many keys share a row.
const PLACES: u32 = 64;

// Of these the keys of regions have so many left lists, and so many numbers of unlinked words each.
const LISTS: u32 = 16;

const NUMBERS: u32 = 4;

/// Rows of keys: the keys of a row have places in it below sixty-four.
pub(crate) trait Rows: Spread {
    ghost use Rattle.lg_forest.specs.KeySets.{AreRows};

    /// What has its place in a row.
    type Key;

    // Whether a key has room in a row.
    ghost small: { Self.Key → Type 0 };

    // The row of a key, its place there, and the key of a row and a place.
    ghost row: { Self.Key → Self };

    ghost place: { Self.Key → ℕ };

    ghost at: { Self → ℕ → Self.Key };

    /// Whether a key has room in a row.
    fn has_room_for(key: &Self::Key) -> bool
        ensures { IsTrue result ↔ small key.now };

    /// The row of a key.
    fn row_of(key: &Self::Key) -> Self
        requires { small key.now }
        ensures { result ≡ row key.now };

    /// The place of a key in its row.
    fn place_of(key: &Self::Key) -> u32
        ensures value { result ≡ place key.now }
        ensures within { result < 64 };

    /// A key is that of its row and its place, and of no others. The function does nothing: a caller whose proof needs the fact calls it.
    fn are_rows()
        ensures { AreRows row place at };
}

/// What keys have alike that share a row: all but their left lists, whose numbers are in one block of sixteen, and their numbers of unlinked
/// words, which are in one block of four; or, of the whole sentence, a block of sixty-four such numbers.
#[derive(Clone, Copy, Debug, PartialEq, Eq)]
pub(crate) enum Row {
    Whole {
        block: u8,
    },
    Region {
        left: u8,
        right: u8,
        nulls: u8,
        block: u32,
        rlist: u32,
    },
}

/// Keys. Contracts see them in a list.
///
/// Each row has a bit for each of its keys, which is 1 where the key is in the set.
#[derive(Drop)]
pub(crate) struct KeySet<R: Rows> {
    rows: Slots<R, u64>,
}

impl<R: Rows> Model for KeySet<R> {
    ghost use Rattle.std.specs.Prelude.{List};
    ghost use Rattle.lg_forest.specs.KeySets.{AreAll, all_keys};

    ghost Value = { List R.Key };

    ghost view = { λ s. all_keys R.at s.rows };

    ghost invariant = { λ s. AreAll R.small (all_keys R.at s.rows) };
}

impl<R: Rows> KeySet<R> {
    /// No key. No memory.
    pub(crate) fn new(alloc: Global) -> KeySet<R>
        ensures { result ≡ [] }
    {
        KeySet {
            rows: Slots::new(alloc),
        }
    }

    /// There are few keys, each once. The function does nothing: a caller whose proof needs the fact calls it.
    pub(crate) fn is_short(&self)
        ensures few { length self.now < 2 ^ 39 }
        ensures once { AreOnce self.now }
    {
        R::are_rows();
        let _rows = self.rows.len();
    }

    /// Whether a key is there. Contracts see no change. No memory.
    pub(crate) fn has(&mut self, key: &R::Key) -> bool
        ensures value { IsTrue result ↔ Contains self.old key.now }
        ensures same { self.new ≡ self.old }
    {
        R::are_rows();
        let rows = &mut self.rows;
        if !R::has_room_for(key) {
            return false;
        }
        is_set(rows.bits(&R::row_of(key)), R::place_of(key))
    }

    /// Adds a key, which may be there. The only error is running out of memory, and then nothing has changed.
    pub(crate) fn add(&mut self, key: &R::Key) -> Result<(), NoMemory>
        requires { R.small key.now }
        ensures added { OnOk result ((k : R.Key) → Contains self.new k ↔ (Contains self.old k ⊎ (k ≡ key.now))) }
        ensures longer { OnOk result ((Contains self.old key.now → ⊥) → length self.new ≡ suc (length self.old)) }
        ensures unchanged { OnErr result (self.new ≡ self.old) }
    {
        R::are_rows();
        self.is_short();
        self.rows.set_bit(R::row_of(key), R::place_of(key))?;
        self.is_short();
        Ok(())
    }
}

// Whether the bit of a place is 1.
fn is_set(bits: u64, place: u32) -> bool
    requires { place < 64 }
    ensures { IsTrue result ↔ (bit_at bits place ≡ 1) }
{
    bits >> place & 1 == 1
}

impl Rows for Row {
    ghost use Rattle.lg_forest.specs.KeyRows.{IsSmall, key_at, place_of as place_in, row_of as row_in};

    type Key = Key;

    ghost small = { IsSmall };

    ghost row = { row_in };

    ghost place = { place_in };

    ghost at = { key_at };

    fn has_room_for(key: &Key) -> bool {
        match *key {
            Key::Whole { nulls } => nulls < LIMIT,
            Key::Region {
                left,
                right,
                nulls,
                ..
            } => left < LIMIT && right < LIMIT && nulls < LIMIT,
        }
    }

    fn row_of(key: &Key) -> Row {
        match *key {
            Key::Whole { nulls } => Row::Whole {
                block: (nulls / PLACES) as u8,
            },
            Key::Region {
                left,
                right,
                llist,
                rlist,
                nulls,
            } => Row::Region {
                left: left as u8,
                right: right as u8,
                nulls: (nulls / NUMBERS) as u8,
                block: llist / LISTS,
                rlist,
            },
        }
    }

    fn place_of(key: &Key) -> u32 {
        match *key {
            Key::Whole { nulls } => nulls % PLACES,
            Key::Region { llist, nulls, .. } => llist % LISTS * NUMBERS + nulls % NUMBERS,
        }
    }

    fn are_rows() {}
}
