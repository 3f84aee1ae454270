//! The keys without a linkage.
ghost use Rattle.std.specs.Prelude.{◌≡◌, ◌↔◌, ◌<◌, ◌^◌, ◌⊎◌, [], suc, length, IsTrue, MatchOption, OnErr, OnOk};
ghost use Rattle.std.specs.List.{Contains};
ghost use Rattle.lg_region.specs.Fronts.{AreOnce};
ghost use Rattle.lg_region.specs.declared.key.Key.{Key as SeenKey};
ghost use Rattle.lg_forest.specs.NearKeys.{IsNear, key_of, placed};
ghost use Rattle.lg_forest.specs.KeyRows.{IsSmall};

use crate::key_set::{KeySet, Row, Rows};
use crate::right_ends::{RightEnd, RightEnds};
use lg_base::NoMemory;
use lg_region::Key;
use std::alloc::Global;
use std::marker::Model;

// The words and numbers of unlinked words of near keys are below this,
const WORDS: u32 = 256;

// and the numbers of their right lists below this: so many entries has a row of right ends at most.
const LISTS: u32 = 1 << 14;

// How many near keys share a row.
const PLACES: u32 = 64;

/// The key of a region whose right end is a near one.
#[derive(Clone, Copy, Debug)]
pub(crate) struct Near {
    pub(crate) left: u8,
    pub(crate) nulls: u8,
    pub(crate) llist: u32,
    pub(crate) end: RightEnd,
}

/// The same with the place of the right end.
#[derive(Clone, Copy, Debug)]
pub(crate) struct NearKey {
    pub(crate) left: u8,
    pub(crate) nulls: u8,
    pub(crate) llist: u32,
    pub(crate) end: u32,
}

/// What near keys have alike that share a row: all but their right ends, whose places are in one block of sixty-four.
#[derive(Clone, Copy, Debug, PartialEq, Eq)]
pub(crate) struct NearRow {
    pub(crate) left: u8,
    pub(crate) nulls: u8,
    pub(crate) llist: u32,
    pub(crate) block: u32,
}

impl Near {
    // With the place of its right end.
    fn placed(&self, end: u32) -> NearKey
        ensures { result ≡ placed self.now end }
    {
        NearKey {
            left: self.left,
            nulls: self.nulls,
            llist: self.llist,
            end,
        }
    }
}

impl Rows for NearRow {
    ghost use Rattle.lg_forest.specs.NearKeys.{near_at, near_place, near_row};

    type Key = NearKey;

    ghost small = { λ _. Unit {0} };

    ghost row = { near_row };

    ghost place = { near_place };

    ghost at = { near_at };

    fn has_room_for(_key: &NearKey) -> bool {
        true
    }

    fn row_of(key: &NearKey) -> NearRow {
        NearRow {
            left: key.left,
            nulls: key.nulls,
            llist: key.llist,
            block: key.end / PLACES,
        }
    }

    fn place_of(key: &NearKey) -> u32 {
        key.end % PLACES
    }

    fn are_rows() {}
}

/// Keys without a linkage. Contracts see them in a list.
///
/// The right ends of near keys have places, and near keys that are alike but for these share a row, in which those that are looked up one
/// after another stand side by side. The others, which the whole sentence and few regions have, are a set by themselves.
#[derive(Drop)]
pub(crate) struct DeadKeys {
    ends: RightEnds,
    near: KeySet<NearRow>,
    others: KeySet<Row>,
}

impl Model for DeadKeys {
    ghost use Rattle.std.specs.Prelude.{List};
    ghost use Rattle.lg_region.specs.declared.key.Key.{Key as AnyKey};
    ghost use Rattle.lg_forest.specs.NearKeys.{AreDead, dead_keys};

    ghost Value = { List AnyKey };

    ghost view = { λ d. dead_keys d.ends d.near d.others };

    ghost invariant = { λ d. AreDead d.ends d.near d.others };
}

impl DeadKeys {
    /// No key. No memory.
    pub(crate) fn new(alloc: Global) -> DeadKeys
        ensures { result ≡ [] }
    {
        DeadKeys {
            ends: RightEnds::new(alloc),
            near: KeySet::new(alloc),
            others: KeySet::new(alloc),
        }
    }

    /// There are few keys, each once. The function does nothing: a caller whose proof needs the fact calls it.
    pub(crate) fn is_short(&self)
        ensures few { length self.now < 2 ^ 40 }
        ensures once { AreOnce self.now }
    {
        self.ends.are_once();
        self.near.is_short();
        self.others.is_short();
    }

    /// Whether a key is there. Contracts see no change. No memory.
    pub(crate) fn has(&mut self, key: &Key) -> bool
        ensures value { IsTrue result ↔ Contains self.old key.now }
        ensures same { self.new ≡ self.old }
    {
        match near_of(key) {
            Some(near) => self.has_near(&near),
            None => self.others.has(key),
        }
    }

    fn has_near(&mut self, near: &Near) -> bool
        requires { IsNear (key_of near.now) }
        ensures value { IsTrue result ↔ Contains self.old (key_of near.now) }
        ensures same { self.new ≡ self.old }
    {
        self.ends.are_once();
        match self.ends.get(&near.end) {
            Some(end) => self.near.has(&near.placed(end)),
            None => false,
        }
    }

    /// Adds a key, which may be there. The only error is running out of memory, and then nothing has changed.
    pub(crate) fn add(&mut self, key: &Key) -> Result<(), NoMemory>
        requires { IsSmall key.now }
        ensures added { OnOk result ((k : SeenKey) → Contains self.new k ↔ (Contains self.old k ⊎ (k ≡ key.now))) }
        ensures longer { OnOk result ((Contains self.old key.now → ⊥) → length self.new ≡ suc (length self.old)) }
        ensures unchanged { OnErr result (self.new ≡ self.old) }
    {
        match near_of(key) {
            Some(near) => self.add_near(&near),
            None => self.others.add(key),
        }
    }

    fn add_near(&mut self, near: &Near) -> Result<(), NoMemory>
        requires { IsNear (key_of near.now) }
        ensures added { OnOk result ((k : SeenKey) → Contains self.new k ↔ (Contains self.old k ⊎ (k ≡ key_of near.now))) }
        ensures longer { OnOk result ((Contains self.old (key_of near.now) → ⊥) → length self.new ≡ suc (length self.old)) }
        ensures unchanged { OnErr result (self.new ≡ self.old) }
    {
        let end = self.ends.give(near.end)?;
        self.ends.are_once();
        self.near.add(&near.placed(end))
    }
}

// The near key that a key is. None where it is none.
fn near_of(key: &Key) -> Option<Near>
    ensures { MatchOption result (IsNear key.now → ⊥) (λ near. (key.now ≡ key_of near) × IsNear key.now) }
{
    match *key {
        Key::Whole { .. } => None,
        Key::Region {
            left,
            right,
            llist,
            rlist,
            nulls,
        } => {
            if left >= WORDS || right >= WORDS || nulls >= WORDS || rlist >= LISTS {
                return None;
            }
            Some(Near {
                left: left as u8,
                nulls: nulls as u8,
                llist,
                end: RightEnd {
                    word: right as u8,
                    list: rlist,
                },
            })
        }
    }
}
