//! A hash table for keys of a few numbers.
ghost use Rattle.std.specs.Prelude.{◌≡◌, ◌≢◌, ◌<◌, ◌^◌, ◌%◌, ◌++◌, ◌∷◌, ◌⊎◌, [], bit_or, length, IfOk, IfSome, MatchOption, OnErr, OnOk};
ghost use Rattle.std.specs.List.{Contains};
ghost use Rattle.std.specs.Map.{keys_of};
ghost use Rattle.lg_region.specs.Fronts.{AreOnce};
ghost use Rattle.lg_forest.specs.Slots.{AreLinked, AreSlots, HasBits, IsAt, IsPowerOfTwo, SetsBit, keys_in, nexts_in, pairs_in};

use crate::spread::Spread;
use lg_base::NoMemory;
use std::alloc::Global;
use std::marker::Model;
use std::mem;

// How many buckets a table has at first, and how many it may have: where it would have more it is out of memory.
const FEWEST_BUCKETS: usize = 16;

const MOST_BUCKETS: usize = 1 << 31;

/// A key and its value, and the number of the slot of the same bucket before it, from 1, or 0 where there is none.
#[derive(Drop)]
struct Slot<K, V> {
    key: K,
    value: V,
    next: u32,
}

/// Keys, each with a value, in the order in which they came. Contracts see the pairs.
///
/// The search looks up more than anything else, and most keys have no linkage; so this table does little: it lets no key go, and has
/// as many buckets as there is room for slots, a power of two. `heads` has for each bucket the number of its last slot, from 1, or 0.
/// A bit is set of a key that was looked up just before, more often than not; so `near`, the place of the last one, is tried first then.
/// It may be any place.
#[derive(Drop)]
pub(crate) struct Slots<K: Spread, V> {
    alloc: Global,
    heads: Vec<u32>,
    slots: Vec<Slot<K, V>>,
    near: usize,
}

impl<K: Spread, V> Model for Slots<K, V> {
    ghost use Rattle.std.specs.Prelude.{List};
    ghost use Rattle.lg_forest.specs.Slots.{AreSlots as AreKept, pairs_in as pairs};

    ghost Value = { List (K × V) };

    ghost view = { λ t. pairs t.slots.items };

    ghost invariant = { λ t. AreKept K.spread t.slots.items t.heads.items };
}

impl<K: Spread, V: Drop> Slots<K, V> {
    /// A table without keys. No memory.
    pub(crate) fn new(alloc: Global) -> Slots<K, V>
        ensures { result ≡ [] }
    {
        Slots {
            alloc,
            heads: Vec::new(alloc),
            slots: Vec::new(alloc),
            near: 0,
        }
    }

    /// How many keys there are.
    pub(crate) fn len(&self) -> usize
        ensures value { result ≡ length self.now }
        ensures small { result < 2 ^ 32 }
        ensures once { AreOnce (keys_of self.now) }
    {
        self.slots.len()
    }

    /// The value of a key. None where the key is not there. No memory.
    pub(crate) fn get(&self, key: &K) -> Option<&V>
        ensures found { MatchOption result (Contains (keys_of self.now) key.now → ⊥) (λ value. Contains self.now (key.now, value.now)) }
        ensures only { IfSome result (λ value. (v : V) → Contains self.now (key.now, v) → v ≡ value.now) }
    {
        let Some(at) = seek(&self.slots, &self.heads, key) else {
            return None;
        };
        Some(&self.slots[at].value)
    }

    /// Adds a key that is not there. The only error is running out of memory, and then nothing has changed.
    pub(crate) fn add(&mut self, key: K, value: V) -> Result<(), NoMemory>
        requires { Contains (keys_of self.old) key → ⊥ }
        ensures added { OnOk result (self.new ≡ self.old ++ (key, value) ∷ []) }
        ensures unchanged { OnErr result (self.new ≡ self.old) }
    {
        make_room(self.alloc, &mut self.slots, &mut self.heads)?;
        push(&mut self.slots, &mut self.heads, key, value)
    }

    /// Puts the value of a key in, and takes out the one that is there. None where the key was not there. The only error is running out
    /// of memory, and then nothing has changed.
    pub(crate) fn put(&mut self, key: K, value: V) -> Result<Option<V>, NoMemory>
        ensures taken { IfOk result (λ found. MatchOption found (Contains (keys_of self.old) key → ⊥) (λ old. Contains self.old (key, old))) }
        ensures put { OnOk result ((k : K) (v : V) → Contains self.new (k, v) → Contains self.old (k, v) ⊎ ((k ≡ key) × (v ≡ value))) }
        ensures there { OnOk result (Contains self.new (key, value)) }
        ensures kept { OnOk result ((k : K) (v : V) → k ≢ key → Contains self.old (k, v) → Contains self.new (k, v)) }
        ensures unchanged { OnErr result (self.new ≡ self.old) }
    {
        match seek(&self.slots, &self.heads, &key) {
            Some(at) => Ok(Some(replace_at(&mut self.slots, at, value))),
            None => {
                self.add(key, value)?;
                Ok(None)
            }
        }
    }
}

impl<K: Spread> Slots<K, u64> {
    /// The bits of a key: 0 where it is not there. The key is found at once when it is looked up next. No memory.
    pub(crate) fn bits(&mut self, key: &K) -> u64
        ensures bits { HasBits self.old key.now result }
        ensures same { self.new ≡ self.old }
    {
        match seek(&self.slots, &self.heads, key) {
            Some(at) => {
                self.near = at;
                self.slots[at].value
            }
            None => 0,
        }
    }

    /// Sets a bit, below 64, of the value of a key, which is put in with that bit alone where it is not there. The only error is running
    /// out of memory, and then nothing has changed.
    pub(crate) fn set_bit(&mut self, key: K, place: u32) -> Result<(), NoMemory>
        requires { place < 64 }
        ensures set { OnOk result (SetsBit self.old key place self.new) }
        ensures unchanged { OnErr result (self.new ≡ self.old) }
    {
        match seek_near(&self.slots, &self.heads, self.near, &key) {
            Some(at) => {
                let bits = with_bit(self.slots[at].value, place);
                replace_at(&mut self.slots, at, bits);
                Ok(())
            }
            None => self.add(key, with_bit(0, place)),
        }
    }
}

// A number with one bit set.
fn with_bit(bits: u64, place: u32) -> u64
    requires { place < 64 }
    ensures { result ≡ bit_or bits (2 ^ place) }
{
    bits | 1 << place
}

// The bucket of a key with this number. A division would take several times longer.
fn bucket_of(spread: u64, count: usize) -> usize
    requires { IsPowerOfTwo count }
    ensures value { result ≡ spread % count }
    ensures within { result < count }
{
    spread as usize & (count - 1)
}

// The place of a key. None where the key is not there. The place `near` is tried first.
fn seek_near<K: Spread, V>(
    slots: &[Slot<K, V>],
    heads: &[u32],
    near: usize,
    key: &K,
) -> Option<usize>
    requires { AreSlots K.spread slots.now heads.now }
    ensures { MatchOption result (Contains (keys_in slots.now) key.now → ⊥) (IsAt slots.now key.now) }
{
    if near < slots.len() && slots[near].key.is(key) {
        return Some(near);
    }
    seek(slots, heads, key)
}

// The place of a key, by its bucket.
fn seek<K: Spread, V>(slots: &[Slot<K, V>], heads: &[u32], key: &K) -> Option<usize>
    requires { AreSlots K.spread slots.now heads.now }
    ensures { MatchOption result (Contains (keys_in slots.now) key.now → ⊥) (IsAt slots.now key.now) }
{
    if slots.is_empty() {
        return None;
    }
    seek_from(slots, heads, key)
}

// The same where there are slots.
fn seek_from<K: Spread, V>(slots: &[Slot<K, V>], heads: &[u32], key: &K) -> Option<usize>
    requires slots { AreSlots K.spread slots.now heads.now }
    requires some { 0 < length slots.now }
    ensures { MatchOption result (Contains (keys_in slots.now) key.now → ⊥) (IsAt slots.now key.now) }
{
    let bucket = bucket_of(key.spread(), heads.len());
    let mut next = heads[bucket] as usize;
    while next > 0 {
        let slot = &slots[next - 1];
        if slot.key.is(key) {
            return Some(next - 1);
        }
        next = slot.next as usize;
    }
    None
}

// Puts the value of a slot in, and takes the old one out.
fn replace_at<K: Spread, V>(slots: &mut Vec<Slot<K, V>>, at: usize, value: V) -> V
    requires { at < length slots.old.items }
    ensures keys { keys_in slots.new.items ≡ keys_in slots.old.items }
    ensures nexts { nexts_in slots.new.items ≡ nexts_in slots.old.items }
    ensures taken { (key : K) → IsAt slots.old.items key at → Contains (pairs_in slots.old.items) (key, result) }
    ensures put { (key k : K) (v : V) → IsAt slots.old.items key at → Contains (pairs_in slots.new.items) (k, v) → Contains (pairs_in slots.old.items) (k, v) ⊎ ((k ≡ key) × (v ≡ value)) }
    ensures there { (key : K) → IsAt slots.old.items key at → Contains (pairs_in slots.new.items) (key, value) }
    ensures kept { (key k : K) (v : V) → IsAt slots.old.items key at → k ≢ key → Contains (pairs_in slots.old.items) (k, v) → Contains (pairs_in slots.new.items) (k, v) }
{
    mem::replace(&mut slots[at].value, value)
}

// Makes room for one slot more. The only error is running out of memory.
fn make_room<K: Spread, V>(
    alloc: Global,
    slots: &mut Vec<Slot<K, V>>,
    heads: &mut Vec<u32>,
) -> Result<(), NoMemory>
    requires { AreSlots K.spread slots.old.items heads.old.items }
    ensures slots { AreSlots K.spread slots.new.items heads.new.items }
    ensures same { pairs_in slots.new.items ≡ pairs_in slots.old.items }
    ensures room { OnOk result (length slots.new.items < length heads.new.items) }
{
    if slots.len() < heads.len() {
        return Ok(());
    }
    *heads = linked(alloc, slots, wider(heads.len()))?;
    Ok(())
}

// How many buckets a table gets that is full and has so many.
fn wider(count: usize) -> usize
    requires power { count ≢ 0 → IsPowerOfTwo count }
    requires few { count < 2 ^ 32 }
    ensures power { IsPowerOfTwo result }
    ensures more { count < result }
{
    if count == 0 {
        FEWEST_BUCKETS
    } else {
        2 * count
    }
}

// Adds a slot, for which there is room. The only error is running out of memory, and then nothing has changed.
fn push<K: Spread, V: Drop>(
    slots: &mut Vec<Slot<K, V>>,
    heads: &mut [u32],
    key: K,
    value: V,
) -> Result<(), NoMemory>
    requires slots { AreSlots K.spread slots.old.items heads.old }
    requires room { length slots.old.items < length heads.old }
    requires fresh { Contains (keys_in slots.old.items) key → ⊥ }
    ensures slots { AreSlots K.spread slots.new.items heads.new }
    ensures added { OnOk result (pairs_in slots.new.items ≡ pairs_in slots.old.items ++ (key, value) ∷ []) }
    ensures unchanged { OnErr result (pairs_in slots.new.items ≡ pairs_in slots.old.items) }
{
    let bucket = bucket_of(key.spread(), heads.len());
    let next = heads[bucket];
    slots.push(Slot { key, value, next })?;
    heads[bucket] = slots.len() as u32;
    Ok(())
}

// Links all slots by so many new buckets. The only error is running out of memory, and then nothing has changed.
fn linked<K: Spread, V>(
    alloc: Global,
    slots: &mut Vec<Slot<K, V>>,
    count: usize,
) -> Result<Vec<u32>, NoMemory>
    requires power { IsPowerOfTwo count }
    requires room { length slots.old.items < count }
    ensures linked { IfOk result (λ heads. AreLinked K.spread (keys_in slots.new.items) heads.items (nexts_in slots.new.items) (length slots.new.items)) }
    ensures count { IfOk result (λ heads. length heads.items ≡ count) }
    ensures few { IfOk result (λ heads. length heads.items < 2 ^ 32) }
    ensures same { pairs_in slots.new.items ≡ pairs_in slots.old.items }
    ensures unchanged { OnErr result (slots.new.items ≡ slots.old.items) }
{
    if count > MOST_BUCKETS {
        return Err(NoMemory);
    }
    let mut heads = vec![in alloc; 0; count]?;
    for at in 0..slots.len() {
        let slot = &mut slots[at];
        let bucket = bucket_of(slot.key.spread(), count);
        slot.next = heads[bucket];
        heads[bucket] = at as u32 + 1;
    }
    Ok(heads)
}
