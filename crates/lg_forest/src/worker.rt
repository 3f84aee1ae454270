//! What one worker does: it walks as the caller will, but in an order of its own, and keeps what it finds in the memo.
ghost use Rattle.std.specs.Prelude.{◌≡◌, ◌+◌, ◌<◌, ◌≤◌, length, IfOk, IfSome};
ghost use Rattle.lg_region.specs.Keys.{IsValidKey};
ghost use Rattle.lg_memo.specs.Entries.{AreRight};
ghost use Rattle.lg_memo.specs.Steps.{IsFree};
ghost use Rattle.lg_forest.specs.Known.{AreKept, AreAltsOf};
ghost use Rattle.lg_forest.specs.Search.{KeysAreDecided, HasValidKeys};

use crate::fact::Expansion;
use indexmap::IndexMap;
use lg_base::{NoMemory, Steps};
use lg_memo::{Fact, Memo, MemoSeat, Shard};
use lg_region::{Alt, Alts, Key, Lists, expand_key};
use std::alloc::Global;

/// So many entries go into a shard.
const ROOM: usize = 1 << 40;

/// Numbers of unlinked words: from one number up to the end, which is none of them.
#[derive(Clone, Copy)]
pub(crate) struct Levels {
    pub from: u32,
    pub end: u32,
}

/// A worker: its number, its seat, and the keys that it has done, each with whether it found a linkage there.
#[derive(Drop)]
struct Worker {
    number: usize,
    seat: MemoSeat<Expansion>,
    done: IndexMap<Key, bool>,
}

impl Worker {
    fn into_seat(self) -> MemoSeat<Expansion>
        ensures { result ≡ self.seat }
    {
        let Worker { seat, .. } = self;
        seat
    }
}

/// Walks from the whole sentence with each of these numbers of unlinked words, up to the first that has a linkage, or until memory
/// runs out. The seat comes back with no shard.
pub(crate) fn walk(
    alloc: Global,
    lists: &Lists<'_>,
    memo: &Memo<Expansion>,
    number: usize,
    levels: Levels,
    seat: MemoSeat<Expansion>,
) -> MemoSeat<Expansion>
    requires decided { KeysAreDecided lists.now }
    requires name { memo.now.table.shared.key.name.value ≡ lists.now.positions }
    requires levels { levels.end ≤ length lists.now.positions + 1 }
    requires free { IsFree memo.now.table.shared.table_id memo.now.table.shared.key seat.seat.table_id seat.seat.me }
    ensures free { IsFree memo.now.table.shared.table_id memo.now.table.shared.key result.seat.table_id result.seat.me }
    ensures numbers { result.seat.me.0.numbers ≡ seat.seat.me.0.numbers }
{
    let mut worker = Worker {
        number,
        seat,
        done: IndexMap::new(alloc),
    };
    for nulls in levels.from..levels.end {
        let key = Key::Whole { nulls };
        let is_over = visit(alloc, lists, memo, key, &mut worker).unwrap_or(true);
        if is_over {
            break;
        }
    }
    worker.into_seat()
}

// Whether the worker finds a linkage under a key.
#[cycle(walking)]
fn visit(
    alloc: Global,
    lists: &Lists<'_>,
    memo: &Memo<Expansion>,
    key: Key,
    worker: &mut Worker,
) -> Result<bool, NoMemory>
    requires decided { KeysAreDecided lists.now }
    requires name { memo.now.table.shared.key.name.value ≡ lists.now.positions }
    requires key { IsValidKey lists.now.positions lists.now.lists key }
    requires free { IsFree memo.now.table.shared.table_id memo.now.table.shared.key worker.old.seat.seat.table_id worker.old.seat.seat.me }
    ensures free { IsFree memo.now.table.shared.table_id memo.now.table.shared.key worker.new.seat.seat.table_id worker.new.seat.seat.me }
    ensures numbers { worker.new.seat.seat.me.0.numbers ≡ worker.old.seat.seat.me.0.numbers }
{
    if let Some(live) = worker.done.get(&key) {
        return Ok(*live);
    }
    let alts = alts_of(alloc, lists, memo, key, &mut worker.seat)?;
    let mut live = false;
    for turn in 0..alts.len() {
        let index = index_at(worker.number, turn, alts.len());
        let alt = alts.get(index);
        if is_live(alloc, lists, memo, alt, worker)? {
            live = true;
        }
    }
    worker.done.insert(key, live)?;
    Ok(live)
}

// Which alternative is looked at in a turn. Each worker begins at a place of its own, and those of odd numbers go backwards.
fn index_at(number: usize, turn: usize, count: usize) -> usize
    requires { 0 < count }
    ensures { result < count }
{
    let first = number.wrapping_mul(count) / 16;
    let index = first.wrapping_add(turn) % count;
    if number % 2 == 1 {
        count - 1 - index
    } else {
        index
    }
}

// Whether the worker finds a linkage under each key of an alternative.
#[cycle(walking)]
fn is_live(
    alloc: Global,
    lists: &Lists<'_>,
    memo: &Memo<Expansion>,
    alt: Alt,
    worker: &mut Worker,
) -> Result<bool, NoMemory>
    requires decided { KeysAreDecided lists.now }
    requires name { memo.now.table.shared.key.name.value ≡ lists.now.positions }
    requires keys { HasValidKeys lists.now alt }
    requires free { IsFree memo.now.table.shared.table_id memo.now.table.shared.key worker.old.seat.seat.table_id worker.old.seat.seat.me }
    ensures free { IsFree memo.now.table.shared.table_id memo.now.table.shared.key worker.new.seat.seat.table_id worker.new.seat.seat.me }
    ensures numbers { worker.new.seat.seat.me.0.numbers ≡ worker.old.seat.seat.me.0.numbers }
{
    match alt {
        Alt::AllNull => Ok(true),
        Alt::Split { lkey, rkey, .. } => {
            if visit_part(alloc, lists, memo, lkey, worker)? {
                visit_part(alloc, lists, memo, rkey, worker)
            } else {
                Ok(false)
            }
        }
    }
}

// The same of the key of a part; true where there is no key.
#[cycle(walking)]
fn visit_part(
    alloc: Global,
    lists: &Lists<'_>,
    memo: &Memo<Expansion>,
    key: Option<Key>,
    worker: &mut Worker,
) -> Result<bool, NoMemory>
    requires decided { KeysAreDecided lists.now }
    requires name { memo.now.table.shared.key.name.value ≡ lists.now.positions }
    requires key { IfSome key (IsValidKey lists.now.positions lists.now.lists) }
    requires free { IsFree memo.now.table.shared.table_id memo.now.table.shared.key worker.old.seat.seat.table_id worker.old.seat.seat.me }
    ensures free { IsFree memo.now.table.shared.table_id memo.now.table.shared.key worker.new.seat.seat.table_id worker.new.seat.seat.me }
    ensures numbers { worker.new.seat.seat.me.0.numbers ≡ worker.old.seat.seat.me.0.numbers }
{
    match key {
        None => Ok(true),
        Some(key) => visit(alloc, lists, memo, key, worker),
    }
}

// The alternatives of a key, by the shard of the key. Where another seat has the shard, they are found anew, and nobody waits.
fn alts_of(
    alloc: Global,
    lists: &Lists<'_>,
    memo: &Memo<Expansion>,
    key: Key,
    seat: &mut MemoSeat<Expansion>,
) -> Result<Alts, NoMemory>
    requires name { memo.now.table.shared.key.name.value ≡ lists.now.positions }
    requires key { IsValidKey lists.now.positions lists.now.lists key }
    requires free { IsFree memo.now.table.shared.table_id memo.now.table.shared.key seat.old.seat.table_id seat.old.seat.me }
    ensures alts { let n = lists.entry.now in IfOk result (AreAltsOf n.positions n.lists key) }
    ensures free { IsFree memo.now.table.shared.table_id memo.now.table.shared.key seat.new.seat.table_id seat.new.seat.me }
    ensures numbers { seat.new.seat.me.0.numbers ≡ seat.old.seat.me.0.numbers }
{
    let Some(mut shard) = seat.take(memo, Expansion::place(&key)) else {
        return found_anew(alloc, lists, key);
    };
    let alts = looked_up(alloc, lists, key, &mut shard);
    seat.give(memo, shard);
    alts
}

// The alternatives of a key, which the shard has, or has from now on.
fn looked_up(
    alloc: Global,
    lists: &Lists<'_>,
    key: Key,
    shard: &mut Shard<Expansion>,
) -> Result<Alts, NoMemory>
    requires key { IsValidKey lists.now.positions lists.now.lists key }
    requires right { AreRight AreKept lists.now.positions shard.old.entries.items }
    ensures alts { let n = lists.entry.now in IfOk result (AreAltsOf n.positions n.lists key) }
    ensures number { shard.new.number ≡ shard.old.number }
    ensures right { AreRight AreKept lists.entry.now.positions shard.new.entries.items }
    ensures more { length shard.old.entries.items ≤ length shard.new.entries.items }
{
    lists.are_numbered();
    let found = shard.find(alloc, &key)?;
    if let Some(alts) = found {
        return Ok(alts);
    }
    let alts = found_anew(alloc, lists, key)?;
    keep_copy(alloc, lists, key, &alts, shard)?;
    Ok(alts)
}

// Keeps the alternatives of a key, where the shard has room.
fn keep_copy(
    alloc: Global,
    lists: &Lists<'_>,
    key: Key,
    alts: &Alts,
    shard: &mut Shard<Expansion>,
) -> Result<(), NoMemory>
    requires alts { AreAltsOf lists.now.positions lists.now.lists key alts.now }
    requires right { AreRight AreKept lists.now.positions shard.old.entries.items }
    ensures number { shard.new.number ≡ shard.old.number }
    ensures right { AreRight AreKept lists.entry.now.positions shard.new.entries.items }
    ensures more { length shard.old.entries.items ≤ length shard.new.entries.items }
{
    lists.are_numbered();
    if shard.entries().len() >= ROOM {
        return Ok(());
    }
    let copy = alts.copied(alloc)?;
    shard.keep(key, copy)
}

// The alternatives of a key. Steps of workers are not counted.
fn found_anew(alloc: Global, lists: &Lists<'_>, key: Key) -> Result<Alts, NoMemory>
    requires { IsValidKey lists.now.positions lists.now.lists key }
    ensures { let n = lists.entry.now in IfOk result (AreAltsOf n.positions n.lists key) }
{
    let mut steps = Steps::start();
    expand_key(alloc, lists, key, &mut steps)
}
