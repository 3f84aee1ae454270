//! The memo.
ghost use Rattle.std.specs.Prelude.{◌≡◌, ℕ, ◌%◌, ◌<◌, true, [], ◌∷◌, length, map, IfOk, IsSomeAnd};
ghost use Rattle.std.specs.List.{All, flat_map, range_with_len};
ghost use mathlib.Core.Option.{some};
ghost use lib.ListN.{get_elem?};
ghost use Rattle.lg_memo.specs.Rule.{IsStored};
ghost use Rattle.lg_memo.specs.Steps.{IsFree, at_start};
ghost use Rattle.lg_memo.specs.Views.{has_number};

use crate::fact::Fact;
use crate::rule::MemoRule;
use crate::seat::MemoSeat;
use crate::shard::Shard;
use crate::view::{About, View};
use atomic_table::Table;
use lg_base::NoMemory;
use std::alloc::Global;
use std::snapshot::Snapshot;

/// A memo: a word and a slot for each shard, which all seats share.
#[derive(Drop)]
pub struct Memo<T: Fact> {
    pub(crate) table: Table<Option<Shard<T>>, View<T::Name>, About<T::Name>, MemoRule<T>, Global>,
    pub(crate) shards: u32,
    ghost some_shard: { 0 < shards },
    ghost words: { table.shared.table_id.words ≡ shards },
    ghost slots: { table.shared.table_id.slots ≡ shards },
    ghost told: { table.shared.key.shards ≡ shards },
    ghost some_seat: { 0 < table.shared.key.seats },
}

impl<T: Fact> Memo<T> {
    /// A memo of this name, with so many shards and so many seats, at least one of each. Every shard is empty and at home, and no
    /// seat has one. The only error is running out of memory.
    pub fn make(
        alloc: Global,
        name: &T::Name,
        shards: u32,
        seats: u32,
    ) -> Result<(Memo<T>, Vec<MemoSeat<T>>), NoMemory>
        requires shards { 0 < shards }
        requires seats { 0 < seats }
        ensures name { IfOk result (λ made. made.0.table.shared.key.name.value ≡ name.now) }
        ensures shards { IfOk result (λ made. made.0.shards ≡ shards) }
        ensures seats { IfOk result (λ made. made.0.table.shared.key.seats ≡ seats) }
        ensures dealt { IfOk result (λ made. map (λ s. (s.seat.table_id, s.seat.me)) made.1.items ≡ map (λ n. at_start made.0.table.shared.table_id made.0.table.shared.key (n ∷ [])) (range_with_len 0 seats)) }
        ensures free { IfOk result (λ made. All (λ s. IsFree made.0.table.shared.table_id made.0.table.shared.key s.seat.table_id s.seat.me) made.1.items) }
        ensures all { IfOk result (λ made. (n : ℕ) → n < seats → has_number (flat_map (λ s. s.seat.me.0.numbers) made.1.items) n ≡ true) }
    {
        let (memo, first) = Memo::open(alloc, name, shards, seats)?;
        let dealt = first.deal(alloc, &memo, seats)?;
        Ok((memo, dealt))
    }

    // The memo, and a seat that stands for all seats.
    fn open(
        alloc: Global,
        name: &T::Name,
        shards: u32,
        seats: u32,
    ) -> Result<(Memo<T>, MemoSeat<T>), NoMemory>
        requires shards { 0 < shards }
        requires seats { 0 < seats }
        ensures name { IfOk result (λ made. made.0.table.shared.key.name.value ≡ name.now) }
        ensures shards { IfOk result (λ made. made.0.shards ≡ shards) }
        ensures seats { IfOk result (λ made. made.0.table.shared.key.seats ≡ seats) }
        ensures first { IfOk result (λ made. (made.1.seat.table_id, made.1.seat.me) ≡ at_start made.0.table.shared.table_id made.0.table.shared.key (range_with_len 0 seats)) }
    {
        let words = Vec::from_elem(alloc, 0u64, shards as usize)?;
        let contents = Memo::<T>::contents(alloc, shards)?;
        let name = Snapshot::of(name);
        let about = About {
            name,
            shards,
            seats,
        };
        let Ok((table, seat)) = Table::new(alloc, words.as_slice(), contents, &about) else {
            return Err(NoMemory);
        };
        Ok((Memo { table, shards }, MemoSeat { seat }))
    }

    // The empty shards.
    fn contents(alloc: Global, shards: u32) -> Result<Vec<Option<Shard<T>>>, NoMemory>
        ensures count { IfOk result (λ made. length made.items ≡ shards) }
        ensures stored { IfOk result (λ made. (name : T.Name) (shard : ℕ) (content : _) → get_elem? made.items shard ≡ some content → IsSomeAnd content (λ s. IsStored T.right name shard 0 s.number s.entries.items)) }
    {
        let mut made = Vec::with_capacity(alloc, shards as usize)?;
        for number in 0..shards {
            made.push(Some(Shard::empty(alloc, number)))?;
        }
        Ok(made)
    }

    // The number of the shard that a place leads to.
    pub(crate) fn index_of(&self, place: u64) -> usize
        ensures number { result ≡ place % self.now.shards }
        ensures within { result < self.now.shards }
    {
        (place % u64::from(self.shards)) as usize
    }
}
