//! Seats, by which workers use a memo.
ghost use Rattle.std.specs.Prelude.{◌≡◌, ℕ, ◌≤◌, ◌%◌, None, length, IfSome, IfNone};
ghost use Rattle.lg_memo.specs.Entries.{AreRight};
ghost use Rattle.lg_memo.specs.Views.{NoFewer, loses, takes_shard, gives_shard, joined};
ghost use Rattle.lg_memo.specs.Steps.{IsFree, HasShard};

use crate::fact::Fact;
use crate::memo::Memo;
use crate::rule::{Give, Take, TakeOver};
use crate::shard::Shard;
use crate::view::View;
use atomic_table::Seat;

/// What one worker uses a memo with. It has one shard at a time, or none.
///
/// Contracts see the table of its memo and its view: the memo, the number of the seat, the shard that it has, the number `lost`,
/// which they alone know, and what it took and gave.
#[derive(Drop)]
pub struct MemoSeat<T: Fact> {
    pub(crate) seat: Seat<Option<Shard<T>>, View<T::Name>>,
}

impl<T: Fact> MemoSeat<T> {
    /// Takes the shard whose number is `place` modulo the number of shards. All its entries are right under the name of the memo,
    /// and they are no fewer than this seat ever took or gave under that number. The seat then has that shard.
    ///
    /// `None` comes only where another seat had that shard at the step of this call, and then `lost` is one higher. One try, and
    /// no memory.
    pub fn take(&mut self, memo: &Memo<T>, place: u64) -> Option<Shard<T>>
        requires { IsFree memo.now.table.shared.table_id memo.now.table.shared.key self.old.seat.table_id self.old.seat.me }
        ensures lost { IfNone result (self.new.seat.me.0 ≡ loses self.old.seat.me.0) }
        ensures free { IfNone result (IsFree memo.now.table.shared.table_id memo.now.table.shared.key self.new.seat.table_id self.new.seat.me) }
        ensures taken { IfSome result (λ shard. self.new.seat.me.0 ≡ takes_shard self.old.seat.me.0 shard.number (length shard.entries.items)) }
        ensures has { IfSome result (λ shard. HasShard memo.now.table.shared.table_id memo.now.table.shared.key None self.new.seat.table_id self.new.seat.me shard.number (length shard.entries.items)) }
        ensures number { IfSome result (λ shard. shard.number ≡ place % memo.now.shards) }
        ensures right { IfSome result (λ shard. AreRight T.right memo.now.table.shared.key.name.value shard.entries.items) }
        ensures known { IfSome result (λ shard. NoFewer self.old.seat.me.0.known shard.number (length shard.entries.items)) }
    {
        let index = memo.index_of(place);
        let found = memo
            .table
            .shared
            .fetch_or::<Take<T>>(&mut self.seat, index, 1);
        let parity = found % 2;
        if parity == 1 {
            return None;
        }
        memo.table.shared.exchange(&mut self.seat, index, None)
    }

    /// Gives back the shard that the seat has, which then has none. All entries of the shard are right under the name of the memo,
    /// and they are no fewer than were taken. No memory.
    pub fn give(&mut self, memo: &Memo<T>, shard: Shard<T>)
        requires has { (taken : ℕ) × HasShard memo.now.table.shared.table_id memo.now.table.shared.key None self.old.seat.table_id self.old.seat.me shard.number taken × (taken ≤ length shard.entries.items) }
        requires right { AreRight T.right memo.now.table.shared.key.name.value shard.entries.items }
        ensures given { self.new.seat.me.0 ≡ gives_shard self.old.seat.me.0 shard.number (length shard.entries.items) }
        ensures free { IsFree memo.now.table.shared.table_id memo.now.table.shared.key self.new.seat.table_id self.new.seat.me }
    {
        let index = shard.number as usize;
        let word = 2 * shard.entries.len() as u64;
        memo.table
            .shared
            .exchange(&mut self.seat, index, Some(shard));
        memo.table
            .shared
            .store::<Give<T>>(&mut self.seat, index, word);
    }

    // Takes over the numbers of another seat and what it took and gave.
    pub(crate) fn join(&mut self, memo: &Memo<T>, other: MemoSeat<T>)
        requires free { IsFree memo.now.table.shared.table_id memo.now.table.shared.key self.old.seat.table_id self.old.seat.me }
        requires other { IsFree memo.now.table.shared.table_id memo.now.table.shared.key other.seat.table_id other.seat.me }
        ensures joined { self.new.seat.me.0 ≡ joined self.old.seat.me.0 other.seat.me.0 }
        ensures free { IsFree memo.now.table.shared.table_id memo.now.table.shared.key self.new.seat.table_id self.new.seat.me }
    {
        let MemoSeat { seat } = other;
        memo.table
            .shared
            .join_seat::<TakeOver>(&mut self.seat, seat);
    }
}
