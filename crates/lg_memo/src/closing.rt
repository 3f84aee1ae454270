//! How a memo is closed.
ghost use Rattle.std.specs.Prelude.{◌≡◌, ◌≢◌, ℕ, ◌<◌, ◌≤◌, true, [], length, map, is_some, Some, IfOk, vec_capacity};
ghost use Rattle.std.specs.List.{All, flat_map, range_with_len};
ghost use Rattle.std.specs.Slots.{slots_items, slots_len, IsFull};
ghost use Rattle.lg_memo.specs.Entries.{AreRight};
ghost use Rattle.lg_memo.specs.Steps.{IsFree};
ghost use Rattle.lg_memo.specs.Views.{NoFewer, has_number};

use crate::fact::Fact;
use crate::memo::Memo;
use crate::seat::MemoSeat;
use crate::shard::Shard;
use atomic_table::Closed;
use lg_base::NoMemory;
use std::alloc::Global;

impl<T: Fact> Memo<T> {
    /// Closes the memo, to which all its seats are handed, none of which has a shard. Its shards come in the order of their numbers.
    /// All entries are right under the name of the memo, and those of a shard are no fewer than any seat took or gave under its
    /// number. The only error is running out of memory, and it comes before anything else.
    pub fn close(self, alloc: Global, seats: Vec<MemoSeat<T>>) -> Result<Vec<Shard<T>>, NoMemory>
        requires free { All (λ s. IsFree self.table.shared.table_id self.table.shared.key s.seat.table_id s.seat.me) seats.items }
        requires all { (n : ℕ) → n < self.table.shared.key.seats → has_number (flat_map (λ s. s.seat.me.0.numbers) seats.items) n ≡ true }
        ensures numbers { IfOk result (λ shards. map (λ s. s.number) shards.items ≡ range_with_len 0 self.shards) }
        ensures right { IfOk result (λ shards. All (λ s. AreRight T.right self.table.shared.key.name.value s.entries.items) shards.items) }
        ensures known { IfOk result (λ shards. All (λ s. NoFewer (flat_map (λ q. q.seat.me.0.known) seats.items) s.number (length s.entries.items)) shards.items) }
    {
        let shards = Vec::with_capacity(alloc, self.shards as usize)?;
        let last = self.gather(seats);
        let Memo {
            table,
            shards: count,
        } = self;
        let MemoSeat { seat } = last;
        Ok(drain(table.close_with(seat), shards, count))
    }

    // One seat that stands for all.
    fn gather(&self, mut seats: Vec<MemoSeat<T>>) -> MemoSeat<T>
        requires free { All (λ s. IsFree self.now.table.shared.table_id self.now.table.shared.key s.seat.table_id s.seat.me) seats.items }
        requires some { seats.items ≢ [] }
        ensures free { IsFree self.now.table.shared.table_id self.now.table.shared.key result.seat.table_id result.seat.me }
        ensures numbers { result.seat.me.0.numbers ≡ flat_map (λ s. s.seat.me.0.numbers) seats.items }
        ensures known { result.seat.me.0.known ≡ flat_map (λ s. s.seat.me.0.known) seats.items }
    {
        let Some(mut all) = seats.pop() else {
            unreachable!()
        };
        while let Some(seat) = seats.pop() {
            all.join(self, seat);
        }
        all
    }
}

// The contents of the slots, none of which is empty.
fn drain<T: Fact>(
    mut closed: Closed<Option<Shard<T>>, Global>,
    mut shards: Vec<Shard<T>>,
    count: u32,
) -> Vec<Shard<T>>
    requires count { slots_len closed.slots ≡ count }
    requires full { IsFull closed.slots }
    requires stored { All (λ content. is_some content ≡ true) (slots_items closed.slots) }
    requires none { shards.items ≡ [] }
    requires room { count ≤ vec_capacity shards }
    ensures { map (λ s. Some s) result.items ≡ slots_items closed.slots }
{
    for number in 0..count {
        let Some(shard) = closed.take(number as usize) else {
            unreachable!()
        };
        let Ok(()) = shards.push(shard) else {
            unreachable!()
        };
    }
    closed.free();
    shards
}
