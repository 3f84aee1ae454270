//! How the seats of a new memo are dealt.
ghost use Rattle.std.specs.Prelude.{◌≡◌, ℕ, ◌+◌, ◌-◌, ◌<◌, [], ◌∷◌, map, take, drop, IfOk};
ghost use Rattle.std.specs.List.{range_with_len};
ghost use Rattle.lg_memo.specs.Steps.{at_start};

use crate::fact::Fact;
use crate::memo::Memo;
use crate::rule::GiveFirst;
use crate::seat::MemoSeat;
use lg_base::NoMemory;
use std::alloc::Global;

impl<T: Fact> MemoSeat<T> {
    // A seat for each number, from one that stands for all.
    pub(crate) fn deal(
        mut self,
        alloc: Global,
        memo: &Memo<T>,
        seats: u32,
    ) -> Result<Vec<MemoSeat<T>>, NoMemory>
        requires seats { memo.now.table.shared.key.seats ≡ seats }
        requires start { (self.seat.table_id, self.seat.me) ≡ at_start memo.now.table.shared.table_id memo.now.table.shared.key (range_with_len 0 seats) }
        ensures { IfOk result (λ dealt. map (λ s. (s.seat.table_id, s.seat.me)) dealt.items ≡ map (λ n. at_start memo.now.table.shared.table_id memo.now.table.shared.key (n ∷ [])) (range_with_len 0 seats)) }
    {
        let mut dealt = Vec::with_capacity(alloc, seats as usize)?;
        for _ in 1..seats {
            dealt.push(self.split(memo))?;
        }
        dealt.push(self)?;
        Ok(dealt)
    }

    // A new seat with the first number of this one, which keeps another.
    fn split(&mut self, memo: &Memo<T>) -> MemoSeat<T>
        requires start { (self.old.seat.table_id, self.old.seat.me) ≡ at_start memo.now.table.shared.table_id memo.now.table.shared.key self.old.seat.me.0.numbers }
        requires two { (first : ℕ) × (self.old.seat.me.0.numbers ≡ range_with_len first (memo.now.table.shared.key.seats - first)) × (first + 1 < memo.now.table.shared.key.seats) }
        ensures left { (self.new.seat.table_id, self.new.seat.me) ≡ at_start memo.now.table.shared.table_id memo.now.table.shared.key (drop 1 self.old.seat.me.0.numbers) }
        ensures given { (result.seat.table_id, result.seat.me) ≡ at_start memo.now.table.shared.table_id memo.now.table.shared.key (take 1 self.old.seat.me.0.numbers) }
    {
        let seat = memo.table.shared.split_seat::<GiveFirst>(&mut self.seat);
        MemoSeat { seat }
    }
}
