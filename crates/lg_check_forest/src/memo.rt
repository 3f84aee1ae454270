//! A memo that one worker uses: what it kept is found, and comes back when the memo is closed.
ghost use Rattle.std.specs.Prelude.{◌≡◌, IfOk};
ghost use Rattle.lg_memo.specs.Steps.{IsFree};

use lg_base::NoMemory;
use lg_memo::{Fact, Memo, MemoSeat, Shard};
use std::alloc::Global;
use std::process::Abort;
use std::test::Fail;

// Numbers, each with its sum with a number that the whole memo has.
struct Sums;

impl Fact for Sums {
    ghost use Rattle.std.specs.Prelude.{◌≡◌, ◌==◌, ◌+◌};
    ghost use Rattle.std.proofs.Common.{rules};
    ghost use Rattle.lg_forest.specs.Known.{alike_if_equal};

    type Name = u64;

    type Key = u64;

    type Value = u64;

    ghost right = { λ name key value. value ≡ key + name };

    ghost same = { λ a b. a == b };

    fn place(key: &u64) -> u64 {
        *key
    }

    fn same(a: &u64, b: &u64) -> bool {
        *a == *b
    }

    fn copy(_alloc: Global, value: &u64) -> Result<u64, NoMemory> {
        Ok(*value)
    }

    ghost alike = { alike_if_equal (λ name key value. value ≡ key + name) (λ a b. a == b) (λ a b. Prim.search rules) };
}

// Takes the shard of the number 7, keeps the sum of it and 10 there, finds it again, and gives the shard back.
fn keep_one<R: Abort>(
    rt: &R,
    alloc: Global,
    memo: &Memo<Sums>,
    mut seat: MemoSeat<Sums>,
) -> Result<MemoSeat<Sums>, Fail>
    requires name { memo.now.table.shared.key.name.value ≡ 10 }
    requires free { IsFree memo.now.table.shared.table_id memo.now.table.shared.key seat.seat.table_id seat.seat.me }
    ensures free { IfOk result (λ back. IsFree memo.now.table.shared.table_id memo.now.table.shared.key back.seat.table_id back.seat.me) }
    ensures numbers { IfOk result (λ back. back.seat.me.0.numbers ≡ seat.seat.me.0.numbers) }
{
    let Some(mut shard) = seat.take(memo, 7) else {
        return Err("the only seat was in the way")?;
    };
    assert!(rt; shard.entries().is_empty());
    shard.keep(7, 17)?;
    let found = shard.find(alloc, &7)?;
    assert!(rt; found == Some(17));
    let other = shard.find(alloc, &8)?;
    assert!(rt; other.is_none());
    seat.give(memo, shard);
    Ok(seat)
}

// The pairs of all shards.
fn pairs(alloc: Global, shards: Vec<Shard<Sums>>) -> Result<Vec<(u64, u64)>, Fail> {
    let mut all = Vec::new(alloc);
    for shard in shards {
        let mut entries = shard.into_entries();
        all.append(&mut entries)?;
    }
    Ok(all)
}

fn closed<R: Abort>(rt: &R, alloc: Global) -> Result<Vec<Shard<Sums>>, Fail> {
    let (memo, mut seats) = Memo::<Sums>::make(alloc, &10, 4, 1)?;
    let Some(seat) = seats.pop() else {
        return Err("no seat")?;
    };
    let back = keep_one(rt, alloc, &memo, seat)?;
    seats.push(back)?;
    Ok(memo.close(alloc, seats)?)
}

#[test]
fn a_kept_pair_comes_back(rt: HostRuntime) -> Result<(), Fail> {
    let alloc = rt.alloc();
    let shards = closed(&rt, alloc)?;
    assert_eq!(rt; shards.len(), 4);
    let all = pairs(alloc, shards)?;
    assert_eq!(rt; all.len(), 1);
    assert_eq!(rt; all[0].0, 7);
    assert_eq!(rt; all[0].1, 17);
    Ok(())
}
