//! Workers, who find alternatives beside one another before the caller walks alone.
ghost use Rattle.std.specs.Prelude.{◌≡◌, ◌+◌, ◌<◌, ◌≤◌, [], length, IfOk, OnOk};
ghost use Rattle.std.specs.List.{All, flat_map};
ghost use Rattle.std.specs.Thread.{IsSync};
ghost use Rattle.lg_memo.specs.Entries.{AreRight};
ghost use Rattle.lg_memo.specs.Steps.{IsFree};
ghost use Rattle.lg_forest.specs.Forests.{AreWorkers};
ghost use Rattle.lg_forest.specs.Known.{AreKept, AreKnown};

use crate::fact::Expansion;
use crate::known::Known;
use crate::law::keys_are_decided;
use crate::worker::{Levels, walk};
use lg_base::NoMemory;
use lg_gram::{Disjuncts, Problem};
use lg_memo::{Memo, MemoSeat, Shard};
use lg_region::{Alts, Key, Lists};
use std::alloc::Global;
use std::thread::{Threads, join};

/// Where there are fewer disjuncts than these, threads cost more than they save.
const FEW_DISJUNCTS: usize = 400;

/// Where words have more disjuncts than these on average, they do too: one walk remembers how regions begin, and workers do not.
const CROWDED: usize = 20;

/// The shards of a memo: so many that two workers seldom want the same one.
const SHARDS: u32 = 1_024;

/// The alternatives that these workers find from the whole sentence with these numbers of unlinked words. One worker finds none, and
/// none are found where there are few disjuncts, or many a word. The only error is running out of memory.
pub(crate) fn known_of<R: Threads + Sync>(
    rt: &R,
    alloc: Global,
    problem: &Problem,
    lists: &Lists<'_>,
    levels: Levels,
    workers: u32,
) -> Result<Known, NoMemory>
    requires workers { AreWorkers workers }
    requires positions { lists.now.positions ≡ problem.now }
    requires levels { levels.end ≤ length problem.now + 1 }
    ensures known { IfOk result (AreKnown lists.entry.now) }
    ensures alone { workers ≡ 1 → IfOk result (λ known. known ≡ []) }
{
    let positions = problem.positions();
    if workers == 1 || is_one_enough(positions) {
        return Ok(Known::nothing(alloc));
    }
    let (memo, seats) = Memo::make(alloc, problem, SHARDS, workers)?;
    let seats = walk_all(rt, alloc, problem, &memo, levels, 0, seats)?;
    let shards = memo.close(alloc, seats)?;
    gathered(alloc, lists, shards)
}

// Whether there are so few disjuncts, or so many a word, that one worker does better.
fn is_one_enough(positions: &[Disjuncts]) -> bool {
    let mut count = 0usize;
    for position in positions {
        count = count.saturating_add(position.items().len());
    }
    count < FEW_DISJUNCTS || count / CROWDED > positions.len()
}

// Lets a worker walk from each seat, in two halves at once, and each half so again. The seats come back in the same order.
#[cycle(halves)]
fn walk_all<R: Threads + Sync>(
    rt: &R,
    alloc: Global,
    problem: &Problem,
    memo: &Memo<Expansion>,
    levels: Levels,
    number: usize,
    mut seats: Vec<MemoSeat<Expansion>>,
) -> Result<Vec<MemoSeat<Expansion>>, NoMemory>
    requires name { memo.now.table.shared.key.name.value ≡ problem.now }
    requires levels { levels.end ≤ length problem.now + 1 }
    requires free { All (λ s. IsFree memo.now.table.shared.table_id memo.now.table.shared.key s.seat.table_id s.seat.me) seats.items }
    ensures { IfOk result (λ back. All (λ s. IsFree memo.now.table.shared.table_id memo.now.table.shared.key s.seat.table_id s.seat.me) back.items × (flat_map (λ s. s.seat.me.0.numbers) back.items ≡ flat_map (λ s. s.seat.me.0.numbers) seats.items)) }
{
    if seats.len() < 2 {
        let Some(seat) = seats.pop() else {
            return Ok(seats);
        };
        let back = work(alloc, problem, memo, levels, number, seat);
        seats.push(back)?;
        return Ok(seats);
    }
    let middle = seats.len() / 2;
    let next = number.wrapping_add(middle);
    let high = seats.split_off(middle)?;
    let low = seats;
    let (first, second) = join(
        rt,
        move || -> Result<Vec<MemoSeat<Expansion>>, NoMemory>
            requires { IsSync R.row × (memo.now.table.shared.key.name.value ≡ problem.now) × (levels.end ≤ length problem.now + 1) × All (λ s. IsFree memo.now.table.shared.table_id memo.now.table.shared.key s.seat.table_id s.seat.me) low.items }
            ensures { IfOk result (λ back. All (λ s. IsFree memo.entry.now.table.shared.table_id memo.entry.now.table.shared.key s.seat.table_id s.seat.me) back.items × (flat_map (λ s. s.seat.me.0.numbers) back.items ≡ flat_map (λ s. s.seat.me.0.numbers) low.items)) }
        { walk_all(rt, alloc, problem, memo, levels, number, low) },
        move || -> Result<Vec<MemoSeat<Expansion>>, NoMemory>
            requires { IsSync R.row × (memo.now.table.shared.key.name.value ≡ problem.now) × (levels.end ≤ length problem.now + 1) × All (λ s. IsFree memo.now.table.shared.table_id memo.now.table.shared.key s.seat.table_id s.seat.me) high.items }
            ensures { IfOk result (λ back. All (λ s. IsFree memo.entry.now.table.shared.table_id memo.entry.now.table.shared.key s.seat.table_id s.seat.me) back.items × (flat_map (λ s. s.seat.me.0.numbers) back.items ≡ flat_map (λ s. s.seat.me.0.numbers) high.items)) }
        { walk_all(rt, alloc, problem, memo, levels, next, high) },
    );
    let mut firsts = first?;
    let mut others = second?;
    firsts.append(&mut others)?;
    Ok(firsts)
}

// One worker walks. It numbers the lists for itself.
fn work(
    alloc: Global,
    problem: &Problem,
    memo: &Memo<Expansion>,
    levels: Levels,
    number: usize,
    seat: MemoSeat<Expansion>,
) -> MemoSeat<Expansion>
    requires name { memo.now.table.shared.key.name.value ≡ problem.now }
    requires levels { levels.end ≤ length problem.now + 1 }
    requires free { IsFree memo.now.table.shared.table_id memo.now.table.shared.key seat.seat.table_id seat.seat.me }
    ensures free { IsFree memo.now.table.shared.table_id memo.now.table.shared.key result.seat.table_id result.seat.me }
    ensures numbers { result.seat.me.0.numbers ≡ seat.seat.me.0.numbers }
{
    keys_are_decided();
    match Lists::of(alloc, problem) {
        Ok(lists) => walk(alloc, &lists, memo, number, levels, seat),
        Err(NoMemory) => seat,
    }
}

// What the shards hold.
fn gathered(
    alloc: Global,
    lists: &Lists<'_>,
    mut shards: Vec<Shard<Expansion>>,
) -> Result<Known, NoMemory>
    requires { All (λ s. AreRight AreKept lists.now.positions s.entries.items) shards.items }
    ensures { IfOk result (AreKnown lists.entry.now) }
{
    let mut known = Known::nothing(alloc);
    while let Some(shard) = shards.pop() {
        add_all(lists, shard.into_entries(), &mut known)?;
    }
    Ok(known)
}

// Adds what a shard held.
fn add_all(
    lists: &Lists<'_>,
    mut entries: Vec<(Key, Alts)>,
    known: &mut Known,
) -> Result<(), NoMemory>
    requires right { AreRight AreKept lists.now.positions entries.items }
    requires known { AreKnown lists.now known.old }
    ensures { OnOk result (AreKnown lists.entry.now known.new) }
{
    lists.are_numbered();
    while let Some(entry) = entries.pop() {
        known.add(entry.0, entry.1)?;
    }
    Ok(())
}
