//! The rows of a node that still make a part: each waits with that part, and the least part comes first.
ghost use Rattle.std.specs.Prelude.{◌≡◌, ◌≢◌, ◌+◌, ◌<◌, ◌≤◌, ◌++◌, ◌∷◌, [], length, IfOk, IsOk, OnOk, MatchOption};
ghost use Rattle.std.specs.BinaryHeap.{heap_items, heap_len, heap_capacity, KeepsHeap};
ghost use Rattle.std.specs.Cmp.{partial_order_from_own_ties};
ghost use Rattle.std.specs.Cmp.Rules.{comparing};
ghost use Rattle.std.specs.List.Sorted.{IsPermutation};
ghost use Rattle.std.specs.Ordering.{as_partial_cmp, eq_by_cmp};
ghost use Rattle.std.proofs.Common.{rules};
ghost use Rattle.lg_rank.specs.Queues.{waiting_cmp, waiting_list, least_part, IsFirstAt, Requeued};
ghost use Rattle.lg_rank.specs.Values.{value_of};

use crate::part::Part;
use crate::ready::Ready;
use lg_base::NoMemory;
use std::alloc::Global;
use std::cmp::Ordering;
use std::collections::BinaryHeap;

/// A row by its place, with the part that it makes. A lesser part is greater, since a heap gives its greatest element first.
#[derive(Debug, Drop)]
pub struct Waiting {
    pub place: usize,
    pub part: Ready,
}

impl PartialEq for Waiting {
    ghost eq = { eq_by_cmp waiting_cmp };

    ghost laws = { Prim.search (comparing, rules) depth 16 };

    fn eq(&self, other: &Waiting) -> bool {
        self.cmp(other) == Ordering::Equal
    }
}

impl Eq for Waiting {
    ghost laws = { Prim.search (comparing, rules) depth 16 };
}

impl PartialOrd for Waiting {
    ghost partial_cmp = { as_partial_cmp waiting_cmp };

    ghost laws = { partial_order_from_own_ties (Prim.search (comparing, rules) depth 16) (Prim.search (comparing, rules) depth 16) };

    fn partial_cmp(&self, other: &Waiting) -> Option<Ordering> {
        Some(self.cmp(other))
    }
}

impl Ord for Waiting {
    ghost cmp = { waiting_cmp };

    ghost total = { Prim.search (comparing, rules) depth 16 };

    ghost matches_partial_cmp = { Prim.search (comparing, rules) depth 16 };

    ghost matches_eq = { Prim.search (comparing, rules) depth 16 };

    fn cmp(&self, other: &Waiting) -> Ordering {
        other.part.compare(&self.part)
    }
}

/// The place of the first, or none where no row waits.
pub fn first_place(queue: &BinaryHeap<Waiting>) -> Option<usize>
    ensures { MatchOption result (heap_items queue.now ≡ []) (λ m. IsFirstAt (heap_items queue.now) m) }
{
    match queue.peek() {
        None => None,
        Some(first) => Some(first.place),
    }
}

/// How many parts can be read: the first, if a row waits.
pub fn least_count(queue: &BinaryHeap<Waiting>) -> usize
    ensures value { result ≡ length (least_part (heap_items queue.now)) }
    ensures few { result ≤ 1 }
{
    match queue.peek() {
        None => 0,
        Some(_) => 1,
    }
}

/// The part of the first. A row has to wait.
pub fn least_of(queue: &BinaryHeap<Waiting>) -> &Ready
    requires { heap_items queue.now ≢ [] }
    ensures { least_part (heap_items queue.now) ≡ value_of result.now ∷ [] }
{
    let first = queue.peek().unwrap();
    &first.part
}

/// Puts one more in, if there is one. With room for it that does not fail.
pub fn put_in(queue: &mut BinaryHeap<Waiting>, more: Option<Waiting>) -> Result<(), NoMemory>
    ensures items { OnOk result (IsPermutation (waiting_list more ++ heap_items queue.old) (heap_items queue.new)) }
    ensures heap { OnOk result (KeepsHeap waiting_cmp (heap_items queue.old) (heap_items queue.new)) }
    ensures len { OnOk result (heap_len queue.new ≤ heap_len queue.old + 1) }
    ensures capacity { heap_capacity queue.old ≤ heap_capacity queue.new }
    ensures succeeds { heap_len queue.old < heap_capacity queue.old → IsOk result }
{
    match more {
        None => Ok(()),
        Some(waiting) => {
            queue.push(waiting)?;
            Ok(())
        }
    }
}

/// Takes the first out and puts these in: its part. A row has to wait, and there has to be room for one more.
pub fn take_first(
    queue: &mut BinaryHeap<Waiting>,
    again: Option<Waiting>,
    opened: Option<Waiting>,
) -> Part
    requires some { heap_items queue.old ≢ [] }
    requires room { heap_len queue.old < heap_capacity queue.old }
    ensures { Requeued (heap_items queue.old) again opened result (heap_items queue.new) }
{
    let first = queue.pop().unwrap();
    let _ = put_in(queue, again);
    let _ = put_in(queue, opened);
    first.part.into_part()
}

/// A queue in which this one waits alone, if there is one.
pub fn alone(alloc: Global, waiting: Option<Waiting>) -> Result<BinaryHeap<Waiting>, NoMemory>
    ensures { IfOk result (λ queue. heap_items queue ≡ waiting_list waiting) }
{
    let mut queue = BinaryHeap::new(alloc);
    put_in(&mut queue, waiting)?;
    Ok(queue)
}
