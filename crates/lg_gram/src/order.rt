//! Orders of lists, over any order of their elements.
ghost use Rattle.std.specs.Prelude.{◌≡◌, ◌↔◌, IsTrue};
ghost use Rattle.std.specs.List.Sorted.{IsStrictlySortedBy};
ghost use Rattle.std.specs.declared.cmp.Ordering.{Ordering};
ghost use Rattle.std.specs.Cmp.{IsTotalOrder};
ghost use Rattle.std.specs.Cmp.Lexicographic.{slice_cmp};

use std::cmp::Ordering;

/// Values that have an order of their own, beside the one that `==` and `<` may give them.
pub trait Ranked {
    ghost rank: { Self → Self → Ordering };

    /// The order of two values.
    fn rank(&self, other: &Self) -> Ordering
        ensures { result ≡ rank self.now other.now };

    ghost total: { IsTotalOrder rank };
}

/// The order of two lists by the first elements that differ; a front part comes first.
pub fn rank_lists<T: Ranked>(a: &[T], b: &[T]) -> Ordering
    ensures { result ≡ slice_cmp T.rank a.now b.now }
{
    for i in 0..a.len().min(b.len()) {
        let order = a[i].rank(&b[i]);
        if order != Ordering::Equal {
            return order;
        }
    }
    a.len().cmp(&b.len())
}

/// Whether each element comes before the next.
pub fn is_rising<T: Ranked>(items: &[T]) -> bool
    ensures { IsTrue result ↔ IsStrictlySortedBy T.rank items.now }
{
    for i in 1..items.len() {
        if items[i - 1].rank(&items[i]) != Ordering::Less {
            return false;
        }
    }
    true
}
