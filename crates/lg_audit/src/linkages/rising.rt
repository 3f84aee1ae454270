//! The order of the linkages of a page.

ghost use Rattle.std.specs.Prelude.{◌≡◌, ◌↔◌, ◌++◌, List, option_copied, None, Some, IsTrue};
ghost use Rattle.std.specs.List.{last_or};
ghost use Rattle.std.specs.List.Sorted.{IsStrictlySortedBy};
ghost use Rattle.lg_gram.specs.Linkages.{Linkage as Seen, linkage_cmp};
ghost use Rattle.lg_audit.specs.Pages.{LiesBehind};

use lg_gram::Linkage;
use lg_gram::law::linkages_are_ordered;
use std::cmp::Ordering;

/// Whether these linkages go on in their order behind those that end with the last one.
pub(crate) fn go_on(last: Option<&Linkage>, shown: &[Linkage]) -> bool
    ensures { (before : List Seen) → IsStrictlySortedBy linkage_cmp before → option_copied last.entry ≡ last_or None before
        → (IsTrue result ↔ IsStrictlySortedBy linkage_cmp (before ++ shown.now)) }
{
    linkages_are_ordered();
    if !is_rising(shown) {
        return false;
    }
    lies_behind(last, shown)
}

fn lies_behind(last: Option<&Linkage>, shown: &[Linkage]) -> bool
    ensures { IsTrue result ↔ LiesBehind last.entry shown.now }
{
    match last {
        Some(last) => begins_behind(last, shown),
        None => true,
    }
}

fn begins_behind(last: &Linkage, shown: &[Linkage]) -> bool
    ensures { IsTrue result ↔ LiesBehind (Some last.entry) shown.now }
{
    match shown.first() {
        Some(first) => last.compare(first) == Ordering::Less,
        None => true,
    }
}

fn is_rising(shown: &[Linkage]) -> bool
    ensures { IsTrue result ↔ IsStrictlySortedBy linkage_cmp shown.now }
{
    linkages_are_ordered();
    for i in 1..shown.len() {
        if shown[i - 1].compare(&shown[i]) != Ordering::Less {
            return false;
        }
    }
    true
}
