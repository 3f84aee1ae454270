//! The numbers and names of a page.

ghost use Rattle.std.specs.Prelude.{◌≡◌, ◌↔◌, ◌+◌, length, map, IsTrue};
ghost use Rattle.std.specs.List.{All, range_with_len};
ghost use Rattle.lg_audit.specs.Lines.{fails};
ghost use Rattle.lg_audit.specs.Pages.{BeginsWith, IsFramed};
ghost use Rattle.lg_audit.specs.Replies.{number_of, IsNamed};
ghost use Rattle.lg_audit.specs.Views.{item_of};

use crate::shown::{ShownEnd, ShownItem};
use lg_gram::{Token, Violation};
use lg_knowread::Knowledge;

/// Whether the candidates count from this one on, as many as the last line says, it says what comes next, and each rule and position that
/// is named is there.
pub(crate) fn is_framed(
    know: &Knowledge,
    tokens: &[Token],
    from: u64,
    items: &[ShownItem<'_>],
    last: ShownEnd,
) -> bool
    ensures { IsTrue result ↔ IsFramed know.now tokens.now from (map item_of items.now) last }
{
    let count = items.len() as u64;
    last.examined == count
        && begins(from, count, last)
        && are_numbered(from, items)
        && are_named(know, tokens, items)
}

fn begins(from: u64, count: u64, last: ShownEnd) -> bool
    ensures { IsTrue result ↔ BeginsWith from count last }
{
    if count == 0 {
        last.next >= 2 && last.next <= from && last.end
    } else {
        last.next >= from && last.next - from == count
    }
}

fn are_numbered(from: u64, items: &[ShownItem<'_>]) -> bool
    ensures { IsTrue result ↔ (map number_of (map item_of items.now) ≡ range_with_len from (length items.now)) }
{
    for i in 0..items.len() {
        if !has_number(&items[i], from, i as u64) {
            return false;
        }
    }
    true
}

// Whether the candidate is that many behind the first.
fn has_number(item: &ShownItem<'_>, from: u64, behind: u64) -> bool
    ensures { IsTrue result ↔ (number_of (item_of item.now) ≡ from + behind) }
{
    let number = number_of(item);
    number >= from && number - from == behind
}

fn number_of(item: &ShownItem<'_>) -> u64
    ensures { result ≡ number_of (item_of item.now) }
{
    match item {
        ShownItem::Passes { number, .. } => *number,
        ShownItem::Fails { number, .. } => *number,
    }
}

fn are_named(know: &Knowledge, tokens: &[Token], items: &[ShownItem<'_>]) -> bool
    ensures { IsTrue result ↔ All (IsNamed know.now tokens.now) (map item_of items.now) }
{
    for item in items {
        if !is_named(know, tokens, item) {
            return false;
        }
    }
    true
}

fn is_named(know: &Knowledge, tokens: &[Token], item: &ShownItem<'_>) -> bool
    ensures { IsTrue result ↔ IsNamed know.now tokens.now (item_of item.now) }
{
    match item {
        ShownItem::Passes { .. } => true,
        ShownItem::Fails { violation, .. } => names_rule(know, tokens, *violation),
    }
}

fn names_rule(know: &Knowledge, tokens: &[Token], violation: Violation) -> bool
    ensures { IsTrue result ↔ IsNamed know.now tokens.now (fails 0 violation) }
{
    violation.rule >= 1
        && violation.rule as usize <= know.rules.items().len()
        && violation.left < violation.right
        && (violation.right as usize) < tokens.len()
}
