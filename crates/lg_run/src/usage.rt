//! How often dictionary words and labels are used by the first linkages of answers.
ghost use Rattle.std.specs.Prelude.{◌≡◌, ◌+◌, ◌<◌, ◌≤◌, ◌^◌, ◌++◌, ◌∷◌, [], true, ℕ, List, length, IfOk, OnOk, MatchOption};
ghost use Rattle.lg_gram.specs.Linkages.{Linkage as SeenLinkage, IsLinkage};
ghost use Rattle.lg_text.specs.Replies.{IsPrintableReply};
ghost use Rattle.lg_usage.specs.Totals.{AreTotals};
ghost use Rattle.lg_run.specs.Counted.{IsShare};
ghost use Rattle.lg_run.specs.Documents.{first_linkage, first_passing, AreUsageLines};
ghost use Rattle.lg_run.specs.Printers.{HaveShares, together};

use crate::made::items_in;
use crate::printer::PrintedSession;
use lg_base::NoMemory;
use lg_gram::{CommandKind, Linkage, PageItem, Reply};
use lg_usage::{Usage, shares_agree, totals_are_few};
use std::alloc::Global;

/// The lines that say how often each dictionary word and each label is used by the first linkages of all answers, if they are
/// asked for; else no line.
pub(crate) fn usage_lines(
    alloc: Global,
    asked: bool,
    all: &[PrintedSession],
) -> Result<Vec<u8>, NoMemory>
    requires few { length all.now ≤ 64 }
    requires shares { asked ≡ true → (firsts : List (List SeenLinkage)) × HaveShares firsts all.now }
    ensures { (firsts : List (List SeenLinkage)) → (asked ≡ true → HaveShares firsts all.now) → IfOk result (λ lines. AreUsageLines asked (together firsts) lines.items) }
{
    if !asked {
        return Ok(Vec::new(alloc));
    }
    let totals = totals_of(alloc, all)?;
    totals.text(alloc)
}

// The totals of all sessions: each session has a share of its own, and the shares are merged.
fn totals_of(alloc: Global, all: &[PrintedSession]) -> Result<Usage, NoMemory>
    requires few { length all.now ≤ 64 }
    requires shares { (firsts : List (List SeenLinkage)) × HaveShares firsts all.now }
    ensures { (firsts : List (List SeenLinkage)) → HaveShares firsts all.now → IfOk result (AreTotals (together firsts)) }
{
    shares_agree();
    let mut totals = Usage::new(alloc);
    for printed in all {
        totals.merge(&printed.share)?;
    }
    Ok(totals)
}

/// Adds the first linkage of an answer, if it has one that counts.
pub(crate) fn add_first(share: &mut Usage, kind: CommandKind, reply: &Reply) -> Result<(), NoMemory>
    requires printable { IsPrintableReply reply.now }
    requires room { (n : ℕ) × (gs : List SeenLinkage) × (n < 2 ^ 32) × IsShare n gs share.old }
    ensures { OnOk result ((n : ℕ) (gs : List SeenLinkage) → IsShare n gs share.old → IsShare (n + 1) (gs ++ first_linkage kind reply.now) share.new) }
{
    shares_agree();
    totals_are_few();
    match first_linkage(kind, reply) {
        None => Ok(()),
        Some(linkage) => share.add(linkage),
    }
}

// The linkage of an answer that counts: of a `parse` or `list`, the first that passes.
fn first_linkage(kind: CommandKind, reply: &Reply) -> Option<&Linkage>
    ensures { MatchOption result (first_linkage kind reply.now ≡ []) (λ g. (first_linkage kind reply.now ≡ g.now ∷ []) × IsLinkage g.now) }
{
    match kind {
        CommandKind::Parse | CommandKind::List => first_passing(items_in(reply)),
        _ => None,
    }
}

// The linkage of the first candidate that passes.
fn first_passing(items: &[PageItem]) -> Option<&Linkage>
    ensures { MatchOption result (first_passing items.now ≡ []) (λ g. (first_passing items.now ≡ g.now ∷ []) × IsLinkage g.now) }
{
    for item in items {
        if item.broken.is_none() {
            let _ = item.linkage.links();
            return Some(&item.linkage);
        }
    }
    None
}
