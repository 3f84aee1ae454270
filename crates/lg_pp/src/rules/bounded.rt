//! Rules that bound domains.
ghost use Rattle.std.specs.Prelude.{◌≡◌, ◌↔◌, ◌≤◌, false, length, slice_index_or, IsTrue, IfOk};
ghost use Rattle.std.specs.List.{All};
ghost use Rattle.lg_pp.specs.Judging.{AreBoundsKept, AreFacts, FailsBound, HasBound, HasEndBefore, IsFirst, Overruns};

use crate::flags::Flags;
use crate::label::OfKind;
use crate::rules::facts::Facts;
use lg_base::NoMemory;
use lg_gram::{Link, Linkage};
use lg_knowread::Knowledge;
use std::alloc::Global;

/// The number of the first link that starts a domain of this kind with an end to the left of its root. Notes the kind
/// where there is none, and looks at no links where it is noted.
pub(super) fn first_of_kind(
    alloc: Global,
    know: &Knowledge,
    g: &Linkage,
    facts: &Facts,
    kind: u8,
    kept: &mut [bool; 256],
) -> Result<Option<usize>, NoMemory>
    requires facts { AreFacts know.now g.now facts.now }
    requires known { HasBound know.now kind }
    requires kept { AreBoundsKept know.now g.now kept.old }
    ensures first { IfOk result (IsFirst (FailsBound know.now g.now kind) (length g.now.links)) }
    ensures kept { AreBoundsKept know.now g.now kept.new }
{
    if kept[kind as usize] {
        return Ok(None);
    }
    let test = OfKind {
        starts: &know.starts,
        kind,
    };
    let starts = facts.labels.picked(alloc, &test)?;
    let first = first_overrun(starts.items(), g.links(), &facts.rows);
    kept[kind as usize] = first.is_none();
    Ok(first)
}

// The number of the first start whose domain has an end to the left of its root.
fn first_overrun(starts: &[bool], links: &[Link], rows: &[Flags]) -> Option<usize>
    requires links { length starts.now ≤ length links.now }
    requires rows { length starts.now ≤ length rows.now }
    requires flags { All (λ row. length row ≤ length links.now) rows.now }
    ensures { IsFirst (λ n. IsTrue (slice_index_or starts.now n false) × Overruns links.now rows.now n) (length starts.now) result }
{
    for n in 0..starts.len() {
        if starts[n] && overruns(links, rows[n].items(), links[n].left) {
            return Some(n);
        }
    }
    None
}

// Whether one of the links whose flag is set has an end to the left of the root.
fn overruns(links: &[Link], row: &[bool], root: u32) -> bool
    requires { length row.now ≤ length links.now }
    ensures { IsTrue result ↔ HasEndBefore links.now row.now root }
{
    for m in 0..row.len() {
        if row[m] && links[m].left.min(links[m].right) < root {
            return true;
        }
    }
    false
}
