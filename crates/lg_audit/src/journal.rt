//! The journal, read back.

ghost use Rattle.std.specs.Prelude.{IfOk, MatchOption};
ghost use Rattle.lg_text.specs.Shown.{IsPlace};
ghost use Rattle.lg_audit.specs.Fronts.{HasNone, IsRead, Anything};
ghost use Rattle.lg_audit.specs.Journals.{edit_lines, AreEdits, all_edit_lines, IsJournal, front_lines};

use crate::head::{edit, journal_count};
use crate::lines::first_line;
use lg_base::NoMemory;
use lg_gram::Place;
use std::alloc::Global;

/// The edits of the journal at the front of a text, and what stands behind their lines.
pub(crate) fn read_journal(
    alloc: Global,
    text: &[u8],
) -> Result<Option<(Vec<Place>, &[u8])>, NoMemory>
    ensures { IfOk result (λ r. MatchOption r
        (HasNone IsJournal front_lines text.now)
        (λ f. IsRead IsJournal front_lines Anything text.now f.0.items f.1.now)) }
{
    let Some((line, rest)) = first_line(text) else {
        return Ok(None);
    };
    let Some(count) = journal_count(line) else {
        return Ok(None);
    };
    read_edits(alloc, count, rest)
}

// So many edits at the front of a text, and what stands behind their lines.
fn read_edits(
    alloc: Global,
    count: u64,
    text: &[u8],
) -> Result<Option<(Vec<Place>, &[u8])>, NoMemory>
    ensures { IfOk result (λ r. MatchOption r
        (HasNone (AreEdits count) all_edit_lines text.now)
        (λ f. IsRead (AreEdits count) all_edit_lines Anything text.now f.0.items f.1.now)) }
{
    let mut journal = Vec::new(alloc);
    let mut left = text;
    for index in 0..count {
        let Some((place, rest)) = read_edit(index + 1, left) else {
            return Ok(None);
        };
        journal.push(place)?;
        left = rest;
    }
    Ok(Some((journal, left)))
}

// The edit of that number at the front of a text, and what stands behind its line.
fn read_edit(number: u64, text: &[u8]) -> Option<(Place, &[u8])>
    ensures { MatchOption result
        (HasNone IsPlace (edit_lines number) text.now)
        (λ f. IsRead IsPlace (edit_lines number) Anything text.now f.0 f.1.now) }
{
    let Some((line, rest)) = first_line(text) else {
        return None;
    };
    let Some((found, place)) = edit(line) else {
        return None;
    };
    if found != number {
        return None;
    }
    Some((place, rest))
}
