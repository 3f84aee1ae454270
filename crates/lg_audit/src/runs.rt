//! Runs of lines of one form.

ghost use Rattle.std.specs.Prelude.{◌≡◌, ℕ, List, ◌++◌, map, IfOk};
ghost use Rattle.std.specs.List.{AllByRecursion, flat_map};
ghost use Rattle.lg_text.specs.Shown.{closed};
ghost use Rattle.lg_audit.specs.Lines.{ShownLink as SeenLink, ShownWord as SeenWord, link_line, word_line, IsLinkInForm, IsWordInForm, IsUnread};
ghost use Rattle.lg_audit.specs.Views.{texts};

use crate::lines::first_line;
use crate::reading::{link, word};
use crate::shown::{ShownLink, ShownWord};
use lg_base::NoMemory;
use std::alloc::Global;

/// The positions at the front of a text, as many as stand there, and what stands behind their lines.
pub(crate) fn words<'a>(
    alloc: Global,
    text: &'a [u8],
) -> Result<(Vec<ShownWord<'a>>, &'a [u8]), NoMemory>
    ensures { IfOk result (λ r. AllByRecursion IsWordInForm r.0.items
        × (text.now ≡ flat_map closed (map word_line r.0.items) ++ r.1.now)
        × ((w : SeenWord) (rest : List ℕ) → IsWordInForm w → r.1.now ≡ closed (word_line w) ++ rest → ⊥)) }
{
    let mut words = Vec::new(alloc);
    let mut left = text;
    while let Some((line, rest)) = first_line(left) {
        let Some(position) = word(line) else {
            return Ok((words, left));
        };
        words.push(position)?;
        left = rest;
    }
    Ok((words, left))
}

/// The links at the front of a text, as many as stand there, and what stands behind their lines.
pub(crate) fn links<'a>(
    alloc: Global,
    text: &'a [u8],
) -> Result<(Vec<ShownLink<'a>>, &'a [u8]), NoMemory>
    ensures { IfOk result (λ r. AllByRecursion IsLinkInForm r.0.items
        × (text.now ≡ flat_map closed (map link_line r.0.items) ++ r.1.now)
        × ((l : SeenLink) (rest : List ℕ) → IsLinkInForm l → r.1.now ≡ closed (link_line l) ++ rest → ⊥)) }
{
    let mut links = Vec::new(alloc);
    let mut left = text;
    while let Some((line, rest)) = first_line(left) {
        let Some(one) = link(line) else {
            return Ok((links, left));
        };
        links.push(one)?;
        left = rest;
    }
    Ok((links, left))
}

/// The lines at the front of a text that begin so, as many as stand there, and what stands behind them. What else they say is not read.
pub(crate) fn unread<'a>(
    alloc: Global,
    text: &'a [u8],
    beginning: &[u8],
) -> Result<(Vec<&'a [u8]>, &'a [u8]), NoMemory>
    ensures { IfOk result (λ r. AllByRecursion (IsUnread beginning.now) (texts r.0.items)
        × (text.now ≡ flat_map closed (texts r.0.items) ++ r.1.now)
        × ((l rest : List ℕ) → IsUnread beginning.now l → r.1.now ≡ closed l ++ rest → ⊥)) }
{
    let mut lines = Vec::new(alloc);
    let mut left = text;
    while let Some((line, rest)) = first_line(left) {
        if !line.starts_with(beginning) {
            return Ok((lines, left));
        }
        lines.push(line)?;
        left = rest;
    }
    Ok((lines, left))
}
