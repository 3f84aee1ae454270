//! Pages, read back.

ghost use Rattle.std.specs.Prelude.{IfOk, MatchOption};
ghost use Rattle.lg_audit.specs.Lines.{IsItemInForm};
ghost use Rattle.lg_audit.specs.Documents.{item_lines, page_lines, IsPageInForm};
ghost use Rattle.lg_audit.specs.Fronts.{HasNone, IsRead, EndsLinkage, Anything};
ghost use Rattle.lg_audit.specs.Views.{item_of};

use crate::lines::first_line;
use crate::reading::{failure, heading, page_end};
use crate::runs::{links, unread, words};
use crate::shown::{ShownItem, ShownLinkage, ShownPage};
use lg_base::NoMemory;
use std::alloc::Global;

/// The candidate at the front of a text, and what stands behind its lines.
fn read_item<'a>(
    alloc: Global,
    text: &'a [u8],
) -> Result<Option<(ShownItem<'a>, &'a [u8])>, NoMemory>
    ensures { IfOk result (λ r. MatchOption r
        (HasNone IsItemInForm item_lines text.now)
        (λ f. IsRead IsItemInForm item_lines EndsLinkage text.now (item_of f.0) f.1.now)) }
{
    let Some((line, rest)) = first_line(text) else {
        return Ok(None);
    };
    if let Some((number, violation)) = failure(line) {
        return Ok(Some((ShownItem::Fails { number, violation }, rest)));
    }
    let Some((number, sums)) = heading(line) else {
        return Ok(None);
    };
    let (words, after_words) = words(alloc, rest)?;
    let (links, after_links) = links(alloc, after_words)?;
    let (unread, left) = unread(alloc, after_links, b">")?;
    let linkage = ShownLinkage { sums, words, links };
    let item = ShownItem::Passes {
        number,
        linkage,
        unread,
    };
    Ok(Some((item, left)))
}

/// The page at the front of a text, and what stands behind its lines.
pub(crate) fn read_page<'a>(
    alloc: Global,
    text: &'a [u8],
) -> Result<Option<(ShownPage<'a>, &'a [u8])>, NoMemory>
    ensures { IfOk result (λ r. MatchOption r
        (HasNone IsPageInForm page_lines text.now)
        (λ f. IsRead IsPageInForm page_lines Anything text.now f.0 f.1.now)) }
{
    let mut items = Vec::new(alloc);
    let mut left = text;
    while let Some((item, rest)) = read_item(alloc, left)? {
        items.push(item)?;
        left = rest;
    }
    let Some((line, rest)) = first_line(left) else {
        return Ok(None);
    };
    let Some(last) = page_end(line) else {
        return Ok(None);
    };
    Ok(Some((ShownPage { items, last }, rest)))
}
