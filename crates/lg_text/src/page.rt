//! The text of a page, and the lines that name a bound.
ghost use Rattle.std.specs.Prelude.{◌≡◌, ◌∷◌, ◌++◌, OnOk, IfOk, codes, map};
ghost use Rattle.std.specs.List.{All};
ghost use Rattle.lg_text.specs.Pages.{item_text, page_line, page_text, listing_text, shown_stats, shown_diagram, fail_line, shown};
ghost use Rattle.lg_text.specs.Texts.{IsPrintable, linkage_text, bound_pieces, bound_line};
ghost use Rattle.lg_text.specs.Pieces.{piece_text};

use crate::drawing::write_diagram;
use crate::linkage::write_linkage;
use crate::look::Look;
use crate::piece::{Piece, write_line};
use lg_base::NoMemory;
use lg_gram::{Bound, Page, PageItem, Stats, Tokens, Violation};
use std::alloc::Global;

/// The text of a page: each candidate that was looked at, in order, and a last line. There is one space between the parts
/// of a line, and a line feed at its end.
///
/// - A candidate that breaks no rule of post-processing has its linkage text (`linkage_text`) and, where the look has diagrams, its
///   diagram (`diagram`), each line of it after `>`. Another one has the line `fail N rule R link A B`: its number, the first rule
///   that it breaks, and the positions of the least link at which it does.
/// - The last line is `page shown S examined E next N end`, or `more` in place of `end` where the listing goes on: how
///   many candidates break no rule, how many were looked at, and the number of the next one.
///
/// The only error is running out of memory.
pub fn page_text(
    alloc: Global,
    tokens: &Tokens,
    page: &Page,
    look: Look,
) -> Result<Vec<u8>, NoMemory>
    requires { All (λ item. IsPrintable tokens.now item.linkage) page.now.items }
    ensures { IfOk result (λ bytes. bytes.items ≡ page_text look tokens.now page.now) }
{
    let mut out = Vec::new(alloc);
    write_page(alloc, &mut out, tokens, page, look)?;
    Ok(out)
}

/// The text of a page of a listing: where the look has the numbers of disjuncts and they are there, the line `stats disjuncts D kept K`,
/// and then the page's text (`page_text`). The only error is running out of memory.
pub fn listing_text(
    alloc: Global,
    tokens: &Tokens,
    page: &Page,
    stats: Option<Stats>,
    look: Look,
) -> Result<Vec<u8>, NoMemory>
    requires { All (λ item. IsPrintable tokens.now item.linkage) page.now.items }
    ensures { IfOk result (λ bytes. bytes.items ≡ listing_text look tokens.now page.now stats) }
{
    let mut out = Vec::new(alloc);
    write_listing(alloc, &mut out, tokens, page, stats, look)?;
    Ok(out)
}

// Appends the text of a page of a listing.
pub(crate) fn write_listing(
    alloc: Global,
    out: &mut Vec<u8>,
    tokens: &Tokens,
    page: &Page,
    stats: Option<Stats>,
    look: Look,
) -> Result<(), NoMemory>
    requires { All (λ item. IsPrintable tokens.now item.linkage) page.now.items }
    ensures { OnOk result (out.new.items ≡ out.old.items ++ listing_text look tokens.now page.now stats) }
{
    write_stats(out, stats, look)?;
    write_page(alloc, out, tokens, page, look)
}

// Appends the line of the numbers of disjuncts, where it is asked for and they are there.
fn write_stats(out: &mut Vec<u8>, stats: Option<Stats>, look: Look) -> Result<(), NoMemory>
    ensures { OnOk result (out.new.items ≡ out.old.items ++ shown_stats look.stats stats) }
{
    match stats {
        Some(stats) if look.stats => {
            let pieces = [
                Piece::Word(b"disjuncts"),
                Piece::Number(stats.disjuncts),
                Piece::Word(b"kept"),
                Piece::Number(stats.kept),
            ];
            write_line(out, b"stats", &pieces)
        }
        _ => Ok(()),
    }
}

// Appends the text of a page.
fn write_page(
    alloc: Global,
    out: &mut Vec<u8>,
    tokens: &Tokens,
    page: &Page,
    look: Look,
) -> Result<(), NoMemory>
    requires { All (λ item. IsPrintable tokens.now item.linkage) page.now.items }
    ensures { OnOk result (out.new.items ≡ out.old.items ++ page_text look tokens.now page.now) }
{
    for item in page.items.items() {
        write_item(alloc, out, tokens, item, look)?;
    }
    write_page_line(out, page)
}

fn write_item(
    alloc: Global,
    out: &mut Vec<u8>,
    tokens: &Tokens,
    item: &PageItem,
    look: Look,
) -> Result<(), NoMemory>
    requires { IsPrintable tokens.now item.now.linkage }
    ensures { OnOk result (out.new.items ≡ out.old.items ++ item_text look tokens.now item.now) }
{
    match &item.broken {
        None => write_passing(alloc, out, tokens, item, look),
        Some(violation) => write_fail(out, item.number, violation),
    }
}

// Appends the text of a linkage that passes, and its diagram where it is asked for.
fn write_passing(
    alloc: Global,
    out: &mut Vec<u8>,
    tokens: &Tokens,
    item: &PageItem,
    look: Look,
) -> Result<(), NoMemory>
    requires { IsPrintable tokens.now item.now.linkage }
    ensures { OnOk result (out.new.items ≡ out.old.items ++ (linkage_text tokens.now item.now.number item.now.linkage ++ shown_diagram look.diagram tokens.now item.now.linkage)) }
{
    write_linkage(out, tokens, item.number, &item.linkage)?;
    if look.diagram {
        write_diagram(alloc, out, b">", tokens, &item.linkage)?;
    }
    Ok(())
}

fn write_fail(out: &mut Vec<u8>, number: u64, violation: &Violation) -> Result<(), NoMemory>
    ensures { OnOk result (out.new.items ≡ out.old.items ++ fail_line number violation.now) }
{
    let pieces = [
        Piece::Number(number),
        Piece::Word(b"rule"),
        Piece::Number(u64::from(violation.rule)),
        Piece::Word(b"link"),
        Piece::Number(u64::from(violation.left)),
        Piece::Number(u64::from(violation.right)),
    ];
    write_line(out, b"fail", &pieces)
}

fn write_page_line(out: &mut Vec<u8>, page: &Page) -> Result<(), NoMemory>
    ensures { OnOk result (out.new.items ≡ out.old.items ++ page_line page.now) }
{
    let examined = page.items.items();
    let pieces = [
        Piece::Word(b"shown"),
        Piece::Number(count_shown(examined)),
        Piece::Word(b"examined"),
        Piece::Number(examined.len() as u64),
        Piece::Word(b"next"),
        Piece::Number(page.next),
        Piece::Word(if page.end { b"end" } else { b"more" }),
    ];
    write_line(out, b"page", &pieces)
}

// How many candidates pass.
fn count_shown(items: &[PageItem]) -> u64
    ensures { result ≡ shown items.now }
{
    items.iter().filter(|item| item.broken.is_none()).count() as u64
}

/// The line that names a bound, and how much there is of what it bounds: `too many words N` or `too many choices N`, with
/// a line feed at its end. The only error is running out of memory.
pub fn bound_text(alloc: Global, bound: Bound) -> Result<Vec<u8>, NoMemory>
    ensures { IfOk result (λ bytes. bytes.items ≡ bound_line bound) }
{
    let mut out = Vec::new(alloc);
    write_line(&mut out, b"too", &many(bound))?;
    Ok(out)
}

// What a bound's line says behind `too`.
pub(crate) fn many(bound: Bound) -> [Piece<'static>; 3]
    ensures { codes "too" ∷ map piece_text result ≡ bound_pieces bound }
{
    match bound {
        Bound::TooManyWords(count) => [
            Piece::Word(b"many"),
            Piece::Word(b"words"),
            Piece::Number(count),
        ],
        Bound::TooWide(count) => [
            Piece::Word(b"many"),
            Piece::Word(b"choices"),
            Piece::Number(count),
        ],
    }
}
