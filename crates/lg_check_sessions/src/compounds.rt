//! Listings of sentences with idioms, by hand.
ghost use Rattle.std.specs.Prelude.{◌≡◌, ◌<◌, ◌^◌, length, IfOk};
ghost use Rattle.lg_dict.specs.Dictionary.{AreEntries};
ghost use Rattle.lg_knowread.specs.declared.knowledge.Knowledge.{Knowledge as SeenKnowledge};
ghost use Rattle.lg_answer.specs.Candidates.{StandsFor};

use crate::answer::{any_of, entry, knowledge, started_by, turned};
use lg_answer::{Listing, Nulls, Options};
use lg_gram::{Entry, Page, PageItem};
use std::alloc::Global;
use std::process::Abort;
use std::test::Fail;
use std::thread::Threads;

// `New_York: S+; ran: S-;`
fn york(alloc: Global) -> Result<Vec<Entry>, Fail>
    ensures { IfOk result (λ entries. AreEntries entries.items) }
{
    let mut entries = Vec::new(alloc);
    entries.push(entry(alloc, b"New_York", any_of(alloc, b"S", true)?)?)?;
    entries.push(entry(alloc, b"ran", any_of(alloc, b"S", false)?)?)?;
    Ok(entries)
}

// `New_York: T+; New_York_City: S+; ran: S-;`
fn city(alloc: Global) -> Result<Vec<Entry>, Fail>
    ensures { IfOk result (λ entries. AreEntries entries.items) }
{
    let mut entries = Vec::new(alloc);
    entries.push(entry(alloc, b"New_York", any_of(alloc, b"T", true)?)?)?;
    entries.push(entry(alloc, b"New_York_City", any_of(alloc, b"S", true)?)?)?;
    entries.push(entry(alloc, b"ran", any_of(alloc, b"S", false)?)?)?;
    Ok(entries)
}

// `tip_tip: S+; ran: S-;`
fn tip(alloc: Global) -> Result<Vec<Entry>, Fail>
    ensures { IfOk result (λ entries. AreEntries entries.items) }
{
    let mut entries = Vec::new(alloc);
    entries.push(entry(alloc, b"tip_tip", any_of(alloc, b"S", true)?)?)?;
    entries.push(entry(alloc, b"ran", any_of(alloc, b"S", false)?)?)?;
    Ok(entries)
}

// The listing at its start, with idioms or without; disjuncts are counted or pruned by their formulas.
fn started<R: Threads + Sync>(
    rt: &R,
    alloc: Global,
    entries: Vec<Entry>,
    text: &str,
    idioms: bool,
    count: bool,
) -> Result<Listing, Fail>
    requires entries { AreEntries entries.items }
    requires short { length text.now < 2 ^ 32 }
    ensures first { IfOk result (λ listing. listing.course.position ≡ 0) }
    ensures stands { (know : SeenKnowledge) → IfOk result (λ listing. StandsFor know listing.course) }
{
    let options = Options {
        want: 10,
        examine: 1000,
        nulls: Nulls::First,
        prune: true,
        count,
        workers: 1,
        idioms,
    };
    started_by(rt, alloc, entries, text, &options)
}

fn unlinked(item: &PageItem) -> usize {
    let chosen = item.linkage.chosen();
    chosen.iter().filter(|choice| choice.is_none()).count()
}

// Wants a page of all candidates, this many, each with so many unlinked words.
fn expect_page<R: Abort>(rt: &R, page: &Page, count: usize, nulls: usize) {
    let items = page.items.items();
    assert!(rt; page.end && items.len() == count);
    assert!(rt; items.iter().all(|item| unlinked(item) == nulls));
}

// Wants that the sentence has this many candidates, with so many unlinked words and, where they are counted, so many disjuncts.
fn expect<R: Abort + Threads + Sync>(
    rt: &R,
    alloc: Global,
    listing: Listing,
    count: usize,
    nulls: usize,
    disjuncts: u64,
) -> Result<(), Fail>
    requires first { listing.course.position ≡ 0 }
    requires stands { (know : SeenKnowledge) → StandsFor know listing.course }
{
    assert!(rt; listing.stats().disjuncts == disjuncts);
    let know = knowledge(alloc, false)?;
    let (_, page) = turned(alloc, listing, &know, 10)?;
    expect_page(rt, &page, count, nulls);
    Ok(())
}

#[test]
fn an_idiom_is_linked(rt: HostRuntime) -> Result<(), Fail> {
    let alloc = rt.alloc();
    let listing = started(&rt, alloc, york(alloc)?, "New York ran", true, false)?;
    expect(&rt, alloc, listing, 1, 0, 0)
}

#[test]
fn without_idioms_it_is_not(rt: HostRuntime) -> Result<(), Fail> {
    let alloc = rt.alloc();
    let listing = started(&rt, alloc, york(alloc)?, "New York ran", false, true)?;
    expect(&rt, alloc, listing, 1, 3, 1)
}

#[test]
fn a_word_inside_parts_it(rt: HostRuntime) -> Result<(), Fail> {
    let alloc = rt.alloc();
    let listing = started(&rt, alloc, york(alloc)?, "New big York ran", true, true)?;
    expect(&rt, alloc, listing, 1, 4, 1)
}

#[test]
fn an_idiom_in_an_idiom(rt: HostRuntime) -> Result<(), Fail> {
    let alloc = rt.alloc();
    let listing = started(&rt, alloc, city(alloc)?, "New York City ran", true, true)?;
    expect(&rt, alloc, listing, 1, 0, 6)
}

// The position in the middle has two formulas of one word, whose disjuncts come out of order.
#[test]
fn an_idiom_twice(rt: HostRuntime) -> Result<(), Fail> {
    let alloc = rt.alloc();
    let listing = started(&rt, alloc, tip(alloc)?, "tip tip tip ran", true, true)?;
    expect(&rt, alloc, listing, 2, 1, 5)
}
