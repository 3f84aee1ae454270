//! That calls succeed: the pages of a sentence with three linkages.
ghost use Rattle.std.specs.Prelude.{◌≡◌, ◌+◌, ◌≤◌, ◌<◌, ◌^◌, [], ◌∷◌, length, IfOk};
ghost use Rattle.lg_gram.specs.Trees.{tree_of};
ghost use Rattle.lg_gram.specs.Formulas.{LevelFits};
ghost use Rattle.lg_dict.specs.Dictionary.{AreEntries};
ghost use Rattle.lg_forest.specs.Forests.{AreWorkers};
ghost use Rattle.lg_knowread.specs.declared.knowledge.Knowledge.{Knowledge as SeenKnowledge};
ghost use Rattle.lg_answer.specs.Candidates.{StandsFor};

use lg_answer::{Listing, Nulls, Options};
use lg_base::{Text, Texts};
use lg_dict::{Dict, View};
use lg_gram::{Connector, Entry, Expr, Exprs, Formula, Page, PageItem, Violation};
use lg_knowread::{Knowledge, Pattern, Patterns, Rule, Rules, Starts};
use std::alloc::Global;
use std::process::Abort;
use std::test::Fail;
use std::thread::Threads;

pub(crate) fn entry(alloc: Global, word: &[u8], expr: Expr) -> Result<Entry, Fail>
    ensures words { IfOk result (λ entry. entry.words ≡ word.now ∷ []) }
    ensures macros { IfOk result (λ entry. entry.macros ≡ []) }
    ensures level { IfOk result (λ entry. LevelFits entry.level (tree_of entry.formula)) }
{
    let formula = Formula::of(expr).ok_or("a formula")?;
    let mut words = Vec::new(alloc);
    words.push(Text::of(alloc, word)?)?;
    Ok(Entry {
        words: Texts::of(words),
        macros: Texts::of(Vec::new(alloc)),
        formula,
        level: 200,
        line: 1,
    })
}

// A connector of one of these letters.
pub(crate) fn any_of(alloc: Global, letters: &[u8], right: bool) -> Result<Expr, Fail> {
    let mut members = Vec::new(alloc);
    for letter in letters {
        let connector = Connector::of(&[*letter], b"", false, right).ok_or("a name")?;
        members.push(Expr::Conn(connector))?;
    }
    Ok(Expr::Or(Exprs::of(members)))
}

// A linkage of `x run` has a link A or C with the noun, or a link B with the verb.
fn entries(alloc: Global) -> Result<Vec<Entry>, Fail>
    ensures { IfOk result (λ entries. AreEntries entries.items) }
{
    let mut entries = Vec::new(alloc);
    entries.push(entry(alloc, b"x", any_of(alloc, b"ABC", true)?)?)?;
    entries.push(entry(alloc, b"run.v", any_of(alloc, b"B", false)?)?)?;
    entries.push(entry(alloc, b"run.n", any_of(alloc, b"AC", false)?)?)?;
    Ok(entries)
}

// No rule, or the one that each link A is part of a cycle.
pub(crate) fn knowledge(alloc: Global, strict: bool) -> Result<Knowledge, Fail>
    ensures { IfOk result (λ know. length know.rules ≤ 1) }
{
    let mut rules = Vec::new(alloc);
    if strict {
        let pattern = Pattern {
            caps: Text::of(alloc, b"A")?,
            subs: Text::of(alloc, b"")?,
        };
        rules.push(Rule::Cycle { pattern })?;
    }
    Ok(Knowledge {
        starts: Starts::of(Vec::new(alloc)),
        ignored: Patterns::of(Vec::new(alloc)),
        rules: Rules::of(rules),
    })
}

// The word that the second position of a candidate uses.
fn second_word(item: &PageItem) -> Option<&[u8]> {
    match item.linkage.chosen() {
        [_, Some(disjunct)] => Some(disjunct.word.bytes()),
        _ => None,
    }
}

// Wants a page of one candidate, with this number and this second word.
fn expect_one<R: Abort>(rt: &R, page: &Page, number: u32, word: &[u8])
    ensures { page.now.next ≡ number + 1 }
{
    let number = u64::from(number);
    assert!(rt; page.next == number + 1 && !page.end);
    match page.items.items() {
        [item] => {
            assert!(rt; item.number == number && item.broken.is_none());
            assert!(rt; second_word(item) == Some(word));
        }
        _ => assert!(rt; false),
    }
}

// Wants a page of two candidates, of which only the first breaks a rule.
fn expect_first_broken<R: Abort>(rt: &R, page: &Page, broken: Violation) {
    match page.items.items() {
        [first, second] => {
            assert!(rt; first.broken == Some(broken) && second.broken.is_none());
        }
        _ => assert!(rt; false),
    }
}

// Wants a page of this many candidates.
fn expect_count<R: Abort>(rt: &R, page: &Page, count: usize, next: u64, end: bool)
    ensures { page.now.next ≡ next }
{
    assert!(rt; page.items.items().len() == count && page.next == next && page.end == end);
}

// The listing of a sentence at its start.
fn started<R: Threads + Sync>(
    rt: &R,
    alloc: Global,
    entries: Vec<Entry>,
    text: &str,
    nulls: Nulls,
) -> Result<Listing, Fail>
    requires entries { AreEntries entries.items }
    requires short { length text.now < 2 ^ 32 }
    ensures first { IfOk result (λ listing. listing.course.position ≡ 0) }
    ensures stands { (know : SeenKnowledge) → IfOk result (λ listing. StandsFor know listing.course) }
{
    let options = Options {
        want: 10,
        examine: 1000,
        nulls,
        prune: true,
        count: true,
        workers: 2,
        idioms: false,
    };
    started_by(rt, alloc, entries, text, &options)
}

// The same by these options.
pub(crate) fn started_by<R: Threads + Sync>(
    rt: &R,
    alloc: Global,
    entries: Vec<Entry>,
    text: &str,
    options: &Options,
) -> Result<Listing, Fail>
    requires entries { AreEntries entries.items }
    requires short { length text.now < 2 ^ 32 }
    requires workers { AreWorkers options.now.workers }
    ensures first { IfOk result (λ listing. listing.course.position ≡ 0) }
    ensures stands { (know : SeenKnowledge) → IfOk result (λ listing. StandsFor know listing.course) }
{
    let dict = Dict::of(alloc, entries)?;
    Ok(Listing::start(rt, alloc, &View::of(alloc, &dict), text, options)?)
}

// The next page, of at most so many candidates that pass.
pub(crate) fn turned(
    alloc: Global,
    listing: Listing,
    know: &Knowledge,
    want: u64,
) -> Result<(Listing, Page), Fail>
    requires few { length know.now.rules ≤ 1 }
    requires stands { StandsFor know.now listing.course }
    requires room { listing.course.position < 2 ^ 32 }
    ensures stands { IfOk result (λ both. StandsFor know.now both.0.course) }
    ensures moved { IfOk result (λ both. both.0.course.position + 1 ≡ both.1.next) }
{
    Ok(listing.page(alloc, know, want, 10)?)
}

// Wants that the next page of one is so, and gives the listing after it.
fn expect_next<R: Abort>(
    rt: &R,
    alloc: Global,
    listing: Listing,
    know: &Knowledge,
    number: u32,
    word: &[u8],
) -> Result<Listing, Fail>
    requires few { length know.now.rules ≤ 1 }
    requires stands { StandsFor know.now listing.course }
    requires room { listing.course.position < 2 ^ 32 }
    ensures stands { IfOk result (λ listing. StandsFor know.now listing.course) }
    ensures position { IfOk result (λ listing. listing.course.position ≡ number) }
{
    let (listing, page) = turned(alloc, listing, know, 1)?;
    expect_one(rt, &page, number, word);
    Ok(listing)
}

#[test]
fn pages_of_one(rt: HostRuntime) -> Result<(), Fail> {
    let alloc = rt.alloc();
    let know = knowledge(alloc, false)?;
    let listing = started(&rt, alloc, entries(alloc)?, "x run", Nulls::First)?;
    let listing = expect_next(&rt, alloc, listing, &know, 1, b"run.n")?;
    let listing = expect_next(&rt, alloc, listing, &know, 2, b"run.v")?;
    expect_next(&rt, alloc, listing, &know, 3, b"run.n")?;
    Ok(())
}

#[test]
fn skips_one(rt: HostRuntime) -> Result<(), Fail> {
    let alloc = rt.alloc();
    let know = knowledge(alloc, false)?;
    let listing = started(&rt, alloc, entries(alloc)?, "x run", Nulls::First)?;
    assert!(rt; listing.tokens().items().len() == 2);
    assert!(rt; listing.stats().disjuncts == 6 && listing.stats().kept == 6);
    let listing = listing.skip(alloc, &know, 1)?;
    let (_, page) = listing.page(alloc, &know, 1, 10)?;
    expect_one(&rt, &page, 2, b"run.v");
    Ok(())
}

#[test]
fn skips_all(rt: HostRuntime) -> Result<(), Fail> {
    let alloc = rt.alloc();
    let know = knowledge(alloc, false)?;
    let listing = started(&rt, alloc, entries(alloc)?, "x run", Nulls::First)?;
    let listing = listing.skip(alloc, &know, 1000)?;
    let (_, last) = listing.page(alloc, &know, 10, 1000)?;
    expect_count(&rt, &last, 0, 4, true);
    Ok(())
}

#[test]
fn first_is_broken(rt: HostRuntime) -> Result<(), Fail> {
    let alloc = rt.alloc();
    let know = knowledge(alloc, true)?;
    let listing = started(&rt, alloc, entries(alloc)?, "x run", Nulls::First)?;
    let (listing, page) = turned(alloc, listing, &know, 1)?;
    expect_count(&rt, &page, 2, 3, false);
    let broken = Violation {
        rule: 1,
        left: 0,
        right: 1,
    };
    expect_first_broken(&rt, &page, broken);
    let (_, last) = turned(alloc, listing, &know, 10)?;
    expect_count(&rt, &last, 1, 4, true);
    Ok(())
}

// A linkage of `x run` has a link A, or no word of it is linked.
fn broken_entries(alloc: Global) -> Result<Vec<Entry>, Fail>
    ensures { IfOk result (λ entries. AreEntries entries.items) }
{
    let mut entries = Vec::new(alloc);
    entries.push(entry(alloc, b"x", any_of(alloc, b"A", true)?)?)?;
    entries.push(entry(alloc, b"run", any_of(alloc, b"A", false)?)?)?;
    Ok(entries)
}

// The link alone breaks the strict rule: this many candidates are listed.
fn expect_listed<R: Abort + Threads + Sync>(
    rt: &R,
    alloc: Global,
    nulls: Nulls,
    count: u32,
) -> Result<(), Fail> {
    let know = knowledge(alloc, true)?;
    let listing = started(rt, alloc, broken_entries(alloc)?, "x run", nulls)?;
    let (_, page) = turned(alloc, listing, &know, 10)?;
    expect_count(rt, &page, count as usize, u64::from(count) + 1, true);
    Ok(())
}

#[test]
fn all_decide(rt: HostRuntime) -> Result<(), Fail> {
    expect_listed(&rt, rt.alloc(), Nulls::First, 1)
}

#[test]
fn those_that_pass_decide(rt: HostRuntime) -> Result<(), Fail> {
    expect_listed(&rt, rt.alloc(), Nulls::Passing, 2)
}
