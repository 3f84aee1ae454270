//! Outside values of subscripts, and that calls succeed: a dictionary of two entries and what it finds.
//!
//! To let go of a view and its dictionary takes long to prove at each exit, so the tests hand them to functions.
ghost use Rattle.std.specs.Prelude.{◌≡◌, ◌≤◌, map, IfOk};
ghost use Rattle.lg_gram.specs.Trees.{tree_of};
ghost use Rattle.lg_gram.specs.Formulas.{LevelFits};
ghost use Rattle.lg_dict.specs.Dictionary.{AreEntries};

use lg_base::{Text, Texts};
use lg_dict::{Dict, View, stem, words_have_one_stem};
use lg_gram::{Connector, Entry, Expr, Formula};
use std::alloc::Global;
use std::process::Abort;
use std::test::Fail;

fn expect_stem<R: Abort>(rt: &R, word: &[u8], want: &[u8]) {
    assert!(rt; stem(word) == want, "{}", word.len());
}

#[test]
fn subscripts(rt: HostRuntime) {
    expect_stem(&rt, b"run.v", b"run");
    expect_stem(&rt, b"a.b.c", b"a.b");
    expect_stem(&rt, b"x.a1-_z", b"x");
    expect_stem(&rt, b".x", b".x");
    expect_stem(&rt, b"x.", b"x.");
    expect_stem(&rt, b"x.1", b"x.1");
    expect_stem(&rt, b"x.V", b"x.V");
    expect_stem(&rt, b"x.aV", b"x.aV");
    expect_stem(&rt, b"3.5", b"3.5");
    expect_stem(&rt, b"", b"");
}

#[test]
fn laws_do_nothing() {
    words_have_one_stem();
}

fn texts(alloc: Global, list: &[&[u8]]) -> Result<Texts, Fail>
    ensures { IfOk result (λ texts. texts ≡ map (λ text. text.now) list.now) }
{
    let mut texts = Vec::new(alloc);
    for text in list {
        texts.push(Text::of(alloc, text)?)?;
    }
    Ok(Texts::of(texts))
}

// An entry whose formula is one connector.
fn entry(
    alloc: Global,
    caps: &[u8],
    words: &[&[u8]],
    macros: &[&[u8]],
    level: u32,
) -> Result<Entry, Fail>
    requires { level ≤ 200 }
    ensures words { IfOk result (λ entry. entry.words ≡ map (λ text. text.now) words.now) }
    ensures macros { IfOk result (λ entry. entry.macros ≡ map (λ text. text.now) macros.now) }
    ensures level { IfOk result (λ entry. LevelFits entry.level (tree_of entry.formula)) }
{
    let connector = Connector::of(caps, b"", false, true).ok_or("a name")?;
    let formula = Formula::of(Expr::Conn(connector)).ok_or("a formula")?;
    Ok(Entry {
        words: texts(alloc, words)?,
        macros: texts(alloc, macros)?,
        formula,
        level,
        line: 1,
    })
}

// Two entries of two words each, and a macro in the second.
fn sample(alloc: Global) -> Result<Vec<Entry>, Fail>
    ensures { IfOk result (λ entries. AreEntries entries.items) }
{
    let mut entries = Vec::new(alloc);
    entries.push(entry(alloc, b"A", &[b"run.v", b"walk"], &[], 0)?)?;
    entries.push(entry(alloc, b"B", &[b"run.n", b"run"], &[b"<m>"], 7)?)?;
    Ok(entries)
}

fn sample_dict(alloc: Global) -> Result<Dict, Fail> {
    let dict = Dict::of(alloc, sample(alloc)?)?;
    Ok(dict)
}

// The first letter of a formula of one connector.
fn capital(formula: &Formula) -> Option<u8> {
    match formula.expr() {
        Expr::Conn(connector) => connector.caps().first().copied(),
        _ => None,
    }
}

// Wants the word to have a formula of this letter, or to be missing.
fn expect_word<R: Abort>(rt: &R, view: &View, word: &[u8], want: Option<u8>) {
    assert!(rt; view.get(word).and_then(capital) == want);
    assert!(rt; view.has(word) == want.is_some());
}

#[test]
fn looks_up_words(rt: HostRuntime) -> Result<(), Fail> {
    let dict = sample_dict(rt.alloc())?;
    let view = View::of(rt.alloc(), &dict);
    expect_word(&rt, &view, b"run.v", Some(b'A'));
    expect_word(&rt, &view, b"walk", Some(b'A'));
    expect_word(&rt, &view, b"run.n", Some(b'B'));
    expect_word(&rt, &view, b"run", Some(b'B'));
    expect_word(&rt, &view, b"<m>", None);
    expect_word(&rt, &view, b"sleep", None);
    Ok(())
}

fn longest(alloc: Global, dict: &Dict) -> usize {
    View::of(alloc, dict).longest()
}

#[test]
fn tells_the_longest_word(rt: HostRuntime) -> Result<(), Fail> {
    let dict = sample_dict(rt.alloc())?;
    assert_eq!(rt; longest(rt.alloc(), &dict), 5);
    Ok(())
}

#[test]
fn tells_that_no_word_is_long(rt: HostRuntime) -> Result<(), Fail> {
    let alloc = rt.alloc();
    let dict = Dict::of(alloc, Vec::new(alloc))?;
    assert_eq!(rt; longest(alloc, &dict), 0);
    Ok(())
}

// Wants the macro of the sample to have a formula of this letter, and this level.
fn expect_macro<R: Abort>(rt: &R, view: &View, want: u8, want_level: u32) -> Result<(), Fail> {
    let (formula, level) = view.named(b"<m>").ok_or("a macro")?;
    assert!(rt; capital(formula) == Some(want));
    assert!(rt; level == want_level);
    assert!(rt; view.named(b"run").is_none());
    Ok(())
}

#[test]
fn looks_up_macros(rt: HostRuntime) -> Result<(), Fail> {
    let dict = sample_dict(rt.alloc())?;
    expect_macro(&rt, &View::of(rt.alloc(), &dict), b'B', 7)
}

// Wants these words of a text, each before a space.
fn expect_words<R: Abort>(
    rt: &R,
    alloc: Global,
    view: &View,
    text: &[u8],
    want: &[u8],
) -> Result<(), Fail> {
    let found = spaced(alloc, &view.words_of(alloc, text)?)?;
    assert!(rt; found.as_slice() == want);
    Ok(())
}

fn spaced(alloc: Global, words: &Texts) -> Result<Vec<u8>, Fail> {
    let mut bytes = Vec::new(alloc);
    for word in words.items() {
        bytes.extend_from_slice(word.bytes())?;
        bytes.push(b' ')?;
    }
    Ok(bytes)
}

fn find_words<R: Abort>(rt: &R, alloc: Global, view: &View) -> Result<(), Fail> {
    expect_words(rt, alloc, view, b"run", b"run run.n run.v ")?;
    expect_words(rt, alloc, view, b"run.v", b"run.v ")?;
    expect_words(rt, alloc, view, b"sleep", b"")
}

#[test]
fn finds_the_words_of_a_text(rt: HostRuntime) -> Result<(), Fail> {
    let dict = sample_dict(rt.alloc())?;
    find_words(&rt, rt.alloc(), &View::of(rt.alloc(), &dict))
}

// The formula of one connector.
fn letter(caps: &[u8]) -> Result<Formula, Fail>
    ensures { IfOk result (λ formula. LevelFits 0 (tree_of formula)) }
{
    let connector = Connector::of(caps, b"", false, true).ok_or("a name")?;
    let formula = Formula::of(Expr::Conn(connector)).ok_or("a formula")?;
    Ok(formula)
}

// Gives a word of the sample and a new one the formula of this letter.
fn put_two(alloc: Global, view: &mut View, caps: &[u8]) -> Result<(), Fail> {
    let words = texts(alloc, &[b"walk", b"run.long"])?;
    let formula = letter(caps)?;
    view.put(&words, &formula)?;
    Ok(())
}

fn put_and_find<R: Abort>(rt: &R, alloc: Global, view: &mut View) -> Result<(), Fail> {
    put_two(alloc, view, b"C")?;
    expect_word(rt, view, b"walk", Some(b'C'));
    expect_word(rt, view, b"run.long", Some(b'C'));
    expect_word(rt, view, b"run.v", Some(b'A'));
    expect_words(rt, alloc, view, b"run", b"run run.long run.n run.v ")
}

#[test]
fn puts_words(rt: HostRuntime) -> Result<(), Fail> {
    let dict = sample_dict(rt.alloc())?;
    put_and_find(&rt, rt.alloc(), &mut View::of(rt.alloc(), &dict))
}

// Removes a word of the sample and one that is none.
fn remove_two(view: &mut View) -> Result<(), Fail> {
    view.remove(b"run.v")?;
    view.remove(b"sleep")?;
    Ok(())
}

fn remove_and_find<R: Abort>(rt: &R, alloc: Global, view: &mut View) -> Result<(), Fail> {
    remove_two(view)?;
    expect_word(rt, view, b"run.v", None);
    expect_words(rt, alloc, view, b"run", b"run run.n ")
}

#[test]
fn removes_words(rt: HostRuntime) -> Result<(), Fail> {
    let dict = sample_dict(rt.alloc())?;
    remove_and_find(&rt, rt.alloc(), &mut View::of(rt.alloc(), &dict))
}

fn set_macro(alloc: Global, view: &mut View) -> Result<(), Fail> {
    let name = Text::of(alloc, b"<m>")?;
    let formula = letter(b"C")?;
    view.put_named(name, formula, 0)?;
    Ok(())
}

fn set_and_find<R: Abort>(rt: &R, alloc: Global, view: &mut View) -> Result<(), Fail> {
    set_macro(alloc, view)?;
    expect_macro(rt, view, b'C', 0)
}

#[test]
fn sets_macros(rt: HostRuntime) -> Result<(), Fail> {
    let dict = sample_dict(rt.alloc())?;
    set_and_find(&rt, rt.alloc(), &mut View::of(rt.alloc(), &dict))
}
