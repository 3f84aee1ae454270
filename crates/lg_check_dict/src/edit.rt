//! That calls succeed: a dictionary of two words and a macro, and what edits make of it.
ghost use Rattle.std.specs.Prelude.{◌≡◌, ◌≤◌, [], ◌∷◌, IfOk};
ghost use Rattle.lg_gram.specs.Trees.{tree_of};
ghost use Rattle.lg_gram.specs.EntryBounds.{IsEntryInBounds};
ghost use Rattle.lg_gram.specs.Formulas.{LevelFits};
ghost use Rattle.lg_dict.specs.Dictionary.{AreEntries};
ghost use Rattle.lg_edit.specs.Edits.{DefinesWords, DefinesOneMacro, DefinesAsItMay, IsEditInBounds, edit_view};

use lg_base::{Text, Texts};
use lg_dict::{Dict, View};
use lg_edit::{Edit, apply, check};
use lg_gram::{
    Connector, EditRefusal, Entry, Expr, Formula, Item, ItemKind, Items, RawEntry, RawExpr,
};
use std::alloc::Global;
use std::process::Abort;
use std::test::Fail;

// The words `a` and `a.v`, and the macro `<m>` at level 100, all with the connector A+.
fn sample(alloc: Global) -> Result<Dict, Fail> {
    let mut entries = Vec::new(alloc);
    entries.push(entry(alloc)?)?;
    let dict = Dict::of(alloc, entries)?;
    Ok(dict)
}

fn entry(alloc: Global) -> Result<Entry, Fail>
    ensures { IfOk result (λ entry. AreEntries (entry ∷ [])) }
{
    let formula = Formula::of(Expr::Conn(connector(b"A")?)).ok_or("a formula")?;
    Ok(Entry {
        words: two_texts(alloc, b"a", b"a.v")?,
        macros: one_text(alloc, b"<m>")?,
        formula,
        level: 100,
        line: 1,
    })
}

fn connector(caps: &[u8]) -> Result<Connector, Fail> {
    let connector = Connector::of(caps, b"", false, true).ok_or("a name")?;
    Ok(connector)
}

fn one_text(alloc: Global, text: &[u8]) -> Result<Texts, Fail>
    ensures { IfOk result (λ texts. texts ≡ text.now ∷ []) }
{
    let mut texts = Vec::new(alloc);
    texts.push(Text::of(alloc, text)?)?;
    Ok(Texts::of(texts))
}

fn two_texts(alloc: Global, first: &[u8], second: &[u8]) -> Result<Texts, Fail>
    ensures { IfOk result (λ texts. texts ≡ first.now ∷ second.now ∷ []) }
{
    let mut texts = Vec::new(alloc);
    texts.push(Text::of(alloc, first)?)?;
    texts.push(Text::of(alloc, second)?)?;
    Ok(Texts::of(texts))
}

// An entry of one item.
fn raw_entry(
    alloc: Global,
    kind: ItemKind,
    name: &[u8],
    expr: RawExpr,
    level: u32,
) -> Result<RawEntry, Fail>
    ensures items { IfOk result (λ e. e.items ≡ record { kind = kind; text = name.now } ∷ []) }
    ensures expr { IfOk result (λ e. e.expr ≡ expr) }
    ensures level { IfOk result (λ e. e.level ≡ level) }
{
    let mut items = Vec::new(alloc);
    let text = Text::of(alloc, name)?;
    items.push(Item { kind, text })?;
    Ok(RawEntry {
        items: Items::of(items),
        expr,
        level,
        line: 1,
    })
}

// Gives a word one connector.
fn put(alloc: Global, word: &[u8], caps: &[u8]) -> Result<Edit, Fail>
    ensures items { IfOk result (λ edit. DefinesAsItMay (edit_view edit)) }
    ensures bounds { IfOk result (λ edit. IsEditInBounds (edit_view edit)) }
{
    let expr = RawExpr::Conn(connector(caps)?);
    let entry = raw_entry(alloc, ItemKind::Word, word, expr, 0)?;
    Ok(Edit::Put(entry))
}

// Gives a word a macro with so many brackets round it.
fn put_macro(alloc: Global, word: &[u8], name: &[u8], depth: u32) -> Result<Edit, Fail>
    requires { depth ≤ 200 }
    ensures items { IfOk result (λ edit. DefinesAsItMay (edit_view edit)) }
    ensures bounds { IfOk result (λ edit. IsEditInBounds (edit_view edit)) }
{
    let expr = RawExpr::Named(Text::of(alloc, name)?, depth);
    let entry = raw_entry(alloc, ItemKind::Word, word, expr, depth)?;
    Ok(Edit::Put(entry))
}

// Sets a macro to one connector.
fn set_macro(alloc: Global, name: &[u8], caps: &[u8]) -> Result<Edit, Fail>
    ensures items { IfOk result (λ edit. DefinesAsItMay (edit_view edit)) }
    ensures bounds { IfOk result (λ edit. IsEditInBounds (edit_view edit)) }
{
    let expr = RawExpr::Conn(connector(caps)?);
    let entry = raw_entry(alloc, ItemKind::Macro, name, expr, 0)?;
    Ok(Edit::Macro(entry))
}

// Makes an edit that is accepted.
fn make(alloc: Global, view: &mut View, edit: &Edit) -> Result<(), Fail>
    requires items { DefinesAsItMay (edit_view edit.now) }
    requires bounds { IsEditInBounds (edit_view edit.now) }
{
    match check(view, edit) {
        Ok(()) => {
            apply(alloc, view, edit)?;
            Ok(())
        }
        Err(_) => refused(),
    }
}

fn refused() -> Result<(), Fail> {
    let none: Option<()> = None;
    none.ok_or("an edit that is accepted")?;
    Ok(())
}

// Wants the word to have a connector of this letter, or to be missing.
fn expect_word<R: Abort>(rt: &R, view: &View, word: &[u8], want: Option<u8>) {
    assert!(rt; view.get(word).and_then(capital) == want);
}

fn capital(formula: &Formula) -> Option<u8> {
    match formula.expr() {
        Expr::Conn(connector) => connector.caps().first().copied(),
        _ => None,
    }
}

fn make_word(alloc: Global, view: &mut View, word: &[u8]) -> Result<(), Fail> {
    let edit = put_macro(alloc, word, b"<m>", 0)?;
    make(alloc, view, &edit)
}

fn make_macro(alloc: Global, view: &mut View) -> Result<(), Fail> {
    let edit = set_macro(alloc, b"<m>", b"B")?;
    make(alloc, view, &edit)
}

fn make_three<R: Abort>(rt: &R, alloc: Global, view: &mut View) -> Result<(), Fail> {
    make_word(alloc, view, b"x")?;
    make_macro(alloc, view)?;
    make_word(alloc, view, b"y")?;
    expect_word(rt, view, b"x", Some(b'A'));
    expect_word(rt, view, b"y", Some(b'B'));
    expect_word(rt, view, b"a", Some(b'A'));
    Ok(())
}

#[test]
fn macros_are_put_in_as_they_are_now(rt: HostRuntime) -> Result<(), Fail> {
    let dict = sample(rt.alloc())?;
    make_three(&rt, rt.alloc(), &mut View::of(rt.alloc(), &dict))
}

fn put_and_remove<R: Abort>(rt: &R, alloc: Global, view: &mut View) -> Result<(), Fail> {
    let edit = put(alloc, b"a", b"C")?;
    make(alloc, view, &edit)?;
    remove(alloc, view, b"a.v")?;
    expect_word(rt, view, b"a.v", None);
    expect_word(rt, view, b"a", Some(b'C'));
    Ok(())
}

fn remove(alloc: Global, view: &mut View, word: &[u8]) -> Result<(), Fail> {
    let edit = Edit::Del(Text::of(alloc, word)?);
    make(alloc, view, &edit)
}

#[test]
fn words_are_put_and_removed(rt: HostRuntime) -> Result<(), Fail> {
    let dict = sample(rt.alloc())?;
    put_and_remove(&rt, rt.alloc(), &mut View::of(rt.alloc(), &dict))
}

fn expect_refusal<R: Abort>(rt: &R, view: &View, edit: &Edit, want: EditRefusal)
    requires { IsEditInBounds (edit_view edit.now) }
{
    assert!(rt; check(view, edit) == Err(want));
}

fn refuse_unknown<R: Abort>(rt: &R, alloc: Global, view: &View) -> Result<(), Fail> {
    let edit = put_macro(alloc, b"x", b"<n>", 200)?;
    expect_refusal(rt, view, &edit, EditRefusal::UnknownMacro(0));
    Ok(())
}

#[test]
fn unknown_macros_are_refused(rt: HostRuntime) -> Result<(), Fail> {
    let dict = sample(rt.alloc())?;
    refuse_unknown(&rt, rt.alloc(), &View::of(rt.alloc(), &dict))
}

fn refuse_deep<R: Abort>(rt: &R, alloc: Global, view: &View) -> Result<(), Fail> {
    let edit = put_macro(alloc, b"x", b"<m>", 100)?;
    expect_refusal(rt, view, &edit, EditRefusal::TooDeep(201));
    Ok(())
}

#[test]
fn deep_expressions_are_refused(rt: HostRuntime) -> Result<(), Fail> {
    let dict = sample(rt.alloc())?;
    refuse_deep(&rt, rt.alloc(), &View::of(rt.alloc(), &dict))
}

fn refuse_removed<R: Abort>(rt: &R, alloc: Global, view: &mut View) -> Result<(), Fail> {
    remove(alloc, view, b"a")?;
    let edit = Edit::Del(Text::of(alloc, b"a")?);
    expect_refusal(rt, view, &edit, EditRefusal::NoSuchWord);
    Ok(())
}

#[test]
fn words_that_are_none_are_refused(rt: HostRuntime) -> Result<(), Fail> {
    let dict = sample(rt.alloc())?;
    refuse_removed(&rt, rt.alloc(), &mut View::of(rt.alloc(), &dict))
}
