//! What an accepted edit makes of a dictionary.
ghost use Rattle.std.specs.Prelude.{◌≡◌, [], ◌∷◌, None, IfOk, OnOk, OnErr};
ghost use Rattle.lg_gram.specs.EntryBounds.{IsEntryInBounds};
ghost use Rattle.lg_gram.specs.EntryViews.{entry_view};
ghost use Rattle.lg_gram.specs.Trees.{tree_of};
ghost use Rattle.lg_edit.specs.Edits.{IsEditInBounds, edit_view, DefinesAsItMay, DefinesOneMacro, accept, accept_entry, after_edit, with_words, with_macro, names_of, formula_in};

use crate::edit::Edit;
use lg_base::{NoMemory, Text, Texts};
use lg_dict::View;
use lg_gram::macros::filled_level;
use lg_gram::{Formula, RawEntry, filled_formula};
use std::alloc::Global;

/// Makes an edit that `check` accepts. Every word of a `Put` has the expression, with the macros put in as they are now;
/// a macro is set, and no word changes; a word is gone. Out of memory, the dictionary is unchanged.
pub fn apply(alloc: Global, view: &mut View, edit: &Edit) -> Result<(), NoMemory>
    requires items { DefinesAsItMay (edit_view edit.now) }
    requires bounds { IsEditInBounds (edit_view edit.now) }
    requires accepted { accept view.old (edit_view edit.now) ≡ None }
    ensures made { OnOk result (view.new ≡ after_edit view.old (edit_view edit.now)) }
    ensures unchanged { OnErr result (view.new ≡ view.old) }
{
    match edit {
        Edit::Put(entry) => put_words(alloc, view, entry),
        Edit::Macro(entry) => put_macro(alloc, view, entry),
        Edit::Del(word) => view.remove(word.bytes()),
    }
}

fn put_words(alloc: Global, view: &mut View, entry: &RawEntry) -> Result<(), NoMemory>
    requires bounds { IsEntryInBounds (entry_view entry.now) }
    requires accepted { accept_entry view.old (entry_view entry.now) ≡ None }
    ensures made { OnOk result (view.new ≡ with_words view.old (entry_view entry.now)) }
    ensures unchanged { OnErr result (view.new ≡ view.old) }
{
    let formula = entry_formula(alloc, view, entry)?;
    let shared = formula.shared(alloc)?;
    let words = names(alloc, entry)?;
    view.put(&words, &shared)
}

fn put_macro(alloc: Global, view: &mut View, entry: &RawEntry) -> Result<(), NoMemory>
    requires items { DefinesOneMacro (entry_view entry.now) }
    requires bounds { IsEntryInBounds (entry_view entry.now) }
    requires accepted { accept_entry view.old (entry_view entry.now) ≡ None }
    ensures made { OnOk result (view.new ≡ with_macro view.old (entry_view entry.now)) }
    ensures unchanged { OnErr result (view.new ≡ view.old) }
{
    view.macros_fit();
    let level = filled_level(entry.level, &entry.expr, view);
    let formula = entry_formula(alloc, view, entry)?;
    let name = macro_name(alloc, entry)?;
    view.put_named(name, formula, level)
}

fn entry_formula(alloc: Global, view: &View, entry: &RawEntry) -> Result<Formula, NoMemory>
    requires bounds { IsEntryInBounds (entry_view entry.now) }
    requires accepted { accept_entry view.now (entry_view entry.now) ≡ None }
    ensures { IfOk result (λ f. tree_of f ≡ formula_in view.now (entry_view entry.now)) }
{
    view.macros_fit();
    filled_formula(alloc, &entry.expr, view)
}

// The name of the one item.
fn macro_name(alloc: Global, entry: &RawEntry) -> Result<Text, NoMemory>
    requires { DefinesOneMacro (entry_view entry.now) }
    ensures { IfOk result (λ name. name ∷ [] ≡ names_of (entry_view entry.now)) }
{
    match entry.items.items().first() {
        Some(item) => Text::of(alloc, item.text.bytes()),
        None => unreachable!(),
    }
}

// The texts of an entry's items.
fn names(alloc: Global, entry: &RawEntry) -> Result<Texts, NoMemory>
    ensures { IfOk result (λ texts. texts ≡ names_of (entry_view entry.now)) }
{
    let mut texts = Vec::new(alloc);
    for item in entry.items.items() {
        texts.push(Text::of(alloc, item.text.bytes())?)?;
    }
    Ok(Texts::of(texts))
}
