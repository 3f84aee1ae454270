//! Changes of a dictionary that are laid over it.
ghost use Rattle.std.specs.Prelude.{◌≡◌, ℕ, List, [], length, All, IsSome, IfOk, IfSome, Some, is_some, if◌then◌else◌, OnOk, OnErr};
ghost use Rattle.std.specs.FinMap as finite;
ghost use Rattle.std.specs.Option.{option_map};
ghost use Rattle.lg_gram.specs.Fits.{Fits};
ghost use Rattle.lg_gram.specs.Formulas.{LevelFits};
ghost use Rattle.lg_gram.specs.Trees.{tree_of};
ghost use Rattle.lg_dict.specs.Changed.{changed, HasGiven, HasSame, IsLaid, IsNamed, IsTree};
ghost use Rattle.lg_dict.specs.Dictionary.{Dictionary, insert_all};
ghost use Rattle.lg_dict.specs.Tables.{at_text, same_text};

use crate::dict::Dict;
use crate::lengths::Lengths;
use crate::tables::{By, Table, list_text};
use indexmap::IndexMap;
use lg_base::{NoMemory, Text, copied};
use lg_gram::Formula;
use lg_names::Salted;
use std::alloc::Global;

/// What is changed at a word.
#[derive(Drop)]
pub enum Change {
    /// Nothing.
    Same,
    Removed,
    /// The formula that was given to the word; words that were given it at once share it.
    Given(Formula),
}

/// What a macro stands for now. The formula goes when the macro is set again.
#[derive(Drop)]
pub(crate) struct Named {
    pub(crate) formula: Formula,
    pub(crate) level: u32,
}

/// Changes: of words, with the words of each stem and those of each first part, and of macros.
///
/// A formula goes when the last word that has it is changed again. The words that are listed may be unchanged, and may
/// stand twice.
#[derive(Drop)]
pub(crate) struct Changes {
    pub(crate) words: Table<Change>,
    pub(crate) stems: Table<Vec<Text>>,
    pub(crate) firsts: Table<Vec<Text>>,
    pub(crate) macros: Table<Named>,
    pub(crate) lengths: Lengths,
}

impl Changes {
    /// No changes, in tables of this hasher. It takes no memory.
    pub(crate) fn new(alloc: Global, salted: Salted) -> Changes
        ensures laid { IsLaid result }
        ensures words { result.words.entries ≡ [] }
        ensures macros { result.macros.entries ≡ [] }
    {
        Changes {
            words: IndexMap::with_hasher(alloc, salted),
            stems: IndexMap::with_hasher(alloc, salted),
            firsts: IndexMap::with_hasher(alloc, salted),
            macros: IndexMap::with_hasher(alloc, salted),
            lengths: Lengths::new(alloc),
        }
    }

    /// Gives each of these words the formula. Out of memory, nothing is changed.
    pub(crate) fn put(
        &mut self,
        alloc: Global,
        words: &[Text],
        formula: Formula,
    ) -> Result<(), NoMemory>
        requires { IsLaid self.old }
        ensures laid { IsLaid self.new }
        ensures put { OnOk result ((dict : Dictionary) → changed dict self.new ≡ record (changed dict self.old) { words = insert_all words.now (tree_of formula) (changed dict self.old).words }) }
        ensures unchanged { OnErr result ((dict : Dictionary) → changed dict self.new ≡ changed dict self.old) }
    {
        match words {
            [word] => self.put_one(alloc, word.bytes(), formula),
            _ => self.put_all(alloc, words, formula),
        }
    }

    /// Sets a macro. Out of memory, nothing is changed.
    pub(crate) fn put_named(
        &mut self,
        alloc: Global,
        name: &[u8],
        formula: Formula,
        level: u32,
    ) -> Result<(), NoMemory>
        requires laid { IsLaid self.old }
        requires fits { Fits level (tree_of formula) }
        ensures laid { IsLaid self.new }
        ensures put { OnOk result ((dict : Dictionary) → changed dict self.new ≡ record (changed dict self.old) { macros = finite.insert (changed dict self.old).macros name.now (tree_of formula, level) }) }
        ensures unchanged { OnErr result ((dict : Dictionary) → changed dict self.new ≡ changed dict self.old) }
    {
        let key = copied(alloc, name)?;
        self.macros.insert(key, Named { formula, level })?;
        Ok(())
    }

    /// Removes a word, if it is one. Out of memory, nothing is changed.
    pub(crate) fn remove(&mut self, alloc: Global, word: &[u8]) -> Result<(), NoMemory>
        requires { IsLaid self.old }
        ensures laid { IsLaid self.new }
        ensures removed { OnOk result ((dict : Dictionary) → changed dict self.new ≡ record (changed dict self.old) { words = finite.remove (changed dict self.old).words word.now }) }
        ensures unchanged { OnErr result ((dict : Dictionary) → changed dict self.new ≡ changed dict self.old) }
    {
        self.admit(alloc, word)?;
        set_change(&mut self.words, word, Change::Removed);
        Ok(())
    }

    // Gives this word alone the formula. Out of memory, nothing is changed.
    fn put_one(&mut self, alloc: Global, word: &[u8], formula: Formula) -> Result<(), NoMemory>
        requires { IsLaid self.old }
        ensures laid { IsLaid self.new }
        ensures put { OnOk result ((dict : Dictionary) → changed dict self.new ≡ record (changed dict self.old) { words = finite.insert (changed dict self.old).words word.now (tree_of formula) }) }
        ensures unchanged { OnErr result ((dict : Dictionary) → changed dict self.new ≡ changed dict self.old) }
    {
        self.admit(alloc, word)?;
        set_change(&mut self.words, word, Change::Given(formula));
        Ok(())
    }

    // Gives each of these words the formula. Out of memory, nothing is changed.
    fn put_all(&mut self, alloc: Global, words: &[Text], formula: Formula) -> Result<(), NoMemory>
        requires { IsLaid self.old }
        ensures laid { IsLaid self.new }
        ensures put { OnOk result ((dict : Dictionary) → changed dict self.new ≡ record (changed dict self.old) { words = insert_all words.now (tree_of formula) (changed dict self.old).words }) }
        ensures unchanged { OnErr result ((dict : Dictionary) → changed dict self.new ≡ changed dict self.old) }
    {
        let copies = copies_of(alloc, formula, words.len())?;
        self.admit_all(alloc, words)?;
        self.set_all(words, copies);
        Ok(())
    }

    // Makes room for changes of these words. Nothing is changed yet, out of memory too.
    fn admit_all(&mut self, alloc: Global, words: &[Text]) -> Result<(), NoMemory>
        requires { IsLaid self.old }
        ensures laid { IsLaid self.new }
        ensures same { HasSame self.old self.new }
        ensures named { OnOk result (All (IsNamed self.new) words.now) }
    {
        for word in words {
            self.admit(alloc, word.bytes())?;
        }
        Ok(())
    }

    // Makes room for a change of this word. Nothing is changed yet, out of memory too.
    fn admit(&mut self, alloc: Global, word: &[u8]) -> Result<(), NoMemory>
        requires { IsLaid self.old }
        ensures laid { IsLaid self.new }
        ensures same { HasSame self.old self.new }
        ensures names { (text : List ℕ) → IsNamed self.old text → IsNamed self.new text }
        ensures named { OnOk result (IsNamed self.new word.now) }
    {
        if self.words.contains_key(word) {
            return Ok(());
        }
        let key = copied(alloc, word)?;
        self.lengths.add_word(word)?;
        list_text(alloc, By::Stem, &mut self.stems, word)?;
        list_text(alloc, By::First, &mut self.firsts, word)?;
        self.words.insert(key, Change::Same)?;
        Ok(())
    }

    // Gives each of these words, for which there is room, one of these formulas.
    fn set_all(&mut self, words: &[Text], mut copies: Vec<Formula>)
        requires named { All (IsNamed self.old) words.now }
        requires count { length copies.items ≡ length words.now }
        ensures words { HasGiven copies.items words.now self.old self.new }
        ensures names { (text : List ℕ) → is_some (at_text self.new.words text) ≡ is_some (at_text self.old.words text) }
        ensures stems { self.new.stems ≡ self.old.stems }
        ensures firsts { self.new.firsts ≡ self.old.firsts }
        ensures macros { self.new.macros ≡ self.old.macros }
        ensures lengths { self.new.lengths ≡ self.old.lengths }
    {
        for word in words {
            match copies.pop() {
                Some(copy) => set_change(&mut self.words, word.bytes(), Change::Given(copy)),
                None => unreachable!(),
            }
        }
    }
}

// So many formulas, which share their expression.
fn copies_of(alloc: Global, formula: Formula, count: usize) -> Result<Vec<Formula>, NoMemory>
    ensures count { IfOk result (λ copies. length copies.items ≡ count) }
    ensures same { IfOk result (λ copies. All (IsTree (tree_of formula)) copies.items) }
{
    let shared = formula.shared(alloc)?;
    let mut copies = Vec::with_capacity(alloc, count)?;
    for _ in 0..count {
        copies.push(shared.copied(alloc)?)?;
    }
    Ok(copies)
}

// Sets the change of a word, for which there is room.
fn set_change(words: &mut Table<Change>, word: &[u8], change: Change)
    requires { IsSome (at_text words.old word.now) }
    ensures { (text : List ℕ) → at_text words.new text ≡ (if same_text text word.now then Some change else at_text words.old text) }
{
    match words.get_mut(word) {
        Some(slot) => *slot = change,
        None => unreachable!(),
    }
}

/// The formula of a word of a dictionary with changes laid over it. No memory.
pub(crate) fn looked_up<'b>(
    base: &'b Dict,
    changes: &'b Changes,
    word: &[u8],
) -> Option<&'b Formula>
    ensures { option_map (λ formula. tree_of formula.now) result ≡ finite.get (changed base.now changes.now).words word.now }
{
    match changes.words.get(word) {
        None => base.get(word),
        Some(Change::Same) => base.get(word),
        Some(Change::Removed) => None,
        Some(Change::Given(formula)) => Some(formula),
    }
}

/// The formula and the level of a macro of a dictionary with changes laid over it. No memory.
pub(crate) fn named_in<'b>(
    base: &'b Dict,
    changes: &'b Changes,
    name: &[u8],
) -> Option<(&'b Formula, u32)>
    requires { IsLaid changes.now }
    ensures found { option_map (λ found. (tree_of found.0.now, found.1)) result ≡ finite.get (changed base.now changes.now).macros name.now }
    ensures level { IfSome result (λ found. LevelFits found.1 (tree_of found.0.now)) }
{
    match changes.macros.get(name) {
        Some(found) => Some((&found.formula, found.level)),
        None => base.named(name),
    }
}
