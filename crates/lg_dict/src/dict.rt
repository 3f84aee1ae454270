//! A dictionary, made once from its entries.
ghost use Rattle.std.specs.Prelude.{◌≡◌, ◌↔◌, ℕ, List, map, true, false, Contains, IsSome, IfOk, IfSome};
ghost use Rattle.std.specs.FinMap as finite;
ghost use Rattle.std.specs.Option.{option_map};
ghost use Rattle.lg_gram.specs.Trees.{tree_of};
ghost use Rattle.lg_gram.specs.Fits.{AllFit};
ghost use Rattle.lg_gram.specs.Formulas.{LevelFits};
ghost use Rattle.lg_dict.specs.Dictionary.{dictionary_of, macros_of, AreEntries, IsLongestWord};
ghost use Rattle.lg_dict.specs.Lengths.{NoWordHas};
ghost use Rattle.lg_dict.specs.Tables.{text_at, text_keys, is_under};
ghost use Rattle.lg_dict.specs.declared.tables.By.TheVariants.{Stem, First};

use crate::lengths::Lengths;
use crate::salted::salted_by;
use crate::tables::{
    By, Gathered, Macro, Table, gather, lengths_of, list_table, longest_word, numbers_under,
};
use lg_base::NoMemory;
use lg_gram::{Entry, Formula};
use lg_names::Salted;
use std::alloc::Global;
use std::marker::Model;

/// A dictionary. Contracts see two finite maps: from its words to the trees of their formulas, and from its macros to
/// the trees of their formulas and their levels.
///
/// A formula is stored once, for all words of its entry. A text whose length no word and no stem has is found to be none
/// without being read.
#[derive(Drop)]
pub struct Dict {
    formulas: Vec<Formula>,
    words: Table<usize>,
    macros: Table<Macro>,
    stems: Table<Vec<usize>>,
    firsts: Table<Vec<usize>>,
    longest: usize,
    lengths: Lengths,
}

impl Model for Dict {
    ghost use Rattle.lg_dict.specs.Dictionary.{Dictionary};
    ghost use Rattle.lg_dict.specs.Stored.{dictionary_code};

    ghost Value = { Dictionary };

    ghost coded = { dictionary_code };

    ghost use Rattle.lg_dict.specs.Layout.{shown, IsKept};

    ghost view = { shown };

    ghost invariant = { IsKept };
}

impl Dict {
    /// The dictionary of these entries. No word and no macro stands twice in them, and each entry's level fits its
    /// formula.
    pub fn of(alloc: Global, entries: Vec<Entry>) -> Result<Dict, NoMemory>
        requires { AreEntries entries.items }
        ensures { IfOk result (λ dict. dict ≡ dictionary_of entries.items) }
    {
        let salted = salted_by(entries.as_slice());
        let Gathered {
            formulas,
            words,
            macros,
        } = gather(alloc, salted, entries)?;
        let stems = list_table(alloc, By::Stem, &words)?;
        let firsts = list_table(alloc, By::First, &words)?;
        let longest = longest_word(&words);
        let lengths = lengths_of(alloc, &words)?;
        Ok(Dict {
            formulas,
            words,
            macros,
            stems,
            firsts,
            longest,
            lengths,
        })
    }

    /// The hasher of the tables. No memory.
    pub(crate) fn salted(&self) -> Salted {
        *self.words.hasher()
    }

    /// The length in bytes of the longest word; 0 where there is no word. No memory.
    pub(crate) fn longest(&self) -> usize
        ensures { IsLongestWord self.now result }
    {
        self.longest
    }

    /// Whether a word or a stem of a word may have this length in bytes. No memory.
    pub(crate) fn has_length(&self, length: usize) -> bool
        ensures { result ≡ false → NoWordHas self.now length }
    {
        self.lengths.has(length)
    }

    /// The formula of a word. No memory.
    pub(crate) fn get(&self, word: &[u8]) -> Option<&Formula>
        ensures { option_map (λ formula. tree_of formula.now) result ≡ finite.get self.now.words word.now }
    {
        if word.len() > self.longest {
            return None;
        }
        let number = *self.words.get(word)?;
        Some(&self.formulas[number])
    }

    /// The formula and the level of a macro. No memory.
    pub(crate) fn named(&self, name: &[u8]) -> Option<(&Formula, u32)>
        ensures found { option_map (λ found. (tree_of found.0.now, found.1)) result ≡ finite.get self.now.macros name.now }
        ensures level { IfSome result (λ found. LevelFits found.1 (tree_of found.0.now)) }
    {
        let found = *self.macros.get(name)?;
        Some((&self.formulas[found.formula], found.level))
    }

    /// Each macro keeps to its level. The function does nothing: a caller whose proof needs the fact calls it.
    pub(crate) fn macros_fit(&self)
        ensures { AllFit (macros_of self.now) }
    {
        let _macros = &self.macros;
    }

    /// The words, as the keys of a table. No memory.
    pub(crate) fn words(&self) -> &Table<usize>
        ensures { (word : List ℕ) → Contains (text_keys result.now) word ↔ IsSome (finite.get self.now.words word) }
    {
        &self.words
    }

    /// The names of macros, as the keys of a table. No memory.
    pub(crate) fn macros(&self) -> &Table<Macro>
        ensures { (name : List ℕ) → Contains (text_keys result.now) name ↔ IsSome (finite.get self.now.macros name) }
    {
        &self.macros
    }

    /// The words that have this stem and are not their own, as their numbers in a table of words. No memory.
    pub(crate) fn with_stem(&self, stem: &[u8]) -> (&Table<usize>, &[usize])
        ensures { (word : List ℕ) → Contains (map (λ number. text_at (text_keys result.0.now) number) result.1.now) word ↔ (IsSome (finite.get self.now.words word) × (is_under Stem stem.now word ≡ true)) }
    {
        (&self.words, numbers_under(&self.stems, stem))
    }

    /// The compounds that have this first part, as their numbers in a table of words. No memory.
    pub(crate) fn with_first(&self, first: &[u8]) -> (&Table<usize>, &[usize])
        ensures { (word : List ℕ) → Contains (map (λ number. text_at (text_keys result.0.now) number) result.1.now) word ↔ (IsSome (finite.get self.now.words word) × (is_under First first.now word ≡ true)) }
    {
        (&self.words, numbers_under(&self.firsts, first))
    }
}
