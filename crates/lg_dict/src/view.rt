//! Views of a dictionary.
ghost use Rattle.std.specs.Prelude.{◌≡◌, ◌↔◌, ◌++◌, [], ◌∷◌, ℕ, List, map, filter, is_some, false, if◌then◌else◌, Contains, IsTrue, IfOk, IfSome, OnOk, OnErr};
ghost use Rattle.std.specs.FinMap as finite;
ghost use Rattle.std.specs.Cmp.Lexicographic.{slice_cmp};
ghost use Rattle.std.specs.List.{list_any};
ghost use Rattle.std.specs.List.Sorted.{IsStrictlySortedBy};
ghost use Rattle.std.specs.Option.{option_map};
ghost use Rattle.std.specs.Ordering.{nat_cmp};
ghost use Rattle.lg_gram.specs.Trees.{tree_of};
ghost use Rattle.lg_gram.specs.Fits.{AllFit};
ghost use Rattle.lg_gram.specs.Formulas.{LevelFits};
ghost use Rattle.lg_dict.specs.Dictionary.{IsWordOf, AreWordsOf, AreCompoundsOf, AreKeys, NoWordIsLonger, macros_of, insert_all};
ghost use Rattle.lg_dict.specs.Lengths.{NoWordHas};
ghost use Rattle.lg_dict.specs.Tables.{text_at, text_keys};

use crate::changes::{Changes, looked_up, named_in};
use crate::dict::Dict;
use crate::tables::{Table, add_keys, longest_of, texts_under, word_at};
use lg_base::{NoMemory, Text, Texts};
use lg_gram::{Formula, Macros};
use std::alloc::Global;
use std::marker::Model;

/// A dictionary with changes laid over it. Contracts see the same two finite maps.
///
/// The dictionary below stays as it is. A change takes the memory of its words and of one formula. What a macro had goes
/// when the macro is changed again, and a formula that was given to words when the last of them is.
#[derive(Drop)]
pub struct View<'a> {
    alloc: Global,
    base: &'a Dict,
    changes: Changes,
    longest: usize,
}

impl<'a> Model for View<'a> {
    ghost use Rattle.lg_dict.specs.Dictionary.{Dictionary};
    ghost use Rattle.lg_dict.specs.Stored.{dictionary_code};

    ghost Value = { Dictionary };

    ghost coded = { dictionary_code };

    ghost use Rattle.lg_dict.specs.Viewed.{viewed, IsViewed};

    ghost view = { viewed };

    ghost invariant = { IsViewed };
}

impl<'a> Macros for View<'a> {
    ghost use Rattle.lg_dict.specs.Dictionary.{macros_of};

    ghost formulas = { macros_of };

    fn named(&self, name: &[u8]) -> Option<(&Formula, u32)> {
        match View::named(self, name) {
            Some((formula, level)) => {
                // the call tells that the formula is within the limits
                let _expr = formula.expr();
                Some((formula, level))
            }
            None => None,
        }
    }
}

impl<'a> View<'a> {
    /// The dictionary as it is. It takes no memory.
    pub fn of(alloc: Global, base: &'a Dict) -> View<'a>
        ensures { result ≡ base.now }
    {
        View {
            alloc,
            base,
            changes: Changes::new(alloc, base.salted()),
            longest: base.longest(),
        }
    }

    /// A length in bytes that no word passes: that of the longest word that the dictionary had, or was given since. No
    /// memory.
    pub fn longest(&self) -> usize
        ensures { NoWordIsLonger self.now result }
    {
        self.longest
    }

    /// The formula of a word. No memory.
    pub fn get(&self, word: &[u8]) -> Option<&Formula>
        ensures { option_map (λ formula. tree_of formula.now) result ≡ finite.get self.now.words word.now }
    {
        looked_up(self.base, &self.changes, word)
    }

    /// The formula and the level of a macro, whose name has its angle brackets. No memory.
    pub fn named(&self, name: &[u8]) -> Option<(&Formula, u32)>
        ensures found { option_map (λ found. (tree_of found.0.now, found.1)) result ≡ finite.get self.now.macros name.now }
        ensures level { IfSome result (λ found. LevelFits found.1 (tree_of found.0.now)) }
    {
        named_in(self.base, &self.changes, name)
    }

    /// Each macro keeps to its level. The function does nothing: a caller whose proof needs the fact calls it.
    pub fn macros_fit(&self)
        ensures { AllFit (macros_of self.now) }
    {
        let _changes = &self.changes;
        self.base.macros_fit();
    }

    /// Whether some word equals the text or has it as stem. No memory.
    pub fn has(&self, text: &[u8]) -> bool
        ensures { IsTrue result ↔ ((word : List ℕ) × IsWordOf self.now text.now word) }
    {
        if !self.has_length(text.len()) {
            return false;
        }
        let (words, numbers) = self.base.with_stem(text);
        self.is_word(text)
            || self.has_number(words, numbers)
            || self.has_text(texts_under(&self.changes.stems, text))
    }

    /// The words that equal the text or have it as stem, increasing by bytes.
    pub fn words_of(&self, alloc: Global, text: &[u8]) -> Result<Texts, NoMemory>
        ensures { IfOk result (AreWordsOf self.now text.now) }
    {
        if !self.has_length(text.len()) {
            return Ok(Texts::of(Vec::new(alloc)));
        }
        let mut found = Vec::new(alloc);
        let (words, numbers) = self.base.with_stem(text);
        self.add_word(&mut found, text)?;
        self.add_numbers(&mut found, words, numbers)?;
        self.add_texts(&mut found, texts_under(&self.changes.stems, text))?;
        sorted_texts(alloc, found)
    }

    /// The compounds whose first part this is, increasing by bytes.
    pub fn compounds(&self, alloc: Global, first: &[u8]) -> Result<Texts, NoMemory>
        ensures { IfOk result (AreCompoundsOf self.now first.now) }
    {
        let mut found = Vec::new(alloc);
        let (words, numbers) = self.base.with_first(first);
        self.add_numbers(&mut found, words, numbers)?;
        self.add_texts(&mut found, texts_under(&self.changes.firsts, first))?;
        sorted_texts(alloc, found)
    }

    /// All words, increasing by bytes.
    pub fn words(&self, alloc: Global) -> Result<Texts, NoMemory>
        ensures { IfOk result (AreKeys self.now.words) }
    {
        let mut found = Vec::new(alloc);
        add_keys(&mut found, self.base.words())?;
        add_keys(&mut found, &self.changes.words)?;
        found.retain(|word| self.is_word(word));
        sorted_texts(alloc, found)
    }

    /// The names of all macros, with their angle brackets, increasing by bytes.
    pub fn macros(&self, alloc: Global) -> Result<Texts, NoMemory>
        ensures { IfOk result (AreKeys self.now.macros) }
    {
        let mut found = Vec::new(alloc);
        add_keys(&mut found, self.base.macros())?;
        add_keys(&mut found, &self.changes.macros)?;
        sorted_texts(alloc, found)
    }

    /// Gives each of these words the formula. All other words and the macros stay. Out of memory, nothing is changed.
    pub fn put(&mut self, words: &Texts, formula: &Formula) -> Result<(), NoMemory>
        ensures put { OnOk result (self.new ≡ record self.old { words = insert_all words.now (tree_of formula.now) self.old.words }) }
        ensures unchanged { OnErr result (self.new ≡ self.old) }
    {
        let copy = formula.copied(self.alloc)?;
        self.changes.put(self.alloc, words.items(), copy)?;
        self.longest = longest_of(self.longest, words.items());
        Ok(())
    }

    /// Sets a macro, whose name has its angle brackets. All other macros and the words stay. Out of memory, nothing is
    /// changed.
    pub fn put_named(&mut self, name: Text, formula: Formula, level: u32) -> Result<(), NoMemory>
        requires { LevelFits level (tree_of formula) }
        ensures put { OnOk result (self.new ≡ record self.old { macros = finite.insert self.old.macros name (tree_of formula, level) }) }
        ensures unchanged { OnErr result (self.new ≡ self.old) }
    {
        // the call tells that the formula is within the limits
        let _expr = formula.expr();
        self.changes
            .put_named(self.alloc, name.bytes(), formula, level)
    }

    /// Removes a word, if it is one. All other words and the macros stay. Out of memory, nothing is changed.
    pub fn remove(&mut self, word: &[u8]) -> Result<(), NoMemory>
        ensures removed { OnOk result (self.new ≡ record self.old { words = finite.remove self.old.words word.now }) }
        ensures unchanged { OnErr result (self.new ≡ self.old) }
    {
        self.changes.remove(self.alloc, word)
    }

    // Whether a word or a stem of a word may have this length in bytes. No memory.
    fn has_length(&self, length: usize) -> bool
        ensures { result ≡ false → NoWordHas self.now length }
    {
        self.base.has_length(length) || self.changes.lengths.has(length)
    }

    // Whether the text itself is a word. No memory.
    fn is_word(&self, text: &[u8]) -> bool
        ensures { result ≡ is_some (finite.get self.now.words text.now) }
    {
        self.get(text).is_some()
    }

    // Whether one of these is a word. No memory.
    fn has_text(&self, texts: &[Text]) -> bool
        ensures { result ≡ list_any (λ word. is_some (finite.get self.now.words word)) texts.now }
    {
        texts.iter().any(|text| self.is_word(text.bytes()))
    }

    // Whether one of those of these numbers in a table of words is a word. No memory.
    fn has_number(&self, words: &Table<usize>, numbers: &[usize]) -> bool
        ensures { result ≡ list_any (λ number. is_some (finite.get self.now.words (text_at (text_keys words.now) number))) numbers.now }
    {
        numbers
            .iter()
            .any(|number| self.is_word(word_at(words, *number)))
    }

    // Adds the text itself if it is a word.
    fn add_word<'b>(&self, found: &mut Vec<&'b [u8]>, text: &'b [u8]) -> Result<(), NoMemory>
        ensures { OnOk result (map (λ word. word.now) found.new.items
            ≡ map (λ word. word.now) found.old.items ++ (if is_some (finite.get self.now.words text.now) then text.now ∷ [] else [])) }
    {
        if self.is_word(text) {
            found.push(text)?;
        }
        Ok(())
    }

    // Adds those that are words.
    fn add_texts<'b>(&self, found: &mut Vec<&'b [u8]>, texts: &'b [Text]) -> Result<(), NoMemory>
        ensures { OnOk result (map (λ word. word.now) found.new.items
            ≡ map (λ word. word.now) found.old.items ++ filter (λ word. is_some (finite.get self.now.words word)) texts.now) }
    {
        for text in texts {
            self.add_word(found, text.bytes())?;
        }
        Ok(())
    }

    // Adds those of these numbers in a table of words that are words.
    fn add_numbers<'b>(
        &self,
        found: &mut Vec<&'b [u8]>,
        words: &'b Table<usize>,
        numbers: &[usize],
    ) -> Result<(), NoMemory>
        ensures { OnOk result (map (λ word. word.now) found.new.items
            ≡ map (λ word. word.now) found.old.items ++ filter (λ word. is_some (finite.get self.now.words word)) (map (λ number. text_at (text_keys words.now) number) numbers.now)) }
    {
        for number in numbers {
            self.add_word(found, word_at(words, *number))?;
        }
        Ok(())
    }
}

// These texts, increasing by bytes, each once.
fn sorted_texts(alloc: Global, mut found: Vec<&[u8]>) -> Result<Texts, NoMemory>
    ensures rise { IfOk result (λ texts. IsStrictlySortedBy (slice_cmp nat_cmp) texts) }
    ensures same { IfOk result (λ texts. (text : List ℕ) → Contains texts text ↔ Contains (map (λ word. word.now) found.entry.items) text) }
{
    found.sort_unstable();
    found.dedup();
    let mut texts = Vec::new(alloc);
    for word in &found {
        texts.push(Text::of(alloc, word)?)?;
    }
    Ok(Texts::of(texts))
}
