//! The hash tables of a dictionary, each made once from the entries. Their keys are bytes.
ghost use Rattle.std.specs.Prelude.{◌≡◌, ◌≢◌, ◌<◌, ◌≤◌, ◌++◌, [], ◌∷◌, ℕ, List, map, length, All, AllPairs, Contains, IsSome, IfOk, OnOk, OnErr, nat_eq, if◌then◌else◌};
ghost use Rattle.std.specs.List.{IsDistinct};
ghost use Rattle.std.specs.Option.{option_map};
ghost use Rattle.lg_dict.specs.Dictionary.{AreEntries, IsLongest};
ghost use Rattle.lg_dict.specs.Gathered.{AreGathered};
ghost use Rattle.lg_dict.specs.Lengths.{HasLengths};
ghost use Rattle.lg_dict.specs.Tables.{text_entries, text_keys, text_at, at_text, numbers_at, texts_at, Lists, same_text, other_stem, key_of, is_under};

use crate::compound::compound_first;
use crate::lengths::Lengths;
use crate::subscript::stem;
use indexmap::IndexMap;
use lg_base::{NoMemory, Text, Texts, copied};
use lg_gram::{Entry, Formula};
use lg_names::Salted;
use std::alloc::Global;

/// A table whose keys are words from outside.
pub(crate) type Table<V> = IndexMap<Vec<u8>, V, Salted>;

/// By what words are listed in a table beside the words.
#[derive(Clone, Copy, Debug, PartialEq, Eq)]
pub enum By {
    /// The stem, for a word that has a subscript.
    Stem,
    /// The first part, for a compound.
    First,
}

/// Where a macro's formula stands among the formulas, and its level.
#[derive(Clone, Copy, Debug, PartialEq, Eq)]
pub struct Macro {
    pub formula: usize,
    pub level: u32,
}

/// What entries come to: their formulas, and tables of the numbers of these.
pub(crate) struct Gathered {
    pub(crate) formulas: Vec<Formula>,
    pub(crate) words: Table<usize>,
    pub(crate) macros: Table<Macro>,
}

/// Takes entries apart: each word and each macro gets the number of its entry. The names move into the tables, and none is copied.
pub(crate) fn gather(
    alloc: Global,
    salted: Salted,
    entries: Vec<Entry>,
) -> Result<Gathered, NoMemory>
    requires { AreEntries entries.items }
    ensures { IfOk result (λ g. AreGathered entries.items g.formulas.items g.words g.macros) }
{
    let mut formulas = Vec::with_capacity(alloc, entries.len())?;
    let mut words = IndexMap::with_capacity_and_hasher(alloc, word_count(&entries), salted)?;
    let mut macros = IndexMap::with_hasher(alloc, salted);
    for entry in entries {
        // the call tells that the formula is within the limits
        let _expr = entry.formula.expr();
        let found = Macro {
            formula: formulas.len(),
            level: entry.level,
        };
        add_names(&mut words, entry.words, found.formula)?;
        add_names(&mut macros, entry.macros, found)?;
        formulas.push(entry.formula)?;
    }
    Ok(Gathered {
        formulas,
        words,
        macros,
    })
}

// How many words the entries have, for the room that their table wants.
fn word_count(entries: &[Entry]) -> usize {
    let mut count: usize = 0;
    for entry in entries {
        count = count.saturating_add(entry.words.items().len());
    }
    count
}

// Gives each name the value. None of the names is there yet.
fn add_names<V: Copy>(table: &mut Table<V>, names: Texts, value: V) -> Result<(), NoMemory>
    requires { IsDistinct same_text (text_keys table.old ++ names) }
    ensures { OnOk result (text_entries table.new ≡ text_entries table.old ++ map (λ name. (name, value)) names) }
{
    for name in names.into_items() {
        table.insert(name.into_bytes(), value)?;
    }
    Ok(())
}

/// Adds the keys of a table.
pub(crate) fn add_keys<'b, V>(
    found: &mut Vec<&'b [u8]>,
    table: &'b Table<V>,
) -> Result<(), NoMemory>
    ensures { OnOk result (map (λ key. key.now) found.new.items ≡ map (λ key. key.now) found.old.items ++ text_keys table.now) }
{
    for key in table.keys() {
        found.push(key.as_slice())?;
    }
    Ok(())
}

/// The length in bytes of the longest word; 0 where there is no word.
pub(crate) fn longest_word(words: &Table<usize>) -> usize
    ensures { IsLongest (Contains (text_keys words.now)) result }
{
    let mut longest = 0;
    for word in words.keys() {
        longest = longest.max(word.len());
    }
    longest
}

/// The lengths of the words and of their stems.
pub(crate) fn lengths_of(alloc: Global, words: &Table<usize>) -> Result<Lengths, NoMemory>
    ensures { IfOk result (λ lengths. (word : List ℕ) → Contains (text_keys words.now) word → HasLengths lengths word) }
{
    let mut lengths = Lengths::new(alloc);
    for word in words.keys() {
        lengths.add_word(word.as_slice())?;
    }
    Ok(lengths)
}

/// The greatest of a length in bytes and the lengths of these words. No memory.
pub(crate) fn longest_of(start: usize, words: &[Text]) -> usize
    ensures above { start ≤ result }
    ensures bounds { All (λ word. length word ≤ result) words.now }
{
    let mut longest = start;
    for word in words {
        longest = longest.max(word.bytes().len());
    }
    longest
}

/// The numbers of the words that are listed at each key.
pub(crate) fn list_table(
    alloc: Global,
    by: By,
    words: &Table<usize>,
) -> Result<Table<Vec<usize>>, NoMemory>
    ensures { IfOk result (Lists by (text_keys words.now)) }
{
    let count = listed_count(by, words);
    let mut lists = IndexMap::with_capacity_and_hasher(alloc, count, *words.hasher())?;
    for number in 0..words.len() {
        list_word(alloc, by, &mut lists, word_at(words, number), number)?;
    }
    Ok(lists)
}

// How many words are listed, for the room that their table wants: there are no more keys.
fn listed_count(by: By, words: &Table<usize>) -> usize {
    let mut count: usize = 0;
    for word in words.keys() {
        if key_under(by, word.as_slice()).is_some() {
            count = count.saturating_add(1);
        }
    }
    count
}

// The key by which a word is listed, if it is. No memory.
fn key_under(by: By, word: &[u8]) -> Option<&[u8]>
    ensures { option_map (λ key. key.now) result ≡ key_of by word.now }
{
    match by {
        By::Stem => other_stem(word),
        By::First => compound_first(word),
    }
}

// The stem of a word that has a subscript. No memory.
fn other_stem(word: &[u8]) -> Option<&[u8]>
    ensures { option_map (λ key. key.now) result ≡ other_stem word.now }
{
    let stem = stem(word);
    if stem == word {
        return None;
    }
    Some(stem)
}

/// The word of this number in a table of words; where there is none, no bytes. No memory.
pub(crate) fn word_at(words: &Table<usize>, number: usize) -> &[u8]
    ensures { result.now ≡ text_at (text_keys words.now) number }
{
    match words.get_index(number) {
        Some((word, _)) => word.as_slice(),
        None => &[],
    }
}

// Adds a word's number to those of its key, if it is listed.
fn list_word(
    alloc: Global,
    by: By,
    lists: &mut Table<Vec<usize>>,
    word: &[u8],
    number: usize,
) -> Result<(), NoMemory>
    ensures { OnOk result ((text : List ℕ) → numbers_at lists.new text ≡ (if is_under by text word.now then numbers_at lists.old text ++ number ∷ [] else numbers_at lists.old text)) }
{
    let Some(key) = key_under(by, word) else {
        return Ok(());
    };
    let key = copied(alloc, key)?;
    push_tightly(lists.entry(key)?.or_default(), number)?;
    Ok(())
}

// Adds a number to a list. Most keys have one word, so the first takes the room of one.
fn push_tightly(list: &mut Vec<usize>, number: usize) -> Result<(), NoMemory>
    ensures { OnOk result (list.new.items ≡ list.old.items ++ number ∷ []) }
{
    if list.is_empty() {
        list.reserve_exact(1)?;
    }
    list.push(number)?;
    Ok(())
}

/// The numbers that a table of lists has for a key. No memory.
pub(crate) fn numbers_under<'a>(lists: &'a Table<Vec<usize>>, key: &[u8]) -> &'a [usize]
    ensures { result.now ≡ numbers_at lists.now key.now }
{
    match lists.get(key) {
        Some(numbers) => numbers.as_slice(),
        None => &[],
    }
}

/// Adds a word to those that a table of lists has for its key, if it is listed. Out of memory, the table has the same for
/// each key.
pub(crate) fn list_text(
    alloc: Global,
    by: By,
    lists: &mut Table<Vec<Text>>,
    word: &[u8],
) -> Result<(), NoMemory>
    ensures unchanged { OnErr result ((text : List ℕ) → texts_at lists.new text ≡ texts_at lists.old text) }
    ensures listed { OnOk result ((text : List ℕ) → texts_at lists.new text ≡ (if is_under by text word.now then texts_at lists.old text ++ word.now ∷ [] else texts_at lists.old text)) }
{
    let Some(key) = key_under(by, word) else {
        return Ok(());
    };
    let text = Text::of(alloc, word)?;
    admit_key(alloc, lists, key)?;
    push_text(lists, key, text)
}

// Makes room for the words of a key.
fn admit_key(alloc: Global, lists: &mut Table<Vec<Text>>, key: &[u8]) -> Result<(), NoMemory>
    ensures same { (text : List ℕ) → texts_at lists.new text ≡ texts_at lists.old text }
    ensures there { OnOk result (IsSome (at_text lists.new key.now)) }
{
    if lists.contains_key(key) {
        return Ok(());
    }
    let copy = copied(alloc, key)?;
    lists.insert(copy, Vec::new(alloc))?;
    Ok(())
}

// Adds a word to those of a key, for which there is room.
fn push_text(lists: &mut Table<Vec<Text>>, key: &[u8], word: Text) -> Result<(), NoMemory>
    requires { IsSome (at_text lists.old key.now) }
    ensures unchanged { OnErr result ((text : List ℕ) → texts_at lists.new text ≡ texts_at lists.old text) }
    ensures pushed { OnOk result ((text : List ℕ) → texts_at lists.new text ≡ (if same_text text key.now then texts_at lists.old text ++ word ∷ [] else texts_at lists.old text)) }
{
    match lists.get_mut(key) {
        Some(words) => push(words, word),
        None => unreachable!(),
    }
}

fn push(words: &mut Vec<Text>, word: Text) -> Result<(), NoMemory>
    ensures unchanged { OnErr result (words.new.items ≡ words.old.items) }
    ensures pushed { OnOk result (words.new.items ≡ words.old.items ++ word ∷ []) }
{
    words.push(word)?;
    Ok(())
}

/// The words that a table of lists has for a key. No memory.
pub(crate) fn texts_under<'a>(lists: &'a Table<Vec<Text>>, key: &[u8]) -> &'a [Text]
    ensures { result.now ≡ texts_at lists.now key.now }
{
    match lists.get(key) {
        Some(words) => words.as_slice(),
        None => &[],
    }
}
