ghost use Rattle.std.specs.Prelude.{◌≡◌, ◌≤◌, ℕ, List, length, Result, Ok};
ghost use Rattle.lg_lex.specs.Tokens.{Token};
ghost use Rattle.lg_expr.specs.Grammar.{Rules};
ghost use Rattle.lg_dictread.specs.Entries.{EntryAnswer, EntryIs};
ghost use Rattle.lg_dictread.specs.Scanning.{answer_of};
ghost use Rattle.lg_dictread.specs.declared.entry_text.EntryError.{EntryError};
ghost use Rattle.lg_gram.specs.EntryBounds.{IsEntryInBounds};
ghost use Rattle.lg_gram.specs.EntryViews.{EntryView};
ghost use Rattle.lg_dictread.specs.EntryTexts.{EntryTextIs};
ghost use Rattle.lg_dictread.specs.Limits.{FILE};
ghost use Rattle.lg_base.specs.Contents.{Contents};
ghost use Rattle.lg_dictread.specs.Findings.{Asked};
ghost use Rattle.lg_dictread.specs.Texts.{TextAnswer, DictionaryGives, DictionaryIs};

use lg_expr::{exactly_one, expressions_keep_bounds};
use lg_lex::{
    bytes_are_utf8_or_at_fault, runs_are_one_list, tokens_are_no_more_than_bytes,
    tokens_are_one_list,
};

/// At the front of some tokens stands one entry, or they have one first fault.
///
/// The function does nothing: a caller whose proof needs the fact calls it.
pub fn exactly_one_entry()
    ensures some { (r : Rules) (ts : List Token) → EntryIs r ts (answer_of r ts) }
    ensures one { (r : Rules) (ts : List Token) (x y : EntryAnswer) → EntryIs r ts x → EntryIs r ts y → x ≡ y }
{
    exactly_one();
}

/// A text is one entry or has one first fault.
///
/// The function does nothing: a caller whose proof needs the fact calls it.
pub fn exactly_one_entry_text()
    ensures some { (bytes : List ℕ) → (x : Result EntryView EntryError) × EntryTextIs bytes x }
    ensures one { (bytes : List ℕ) (x y : Result EntryView EntryError) → EntryTextIs bytes x → EntryTextIs bytes y → x ≡ y }
{
    tokens_are_one_list();
    bytes_are_utf8_or_at_fault();
    exactly_one_entry();
}

/// An entry that is read from a text of at most 67,108,864 bytes is within its bounds: it keeps to its level, and its costs
/// and the number of macros that it names are small.
///
/// The function does nothing: a caller whose proof needs the fact calls it.
pub fn entry_texts_keep_bounds()
    ensures { (bytes : List ℕ) (e : EntryView) → length bytes ≤ FILE → EntryTextIs bytes (Ok e) → IsEntryInBounds e }
{
    tokens_are_no_more_than_bytes();
    expressions_keep_bounds();
}

/// A dictionary file stands for one list of entries or has one first fault, and it asks for one list of word files, by what
/// is found of the files or by what they hold.
///
/// The function does nothing: a caller whose proof needs the fact calls it.
pub fn exactly_one_dictionary()
    ensures some { (contents : Contents) (bytes : List ℕ) → (asked : List (List ℕ)) × (answer : TextAnswer) × DictionaryIs contents bytes asked answer }
    ensures one { (contents : Contents) (bytes : List ℕ) (asked other : List (List ℕ)) (x y : TextAnswer) →
        DictionaryIs contents bytes asked x → DictionaryIs contents bytes other y → (asked ≡ other) × (x ≡ y) }
    ensures found { (bytes : List ℕ) (asked : List Asked) (x y : TextAnswer) → DictionaryGives bytes asked x → DictionaryGives bytes asked y → x ≡ y }
{
    runs_are_one_list();
    tokens_are_one_list();
    bytes_are_utf8_or_at_fault();
    exactly_one_entry();
}
