//! The text of a dictionary.

ghost use Rattle.std.specs.Prelude.{◌≡◌, ◌<◌, length, map, IfOk, IfErr};
ghost use Rattle.std.specs.Str.{IsUtf8};
ghost use Rattle.lg_gram.specs.Entries.{AreEntries};
ghost use Rattle.lg_lex.specs.declared.marks.Marks.TheVariants.{Dictionary};
ghost use Rattle.lg_lex.specs.Lexing.{tokens_from};
ghost use Rattle.lg_lex.specs.Spots.{IsSpot};
ghost use Rattle.lg_dictread.specs.Texts.{nothing, stands, refuse};
ghost use Rattle.lg_dictread.specs.DictTexts.{entry_meaning, TextOf, DictionaryOf, AsksInFront};
ghost use Rattle.lg_dictread.specs.Telling.{Answers, AsksFront, ErrorTells, HasCause};
ghost use Rattle.lg_dictread.specs.Reading.{IsKept, ListsAll, AreUtf8, TellsNext};

use crate::define::define_items;
use crate::dict_error::DictError;
use crate::earlier::Earlier;
use crate::formula::{fault_error, read_formula};
use crate::items::read_items;
use crate::law::{exactly_one_dictionary, exactly_one_entry};
use lg_base::Files;
use lg_expr::expressions_fit;
use lg_gram::Entry;
use lg_lex::{
    Marks, Spot, bytes_are_utf8_or_at_fault, next_spotted, parts_are_utf8, runs_are_one_list,
    tokens_are_one_list, tokens_are_utf8, utf8_fault, without_mark,
};
use std::alloc::Global;

/// Reads the entry at a spot, and answers the spot after it.
fn read_next<F: Files>(
    alloc: Global,
    earlier: &mut Earlier,
    text: &[u8],
    from: Spot,
    files: &mut F,
) -> Result<Spot, DictError>
    requires spot { IsSpot text.now from }
    requires utf8 { AreUtf8 (tokens_from Dictionary text.now from.at) }
    requires kept { IsKept earlier.old }
    requires listed { ListsAll earlier.old }
    ensures unchanged { F.contents files.new ≡ F.contents files.old }
    ensures told { TellsNext (F.contents files.old) text.now (tokens_from Dictionary text.now from.at) (F.asked files.old) (F.asked files.new) earlier.old earlier.new result }
    ensures spot { IfOk result (IsSpot text.now) }
    ensures fewer { IfOk result (λ end. length (tokens_from Dictionary text.now end.at) < length (tokens_from Dictionary text.now from.at)) }
    ensures utf8 { IfOk result (λ end. AreUtf8 (tokens_from Dictionary text.now end.at)) }
    ensures kept { IfOk result (λ _. IsKept earlier.new) }
    ensures listed { IfOk result (λ _. ListsAll earlier.new) }
    ensures cause { HasCause (F.faults files.old) (F.faults files.new) (F.asked files.new) result }
{
    exactly_one_entry();
    expressions_fit();
    runs_are_one_list();
    bytes_are_utf8_or_at_fault();
    let head = match read_items(alloc, text, from) {
        Ok(head) => head,
        Err(stop) => return Err(fault_error(alloc, stop)),
    };
    let line = head.lines[0];
    let read = read_formula(alloc, earlier, text, head.end, line)?;
    let names = define_items(
        alloc,
        &mut earlier.tables,
        head.items.as_slice(),
        head.lines.as_slice(),
        files,
    )?;
    let end = read.end;
    earlier.push(alloc, names, read, line)?;
    Ok(end)
}

/// The entries of a text that is UTF-8 and has no byte order mark.
fn read_text<F: Files>(alloc: Global, text: &[u8], files: &mut F) -> Result<Vec<Entry>, DictError>
    requires { IsUtf8 text.now }
    ensures unchanged { F.contents files.new ≡ F.contents files.old }
    ensures value { IfOk result (λ entries. Answers (F.contents files.old) (TextOf text.now nothing (tokens_from Dictionary text.now 0))
        (F.asked files.old) (F.asked files.new) (stands (map entry_meaning entries.items))) }
    ensures fault { let is = TextOf text.now nothing (tokens_from Dictionary text.now 0) in
        IfErr result (ErrorTells (AsksFront (F.contents files.old) is (F.asked files.old) (F.asked files.new)) (F.contents files.old) is refuse (F.asked files.old) (F.asked files.new)) }
    ensures fit { IfOk result (λ entries. AreEntries entries.items) }
    ensures cause { HasCause (F.faults files.old) (F.faults files.new) (F.asked files.new) result }
{
    exactly_one_entry();
    tokens_are_one_list();
    tokens_are_utf8();
    runs_are_one_list();
    bytes_are_utf8_or_at_fault();
    let mut earlier = Earlier::new(alloc, text);
    let mut spot = Spot::START;
    while next_spotted(Marks::Dictionary, text, spot).is_some() {
        spot = read_next(alloc, &mut earlier, text, spot, files)?;
    }
    Ok(earlier.entries)
}

/// The entries of a dictionary, in their order, or the first fault of its text.
///
/// The text is first tested for UTF-8, and a byte order mark at its start is passed over. Within an entry the first token
/// at fault comes first, then the measures of its expression, and then its items from left to right; a word file is read
/// where its item stands. A macro may be named from the next entry on. After a word file that was not read no other is.
/// The time is linear in the text and the word files, but for the macros that are put in.
pub fn read_dict<F: Files>(
    alloc: Global,
    bytes: &[u8],
    files: &mut F,
) -> Result<Vec<Entry>, DictError>
    ensures unchanged { F.contents files.new ≡ F.contents files.old }
    ensures value { IfOk result (λ entries. Answers (F.contents files.old) (DictionaryOf bytes.now)
        (F.asked files.old) (F.asked files.new) (stands (map entry_meaning entries.items))) }
    ensures fault { let is = DictionaryOf bytes.now in
        IfErr result (ErrorTells (AsksFront (F.contents files.old) is (F.asked files.old) (F.asked files.new)) (F.contents files.old) is refuse (F.asked files.old) (F.asked files.new)) }
    ensures asks { AsksInFront (F.contents files.old) bytes.now (F.asked files.old) (F.asked files.new) }
    ensures fit { IfOk result (λ entries. AreEntries entries.items) }
    ensures cause { HasCause (F.faults files.old) (F.faults files.new) (F.asked files.new) result }
{
    tokens_are_one_list();
    bytes_are_utf8_or_at_fault();
    parts_are_utf8();
    exactly_one_dictionary();
    match utf8_fault(bytes) {
        Some(byte) => Err(DictError::NotUtf8(byte)),
        None => read_text(alloc, without_mark(bytes), files),
    }
}
