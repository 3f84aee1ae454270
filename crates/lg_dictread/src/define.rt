//! What the items of an entry define.

ghost use Rattle.std.specs.Prelude.{◌≡◌, ◌∷◌, [], map};
ghost use Rattle.lg_lex.specs.declared.run.Separators.TheVariants.{WhiteSpace};
ghost use Rattle.lg_lex.specs.Runs.{runs_from};
ghost use Rattle.std.specs.List.{AllByRecursion, zip};
ghost use Rattle.lg_base.specs.Files.{AsksWithin};
ghost use Rattle.lg_dictread.specs.Definitions.{on_line};
ghost use Rattle.lg_dictread.specs.Telling.{AsksFront, HasCause};
ghost use Rattle.lg_dictread.specs.Tables.{text_entries};
ghost use Rattle.lg_dictread.specs.Defining.{TellsNames, HasUtf8Name, asked_by, defined_in, listed_in, none_listed, ItemIs, ItemsAre, AddsDefined, TellsDefined};

use crate::dict_error::DictError;
use crate::table::{Table, add};
use crate::word_file::read_word_file;
use lg_base::{Files, Text};
use lg_gram::{Item, ItemKind};
use lg_lex::{Separators, bytes_are_utf8_or_at_fault, next_run, runs_are_one_list, without_mark};
use std::alloc::Global;

/// The words and the macros that are defined so far, each with the line of its item.
#[derive(Drop)]
pub(crate) struct Tables {
    pub(crate) words: Table<u32>,
    pub(crate) macros: Table<u32>,
}

/// The words and the macros that an entry defines.
#[derive(Drop)]
pub(crate) struct Names {
    pub(crate) words: Vec<Text>,
    pub(crate) macros: Vec<Text>,
}

/// Defines a name on a line.
fn define(
    alloc: Global,
    table: &mut Table<u32>,
    name: &[u8],
    line: u32,
    names: &mut Vec<Text>,
) -> Result<(), DictError>
    ensures { TellsNames (text_entries table.old) (text_entries table.new) names.old.items names.new.items ((name.now, line) ∷ []) result }
{
    if let Some(first) = add(alloc, table, name, line)? {
        return Err(DictError::DuplicateWord(Text::of(alloc, name)?, first, line));
    }
    if names.is_empty() {
        // most entries define one word
        names.reserve_exact(1)?;
    }
    names.push(Text::of(alloc, name)?)?;
    Ok(())
}

/// Defines the words of a word file, which stand between white space.
fn define_words(
    alloc: Global,
    table: &mut Table<u32>,
    text: &[u8],
    line: u32,
    names: &mut Vec<Text>,
) -> Result<(), DictError>
    ensures { TellsNames (text_entries table.old) (text_entries table.new) names.old.items names.new.items
        (on_line line (map (λ r. r.0) (runs_from WhiteSpace text.now 0))) result }
{
    let mut at = 0;
    while let Some(run) = next_run(Separators::WhiteSpace, text, at) {
        define(alloc, table, run.bytes, line, names)?;
        at = run.end;
    }
    Ok(())
}

/// Defines what an item names. A word file is read.
fn define_item<F: Files>(
    alloc: Global,
    tables: &mut Tables,
    item: &Item,
    line: u32,
    files: &mut F,
    names: &mut Names,
) -> Result<(), DictError>
    requires { HasUtf8Name item.now }
    ensures unchanged { F.contents files.new ≡ F.contents files.old }
    ensures told { TellsDefined (AsksWithin (F.asked files.old) (F.asked files.new) (asked_by item.now.kind item.now.text))
        (F.contents files.old) (ItemIs (defined_in tables.old) (item.now, line)) (F.asked files.old) (F.asked files.new)
        (λ _. AddsDefined (defined_in tables.old) (defined_in tables.new) (listed_in names.old) (listed_in names.new)) result }
    ensures cause { HasCause (F.faults files.old) (F.faults files.new) (F.asked files.new) result }
{
    runs_are_one_list();
    let text = item.text.bytes();
    match item.kind {
        ItemKind::Word => define(alloc, &mut tables.words, text, line, &mut names.words),
        ItemKind::Macro => define(alloc, &mut tables.macros, text, line, &mut names.macros),
        ItemKind::File => {
            let bytes = read_word_file(alloc, files, text, line)?;
            define_words(
                alloc,
                &mut tables.words,
                without_mark(&bytes),
                line,
                &mut names.words,
            )
        }
    }
}

/// Defines what items name, from left to right, each on its line.
pub(crate) fn define_items<F: Files>(
    alloc: Global,
    tables: &mut Tables,
    items: &[Item],
    lines: &[u32],
    files: &mut F,
) -> Result<Names, DictError>
    requires { AllByRecursion HasUtf8Name items.now }
    ensures unchanged { F.contents files.new ≡ F.contents files.old }
    ensures told { let is = ItemsAre (defined_in tables.old) (zip items.now lines.now) in
        TellsDefined (AsksFront (F.contents files.old) is (F.asked files.old) (F.asked files.new))
        (F.contents files.old) is (F.asked files.old) (F.asked files.new)
        (λ names. AddsDefined (defined_in tables.old) (defined_in tables.new) none_listed (listed_in names)) result }
    ensures cause { HasCause (F.faults files.old) (F.faults files.new) (F.asked files.new) result }
{
    runs_are_one_list();
    bytes_are_utf8_or_at_fault();
    let mut names = Names {
        words: Vec::new(alloc),
        macros: Vec::new(alloc),
    };
    for (item, line) in items.iter().zip(lines) {
        define_item(alloc, tables, item, *line, files, &mut names)?;
    }
    Ok(names)
}
