//! Commands by their word and what follows it.

ghost use Rattle.std.specs.Prelude.{◌≡◌, ◌↔◌, true, codes, Ok, IfOk};
ghost use Rattle.std.specs.List.{AllByRecursion};
ghost use Rattle.lg_gram.specs.declared.entry.Item.{Item};
ghost use Rattle.lg_gram.specs.declared.entry.ItemKind.TheVariants as kinds;
ghost use Rattle.lg_edit.specs.Edits.{DefinesWords, DefinesOneMacro};
ghost use Rattle.lg_gram.specs.EntryViews.{entry_view};
ghost use Rattle.lg_lex.specs.declared.run.Separators.TheVariants.{Blanks};
ghost use Rattle.lg_lex.specs.Runs.{AreInner};
ghost use Rattle.lg_script.specs.Commands.{CommandIs, command_view};
ghost use Rattle.lg_script.specs.Parts.{EndsInner};
ghost use Rattle.lg_script.specs.Telling.{TellsCommand, IsRefusal};

use crate::command::Command;
use crate::line::first_word;
use crate::listing::listing_of;
use crate::script_error::ScriptError;
use lg_base::{NoMemory, Text};
use lg_dictread::{EntryError, read_entry};
use lg_edit::Edit;
use lg_gram::{Item, ItemKind, RawEntry};
use std::alloc::Global;

/// The command of a line, by its word and its rest.
pub(crate) fn command_of(
    alloc: Global,
    line: u32,
    word: &[u8],
    rest: &[u8],
) -> Result<Command, ScriptError>
    requires { EndsInner rest.now }
    ensures { TellsCommand line word.now rest.now result }
{
    if word == b"parse".as_slice() {
        Ok(parse(alloc, rest)?)
    } else if word == b"list".as_slice() {
        list(alloc, line, rest)
    } else if word == b"more".as_slice() {
        more(line, rest)
    } else if word == b"version".as_slice() {
        version(line, rest)
    } else if word == b"set".as_slice() {
        set(alloc, line, rest)
    } else if word == b"macro".as_slice() {
        set_macro(alloc, line, rest)
    } else if word == b"del".as_slice() {
        del(alloc, line, rest)
    } else {
        Err(ScriptError::UnknownCommand(line))
    }
}

fn parse(alloc: Global, rest: &[u8]) -> Result<Command, NoMemory>
    ensures { IfOk result (λ command. CommandIs (codes "parse") rest.now (Ok (command_view command))) }
{
    Ok(Command::Parse(Text::of(alloc, rest)?))
}

fn list(alloc: Global, line: u32, rest: &[u8]) -> Result<Command, ScriptError>
    requires { EndsInner rest.now }
    ensures { TellsCommand line (codes "list") rest.now result }
{
    match listing_of(rest) {
        None => Err(ScriptError::BadNumber(line)),
        Some(listing) => {
            let sentence = Text::of(alloc, listing.sentence)?;
            Ok(Command::List(listing.from, listing.want, sentence))
        }
    }
}

fn more(line: u32, rest: &[u8]) -> Result<Command, ScriptError>
    ensures { TellsCommand line (codes "more") rest.now result }
{
    if rest.is_empty() {
        Ok(Command::More)
    } else {
        Err(ScriptError::UnknownCommand(line))
    }
}

fn version(line: u32, rest: &[u8]) -> Result<Command, ScriptError>
    ensures { TellsCommand line (codes "version") rest.now result }
{
    if rest.is_empty() {
        Ok(Command::Version)
    } else {
        Err(ScriptError::UnknownCommand(line))
    }
}

fn set(alloc: Global, line: u32, rest: &[u8]) -> Result<Command, ScriptError>
    ensures { TellsCommand line (codes "set") rest.now result }
{
    match read_entry(alloc, rest) {
        Ok(entry) => {
            if are_words(&entry) {
                Ok(Command::Edit(Edit::Put(entry)))
            } else {
                Err(ScriptError::BadEdit(line))
            }
        }
        Err(error) => Err(refusal(line, error)),
    }
}

fn set_macro(alloc: Global, line: u32, rest: &[u8]) -> Result<Command, ScriptError>
    ensures { TellsCommand line (codes "macro") rest.now result }
{
    match read_entry(alloc, rest) {
        Ok(entry) => {
            if is_one_macro(&entry) {
                Ok(Command::Edit(Edit::Macro(entry)))
            } else {
                Err(ScriptError::BadEdit(line))
            }
        }
        Err(error) => Err(refusal(line, error)),
    }
}

fn del(alloc: Global, line: u32, rest: &[u8]) -> Result<Command, ScriptError>
    ensures { TellsCommand line (codes "del") rest.now result }
{
    if rest.is_empty() || !is_word(rest) {
        return Err(ScriptError::BadEdit(line));
    }
    Ok(Command::Edit(Edit::Del(Text::of(alloc, rest)?)))
}

/// Whether no blank is among the bytes.
fn is_word(bytes: &[u8]) -> bool
    ensures { (result ≡ true) ↔ AreInner Blanks bytes.now }
{
    let (_, behind) = first_word(bytes);
    behind.is_empty()
}

/// Whether each item is a word.
fn are_words(entry: &RawEntry) -> bool
    ensures { (result ≡ true) ↔ DefinesWords (entry_view entry.now) }
{
    for item in entry.items.items() {
        if item.kind != ItemKind::Word {
            return false;
        }
    }
    true
}

/// Whether the one item is a macro.
fn is_one_macro(entry: &RawEntry) -> bool
    ensures { (result ≡ true) ↔ DefinesOneMacro (entry_view entry.now) }
{
    match entry.items.items() {
        [item] => item.kind == ItemKind::Macro,
        _ => false,
    }
}

/// The error of an edit whose text is no entry.
fn refusal(line: u32, error: EntryError) -> ScriptError
    ensures { IsRefusal line error result }
{
    match error {
        EntryError::NoMemory => ScriptError::NoMemory,
        _ => ScriptError::BadEdit(line),
    }
}
