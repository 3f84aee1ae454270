//! A text of exactly one entry, as an edit has it.

ghost use Rattle.std.specs.Prelude.{◌≡◌};
ghost use Rattle.lg_lex.specs.declared.marks.Marks.TheVariants.{Dictionary};
ghost use Rattle.lg_lex.specs.Lexing.{tokens_from};
ghost use Rattle.lg_dictread.specs.EntryTexts.{free_rules, TellsEntryText};
ghost use Rattle.lg_dictread.specs.View.{KnowsMacros, IsErrorOf, TellsAlone};
ghost use Rattle.lg_dictread.specs.Scanning.{answer_of};

use crate::entry::read_one;
use crate::law::exactly_one_entry;
use crate::stop::Stop;
use lg_expr::{Known, Macros};
use lg_gram::RawEntry;
use lg_gram::macros::LEVEL;
use lg_lex::{Location, Marks, Spot, next_spotted, tokens_are_one_list, utf8_fault};
use std::alloc::Global;
use thiserror::Error;

/// Why a text is not one entry: the first fault. Lines and columns count from 1, and columns count bytes.
#[derive(Clone, Copy, Debug, PartialEq, Eq, Error)]
pub enum EntryError {
    /// Memory ran out.
    #[error("out of memory")]
    NoMemory,
    /// The number, from 0, of the first byte that belongs to no whole valid character.
    #[error("byte {0} is not UTF-8")]
    NotUtf8(u64),
    /// The line and the column of a token that the grammar does not allow there, of a token after the entry, or of the
    /// end of the text inside the entry.
    #[error("line {0} column {1}: syntax")]
    Syntax(u32, u32),
    /// The line of a token that begins as a number, in a cost's place, and is no cost number.
    #[error("line {0}: cost form")]
    CostForm(u32),
    /// The line of the 201st bracket that is open.
    #[error("line {0}: too deep")]
    TooDeep(u32),
}

/// Every macro may be named, at any depth: what it stands for is asked when an edit is accepted.
#[derive(Clone, Copy, Debug)]
struct FreeMacros;

impl Macros for FreeMacros {
    ghost use Rattle.lg_expr.specs.declared.macros.Known.TheVariants.{Free};

    ghost known = { λ _ _. Free };

    fn known(&self, _name: &[u8]) -> Known {
        Known::Free
    }
}

/// A text that holds exactly one entry, with its macros as they are named.
///
/// The text is first tested for UTF-8. A byte order mark at its start is part of its first token. A token after the entry's `;` is a
/// syntax error there. The time is linear in the text.
pub fn read_entry(alloc: Global, bytes: &[u8]) -> Result<RawEntry, EntryError>
    ensures { TellsEntryText bytes.now result }
{
    tokens_are_one_list();
    exactly_one_entry();
    match utf8_fault(bytes) {
        Some(byte) => Err(EntryError::NotUtf8(byte)),
        None => read_alone(alloc, bytes),
    }
}

/// The entry of a text that is UTF-8.
fn read_alone(alloc: Global, text: &[u8]) -> Result<RawEntry, EntryError>
    ensures { TellsAlone text.now (answer_of free_rules (tokens_from Dictionary text.now 0)) result }
{
    exactly_one_entry();
    match read_one(alloc, &FreeMacros, LEVEL, text, Spot::START) {
        Ok(one) => match next_spotted(Marks::Dictionary, text, one.end) {
            None => Ok(one.entry),
            Some(found) => Err(syntax_at(found.start.location)),
        },
        Err(stop) => Err(entry_error(stop)),
    }
}

fn syntax_at(location: Location) -> EntryError
    ensures { result ≡ EntryError.Syntax location.line location.column }
{
    EntryError::Syntax(location.line, location.column)
}

/// The error that tells a fault of an entry, whose macros are all known.
fn entry_error(stop: Stop<'_>) -> EntryError
    requires { KnowsMacros stop }
    ensures { IsErrorOf stop.entry result }
{
    match stop {
        Stop::NoMemory => EntryError::NoMemory,
        Stop::Syntax(location) => syntax_at(location),
        Stop::CostForm(line) => EntryError::CostForm(line),
        Stop::UnknownMacro(_, _) => unreachable!(),
        Stop::TooDeep(line) => EntryError::TooDeep(line),
    }
}
