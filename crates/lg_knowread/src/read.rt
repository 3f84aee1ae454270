//! Whole knowledge texts.

ghost use Rattle.std.specs.Prelude.{◌≡◌, ◌≤◌, length, IfOk};
ghost use Rattle.lg_lex.specs.declared.marks.Marks.TheVariants as marks;
ghost use Rattle.lg_lex.specs.Lexing.{tokens_from};
ghost use Rattle.lg_knowread.specs.Reading.{error_at, TellsKnowledge};
ghost use Rattle.lg_knowread.specs.Automaton.{answer_of};
ghost use Rattle.lg_knowread.specs.View.{TellsAnswer, TellsRefusal};

use crate::fault::{Fault, KnowError, Refusal};
use crate::knowledge::Knowledge;
use crate::reading::{Reading, State};
use lg_gram::law::names_are_written;
use lg_lex::{Location, Marks, Spot, next_spotted, tokens_are_one_list, utf8_fault, without_mark};
use std::alloc::Global;

/// The knowledge of a text: its statements one after another, each a section's name, a colon, what it says and a
/// semicolon.
///
/// The format is after link-parser's knowledge of post-processing. The text is first tested for UTF-8. A byte order mark
/// at its start is passed over. The error is the first fault. There are no more rules than the text has bytes. The time
/// is linear in the text.
pub fn read_knowledge(alloc: Global, bytes: &[u8]) -> Result<Knowledge, KnowError>
    ensures told { TellsKnowledge bytes.now result }
    ensures few { IfOk result (λ k. length k.rules ≤ length bytes.now) }
{
    tokens_are_one_list();
    names_are_written();
    match utf8_fault(bytes) {
        Some(byte) => Err(KnowError::NotUtf8(byte)),
        None => read_text(alloc, without_mark(bytes)),
    }
}

/// The knowledge of a text that is UTF-8 and has no byte order mark.
fn read_text(alloc: Global, text: &[u8]) -> Result<Knowledge, KnowError>
    ensures told { TellsAnswer text.now (answer_of (tokens_from marks.Knowledge text.now 0)) result }
    ensures few { IfOk result (λ k. length k.rules ≤ length text.now) }
{
    let mut reading = Reading {
        knowledge: Knowledge::new(alloc),
        state: State::Name,
    };
    let mut spot = Spot::START;
    while let Some(found) = next_spotted(Marks::Knowledge, text, spot) {
        match reading.advance(alloc, &found.token) {
            Ok(next) => reading = next,
            Err(refusal) => return Err(error_of(refusal, found.start.location)),
        }
        spot = found.end;
    }
    match reading.state {
        State::Name => Ok(reading.knowledge),
        _ => Err(error_at(Fault::Syntax, spot.on_to(text, text.len()).location)),
    }
}

/// The error of a token that was not taken, which starts at this location.
fn error_of(refusal: Refusal, location: Location) -> KnowError
    ensures { TellsRefusal refusal location result }
{
    match refusal {
        Refusal::NoMemory => KnowError::NoMemory,
        Refusal::Fault(fault) => error_at(fault, location),
    }
}

/// The error of a fault at this location.
fn error_at(fault: Fault, location: Location) -> KnowError
    ensures { result ≡ error_at fault location }
{
    match fault {
        Fault::UnknownSection => KnowError::UnknownSection(location.line),
        Fault::BadPattern => KnowError::BadPattern(location.line),
        Fault::BadType => KnowError::BadType(location.line),
        Fault::Syntax => KnowError::Syntax(location.line, location.column),
    }
}
