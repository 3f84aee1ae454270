//! What is written of sessions.
ghost use Rattle.std.specs.Prelude.{◌≡◌, ◌++◌, IfOk};
ghost use Rattle.lg_run.specs.Documents.{journal_with};
ghost use Rattle.lg_run.specs.Lines.{joined};
ghost use Rattle.lg_run.specs.Printers.{texts_of, printed_text};
ghost use Rattle.lg_run.specs.Written.{Writes, HasHaltCause};

use crate::printer::PrintedSession;
use lg_base::{NoMemory, Sink, SinkFault, write_bytes};
use lg_gram::Place;
use lg_session::Outcome;
use lg_text::journal_text;
use std::alloc::Global;

/// Why a document is not written whole.
#[derive(Clone, Copy, Debug, PartialEq, Eq)]
pub enum Halt {
    Memory,
    Output,
}

/// Writes what sessions are answered, each answer as one piece, and then their journal as one more, with these lines before its last
/// one.
pub(crate) fn write_outcome<O: Sink>(
    alloc: Global,
    outcome: &Outcome<PrintedSession>,
    lines: &[u8],
    out: &mut O,
) -> Result<(), Halt>
    ensures written { Writes (O.written out.old) (O.written out.new) (printed_text outcome.now.kept.items ++ journal_with lines.now outcome.now.journal) result }
    ensures cause { HasHaltCause (O.faults out.old) (O.faults out.new) result }
{
    write_sessions(outcome.kept.as_slice(), out)?;
    write_journal(alloc, outcome.journal.items(), lines, out)
}

// Writes the texts of all sessions.
fn write_sessions<O: Sink>(all: &[PrintedSession], out: &mut O) -> Result<(), Halt>
    ensures written { Writes (O.written out.old) (O.written out.new) (printed_text all.now) result }
    ensures cause { HasHaltCause (O.faults out.old) (O.faults out.new) result }
{
    for printed in all {
        write_session(printed.pieces.as_slice(), out)?;
    }
    Ok(())
}

// Writes the texts of a session, one piece after another.
fn write_session<O: Sink>(pieces: &[Vec<u8>], out: &mut O) -> Result<(), Halt>
    ensures written { Writes (O.written out.old) (O.written out.new) (joined (texts_of pieces.now)) result }
    ensures cause { HasHaltCause (O.faults out.old) (O.faults out.new) result }
{
    for piece in pieces {
        put(out, piece)?;
    }
    Ok(())
}

// Writes the journal, with these lines before its last one.
fn write_journal<O: Sink>(
    alloc: Global,
    journal: &[Place],
    lines: &[u8],
    out: &mut O,
) -> Result<(), Halt>
    ensures written { Writes (O.written out.old) (O.written out.new) (journal_with lines.now journal.now) result }
    ensures cause { HasHaltCause (O.faults out.old) (O.faults out.new) result }
{
    match journal_with(alloc, journal, lines) {
        Ok(text) => put(out, &text),
        Err(NoMemory) => Err(Halt::Memory),
    }
}

// The last line of a journal.
const DONE: &[u8] = b"done\n";

// The text of the journal, with these lines before its last one.
fn journal_with(alloc: Global, journal: &[Place], lines: &[u8]) -> Result<Vec<u8>, NoMemory>
    ensures { IfOk result (λ text. text.items ≡ journal_with lines.now journal.now) }
{
    let mut text = journal_text(alloc, journal)?;
    text.truncate(text.len() - DONE.len());
    write_bytes(&mut text, lines)?;
    write_bytes(&mut text, DONE)?;
    Ok(text)
}

// Writes one piece.
pub(crate) fn put<O: Sink>(out: &mut O, bytes: &[u8]) -> Result<(), Halt>
    ensures written { Writes (O.written out.old) (O.written out.new) bytes.now result }
    ensures cause { HasHaltCause (O.faults out.old) (O.faults out.new) result }
{
    match out.put(bytes) {
        Ok(()) => Ok(()),
        Err(SinkFault) => Err(Halt::Output),
    }
}
