//! Whole scripts.

ghost use Rattle.lg_script.specs.Scripts.{TellsScript};
ghost use Rattle.lg_script.specs.Telling.{TellsLine, TellsText, AddsLine};

use crate::command::Command;
use crate::line::{body_of, first_line, first_word, skip_blanks, trim};
use crate::parts::command_of;
use crate::script_error::ScriptError;
use lg_lex::{utf8_fault, without_mark};
use std::alloc::Global;

/// The commands of a script: a line each, but for lines of blanks and comments.
///
/// The text is first tested for UTF-8. A byte order mark at its start is passed over, and so is a carriage return at the
/// end of a line. The error is the first fault. The time is linear in the text.
pub fn read_script(alloc: Global, bytes: &[u8]) -> Result<Vec<Command>, ScriptError>
    ensures { TellsScript bytes.now result }
{
    match utf8_fault(bytes) {
        Some(byte) => Err(ScriptError::NotUtf8(byte)),
        None => read_text(alloc, without_mark(bytes)),
    }
}

/// The commands of a text that is UTF-8 and has no byte order mark.
fn read_text(alloc: Global, text: &[u8]) -> Result<Vec<Command>, ScriptError>
    ensures { TellsText text.now result }
{
    let mut commands = Vec::new(alloc);
    let mut left = text;
    let mut number: u32 = 1;
    loop {
        let (line, rest) = first_line(left);
        add_line(alloc, &mut commands, number, line)?;
        match rest {
            Some(rest) => left = rest,
            None => return Ok(commands),
        }
        number = number.saturating_add(1);
    }
}

/// Adds the command of a line, if it is not passed over.
fn add_line(
    alloc: Global,
    commands: &mut Vec<Command>,
    number: u32,
    line: &[u8],
) -> Result<(), ScriptError>
    ensures { AddsLine number line.now commands.old.items commands.new.items result }
{
    if let Some(command) = read_line(alloc, number, line)? {
        commands.push(command)?;
    }
    Ok(())
}

/// The command of a line, or none where it is passed over.
fn read_line(alloc: Global, number: u32, line: &[u8]) -> Result<Option<Command>, ScriptError>
    ensures { TellsLine number line.now result }
{
    let body = skip_blanks(body_of(line));
    if body.is_empty() || body[0] == b'%' {
        return Ok(None);
    }
    let (word, behind) = first_word(body);
    Ok(Some(command_of(alloc, number, word, trim(behind))?))
}
