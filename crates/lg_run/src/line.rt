//! The lines that say why a text is refused.
ghost use Rattle.std.specs.Prelude.{◌≡◌, ◌∷◌, ◌++◌, [], IfOk, OnOk, map, decimal};
ghost use Rattle.std.specs.List.{flat_map};
ghost use Rattle.lg_run.specs.Lines.{refusal_line, on_line, not_utf8, syntax_at, line_about, dict_line, know_line, script_line, edits_line, versions_line, quote_line};
ghost use Rattle.lg_run.specs.Pieces.{piece_text};
ghost use Rattle.lg_dictread.specs.declared.dict_error.DictError.TheVariants as errors;

use lg_base::{NoMemory, write_bytes, write_number};
use lg_dictread::{DictError, WordFileError};
use lg_knowread::KnowError;
use lg_script::ScriptError;
use std::alloc::Global;

/// A part of a line.
#[derive(Clone, Copy, Debug)]
pub enum Piece<'a> {
    Text(&'a [u8]),
    Number(u64),
}

/// The line of an error of the dictionary with this name. A word file's own faults have the word file's name.
pub(crate) fn dict_line(alloc: Global, name: &[u8], error: &DictError) -> Result<Vec<u8>, NoMemory>
    ensures { IfOk result (λ line. line.items ≡ dict_line name.now error.now) }
{
    match error {
        DictError::NoMemory => about(alloc, b"lgparse: out of memory\n", b"", b""),
        DictError::NotUtf8(byte) => byte_line(alloc, name, *byte),
        DictError::Syntax(line, column) => syntax_line(alloc, name, *line, *column),
        DictError::UnknownMacro(line, text) => macro_line(alloc, name, *line, text.bytes()),
        DictError::CostForm(line) => bare_line(alloc, name, *line, b"cost form"),
        DictError::TooDeep(line) => bare_line(alloc, name, *line, b"too deep"),
        DictError::TooManyNodes(line, count) => {
            count_line(alloc, name, *line, b"too many nodes ", *count)
        }
        DictError::TooManyChoices(line, count) => {
            count_line(alloc, name, *line, b"too many choices ", *count)
        }
        DictError::SideTooLong(line, count) => {
            let count = u64::from(*count);
            count_line(alloc, name, *line, b"too many connectors on a side ", count)
        }
        DictError::DuplicateWord(word, first, again) => {
            duplicate_line(alloc, name, word.bytes(), *first, *again)
        }
        DictError::WordFile(_, file, cause) => word_file_line(alloc, file.bytes(), *cause),
    }
}

/// The line of an error of the knowledge with this name.
pub(crate) fn know_line(alloc: Global, name: &[u8], error: KnowError) -> Result<Vec<u8>, NoMemory>
    ensures { IfOk result (λ line. line.items ≡ know_line name.now error) }
{
    match error {
        KnowError::NoMemory => about(alloc, b"lgparse: out of memory\n", b"", b""),
        KnowError::NotUtf8(byte) => byte_line(alloc, name, byte),
        KnowError::Syntax(line, column) => syntax_line(alloc, name, line, column),
        KnowError::UnknownSection(line) => bare_line(alloc, name, line, b"unknown section"),
        KnowError::BadPattern(line) => bare_line(alloc, name, line, b"pattern"),
        KnowError::BadType(line) => bare_line(alloc, name, line, b"domain type"),
    }
}

/// The line of an error of the script with this name.
pub(crate) fn script_line(
    alloc: Global,
    name: &[u8],
    error: ScriptError,
) -> Result<Vec<u8>, NoMemory>
    ensures { IfOk result (λ line. line.items ≡ script_line name.now error) }
{
    match error {
        ScriptError::NoMemory => about(alloc, b"lgparse: out of memory\n", b"", b""),
        ScriptError::NotUtf8(byte) => byte_line(alloc, name, byte),
        ScriptError::UnknownCommand(line) => bare_line(alloc, name, line, b"unknown command"),
        ScriptError::BadNumber(line) => bare_line(alloc, name, line, b"number"),
        ScriptError::BadEdit(line) => bare_line(alloc, name, line, b"edit"),
    }
}

/// The line of a script with which the edits become too many.
pub(crate) fn edits_line(alloc: Global, name: &[u8]) -> Result<Vec<u8>, NoMemory>
    ensures { IfOk result (λ line. line.items ≡ edits_line name.now) }
{
    refusal(alloc, name, &[Piece::Text(b"more than 100000 edits")])
}

/// The line of a script of which only so many edits are accepted.
pub(crate) fn versions_line(alloc: Global, name: &[u8], count: u32) -> Result<Vec<u8>, NoMemory>
    ensures { IfOk result (λ line. line.items ≡ versions_line name.now count) }
{
    let why = [
        Piece::Text(b"only "),
        Piece::Number(u64::from(count)),
        Piece::Text(b" versions"),
    ];
    refusal(alloc, name, &why)
}

/// The line of a dictionary with a word that has a quote.
pub(crate) fn quote_line(alloc: Global, name: &[u8], word: &[u8]) -> Result<Vec<u8>, NoMemory>
    ensures { IfOk result (λ line. line.items ≡ quote_line name.now word.now) }
{
    refusal(
        alloc,
        name,
        &[Piece::Text(word), Piece::Text(b" has a quote")],
    )
}

fn word_file_line(alloc: Global, name: &[u8], cause: WordFileError) -> Result<Vec<u8>, NoMemory>
    ensures { IfOk result (λ line. line.items ≡ dict_line [] (errors.WordFile 0 name.now cause)) }
{
    match cause {
        WordFileError::Failed => about(alloc, b"lgparse: cannot read ", name, b"\n"),
        WordFileError::TooLong => {
            about(
                alloc,
                b"lgparse: ",
                name,
                b" is longer than 67108864 bytes\n",
            )
        }
        WordFileError::NotUtf8(byte) => byte_line(alloc, name, byte),
    }
}

fn about(alloc: Global, front: &[u8], name: &[u8], back: &[u8]) -> Result<Vec<u8>, NoMemory>
    ensures { IfOk result (λ line. line.items ≡ line_about front.now name.now back.now) }
{
    let mut line = Vec::new(alloc);
    write_bytes(&mut line, front)?;
    write_bytes(&mut line, name)?;
    write_bytes(&mut line, back)?;
    Ok(line)
}

fn byte_line(alloc: Global, name: &[u8], byte: u64) -> Result<Vec<u8>, NoMemory>
    ensures { IfOk result (λ line. line.items ≡ refusal_line name.now (not_utf8 byte)) }
{
    refusal(
        alloc,
        name,
        &[
            Piece::Text(b"byte "),
            Piece::Number(byte),
            Piece::Text(b" is not UTF-8"),
        ],
    )
}

fn syntax_line(alloc: Global, name: &[u8], line: u32, column: u32) -> Result<Vec<u8>, NoMemory>
    ensures { IfOk result (λ text. text.items ≡ refusal_line name.now (syntax_at line column)) }
{
    let why = [
        Piece::Text(b"line "),
        Piece::Number(u64::from(line)),
        Piece::Text(b" column "),
        Piece::Number(u64::from(column)),
        Piece::Text(b": syntax"),
    ];
    refusal(alloc, name, &why)
}

fn bare_line(alloc: Global, name: &[u8], line: u32, why: &[u8]) -> Result<Vec<u8>, NoMemory>
    ensures { IfOk result (λ text. text.items ≡ refusal_line name.now (on_line line (why.now ∷ []))) }
{
    let why = [
        Piece::Text(b"line "),
        Piece::Number(u64::from(line)),
        Piece::Text(b": "),
        Piece::Text(why),
    ];
    refusal(alloc, name, &why)
}

fn macro_line(alloc: Global, name: &[u8], line: u32, text: &[u8]) -> Result<Vec<u8>, NoMemory>
    ensures { IfOk result (λ said. said.items ≡ dict_line name.now (errors.UnknownMacro line text.now)) }
{
    let why = [
        Piece::Text(b"line "),
        Piece::Number(u64::from(line)),
        Piece::Text(b": "),
        Piece::Text(b"unknown macro "),
        Piece::Text(text),
    ];
    refusal(alloc, name, &why)
}

fn count_line(
    alloc: Global,
    name: &[u8],
    line: u32,
    why: &[u8],
    count: u64,
) -> Result<Vec<u8>, NoMemory>
    ensures { IfOk result (λ said. said.items ≡ refusal_line name.now (on_line line (why.now ∷ decimal count ∷ []))) }
{
    let why = [
        Piece::Text(b"line "),
        Piece::Number(u64::from(line)),
        Piece::Text(b": "),
        Piece::Text(why),
        Piece::Number(count),
    ];
    refusal(alloc, name, &why)
}

fn duplicate_line(
    alloc: Global,
    name: &[u8],
    word: &[u8],
    first: u32,
    again: u32,
) -> Result<Vec<u8>, NoMemory>
    ensures { IfOk result (λ text. text.items ≡ dict_line name.now (errors.DuplicateWord word.now first again)) }
{
    let why = [
        Piece::Text(word),
        Piece::Text(b" is defined on lines "),
        Piece::Number(u64::from(first)),
        Piece::Text(b" and "),
        Piece::Number(u64::from(again)),
    ];
    refusal(alloc, name, &why)
}

/// The line of a file that is refused, with the pieces of the cause.
fn refusal(alloc: Global, name: &[u8], why: &[Piece<'_>]) -> Result<Vec<u8>, NoMemory>
    ensures { IfOk result (λ line. line.items ≡ refusal_line name.now (map piece_text why.now)) }
{
    let mut line = about(alloc, b"lgparse: ", name, b": ")?;
    write_pieces(&mut line, why)?;
    write_bytes(&mut line, b"\n")?;
    Ok(line)
}

/// These pieces, one after another.
pub(crate) fn joined(alloc: Global, pieces: &[Piece<'_>]) -> Result<Vec<u8>, NoMemory>
    ensures { IfOk result (λ text. text.items ≡ flat_map piece_text pieces.now) }
{
    let mut text = Vec::new(alloc);
    write_pieces(&mut text, pieces)?;
    Ok(text)
}

fn write_pieces(out: &mut Vec<u8>, pieces: &[Piece<'_>]) -> Result<(), NoMemory>
    ensures { OnOk result (out.new.items ≡ out.old.items ++ flat_map piece_text pieces.now) }
{
    for piece in pieces {
        write_piece(out, piece)?;
    }
    Ok(())
}

fn write_piece(out: &mut Vec<u8>, piece: &Piece<'_>) -> Result<(), NoMemory>
    ensures { OnOk result (out.new.items ≡ out.old.items ++ piece_text piece.now) }
{
    match piece {
        Piece::Text(bytes) => write_bytes(out, bytes),
        Piece::Number(number) => write_number(out, *number),
    }
}
