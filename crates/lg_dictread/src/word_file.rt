//! Word files.

ghost use Rattle.std.specs.Prelude.{◌≡◌};
ghost use Rattle.std.specs.Str.{IsUtf8};
ghost use Rattle.lg_dictread.specs.Telling.{UnlessMemory, HasCause};
ghost use Rattle.lg_dictread.specs.Defining.{TellsFile, AsksFile};

use crate::dict_error::{DictError, WordFileError};
use crate::limits::FILE;
use lg_base::{FileError, Files, NoMemory, Text};
use lg_lex::utf8_fault;
use std::alloc::Global;

/// The bytes of a word file, which an item on this line names.
pub(crate) fn read_word_file<F: Files>(
    alloc: Global,
    files: &mut F,
    name: &[u8],
    line: u32,
) -> Result<Vec<u8>, DictError>
    requires { IsUtf8 name.now }
    ensures unchanged { F.contents files.new ≡ F.contents files.old }
    ensures told { TellsFile (F.contents files.old) line name.now result }
    ensures asked { AsksFile (F.asked files.old) (F.asked files.new) name.now result }
    ensures cause { HasCause (F.faults files.old) (F.faults files.new) (F.asked files.new) result }
{
    let path = match str::from_utf8(name) {
        Ok(path) => path,
        Err(_) => unreachable!(),
    };
    match files.read_all(alloc, path, FILE) {
        Ok(bytes) => match utf8_fault(&bytes) {
            None => Ok(bytes),
            Some(byte) => Err(unread(alloc, name, line, WordFileError::NotUtf8(byte))),
        },
        Err(FileError::NoMemory) => Err(DictError::NoMemory),
        Err(FileError::Failed) => Err(unread(alloc, name, line, WordFileError::Failed)),
        Err(FileError::TooLong) => Err(unread(alloc, name, line, WordFileError::TooLong)),
    }
}

/// The error of a word file that gives no words.
fn unread(alloc: Global, name: &[u8], line: u32, cause: WordFileError) -> DictError
    ensures { UnlessMemory (λ error. error ≡ DictError.WordFile line name.now cause) result }
{
    match Text::of(alloc, name) {
        Ok(name) => DictError::WordFile(line, name, cause),
        Err(NoMemory) => DictError::NoMemory,
    }
}
