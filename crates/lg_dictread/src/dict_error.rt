use lg_base::{NoMemory, Text};
use std::alloc::{AllocError, AllocFailed};
use thiserror::Error;

/// Why a word file gives no words.
#[derive(Clone, Copy, Debug, PartialEq, Eq, Error)]
pub enum WordFileError {
    /// The file is not there, or reading it failed: the files' count of faults rose.
    #[error("cannot be read")]
    Failed,
    /// The file has more than 67,108,864 bytes.
    #[error("is longer than 67108864 bytes")]
    TooLong,
    /// The number, from 0, of the file's first byte that belongs to no whole valid character.
    #[error("is not UTF-8 at byte {0}")]
    NotUtf8(u64),
}

/// Why a text is no dictionary: its first fault. Lines come first, then columns, counts or names; lines and columns
/// count from 1, after a byte order mark, and columns count bytes.
#[derive(Debug, Drop, Error)]
pub enum DictError {
    /// Memory ran out.
    #[error("out of memory")]
    NoMemory,
    /// The number, from 0, of the first byte that belongs to no whole valid character.
    #[error("byte {0} is not UTF-8")]
    NotUtf8(u64),
    /// The line and the column of a token that the grammar does not allow there, or of the end of the text inside an
    /// entry.
    #[error("line {0} column {1}: syntax")]
    Syntax(u32, u32),
    /// The line and the name, with its angle brackets, of a macro that no earlier entry defines.
    #[error("line {0}: unknown macro")]
    UnknownMacro(u32, Text),
    /// The line of a token that begins as a number, in a cost's place, and is no cost number.
    #[error("line {0}: cost form")]
    CostForm(u32),
    /// The line of the 201st bracket that is open, where a macro counts as one round its own.
    #[error("line {0}: too deep")]
    TooDeep(u32),
    /// The line of an entry with more than 1,000,000 nodes, macros put in, and their number.
    #[error("line {0}: too many nodes {1}")]
    TooManyNodes(u32, u64),
    /// The line of an entry with more than 1,000,000 choices, macros put in, and their number.
    #[error("line {0}: too many choices {1}")]
    TooManyChoices(u32, u64),
    /// The line of an entry with more than 255 connectors on a side, macros put in, and their number.
    #[error("line {0}: too many connectors on a side {1}")]
    SideTooLong(u32, u32),
    /// A word or macro that is defined twice, with the lines of both items.
    #[error("a word is defined on lines {1} and {2}")]
    DuplicateWord(Text, u32, u32),
    /// The line of an item that names a word file, the file's name, and why it gives no words.
    #[error("line {0}: a word file {2}")]
    WordFile(u32, Text, WordFileError),
}

impl From<NoMemory> for DictError {
    ghost use Rattle.std.specs.Prelude.{◌≡◌};
    ghost use Rattle.lg_dictread.specs.declared.dict_error.DictError.TheVariants as errors;

    ghost from_gives = { λ _ error. error ≡ errors.NoMemory };

    fn from(_error: NoMemory) -> DictError {
        DictError::NoMemory
    }
}

impl From<AllocError> for DictError {
    ghost use Rattle.std.specs.Prelude.{◌≡◌};
    ghost use Rattle.lg_dictread.specs.declared.dict_error.DictError.TheVariants as errors;

    ghost from_gives = { λ _ error. error ≡ errors.NoMemory };

    fn from(_error: AllocError) -> DictError {
        DictError::NoMemory
    }
}

impl<T: Drop> From<AllocFailed<T>> for DictError {
    ghost use Rattle.std.specs.Prelude.{◌≡◌};
    ghost use Rattle.lg_dictread.specs.declared.dict_error.DictError.TheVariants as errors;

    ghost from_gives = { λ _ error. error ≡ errors.NoMemory };

    fn from(_error: AllocFailed<T>) -> DictError {
        DictError::NoMemory
    }
}
