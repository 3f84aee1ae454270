use lg_base::NoMemory;
use std::alloc::AllocFailed;
use thiserror::Error;

/// Why a text is no script: the first fault. Lines count from 1, up to 2^32 - 1.
#[derive(Clone, Copy, Debug, PartialEq, Eq, Error)]
pub enum ScriptError {
    /// Memory ran out.
    #[error("out of memory")]
    NoMemory,
    /// The number, from 0, of the first byte that belongs to no whole valid character.
    #[error("byte {0} is not UTF-8")]
    NotUtf8(u64),
    /// The line of a word that is no command, or of `more` or `version` with more behind it.
    #[error("line {0}: unknown command")]
    UnknownCommand(u32),
    /// The line of a `list` without two numbers from 1 to 1,000,000.
    #[error("line {0}: number")]
    BadNumber(u32),
    /// The line of an edit that is no entry of words alone or of one macro alone, or of a `del` without one word.
    #[error("line {0}: edit")]
    BadEdit(u32),
}

impl From<NoMemory> for ScriptError {
    ghost use Rattle.std.specs.Prelude.{◌≡◌};
    ghost use Rattle.lg_script.specs.declared.script_error.ScriptError.TheVariants as errors;

    ghost from_gives = { λ _ error. error ≡ errors.NoMemory };

    fn from(_error: NoMemory) -> ScriptError {
        ScriptError::NoMemory
    }
}

impl<T: Drop> From<AllocFailed<T>> for ScriptError {
    ghost use Rattle.std.specs.Prelude.{◌≡◌};
    ghost use Rattle.lg_script.specs.declared.script_error.ScriptError.TheVariants as errors;

    ghost from_gives = { λ _ error. error ≡ errors.NoMemory };

    fn from(_error: AllocFailed<T>) -> ScriptError {
        ScriptError::NoMemory
    }
}
