use lg_base::NoMemory;
use std::alloc::{AllocError, AllocFailed};
use thiserror::Error;

/// Why a text is no knowledge: the first fault. Lines and columns count from 1, after a byte order mark, and columns
/// count bytes.
#[derive(Clone, Copy, Debug, PartialEq, Eq, Error)]
pub enum KnowError {
    /// Memory ran out.
    #[error("out of memory")]
    NoMemory,
    /// The number, from 0, of the first byte that belongs to no whole valid character.
    #[error("byte {0} is not UTF-8")]
    NotUtf8(u64),
    /// The line and the column of a token that may not stand there, or of the end of the text inside a statement.
    #[error("line {0} column {1}: syntax")]
    Syntax(u32, u32),
    /// The line of a statement's first token, which is not the name of a section.
    #[error("line {0}: unknown section")]
    UnknownSection(u32),
    /// The line of a plain token that stands in a pattern's place and is none.
    #[error("line {0}: pattern")]
    BadPattern(u32),
    /// The line of a plain token that stands in the place of a domain's kind and is none.
    #[error("line {0}: domain type")]
    BadType(u32),
}

/// Why the tokens of a knowledge text are no statements: the cause at the first token at fault.
#[derive(Clone, Copy, Debug, PartialEq, Eq)]
pub(crate) enum Fault {
    /// A statement does not begin with the name of a section.
    UnknownSection,
    /// A plain token stands in a pattern's place and is none.
    BadPattern,
    /// A plain token stands in the place of a domain's kind and is none.
    BadType,
    /// Any other token that may not stand there, or the end of the text inside a statement.
    Syntax,
}

/// Why a token was not taken.
#[derive(Clone, Copy, Debug, PartialEq, Eq)]
pub(crate) enum Refusal {
    /// Memory ran out.
    NoMemory,
    Fault(Fault),
}

impl From<Fault> for Refusal {
    ghost use Rattle.std.specs.Prelude.{◌≡◌};
    ghost use Rattle.lg_knowread.specs.declared.fault.Refusal.TheVariants as refusals;

    ghost from_gives = { λ fault refusal. refusal ≡ refusals.Fault fault };

    fn from(fault: Fault) -> Refusal {
        Refusal::Fault(fault)
    }
}

impl From<NoMemory> for Refusal {
    ghost use Rattle.std.specs.Prelude.{◌≡◌};
    ghost use Rattle.lg_knowread.specs.declared.fault.Refusal.TheVariants as refusals;

    ghost from_gives = { λ _ refusal. refusal ≡ refusals.NoMemory };

    fn from(_error: NoMemory) -> Refusal {
        Refusal::NoMemory
    }
}

impl From<AllocError> for Refusal {
    ghost use Rattle.std.specs.Prelude.{◌≡◌};
    ghost use Rattle.lg_knowread.specs.declared.fault.Refusal.TheVariants as refusals;

    ghost from_gives = { λ _ refusal. refusal ≡ refusals.NoMemory };

    fn from(_error: AllocError) -> Refusal {
        Refusal::NoMemory
    }
}

impl<T: Drop> From<AllocFailed<T>> for Refusal {
    ghost use Rattle.std.specs.Prelude.{◌≡◌};
    ghost use Rattle.lg_knowread.specs.declared.fault.Refusal.TheVariants as refusals;

    ghost from_gives = { λ _ refusal. refusal ≡ refusals.NoMemory };

    fn from(_error: AllocFailed<T>) -> Refusal {
        Refusal::NoMemory
    }
}
