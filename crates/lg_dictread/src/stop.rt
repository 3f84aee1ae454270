use lg_base::NoMemory;
use lg_lex::Location;
use std::alloc::{AllocError, AllocFailed};

/// Why no entry stands at a spot of a text: memory ran out, or the first fault. A fault has the location of the token at
/// fault or, where the text ends inside the entry, of its end.
#[derive(Clone, Copy, Debug, PartialEq, Eq)]
pub(crate) enum Stop<'a> {
    NoMemory,
    /// The grammar does not allow the token there.
    Syntax(Location),
    /// The line of a token that begins as a number, in a cost's place, and is no cost number.
    CostForm(u32),
    /// The line of a macro that is not known, and its name with its angle brackets.
    UnknownMacro(u32, &'a [u8]),
    /// The line of a bracket or a macro with which too many brackets are open.
    TooDeep(u32),
}

impl<'a> From<NoMemory> for Stop<'a> {
    ghost use Rattle.std.specs.Prelude.{◌≡◌};
    ghost use Rattle.lg_dictread.specs.declared.stop.Stop.TheVariants as stops;

    ghost from_gives = { λ _ stop. stop ≡ stops.NoMemory };

    fn from(_error: NoMemory) -> Stop<'a> {
        Stop::NoMemory
    }
}

impl<'a> From<AllocError> for Stop<'a> {
    ghost use Rattle.std.specs.Prelude.{◌≡◌};
    ghost use Rattle.lg_dictread.specs.declared.stop.Stop.TheVariants as stops;

    ghost from_gives = { λ _ stop. stop ≡ stops.NoMemory };

    fn from(_error: AllocError) -> Stop<'a> {
        Stop::NoMemory
    }
}

impl<'a, T: Drop> From<AllocFailed<T>> for Stop<'a> {
    ghost use Rattle.std.specs.Prelude.{◌≡◌};
    ghost use Rattle.lg_dictread.specs.declared.stop.Stop.TheVariants as stops;

    ghost from_gives = { λ _ stop. stop ≡ stops.NoMemory };

    fn from(_error: AllocFailed<T>) -> Stop<'a> {
        Stop::NoMemory
    }
}
