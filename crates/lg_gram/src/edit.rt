//! Why an edit of a dictionary is refused.

/// Why an edit of a dictionary is refused.
#[derive(Clone, Copy, Debug, PartialEq, Eq)]
pub enum EditRefusal {
    /// The number, in reading order from 0, of the first reference to a macro that is not known.
    UnknownMacro(u32),
    /// The greatest number of brackets open at once, a macro counting as one round its own.
    TooDeep(u32),
    /// The nodes of the expression, macros put in. Counting stops at 2^40.
    TooManyNodes(u64),
    /// Its choices, in the same way.
    TooManyChoices(u64),
    /// Its connectors on the side that has more of them. Counting stops at 2^32 - 1.
    SideTooLong(u32),
    /// The word that is to be removed is none of the dictionary.
    NoSuchWord,
}
