//! What a session answers to its commands.
ghost use Rattle.std.specs.Prelude.{◌≡◌};

use crate::edit::EditRefusal;
use crate::listing::{Bound, Page, Stats, Tokens};
use lg_base::{List, Text};

/// The kinds of commands of a script.
#[derive(Clone, Copy, Debug, PartialEq, Eq)]
pub enum CommandKind {
    /// Lists a sentence from its first candidate on.
    Parse,
    /// Lists a sentence from a candidate of some number on.
    List,
    /// Goes on with the listing that is held.
    More,
    /// Gives words a formula.
    Set,
    /// Gives a macro a formula.
    Macro,
    /// Removes a word.
    Del,
    /// Asks for the version of the dictionary.
    Version,
}

/// A command: the number of its session and its number among the commands of the session, both from 1.
#[derive(Clone, Copy, Debug, PartialEq, Eq)]
pub struct Place {
    pub session: u32,
    pub command: u32,
}

/// What a session answers to a command. The version of a dictionary is the number of edits that were published before it.
#[derive(Debug, Drop)]
pub enum Reply {
    /// A page of the listing of a sentence, with its tokens, by the dictionary of that version. The numbers of disjuncts
    /// are there in the first page of a listing.
    Listed {
        version: u64,
        tokens: Tokens,
        page: Page,
        stats: Option<Stats>,
    },
    /// The sentence passes a bound, by the dictionary of that version.
    Beyond {
        version: u64,
        bound: Bound,
    },
    /// The edit made this version.
    Published {
        version: u64,
    },
    /// The dictionary of this version refuses the edit. The name is that of the macro that is not known, with its angle
    /// brackets, and is empty for each other cause.
    Refused {
        version: u64,
        cause: EditRefusal,
        name: Text,
    },
    /// The version that the session has come to.
    At {
        version: u64,
    },
    /// No listing is held that could go on.
    NoListing,
}

/// A list of commands.
pub type Places = List<Place>;

/// A list of answers, of one session.
pub type Replies = List<Reply>;
