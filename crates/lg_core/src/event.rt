//! The steps of the core.

use crate::note::Note;

/// An atomic step of a session. Sessions are numbered from 0.
#[derive(Clone, Copy, Debug, PartialEq, Eq)]
pub enum Event {
    /// Looks past all that the session has seen, and finds the end of the history there. It ends a `parse`, a `list`, a
    /// `version`, and an edit that is refused.
    Look(u32),
    /// Looks past all that the session has seen, and finds a code there.
    Learn(u32),
    /// Writes the code of the session's edit at the end of the history.
    Publish(u32),
    /// Goes on with the listing that the session holds.
    More(u32),
}

/// What comes of a step.
#[derive(Clone, Copy, Debug, PartialEq, Eq)]
pub enum Stepped {
    /// It happened, with the note of the command that it ended, if it ended one.
    Done(Option<Note>),
    /// It cannot happen.
    NotEnabled,
}
