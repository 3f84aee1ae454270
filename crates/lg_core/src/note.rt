//! What the core says of the commands that end.

use crate::state::Hold;
use lg_gram::EditRefusal;

/// How a command ended.
#[derive(Clone, Copy, Debug, PartialEq, Eq)]
pub enum NoteKind {
    /// The sentence is listed.
    Listed,
    /// The sentence passes a bound.
    Beyond,
    /// The listing that was held goes on. It is told as it was before.
    Paged(Hold),
    /// No listing was held that could go on.
    NoListing,
    /// The edit made the version.
    Published,
    /// The dictionary of the version refuses the edit.
    Refused(EditRefusal),
    /// The version that the session has seen.
    At,
}

/// A command that ended: its session and its number there, both from 1, and a version, which is the number of edits that were
/// published before it. The version of `Paged` is that of the held listing; that of `NoListing` is 0.
#[derive(Clone, Copy, Debug, PartialEq, Eq)]
pub struct Note {
    pub session: u32,
    pub command: u32,
    pub version: u64,
    pub kind: NoteKind,
}
