//! What an audit answers.

use lg_gram::Place;

/// What an audit answers.
#[derive(Clone, Copy, Debug, PartialEq, Eq)]
pub enum AuditAnswer {
    /// The document is right, and shows so many linkages.
    Yes { shown: u64 },
    /// The bytes are no document of these scripts.
    Shape,
    /// The journal is not the one of the edits that the document shows as published.
    Journal,
    /// The answer at this place is the first, by session and then by command, that is wrong.
    Reply(Place),
}
