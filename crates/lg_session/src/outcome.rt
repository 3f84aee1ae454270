//! What comes of sessions.

use lg_gram::Places;

/// What comes of sessions: the edits that were published, in their order, and what is kept of the answers of each session.
#[derive(Drop)]
pub struct Outcome<K: Drop> {
    pub journal: Places,
    pub kept: Vec<K>,
}
