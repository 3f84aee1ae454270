//! Edits of a dictionary.

use lg_base::Text;
use lg_gram::RawEntry;

/// What a session does to its dictionary.
#[derive(Debug, Drop)]
pub enum Edit {
    /// Gives words an expression. Each item of the entry is a word.
    Put(RawEntry),
    /// Sets a macro, with its angle brackets. It is the one item of the entry.
    Macro(RawEntry),
    /// Removes a word.
    Del(Text),
}
