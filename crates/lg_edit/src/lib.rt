//! Edits of a dictionary: words that get an expression, macros that are set, words that are removed.
#![tactic(auto)]

pub mod accepting;
pub mod applying;
pub mod edit;

pub use accepting::check;
pub use applying::apply;
pub use edit::Edit;
