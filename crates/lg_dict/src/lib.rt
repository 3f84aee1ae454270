//! The dictionary: words and macros with their formulas, and views of it.
#![tactic(auto)]

pub mod changes;
pub mod compound;
pub mod dict;
pub mod lengths;
mod salted;
pub mod subscript;
pub mod tables;
pub mod view;

pub use compound::{compound_first, parts};
pub use dict::Dict;
pub use subscript::{stem, words_have_one_stem};
pub use view::View;
