//! The tokens of a sentence.
#![tactic(auto)]

mod bound;
mod count;
mod cuts;
mod law;
mod lists;
mod place;
mod special;
mod tokenizing;
mod words;

pub use bound::{bound_of, listed_tokens};
pub use count::count_tokens;
pub use law::{tokens_are_one_list, tokens_lie_in_order};
pub use special::Special;
pub use tokenizing::tokens;
