//! One listing of a sentence: its tokens, its problem, and its linkages page by page.
#![tactic(auto)]

mod course;
mod expanded;
mod exprs;
pub mod law;
mod listing;
mod narrow;
mod options;
mod page;
mod refusal;
mod search;
mod wide;

pub use law::expression_pruning_keeps_what_is_alive;
pub use listing::Listing;
pub use options::{Nulls, Options};
pub use refusal::AnswerRefusal;
