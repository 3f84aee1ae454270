//! Made input: a dictionary and a script of sentences from a number.
#![tactic(auto)]

pub mod law;
mod texts;

pub use law::made_input_is_accepted;
pub use texts::{Generated, generate};
