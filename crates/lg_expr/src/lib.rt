//! Expressions of the dictionary format: what their tokens are, what they mean, and the first token at fault.
//!
//! The format is after link-parser's: `&` and `or` join connectors and macros, braces make optional, and square
//! brackets put a cost on an expression.
#![tactic(auto)]

mod brackets;
mod fault;
mod frame;
mod law;
mod macros;
mod part;
mod reader;
mod word;

pub use fault::{Fault, Refusal};
pub use law::{exactly_one, expressions_fit, expressions_keep_bounds, parts_are_written};
pub use macros::{Known, Macros};
pub use part::{Bracket, Operator, Part};
pub use reader::{Progress, State, step};
pub use word::{is_macro_name, part_of};
