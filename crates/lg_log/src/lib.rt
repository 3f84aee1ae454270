//! A history that threads add to and read without a lock.
//!
//! It is a row of codes that only grows. A thread uses it by a pass, which knows how far it has seen, and which carries the
//! sessions that it may publish for.
#![tactic(auto)]

pub mod codes;
pub mod dealing;
pub mod log;
pub mod pass;
pub mod rule;
pub mod steps;
pub mod view;

pub use codes::{code, code_laws, index_of, session_of};
pub use log::Log;
pub use pass::Pass;
pub use rule::{joins_compose, log_laws};
