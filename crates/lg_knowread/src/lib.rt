//! Knowledge of post-processing: which links start domains, which are ignored, and the rules that a linkage must keep.
#![tactic(auto)]

mod fault;
mod gather;
pub mod knowledge;
mod law;
mod read;
mod reading;
mod words;

pub use fault::KnowError;
pub use knowledge::{Knowledge, Pattern, Patterns, Rule, Rules, Start, Starts};
pub use law::exactly_one_knowledge;
pub use read::read_knowledge;
