//! Usage totals: how often each dictionary word and each label is used over some linkages.
#![tactic(auto)]

mod counts;
pub mod law;
mod share;
mod usage;

pub use law::{shares_agree, totals_are_few};
pub use usage::Usage;
