//! The least number of unlinked words of a problem.
//!
//! Unlinked words add up over the cuts of a region, and its two sides do not depend on one another. So the least number of a
//! region is the least sum over its cuts, and each region is looked at once, whatever that number is.
#![tactic(auto)]

mod law;
mod search;
pub mod sentence;
mod span;
mod table;

pub use sentence::fewest;
