//! Post-processing: the domains and groups of a linkage, and the first rule of a knowledge that it breaks.
#![tactic(auto)]

mod domain;
mod flags;
mod group;
mod label;
mod reach;
mod rules;

pub use domain::{Domain, domains};
pub use group::groups;
pub use rules::judge;
