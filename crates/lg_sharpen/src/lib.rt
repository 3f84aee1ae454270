//! A sharper problem: without disjuncts that no linkage with few unlinked words can use.
#![tactic(auto)]

mod gaps;
mod narrow;
mod needs;
mod problem;
mod rounds;
mod site;
mod start;
mod table;

pub use gaps::{Gaps, Ways};
pub use problem::{sharpen, sharpen_outlines, sharpened};
