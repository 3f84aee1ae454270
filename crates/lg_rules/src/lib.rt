//! The rules of the Link Grammar report, tested on a linkage, and the slow lister: what every faster body is compared with.
#![tactic(auto)]

mod checker;
mod list;
mod membership;
mod sides;
mod verdict;

pub use checker::check;
pub use list::{PLAIN_POSITIONS, plain_list};
pub use membership::belongs;
pub use verdict::Verdict;
