//! The good linkages of a problem in order, one by one, on demand.
#![tactic(auto)]

mod build;
mod candidate;
mod keys;
pub mod law;
mod node;
mod part;
mod queue;
mod ranked;
mod ready;
mod small;
mod source;
mod table;
mod tree;
mod unpack;

pub use law::{cuts_keep_order, joins_grow, values_are_linkages};
pub use ranked::Ranked;
