//! Power pruning: the disjuncts of a problem that can have all their links, if others that can have theirs are there.
#![tactic(auto)]

pub mod law;
mod prune;
mod rounds;
mod site;
mod table;

pub use law::pruning_keeps_linkages;
pub use prune::pprune;
