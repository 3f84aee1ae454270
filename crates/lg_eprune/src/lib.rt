//! Expression pruning: of the formulas of a sentence's words the choices all of whose connectors can be linked.
#![tactic(auto)]

mod cut;
pub mod law;
mod prune;
mod seen;
mod words;

pub use law::linkages_are_live;
pub use prune::eprune;
pub use words::{PositionExprs, WordExpr, WordExprs};
