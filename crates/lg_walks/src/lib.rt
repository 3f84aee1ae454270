//! Walks over links: which positions hang together.
#![tactic(auto)]

mod islands;

pub use islands::label_islands;
