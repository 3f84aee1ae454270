//! The hasher of tables whose keys are names from outside.
#![tactic(auto)]

mod name_hasher;
mod salted;

pub use name_hasher::NameHasher;
pub use salted::Salted;
