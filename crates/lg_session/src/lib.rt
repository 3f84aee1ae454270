//! Sessions: the commands of a script, each answered by a dictionary that the session edits.
#![tactic(auto)]

mod edits;
pub mod engine;
pub mod gate;
mod halves;
mod job;
mod journal;
pub mod keeper;
mod law;
mod learning;
pub mod outcome;
pub mod run;
pub mod session;
pub mod turn;

pub use engine::{Engine, Opening};
pub use gate::{FreeGate, Gate};
pub use keeper::{Keeper, WholeReplies};
pub use law::paths_make_runs;
pub use outcome::Outcome;
pub use run::run_sessions;
pub use session::Session;
