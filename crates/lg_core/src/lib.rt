//! The core of the sessions: what their atomic steps make of the shared history, and the law that holds over every run of steps.
#![tactic(auto)]

mod edits;
pub mod event;
mod law;
mod look;
mod next;
pub mod note;
pub mod state;
mod stepping;

pub use event::{Event, Stepped};
pub use law::{every_run_is_legal, steps_are_determined};
pub use note::{Note, NoteKind};
pub use state::{Actor, Actors, Core, Hold};
pub use stepping::step;
