//! Scripts: the commands of a session, a line each.
#![tactic(auto)]

pub mod command;
pub mod commands;
mod law;
mod line;
mod listing;
pub mod number;
mod parts;
mod read;
mod script_error;

pub use command::Command;
pub use commands::{Commands, Scripts};
pub use law::{exactly_one_script, place_laws, scripts_have_single_lines, scripts_keep_bounds};
pub use number::{decimal, number_of};
pub use read::read_script;
pub use script_error::ScriptError;
