//! The export of a dictionary: its text, which reads back to the same words and macros.
#![tactic(auto)]

mod law;
mod level;
mod spelling;
mod spot;
mod text;

pub use law::{
    edited_dictionaries_are_exportable, exports_read_back, levels_reach_spellings,
    no_spelling_is_lower, read_dictionaries_are_exportable,
};
pub use text::{ExportError, export};
