//! Why reading the inputs failed.

use lg_base::Text;
use lg_dictread::DictError;
use lg_knowread::KnowError;
use lg_script::ScriptError;

/// Why reading the inputs failed: memory ran out, or a file by its name. The error of a text is never that memory ran out.
#[derive(Debug, Drop)]
pub enum Stop<'a> {
    Memory,
    Unreadable(&'a str),
    TooLong(&'a str),
    /// The dictionary of that name, with the first fault of it or of one of its word files.
    Dictionary(&'a str, DictError),
    /// The knowledge of that name, with its first fault.
    Knowledge(&'a str, KnowError),
    /// The script of that name, with its first fault.
    Script(&'a str, ScriptError),
    /// The script of that name, with which the edits are more than 100,000.
    TooManyEdits(&'a str),
    /// The script of that name, and how many of its edits are accepted: fewer than were asked for.
    TooFewVersions(&'a str, u32),
    /// The dictionary of that name, and the least word of the version, by bytes, that has a quote.
    Quoted(&'a str, Text),
}
