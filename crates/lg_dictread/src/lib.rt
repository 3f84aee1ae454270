//! Dictionary texts: their entries, and the first fault of a text.
//!
//! The format is after link-parser's. An entry is `items : expression ;`, where an item is a word, a macro or a word file.
//! [`read_dict`] reads a whole dictionary, puts the macros in and reads the word files; [`read_entry`] reads one entry.
#![tactic(auto)]

mod define;
mod dict_error;
mod dict_text;
mod earlier;
mod entry;
mod entry_text;
mod formula;
mod items;
mod law;
mod limits;
mod measure;
mod salted;
mod stop;
mod table;
mod word_file;

pub use dict_error::{DictError, WordFileError};
pub use dict_text::read_dict;
pub use entry_text::{EntryError, read_entry};
pub use law::{
    entry_texts_keep_bounds, exactly_one_dictionary, exactly_one_entry, exactly_one_entry_text,
};
pub use limits::FILE;
