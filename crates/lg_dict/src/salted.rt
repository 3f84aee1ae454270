//! The hasher of the tables of a dictionary.

use lg_base::Text;
use lg_gram::Entry;
use lg_names::Salted;
use std::hash::{DefaultHasher, Hasher};

/// By the words and macros of these entries. One other name gives each name another hash; names that changes give later have no
/// part in it. No memory.
pub(crate) fn salted_by(entries: &[Entry]) -> Salted {
    let mut read = DefaultHasher::new();
    for entry in entries {
        read_names(&mut read, entry.words.items());
        read_names(&mut read, entry.macros.items());
    }
    Salted::after(read.finish())
}

// Reads names, each with its length.
fn read_names(read: &mut DefaultHasher, names: &[Text]) {
    for name in names {
        let bytes = name.bytes();
        read.write_usize(bytes.len());
        read.write(bytes);
    }
}
