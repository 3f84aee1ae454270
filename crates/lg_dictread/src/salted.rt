//! The hasher of the tables of names.

use lg_names::Salted;
use std::hash::{DefaultHasher, Hasher};

/// By this text: each hash depends on all of it, though not on its word files. No memory.
pub(crate) fn salted_by(text: &[u8]) -> Salted {
    let mut read = DefaultHasher::new();
    read.write(text);
    Salted::after(read.finish())
}
