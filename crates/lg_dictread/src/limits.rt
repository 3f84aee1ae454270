//! The limits of dictionary texts.

/// The most bytes of a dictionary and of a word file.
pub const FILE: u64 = 67_108_864;

/// How many expressions are recalled by their text.
pub(crate) const SECTIONS: usize = 1000;
