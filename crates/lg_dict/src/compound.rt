//! Words of several parts, as `New_York`.
ghost use Rattle.std.specs.Prelude.{◌≡◌, ◌≢◌, ℕ, All, MatchOption, IfOk, slice_get, Some, take};
ghost use Rattle.std.specs.List.{list_all, slice_split};
ghost use Rattle.std.specs.Option.{option_map};
ghost use Rattle.lg_dict.specs.Compounds.{is_underscore, is_filled, parts_of, compound_first};

use crate::subscript::stem;
use lg_base::{NoMemory, Text, Texts};
use std::alloc::Global;

/// The parts of a word: what stands between the underscores of its stem, in order. A word without one has one part.
pub fn parts(alloc: Global, word: &[u8]) -> Result<Texts, NoMemory>
    ensures { IfOk result (λ parts. parts ≡ parts_of word.now) }
{
    let mut parts = Vec::new(alloc);
    for part in stem(word).split(|byte| *byte == b'_') {
        parts.push(Text::of(alloc, part)?)?;
    }
    Ok(Texts::of(parts))
}

/// The first part of a compound, which is a word with two or more parts, none of them empty; None for another word. No
/// memory.
pub fn compound_first(word: &[u8]) -> Option<&[u8]>
    ensures { option_map (λ part. part.now) result ≡ compound_first word.now }
{
    let stem = stem(word);
    match first_underscore(stem) {
        Some(at) if are_filled(stem) => Some(&stem[..at]),
        _ => None,
    }
}

// Where the first underscore stands.
fn first_underscore(text: &[u8]) -> Option<usize>
    ensures { MatchOption result (All (λ byte. byte ≢ 95) text.now) (λ at. (slice_get text.now at ≡ Some 95) × All (λ byte. byte ≢ 95) (take at text.now)) }
{
    text.iter().position(|byte| *byte == b'_')
}

// Whether no piece between underscores is empty.
fn are_filled(text: &[u8]) -> bool
    ensures { result ≡ list_all is_filled (slice_split is_underscore text.now) }
{
    text.split(|byte| *byte == b'_')
        .all(|part| !part.is_empty())
}
