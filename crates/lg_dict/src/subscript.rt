//! Stems of words: what stands before a subscript, as `run` in `run.v`.
ghost use Rattle.std.specs.Prelude.{◌≡◌, ◌≢◌, ◌↔◌, ℕ, ◌+◌, List, All, MatchOption, IsTrue, slice_get, Some, drop};
ghost use Rattle.std.specs.List.{list_all};
ghost use Rattle.lg_dict.specs.Subscripts.{is_subscript, is_in_subscript, stem_of, IsStem};

/// The word without its subscript, after link-parser. No memory.
///
/// A subscript begins at the word's last point, where that is not the first byte, the byte after it is a to z, and all
/// further bytes are a to z, 0 to 9, `-` or `_`. A word without a subscript is its own stem.
pub fn stem(word: &[u8]) -> &[u8]
    ensures { result.now ≡ stem_of word.now }
{
    match last_point(word) {
        Some(at) if at > 0 && is_subscript_text(&word[at + 1..]) => &word[..at],
        _ => word,
    }
}

/// A word has one stem.
pub fn words_have_one_stem()
    ensures { (word stem : List ℕ) → IsStem word stem ↔ (stem ≡ stem_of word) }
{}

// Where the last point stands.
fn last_point(word: &[u8]) -> Option<usize>
    ensures { MatchOption result (All (λ byte. byte ≢ 46) word.now) (λ at. (slice_get word.now at ≡ Some 46) × All (λ byte. byte ≢ 46) (drop (at + 1) word.now)) }
{
    word.iter().rposition(|byte| *byte == b'.')
}

// Whether the bytes after a point are a subscript.
fn is_subscript_text(bytes: &[u8]) -> bool
    ensures { result ≡ is_subscript bytes.now }
{
    match bytes.split_first() {
        None => false,
        Some((first, rest)) => first.is_ascii_lowercase() && are_in_subscript(rest),
    }
}

fn are_in_subscript(bytes: &[u8]) -> bool
    ensures { result ≡ list_all is_in_subscript bytes.now }
{
    bytes.iter().all(|byte| is_in_subscript_byte(*byte))
}

fn is_in_subscript_byte(byte: u8) -> bool
    ensures { result ≡ is_in_subscript byte }
{
    byte.is_ascii_lowercase() || byte.is_ascii_digit() || byte == b'-' || byte == b'_'
}
