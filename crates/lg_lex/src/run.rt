ghost use Rattle.std.specs.Prelude.{◌≡◌, ◌<◌, ◌≤◌, [], ◌∷◌, true, false, length, slice_index, slice_range, IfSome, MatchOption};
ghost use Rattle.lg_lex.specs.Runs.{is_separator, runs_from};

use crate::marks::FORM_FEED;

/// The bytes at which a text is cut into runs.
#[derive(Clone, Copy, Debug, PartialEq, Eq)]
pub enum Separators {
    /// White space, as between the words of a word file: space, tab, carriage return, line feed, form feed.
    WhiteSpace,
    /// Space and tab, as between the chunks of a sentence and the parts of a command.
    Blanks,
}

impl Separators {
    /// Whether a byte is one of them.
    pub fn contains(self, b: u8) -> bool
        ensures { result ≡ is_separator self b }
    {
        match self {
            Separators::WhiteSpace => matches!(b, b' ' | b'\t' | b'\r' | b'\n' | FORM_FEED),
            Separators::Blanks => matches!(b, b' ' | b'\t'),
        }
    }
}

/// One or more bytes without a separator, with the number of bytes before them and that of bytes up to their end.
#[derive(Clone, Copy, Debug, PartialEq, Eq)]
pub struct Run<'a> {
    pub bytes: &'a [u8],
    pub start: usize,
    pub end: usize,
}

/// Where the next run starts, or the end of the text.
fn run_start(separators: Separators, text: &[u8], from: usize) -> usize
    requires { from ≤ length text.now }
    ensures in_range { (from ≤ result) × (result ≤ length text.now) }
    ensures same { runs_from separators text.now from ≡ runs_from separators text.now result }
    ensures starts { result < length text.now → is_separator separators (slice_index text.now result) ≡ false }
{
    let mut at = from;
    while at < text.len() && separators.contains(text[at]) {
        at += 1;
    }
    at
}

/// Where a run ends.
fn run_end(separators: Separators, text: &[u8], start: usize) -> usize
    requires within { start < length text.now }
    requires begins { is_separator separators (slice_index text.now start) ≡ false }
    ensures in_range { (start < result) × (result ≤ length text.now) }
    ensures run { runs_from separators text.now start
        ≡ (slice_range text.now start result, start) ∷ runs_from separators text.now result }
{
    let mut at = start + 1;
    while at < text.len() && !separators.contains(text[at]) {
        at += 1;
    }
    at
}

/// The first run that starts at or after a spot, or `None` where only separators follow.
///
/// `from` is the number of bytes before that spot: 0, or the `end` of the run before. A run that goes over the
/// spot is cut there. The time is linear in the bytes from `from` to the run's end.
pub fn next_run(separators: Separators, text: &[u8], from: usize) -> Option<Run<'_>>
    requires { from ≤ length text.now }
    ensures in_range { IfSome result (λ r. (from ≤ r.start) × (r.start < r.end) × (r.end ≤ length text.now)) }
    ensures bytes { IfSome result (λ r. r.bytes.now ≡ slice_range text.now r.start r.end) }
    ensures next { MatchOption result
        (runs_from separators text.now from ≡ [])
        (λ r. runs_from separators text.now from ≡ (r.bytes.now, r.start) ∷ runs_from separators text.now r.end) }
{
    let start = run_start(separators, text, from);
    if start == text.len() {
        return None;
    }
    let end = run_end(separators, text, start);
    Some(Run {
        bytes: &text[start..end],
        start,
        end,
    })
}
