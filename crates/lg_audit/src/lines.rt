//! A document, line by line.

ghost use Rattle.std.specs.Prelude.{◌≡◌, ◌++◌, MatchOption};
ghost use Rattle.lg_text.specs.Shown.{IsOneLine, closed};

use crate::piece::cut_at;

/// The first line, without its line feed, and what stands behind it. None where there is no line feed.
pub(crate) fn first_line(text: &[u8]) -> Option<(&[u8], &[u8])>
    ensures { MatchOption result
        (IsOneLine text.now)
        (λ cut. IsOneLine cut.0.now × (text.now ≡ closed cut.0.now ++ cut.1.now)) }
{
    cut_at(text, b'\n')
}
