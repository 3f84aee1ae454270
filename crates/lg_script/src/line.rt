//! The lines of a script, and the parts of a line.

ghost use Rattle.std.specs.Prelude.{◌≡◌, ◌≢◌, ℕ, List, [], ◌∷◌, ◌++◌, MatchOption, false};
ghost use Rattle.std.specs.List.{AllByRecursion};
ghost use Rattle.lg_lex.specs.declared.run.Separators.TheVariants.{Blanks};
ghost use Rattle.lg_lex.specs.Classes.{line_feed};
ghost use Rattle.lg_lex.specs.Runs.{is_separator, AreSeparators, AreInner, EndsRun};
ghost use Rattle.lg_script.specs.Lines.{Says, Trims};
ghost use Rattle.lg_script.specs.Parts.{BeginsInner, EndsInner, SkipsFront, SkipsBack};

use lg_lex::Separators;

/// A text up to its first line feed, and what follows that line feed.
pub(crate) fn first_line(text: &[u8]) -> (&[u8], Option<&[u8]>)
    ensures whole { AllByRecursion (λ b. b ≢ line_feed) result.0.now }
    ensures split { MatchOption result.1 (text.now ≡ result.0.now) (λ rest. text.now ≡ result.0.now ++ line_feed ∷ rest.now) }
{
    let mut at = 0;
    while at < text.len() {
        if text[at] == b'\n' {
            return (&text[..at], Some(&text[at + 1..]));
        }
        at += 1;
    }
    (text, None)
}

/// A line without a carriage return at its end.
pub(crate) fn body_of(line: &[u8]) -> &[u8]
    ensures { Says line.now result.now }
{
    match line.strip_suffix(&[b'\r']) {
        Some(body) => body,
        None => line,
    }
}

/// What follows the blanks at the front.
pub(crate) fn skip_blanks(bytes: &[u8]) -> &[u8]
    ensures skips { SkipsFront bytes.now result.now }
    ensures begins { BeginsInner result.now }
{
    let mut at = 0;
    while at < bytes.len() && Separators::Blanks.contains(bytes[at]) {
        at += 1;
    }
    &bytes[at..]
}

/// What stands before the blanks at the end.
fn drop_blanks(bytes: &[u8]) -> &[u8]
    ensures skips { SkipsBack bytes.now result.now }
    ensures ends { EndsInner result.now }
{
    let mut end = bytes.len();
    while end > 0 && Separators::Blanks.contains(bytes[end - 1]) {
        end -= 1;
    }
    &bytes[..end]
}

/// What stands between the blanks at both ends.
pub(crate) fn trim(bytes: &[u8]) -> &[u8]
    ensures { Trims bytes.now result.now }
{
    drop_blanks(skip_blanks(bytes))
}

/// The bytes before the first blank, and the others.
pub(crate) fn first_word(bytes: &[u8]) -> (&[u8], &[u8])
    ensures split { bytes.now ≡ result.0.now ++ result.1.now }
    ensures inner { AreInner Blanks result.0.now }
    ensures ends { EndsRun Blanks result.1.now }
{
    let mut at = 0;
    while at < bytes.len() && !Separators::Blanks.contains(bytes[at]) {
        at += 1;
    }
    (&bytes[..at], &bytes[at..])
}
