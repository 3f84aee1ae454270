//! Facts about what the contracts of this crate cite, each proved of every text. The functions do nothing: a caller
//! whose proof needs a fact calls its function.

ghost use Rattle.std.specs.Prelude.{◌≡◌, ℕ, ◌+◌, ◌<◌, ◌≤◌, false, List, ◌∷◌, ◌++◌, length, map, take, drop, slice_range, ◌⊎◌};
ghost use Rattle.std.specs.List.{list_any, AllByRecursion};
ghost use Rattle.std.specs.Str.{IsUtf8, IsValidUpTo};
ghost use Rattle.lg_lex.specs.declared.marks.Marks.{Marks};
ghost use Rattle.lg_lex.specs.declared.location.Location.{Location};
ghost use Rattle.lg_lex.specs.declared.run.Separators.{Separators};
ghost use Rattle.lg_lex.specs.Classes.{line_feed};
ghost use Rattle.lg_lex.specs.Tokens.{Lexeme, AreTokens, HasUtf8};
ghost use Rattle.lg_lex.specs.Marked.{without_mark};
ghost use Rattle.lg_lex.specs.Spots.{IsSpot};
ghost use Rattle.lg_lex.specs.Lexing.{between, lex, tokens_from};
ghost use Rattle.lg_lex.specs.Sections.{IsClosed, moved};
ghost use Rattle.lg_lex.specs.Runs.{AreRuns, outside, runs_of};
ghost use Rattle.lg_lex.specs.Locations.{first_location, capped, is_line_feed, location_of, location_after};

use crate::spot::Spot;

/// A text has one list of tokens, and `lex` gives it.
pub fn tokens_are_one_list()
    ensures lexed { (marks : Marks) (before : ℕ) (bytes : List ℕ)
        → AreTokens marks (lex marks between before bytes) before bytes }
    ensures one { (marks : Marks) (tokens : List (Lexeme × ℕ)) (before : ℕ) (bytes : List ℕ)
        → AreTokens marks tokens before bytes
        → lex marks between before bytes ≡ tokens }
{}

/// A section without comments and quotes that ends in a sign has the same tokens wherever it stands: those that it has as a
/// text of its own.
pub fn sections_keep_their_tokens()
    ensures { (marks : Marks) (text section : List ℕ) (from : ℕ)
        → IsClosed marks section
        → drop from text ≡ section ++ drop (from + length section) text
        → tokens_from marks text from ≡ map (moved from) (tokens_from marks section 0) ++ tokens_from marks text (from + length section) }
{}

/// A text has no more tokens than bytes.
pub fn tokens_are_no_more_than_bytes()
    ensures { (marks : Marks) (tokens : List (Lexeme × ℕ)) (before : ℕ) (bytes : List ℕ)
        → AreTokens marks tokens before bytes
        → length tokens ≤ length bytes }
{}

/// The tokens of a text that is UTF-8 are UTF-8.
pub fn tokens_are_utf8()
    ensures { (marks : Marks) (tokens : List (Lexeme × ℕ)) (bytes : List ℕ)
        → IsUtf8 bytes
        → AreTokens marks tokens 0 bytes
        → AllByRecursion (λ token. HasUtf8 token.0) tokens }
{}

/// A text has one list of runs between separators, and `runs_of` gives it.
pub fn runs_are_one_list()
    ensures cut { (separators : Separators) (before : ℕ) (bytes : List ℕ)
        → AreRuns separators (runs_of separators outside before bytes) before bytes }
    ensures one { (separators : Separators) (runs : List (List ℕ × ℕ)) (before : ℕ) (bytes : List ℕ)
        → AreRuns separators runs before bytes
        → runs_of separators outside before bytes ≡ runs }
{}

/// Bytes are UTF-8, or have one first byte that belongs to no whole valid character.
pub fn bytes_are_utf8_or_at_fault()
    ensures some { (bytes : List ℕ) → IsUtf8 bytes ⊎ ((n : ℕ) × IsValidUpTo bytes n) }
    ensures one { (bytes : List ℕ) (n m : ℕ) → IsValidUpTo bytes n → IsValidUpTo bytes m → n ≡ m }
    ensures apart { (bytes : List ℕ) (n : ℕ) → IsValidUpTo bytes n → IsUtf8 bytes → ⊥ }
{}

/// A text that is UTF-8 is so after its byte order mark, and on each side of a byte of ASCII.
pub fn parts_are_utf8()
    ensures after_mark { (text : List ℕ) → IsUtf8 text → IsUtf8 (without_mark text) }
    ensures before_ascii { (a : List ℕ) (b : ℕ) (rest : List ℕ)
        → b < 128
        → IsUtf8 (a ++ b ∷ rest)
        → IsUtf8 a × IsUtf8 (b ∷ rest) }
    ensures after_ascii { (b : ℕ) (rest : List ℕ) → b < 128 → IsUtf8 (b ∷ rest) → IsUtf8 rest }
{}

/// The first spot is that of the first byte of every text.
pub fn texts_start_at_the_first_spot()
    ensures { (text : List ℕ) → IsSpot text Spot.START }
{}

/// The locations of a text add up, from its first byte or from one location to a later one, and a column counts from the
/// last line feed.
pub fn locations_add_up()
    ensures from_first { (text : List ℕ) (i : ℕ) → location_after first_location (take i text) ≡ location_of text i }
    ensures from_earlier { (text : List ℕ) (i j : ℕ)
        → i ≤ j
        → location_after (location_of text i) (slice_range text i j) ≡ location_of text j }
    ensures twice { (p : Location) (bytes more : List ℕ)
        → location_after (location_after p bytes) more ≡ location_after p (bytes ++ more) }
    ensures on_a_line { (p : Location) (bytes line : List ℕ)
        → list_any is_line_feed line ≡ false
        → (location_after p (bytes ++ line_feed ∷ line)).column ≡ capped (1 + length line) }
{}
