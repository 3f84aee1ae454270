ghost use Rattle.std.specs.Prelude.{◌≡◌, ℕ, ◌≤◌, List, [], ◌∷◌, length, slice_range};
ghost use Rattle.lg_lex.specs.Locations.{location_of, location_after};

/// A line and a column of a text, each counted from 1. Columns count bytes, and a line feed ends its line.
///
/// Both stop at the greatest `u32`, for a text with more lines or a line with more bytes.
#[derive(Clone, Copy, Debug, PartialEq, Eq)]
pub struct Location {
    pub line: u32,
    pub column: u32,
}

impl Location {
    /// The location of a text's first byte.
    pub const START: Location = Location { line: 1, column: 1 };

    /// The location after a byte.
    fn past_byte(self, b: u8) -> Location
        ensures { result ≡ location_after self (b ∷ []) }
    {
        if b == b'\n' {
            Location {
                line: self.line.saturating_add(1),
                column: 1,
            }
        } else {
            Location {
                line: self.line,
                column: self.column.saturating_add(1),
            }
        }
    }

    /// The location after these bytes, where they begin at this location.
    ///
    /// So from the location of one byte of a text the location of a later one comes by the bytes between (`along`), in time
    /// linear in those alone.
    pub fn past(self, bytes: &[u8]) -> Location
        ensures value { result ≡ location_after self bytes.now }
        ensures along { (text : List ℕ) (i j : ℕ)
            → self ≡ location_of text i
            → i ≤ j
            → bytes.now ≡ slice_range text i j
            → result ≡ location_of text j }
    {
        let mut location = self;
        for b in bytes {
            location = location.past_byte(*b);
        }
        location
    }
}

/// The location of the byte at an index, or just after the last byte where the index is the length.
///
/// The time is linear in the index.
pub fn location_at(text: &[u8], index: usize) -> Location
    requires { index ≤ length text.now }
    ensures { result ≡ location_of text.now index }
{
    Location::START.past(&text[..index])
}
