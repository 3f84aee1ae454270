ghost use Rattle.std.specs.Prelude.{◌≡◌};
ghost use Rattle.lg_lex.specs.Classes.{class_of};

/// The form feed, for which Rust has no escape.
pub(crate) const FORM_FEED: u8 = 12;

/// The kind of text that is cut into tokens, which decides what its bytes mean.
#[derive(Clone, Copy, Debug, PartialEq, Eq)]
pub enum Marks {
    /// A dictionary text: `( ) { } [ ] & | : ;` are signs, and `"` quotes a word.
    Dictionary,
    /// A knowledge text: `: ; { }` are signs, and `"` is a byte as any other.
    Knowledge,
}

/// What a byte means where a token may begin.
#[derive(Clone, Copy, Debug, PartialEq, Eq)]
pub enum Class {
    /// White space within a line: a space, a tab, a carriage return or a form feed.
    Blank,
    /// The line feed, which ends a line and with it a comment.
    LineEnd,
    /// The `%` that begins a comment.
    Percent,
    /// The `"` that begins a quoted token, and ends it.
    Quote,
    /// A byte that is a token by itself.
    Sign,
    /// A byte of a plain token.
    Other,
}

/// The class of a byte.
pub fn class_of(marks: Marks, b: u8) -> Class
    ensures { result ≡ class_of marks b }
{
    match b {
        b'\n' => Class::LineEnd,
        b' ' | b'\t' | b'\r' | FORM_FEED => Class::Blank,
        b'%' => Class::Percent,
        b':' | b';' | b'{' | b'}' => Class::Sign,
        b'(' | b')' | b'[' | b']' | b'&' | b'|' if marks == Marks::Dictionary => Class::Sign,
        b'"' if marks == Marks::Dictionary => Class::Quote,
        _ => Class::Other,
    }
}
