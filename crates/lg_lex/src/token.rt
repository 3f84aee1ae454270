ghost use Rattle.std.specs.Prelude.{◌≡◌, ℕ, ◌+◌, ◌<◌, ◌≤◌, List, [], ◌∷◌, length, slice_index, slice_range, IfSome, MatchOption};
ghost use Rattle.lg_lex.specs.Classes.{class_of};
ghost use Rattle.lg_lex.specs.Lexing.{tokens_from};
ghost use Rattle.lg_lex.specs.Tokens.{broken, plain, quoted};
ghost use Rattle.lg_lex.specs.Found.{BeginsToken, lexeme_of, following, width};
ghost use Rattle.lg_lex.specs.declared.marks.Class.TheVariants.{Other, Quote};

use crate::marks::{Class, Marks, class_of};

/// A token of a text.
#[derive(Clone, Copy, Debug, PartialEq, Eq)]
pub enum Token<'a> {
    /// A byte that is a token by itself.
    Sign(u8),
    /// What stands between two quotes on one line: one or more bytes.
    Quoted(&'a [u8]),
    /// A run of bytes without white space, `%`, signs and, where `"` quotes, quotes.
    Plain(&'a [u8]),
    /// A quote that is not closed on its line, or has nothing in it. No token is found after it.
    Broken,
}

/// A token, with the number of bytes before it and the number of bytes up to its end. A broken token ends after its
/// quote.
#[derive(Clone, Copy, Debug, PartialEq, Eq)]
pub struct Found<'a> {
    pub token: Token<'a>,
    pub start: usize,
    pub end: usize,
}

/// Where the next token starts, or the end of the text.
fn gap_end(marks: Marks, text: &[u8], from: usize) -> usize
    requires { from ≤ length text.now }
    ensures in_range { (from ≤ result) × (result ≤ length text.now) }
    ensures same { tokens_from marks text.now from ≡ tokens_from marks text.now result }
    ensures starts { result < length text.now → BeginsToken (class_of marks (slice_index text.now result)) }
{
    let mut at = from;
    let mut commenting = false;
    while at < text.len() {
        match class_of(marks, text[at]) {
            Class::LineEnd => commenting = false,
            Class::Percent => commenting = true,
            Class::Blank => {}
            Class::Quote | Class::Sign | Class::Other => {
                if !commenting {
                    return at;
                }
            }
        }
        at += 1;
    }
    at
}

/// Where a plain token ends.
fn plain_end(marks: Marks, text: &[u8], start: usize) -> usize
    requires within { start < length text.now }
    requires begins { class_of marks (slice_index text.now start) ≡ Other }
    ensures in_range { (start < result) × (result ≤ length text.now) }
    ensures token { tokens_from marks text.now start
        ≡ (plain (slice_range text.now start result), start) ∷ tokens_from marks text.now result }
{
    let mut at = start + 1;
    while at < text.len() && class_of(marks, text[at]) == Class::Other {
        at += 1;
    }
    at
}

/// Where the closing quote stands, if it does on the line of the opening one and not just after it.
fn closing_quote(marks: Marks, text: &[u8], start: usize) -> Option<usize>
    requires within { start < length text.now }
    requires begins { class_of marks (slice_index text.now start) ≡ Quote }
    ensures in_range { IfSome result (λ end. (start < end) × (end < length text.now)) }
    ensures token { MatchOption result
        (tokens_from marks text.now start ≡ (broken, start) ∷ [])
        (λ end. tokens_from marks text.now start
        ≡ (quoted (slice_range text.now (start + 1) end), start) ∷ tokens_from marks text.now (end + 1)) }
{
    let mut at = start + 1;
    while at < text.len() {
        match class_of(marks, text[at]) {
            Class::LineEnd => return None,
            Class::Quote => return if at == start + 1 { None } else { Some(at) },
            _ => at += 1,
        }
    }
    None
}

/// The first token at or after a spot, or `None` where only white space and comments follow.
///
/// `from` is the number of bytes before that spot: 0, or the `end` of the token before. A broken token ends the
/// list of tokens, so nothing is said of what follows it. The time is linear in the bytes from `from` to the token's
/// end, or to the end of its line where it is broken.
pub fn next_token(marks: Marks, text: &[u8], from: usize) -> Option<Found<'_>>
    requires { from ≤ length text.now }
    ensures in_range { IfSome result (λ f. (from ≤ f.start) × (f.start < f.end) × (f.end ≤ length text.now)) }
    ensures next { MatchOption result
        (tokens_from marks text.now from ≡ [])
        (λ f. tokens_from marks text.now from
        ≡ (lexeme_of f.token, f.start) ∷ following f.token (tokens_from marks text.now f.end)) }
    ensures wide { IfSome result (λ f. f.end ≡ f.start + width f.token) }
{
    let start = gap_end(marks, text, from);
    if start == text.len() {
        return None;
    }
    let b = text[start];
    let (token, end) = match class_of(marks, b) {
        Class::Sign => (Token::Sign(b), start + 1),
        Class::Quote => match closing_quote(marks, text, start) {
            Some(close) => (Token::Quoted(&text[start + 1..close]), close + 1),
            None => (Token::Broken, start + 1),
        },
        Class::Other => {
            let end = plain_end(marks, text, start);
            (Token::Plain(&text[start..end]), end)
        }
        Class::Blank | Class::LineEnd | Class::Percent => unreachable!(),
    };
    Some(Found { token, start, end })
}
