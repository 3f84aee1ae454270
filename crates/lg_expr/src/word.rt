//! What the tokens of an expression are.

ghost use Rattle.std.specs.Prelude.{◌≡◌, true, false};
ghost use Rattle.lg_lex.specs.Found.{lexeme_of};
ghost use Rattle.lg_expr.specs.Words.{begins_number};
ghost use Rattle.lg_base.specs.Costs.{read_cost};
ghost use Rattle.lg_expr.specs.Classes.{connector_of, connector_from, connector_without_sign, is_macro_name, part_of_word, part_of_sign, part_of_number, part_of_lexeme};
ghost use Rattle.lg_expr.specs.View.{part_of};

use crate::part::{Bracket, Operator, Part};
use lg_base::parse_cost;
use lg_gram::{Connector, capitals};
use lg_lex::Token;

/// What a token of a dictionary text is inside an expression.
///
/// A plain token is an operator, a macro in angle brackets, a number or a connector, after link-parser's format: an
/// optional `@`, capital letters, small letters and `*`, at most 16 letters in all, and `+` or `-`. What is quoted is
/// never part of an expression. The time is linear in the token.
pub fn part_of<'a>(token: &Token<'a>) -> Part<'a>
    ensures { part_of result ≡ part_of_lexeme (lexeme_of token.now) }
{
    match token {
        Token::Sign(b) => part_of_sign(*b),
        Token::Plain(word) => part_of_word(word),
        Token::Quoted(_) | Token::Broken => Part::Wrong,
    }
}

fn part_of_sign(b: u8) -> Part<'static>
    ensures { part_of result ≡ part_of_sign b }
{
    match b {
        b'(' => Part::Open(Bracket::Round),
        b')' => Part::Close(Bracket::Round),
        b'{' => Part::Open(Bracket::Curly),
        b'}' => Part::Close(Bracket::Curly),
        b'[' => Part::Open(Bracket::Square),
        b']' => Part::Close(Bracket::Square),
        b'&' => Part::Operator(Operator::And),
        b'|' => Part::Operator(Operator::Or),
        b';' => Part::End,
        _ => Part::Wrong,
    }
}

fn part_of_word(word: &[u8]) -> Part<'_>
    ensures { part_of result ≡ part_of_word word.now }
{
    if word == b"or".as_slice() {
        Part::Operator(Operator::Or)
    } else if word == b"and".as_slice() {
        Part::Operator(Operator::And)
    } else if is_macro_name(word) {
        Part::Macro(word)
    } else if begins_number(word) {
        part_of_number(word)
    } else {
        match connector_of(word) {
            Some(connector) => Part::Connector(connector),
            None => Part::Wrong,
        }
    }
}

/// Whether a word stands in angle brackets with at least one byte between, as the name of a macro.
pub fn is_macro_name(word: &[u8]) -> bool
    ensures { result ≡ is_macro_name word.now }
{
    word.len() > 2 && word[0] == b'<' && word[word.len() - 1] == b'>'
}

/// Whether a word is read as a number, after a square bracket.
fn begins_number(word: &[u8]) -> bool
    ensures { result ≡ begins_number word.now }
{
    match word.first() {
        Some(b) => matches!(b, b'0'..=b'9' | b'.' | b'-'),
        None => false,
    }
}

fn part_of_number(word: &[u8]) -> Part<'static>
    ensures { part_of result ≡ part_of_number (read_cost word.now) }
{
    match parse_cost(word) {
        Some(cost) => Part::Number(cost),
        None => Part::NoNumber,
    }
}

/// The connector that a word writes, if it writes one.
fn connector_of(word: &[u8]) -> Option<Connector>
    ensures { result ≡ connector_of word.now }
{
    let (sign, letters) = word.split_last()?;
    match sign {
        b'+' => connector_without_sign(letters, true),
        b'-' => connector_without_sign(letters, false),
        _ => None,
    }
}

fn connector_without_sign(letters: &[u8], right: bool) -> Option<Connector>
    ensures { result ≡ connector_without_sign letters.now right }
{
    match letters.split_first()? {
        (b'@', letters) => connector_from(letters, true, right),
        _ => connector_from(letters, false, right),
    }
}

fn connector_from(letters: &[u8], multi: bool, right: bool) -> Option<Connector>
    ensures { result ≡ connector_from letters.now multi right }
{
    let capitals = capitals(letters);
    Connector::of(&letters[..capitals], &letters[capitals..], multi, right)
}
