//! The items of an entry: what stands before its colon.

ghost use Rattle.std.specs.Prelude.{◌≡◌, ◌<◌, [], vec_len, IfOk};
ghost use Rattle.lg_lex.specs.declared.marks.Marks.TheVariants.{Dictionary};
ghost use Rattle.lg_lex.specs.Found.{lexeme_of};
ghost use Rattle.lg_lex.specs.Lexing.{tokens_from};
ghost use Rattle.lg_lex.specs.Spots.{IsSpot};
ghost use Rattle.lg_dictread.specs.Items.{item, plain_item, head_of};
ghost use Rattle.lg_dictread.specs.Scanning.{scan};
ghost use Rattle.lg_dictread.specs.View.{head_view, TellsItems};

use crate::stop::Stop;
use lg_base::Text;
use lg_expr::is_macro_name;
use lg_gram::{Item, ItemKind};
use lg_lex::{Marks, Spot, Token, next_spotted};
use std::alloc::Global;

/// What a token is before the colon of an entry.
#[derive(Clone, Copy, Debug)]
pub(crate) enum Head<'a> {
    /// What an item names, a word file without its leading slash.
    Item(ItemKind, &'a [u8]),
    Colon,
    /// Any other token. It may not stand there.
    Other,
}

/// What a token of a dictionary text is before the colon of an entry.
pub(crate) fn head_of<'a>(token: &Token<'a>) -> Head<'a>
    ensures { head_view result ≡ head_of (lexeme_of token.now) }
{
    match token {
        Token::Sign(b':') => Head::Colon,
        Token::Quoted(word) => Head::Item(ItemKind::Word, word),
        Token::Plain(word) => plain_head(word),
        Token::Sign(_) | Token::Broken => Head::Other,
    }
}

fn plain_head(word: &[u8]) -> Head<'_>
    ensures { head_view result ≡ item (plain_item word.now) }
{
    if is_macro_name(word) {
        return Head::Item(ItemKind::Macro, word);
    }
    match word.strip_prefix(b"/") {
        Some(name) if !name.is_empty() => Head::Item(ItemKind::File, name),
        _ => Head::Item(ItemKind::Word, word),
    }
}

/// The items of an entry, one or more, with the line of each and the spot after the colon.
#[derive(Debug, Drop)]
pub(crate) struct PlacedItems {
    pub(crate) items: Vec<Item>,
    pub(crate) lines: Vec<u32>,
    pub(crate) end: Spot,
}

/// The items at the front of a text, up to the colon.
pub(crate) fn read_items<'a>(
    alloc: Global,
    text: &'a [u8],
    from: Spot,
) -> Result<PlacedItems, Stop<'a>>
    requires { IsSpot text.now from }
    ensures told { TellsItems text.now (scan [] (tokens_from Dictionary text.now from.at)) result }
    ensures some { IfOk result (λ x. 0 < vec_len x.lines) }
{
    let mut items = Vec::new(alloc);
    let mut lines = Vec::new(alloc);
    let mut spot = from;
    while let Some(found) = next_spotted(Marks::Dictionary, text, spot) {
        match head_of(&found.token) {
            Head::Item(kind, name) => {
                let text = Text::of(alloc, name)?;
                items.push(Item { kind, text })?;
                lines.push(found.start.location.line)?;
            }
            Head::Colon if !lines.is_empty() => {
                return Ok(PlacedItems {
                    items,
                    lines,
                    end: found.end,
                });
            }
            Head::Colon | Head::Other => return Err(Stop::Syntax(found.start.location)),
        }
        spot = found.end;
    }
    Err(Stop::Syntax(spot.on_to(text, text.len()).location))
}
