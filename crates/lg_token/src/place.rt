//! Where the tokens of a sentence stand, and the tokens that stand there.
ghost use Rattle.std.specs.Prelude.{IfOk, OnOk};
ghost use Rattle.lg_token.specs.Places.{AreWordsAt, AreAt};
ghost use Rattle.lg_token.specs.Steps.{AreLists};

use crate::lists::{Named, words_of};
use crate::words::token_words;
use lg_base::{NoMemory, Text, Texts};
use lg_dict::View;
use lg_gram::{Token, Tokens};
use std::alloc::Global;

/// Which words a token has: those of its name, as a wall, or those of a piece of the text, which is the initial token or is not.
#[derive(Clone, Copy, Debug, PartialEq, Eq)]
pub(crate) enum Kind {
    Wall,
    Piece { initial: bool },
}

/// A token without its words: its bytes from `from` to `to`, and its text.
#[derive(Clone, Copy, Debug)]
pub(crate) struct Place<'a> {
    pub from: u32,
    pub to: u32,
    pub text: &'a [u8],
    pub kind: Kind,
}

/// The tokens at these places, each with its words.
pub(crate) fn tokens_at<'a>(
    alloc: Global,
    view: &View,
    lists: &mut Vec<Named<'a>>,
    places: &[Place<'a>],
) -> Result<Tokens, NoMemory>
    requires { AreLists view.now lists.old.items }
    ensures { IfOk result (AreAt view.now places.now) }
{
    let mut tokens = Vec::new(alloc);
    for place in places {
        let token = Token {
            from: place.from,
            to: place.to,
            text: Text::of(alloc, place.text)?,
            words: words_at(alloc, view, lists, place.kind, place.text)?,
        };
        tokens.push(token)?;
    }
    Ok(Tokens::of(tokens))
}

/// The words of the token of this text.
pub(crate) fn words_at<'a>(
    alloc: Global,
    view: &View,
    lists: &mut Vec<Named<'a>>,
    kind: Kind,
    text: &'a [u8],
) -> Result<Texts, NoMemory>
    requires { AreLists view.now lists.old.items }
    ensures words { IfOk result (AreWordsAt view.now kind text.now) }
    ensures lists { OnOk result (AreLists view.now lists.new.items) }
{
    match kind {
        Kind::Wall => words_of(alloc, view, lists, text),
        Kind::Piece { initial } => token_words(alloc, view, lists, initial, text),
    }
}
