ghost use Rattle.std.specs.Prelude.{◌≡◌, ◌+◌, ◌≤◌, ◌<◌, [], ◌∷◌, length, IfSome, MatchOption};
ghost use Rattle.lg_lex.specs.Found.{lexeme_of, following, width};
ghost use Rattle.lg_lex.specs.Lexing.{tokens_from};
ghost use Rattle.lg_lex.specs.Spots.{IsSpot};

use crate::location::Location;
use crate::marks::Marks;
use crate::token::{Token, next_token};

/// A spot in a text: the number of bytes before it, with its line and column.
#[derive(Clone, Copy, Debug, PartialEq, Eq)]
pub struct Spot {
    pub at: usize,
    pub location: Location,
}

/// A token, with the spots where it starts and ends.
#[derive(Clone, Copy, Debug, PartialEq, Eq)]
pub struct Spotted<'a> {
    pub token: Token<'a>,
    pub start: Spot,
    pub end: Spot,
}

impl Spot {
    /// Before the first byte.
    pub const START: Spot = Spot {
        at: 0,
        location: Location::START,
    };

    /// A later spot of the same text. The time is linear in the bytes between.
    pub fn on_to(self, text: &[u8], at: usize) -> Spot
        requires here { IsSpot text.now self }
        requires later { self.at ≤ at }
        requires within { at ≤ length text.now }
        ensures spot { IsSpot text.now result }
        ensures at { result.at ≡ at }
    {
        Spot {
            at,
            location: self.location.past(&text[self.at..at]),
        }
    }
}

/// The first token at or after a spot, or `None` where no token follows.
///
/// The spot is that before the first byte, or the `end` of the token before. A broken token ends the list of tokens, so
/// nothing is said of what follows it. The time is linear in the bytes from the spot to the token's end, so it is linear
/// in the text over all its tokens.
pub fn next_spotted(marks: Marks, text: &[u8], from: Spot) -> Option<Spotted<'_>>
    requires { IsSpot text.now from }
    ensures start { IfSome result (λ f. IsSpot text.now f.start) }
    ensures end { IfSome result (λ f. IsSpot text.now f.end) }
    ensures later { IfSome result (λ f. from.at < f.end.at) }
    ensures next { MatchOption result
        (tokens_from marks text.now from.at ≡ [])
        (λ f. tokens_from marks text.now from.at
        ≡ (lexeme_of f.token, f.start.at) ∷ following f.token (tokens_from marks text.now f.end.at)) }
    ensures wide { IfSome result (λ f. f.end.at ≡ f.start.at + width f.token) }
{
    let found = next_token(marks, text, from.at)?;
    let start = from.on_to(text, found.start);
    Some(Spotted {
        token: found.token,
        start,
        end: start.on_to(text, found.end),
    })
}
