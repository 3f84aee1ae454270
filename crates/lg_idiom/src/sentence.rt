//! The idioms of a sentence.
ghost use Rattle.std.specs.Prelude.{◌≡◌, ◌≤◌, length, IfOk};
ghost use Rattle.lg_gram.specs.Limits.{POSITIONS};
ghost use Rattle.lg_idiom.specs.Sentences.{AddIdioms, AreTakenOf};

use crate::adding::positions_of;
use crate::chain::Chain;
use crate::fitting::fitting;
use crate::order::by_word;
use crate::taken::Taken;
use lg_base::NoMemory;
use lg_dict::View;
use lg_eprune::PositionExprs;
use lg_gram::{Token, Tokens};
use std::alloc::Global;

/// The formulas that idioms add to each position of a sentence of at most 252 tokens, walls included: each under its compound, by
/// compound and then by where it starts.
///
/// An idiom is a compound of the dictionary, as `New_York`, whose parts the tokens from some position on are, one after another; the
/// first token that is no wall also counts with its first letter A to Z made small. Its positions are held together by joints, which
/// have names of their own, and the last one has the compound's formula too. Left out is what has a rank above 999,999 among those of
/// its start or whose last formula passes a limit, and by start and rank what would bring the choices of all above 4,000,000.
///
/// The time is linear in the tokens, in the compounds that begin with the text of a token, and in what is added, but for the sorting
/// of the idioms. The only error is running out of memory.
pub fn idioms(alloc: Global, view: &View, tokens: &Tokens) -> Result<PositionExprs, NoMemory>
    requires { length tokens.now ≤ POSITIONS }
    ensures { IfOk result (AddIdioms view.now tokens.now) }
{
    let taken = taken_of(alloc, view, tokens.items())?;
    let chains = by_word(taken)?;
    positions_of(alloc, &chains, tokens.items().len())
}

// The chains that are taken of all.
fn taken_of(alloc: Global, view: &View, tokens: &[Token]) -> Result<Vec<Chain>, NoMemory>
    requires { length tokens.now ≤ POSITIONS }
    ensures { IfOk result (λ taken. AreTakenOf view.now tokens.now taken.items) }
{
    let mut taken = Taken::new(alloc);
    for start in 0..tokens.len() {
        let words = fitting(alloc, view, tokens, start)?;
        taken.take_words(alloc, view, start, words.items())?;
    }
    Ok(taken.into_chains())
}
