//! Which chains are taken.
ghost use Rattle.std.specs.Prelude.{◌≡◌, [], ◌∷◌, All, OnOk};
ghost use Rattle.lg_idiom.specs.Takings.{HasTaken, TakesMore};
ghost use Rattle.lg_idiom.specs.Sentences.{IsPlaced, chain_of, chains_from};

use crate::chain::Chain;
use lg_base::{NoMemory, Text};
use lg_dict::{View, parts};
use std::alloc::Global;

// The choices of all chains that are taken.
const CHOICES: u64 = 4_000_000;

/// The chains that are taken, and how many choices are left for others.
#[derive(Drop)]
pub(crate) struct Taken {
    chains: Vec<Chain>,
    left: u64,
}

impl Taken {
    /// None is taken of no chains.
    pub(crate) fn new(alloc: Global) -> Taken
        ensures { HasTaken [] result }
    {
        Taken {
            chains: Vec::new(alloc),
            left: CHOICES,
        }
    }

    /// Takes the chains of compounds that fit at a position, one after another: each that may be used and whose choices are
    /// not too many. The compounds increase by bytes, and the place of one is its rank.
    pub(crate) fn take_words(
        &mut self,
        alloc: Global,
        view: &View,
        start: usize,
        words: &[Text],
    ) -> Result<(), NoMemory>
        requires { All (IsPlaced view.now start) words.now }
        ensures { OnOk result (TakesMore (chains_from view.now start 0 words.now) self.old self.new) }
    {
        for (rank, word) in words.iter().enumerate() {
            self.take_word(alloc, view, start, rank, word.bytes())?;
        }
        Ok(())
    }

    // Takes the chain of one of them. Its formula is made only if its choices are not too many.
    fn take_word(
        &mut self,
        alloc: Global,
        view: &View,
        start: usize,
        rank: usize,
        word: &[u8],
    ) -> Result<(), NoMemory>
        requires { IsPlaced view.now start word.now }
        ensures { OnOk result (TakesMore (chain_of view.now start rank word.now ∷ []) self.old self.new) }
    {
        let formula = view.get(word).unwrap();
        let count = parts(alloc, word)?.items().len();
        let choices = (count - 1) as u64 + formula.choices();
        let Some(left) = self.left.checked_sub(choices) else {
            return Ok(());
        };
        let Some(chain) = Chain::of(alloc, start, rank, count, word, formula)? else {
            return Ok(());
        };
        self.chains.push(chain)?;
        self.left = left;
        Ok(())
    }

    /// The chains.
    pub(crate) fn into_chains(self) -> Vec<Chain>
        ensures { result ≡ self.chains }
    {
        self.chains
    }
}
