//! The words of a sentence with their formulas.
ghost use Rattle.std.specs.Prelude.{◌≡◌};

use lg_base::{List, Text};
use lg_gram::Formula;
use std::marker::Model;

/// A word of the dictionary with its formula. Contracts see `{ word, tree }`.
#[derive(Debug, Drop)]
pub struct WordExpr {
    pub word: Text,
    pub formula: Formula,
}

impl Model for WordExpr {
    ghost use Rattle.lg_gram.specs.Trees.{tree_of};
    ghost use Rattle.lg_eprune.specs.Live.{WordTree};
    ghost use Rattle.lg_eprune.specs.TreeCode.{coded_word};

    ghost Value = { WordTree };

    ghost coded = { coded_word };

    ghost view = { λ e. record { word = e.word; tree = tree_of e.formula } };
}

/// The words of a position.
pub type WordExprs = List<WordExpr>;

/// The positions of a sentence.
pub type PositionExprs = List<WordExprs>;
