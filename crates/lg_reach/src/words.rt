//! What is left of the words of a position.
ghost use Rattle.std.specs.Prelude.{◌≡◌, ◌∷◌, [], IfOk};
ghost use Rattle.lg_reach.specs.Narrowed.{AreNarrowed};
ghost use Rattle.lg_reach.specs.Reach.{one_word};

use crate::nearest::Stand;
use crate::site::Sites;
use crate::walk::{Least, reach};
use lg_base::{List, NoMemory, Text};
use lg_gram::Expr;
use lg_sharpen::Ways;
use std::alloc::Global;
use std::marker::Model;

/// A word with what is left of its formula. Contracts see `{ word, tree }`.
#[derive(Drop)]
pub(crate) struct Part<'a> {
    pub(crate) word: &'a Text,
    pub(crate) expr: Expr,
}

impl<'a> Model for Part<'a> {
    ghost use Rattle.lg_gram.specs.Trees.{tree_of};
    ghost use Rattle.lg_eprune.specs.Live.{WordTree};
    ghost use Rattle.lg_eprune.specs.TreeCode.{coded_word};

    ghost Value = { WordTree };

    ghost coded = { coded_word };

    ghost view = { λ p. record { word = p.word.now; tree = tree_of p.expr } };
}

/// What is left of the words of a position.
pub(crate) type Parts<'a> = List<Part<'a>>;

/// The words of a position without the choices whose links cannot reach a partner. A word without any is dropped. The sites get the connectors
/// of what is left, and the ways how far the links of each word go at least.
pub(crate) fn reach_words<'a>(
    alloc: Global,
    words: Parts<'a>,
    stand: &Stand<'_>,
    sites: &mut Sites,
    ways: &mut Ways,
) -> Result<Parts<'a>, NoMemory>
    ensures { IfOk result (AreNarrowed sites.old sites.new ways.old ways.new stand.now words.entry) }
{
    let mut kept = Vec::with_capacity(alloc, words.items().len())?;
    for word in words.into_items() {
        let Some(left) = reach_word(word, stand, sites, ways)? else {
            continue;
        };
        kept.push(left)?;
    }
    Ok(List::of(kept))
}

fn reach_word<'a>(
    word: Part<'a>,
    stand: &Stand<'_>,
    sites: &mut Sites,
    ways: &mut Ways,
) -> Result<Option<Part<'a>>, NoMemory>
    ensures { IfOk result (λ left. AreNarrowed sites.old sites.new ways.old ways.new stand.now (word.entry ∷ []) (one_word left)) }
{
    let Part { word, expr } = word;
    let Some(left) = reach(expr, stand, Least::first(), sites)? else {
        return Ok(None);
    };
    ways.note(
        stand.position,
        left.least.left.length(),
        left.least.right.length(),
    );
    Ok(Some(Part {
        word,
        expr: left.what,
    }))
}
