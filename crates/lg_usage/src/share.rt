//! What one linkage uses.
ghost use Rattle.std.specs.Prelude.{[], ◌∷◌, OnOk, IfOk};
ghost use Rattle.lg_gram.specs.Rules.{IsMatched, HasLink, rights_of, lefts_of};
ghost use Rattle.lg_usage.specs.Totals.{words_used, word_of, labels_used, GREATEST};
ghost use Rattle.lg_usage.specs.Stored.{Counts, CountsMore, AreBelow};

use crate::counts::{Counts, make_place, raise};
use lg_base::NoMemory;
use lg_gram::{Disjunct, Linkage};
use std::alloc::Global;
use std::collections::BTreeMap;

/// How often each dictionary word is used.
pub(crate) fn word_counts(alloc: Global, g: &Linkage) -> Result<Counts, NoMemory>
    ensures { IfOk result (λ counts. Counts counts (words_used g.now)) }
{
    let mut counts = BTreeMap::new(alloc);
    for choice in g.chosen() {
        count_word(&mut counts, alloc, choice)?;
    }
    Ok(counts)
}

// Counts the word once more, if the position is linked.
fn count_word(counts: &mut Counts, alloc: Global, choice: &Option<Disjunct>) -> Result<(), NoMemory>
    requires { AreBelow GREATEST counts.old }
    ensures { OnOk result (CountsMore counts.old (word_of choice.now) counts.new) }
{
    match choice {
        None => Ok(()),
        Some(disjunct) => count(counts, alloc, disjunct.word.bytes()),
    }
}

/// How often each label is used.
pub(crate) fn label_counts(alloc: Global, g: &Linkage) -> Result<Counts, NoMemory>
    requires { IsMatched (rights_of g.now) (lefts_of g.now) (HasLink g.now) }
    ensures { IfOk result (λ counts. Counts counts (labels_used g.now)) }
{
    let mut counts = BTreeMap::new(alloc);
    for link in g.links() {
        let label = g.label(link);
        count(&mut counts, alloc, label.letters())?;
    }
    Ok(counts)
}

// Counts the text once more.
fn count(counts: &mut Counts, alloc: Global, text: &[u8]) -> Result<(), NoMemory>
    requires { AreBelow GREATEST counts.old }
    ensures { OnOk result (CountsMore counts.old (text.now ∷ []) counts.new) }
{
    make_place(counts, alloc, text)?;
    raise(counts, text, 1);
    Ok(())
}
