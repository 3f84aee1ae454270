//! The disjuncts of the words of each position.
ghost use Rattle.std.specs.Prelude.{◌≡◌, ◌↔◌, All, IfOk, IsTrue, map};
ghost use Rattle.std.specs.List.{AllZip, Contains};
ghost use Rattle.std.specs.List.Sorted.{IsStrictlySortedBy};
ghost use Rattle.std.specs.declared.cmp.Ordering.TheVariants.{Less};
ghost use Rattle.lg_disj.specs.Outlines.{all_in, disjuncts_in};
ghost use Rattle.lg_gram.specs.Disjuncts.{disjunct_cmp, AreDisjuncts};
ghost use Rattle.lg_gram.specs.Problems.{FitsProblem};
ghost use Rattle.lg_gram.specs.declared.disjunct.Disjunct.{Disjunct as Seen};
ghost use Rattle.lg_answer.specs.Steps.{AreApart, AreToldApart, AreListedOf, AreMade, word_cmp};

use lg_base::NoMemory;
use lg_disj::{Outline, expand, outlined};
use lg_eprune::{WordExpr, WordExprs};
use lg_gram::{Disjunct, Disjuncts, Positions};
use lg_member::Outlines;
use std::alloc::Global;
use std::cmp::Ordering;

/// The disjuncts of the words of each position, in order and each once. The only error is running out of memory.
pub(crate) fn expanded(alloc: Global, positions: &[WordExprs]) -> Result<Positions, NoMemory>
    requires { All AreApart positions.now }
    ensures { IfOk result (AllZip AreMade positions.now) }
{
    let mut all = Vec::with_capacity(alloc, positions.len())?;
    for words in positions {
        all.push(disjuncts_of(alloc, words.items())?)?;
    }
    Ok(Positions::of(all))
}

/// The disjuncts of the words of each position in outline, those of one word after those of another: the words increase, and so do they.
/// The only error is running out of memory.
pub(crate) fn in_outline(alloc: Global, positions: &[WordExprs]) -> Result<Vec<Outlines>, NoMemory>
    requires { All (IsStrictlySortedBy word_cmp) positions.now }
    ensures { IfOk result (λ all. AllZip AreMade positions.now (map all_in all.items)) }
{
    let mut all = Vec::with_capacity(alloc, positions.len())?;
    for words in positions {
        all.push(outlines_of(alloc, words.items())?)?;
    }
    Ok(all)
}

fn outlines_of(alloc: Global, words: &[WordExpr]) -> Result<Outlines, NoMemory>
    requires { IsStrictlySortedBy word_cmp words.now }
    ensures { IfOk result (λ outlines. AreMade words.now (all_in outlines)) }
{
    let mut outlines = Vec::with_capacity(alloc, words.len())?;
    for word in words {
        outlines.push(outline_of_word(alloc, word)?)?;
    }
    Ok(Outlines::of(outlines))
}

fn outline_of_word(alloc: Global, word: &WordExpr) -> Result<Outline, NoMemory>
    ensures are { IfOk result (λ o. AreDisjuncts word.now.word word.now.tree (disjuncts_in o)) }
    ensures fit { IfOk result (λ o. All FitsProblem (disjuncts_in o)) }
{
    outlined(alloc, &word.word, &word.formula)
}

/// Whether the words of each position increase by their bytes.
pub(crate) fn all_rise(positions: &[WordExprs]) -> bool
    ensures { IsTrue result → All (IsStrictlySortedBy word_cmp) positions.now }
{
    positions.iter().all(|words| words_rise(words.items()))
}

// The disjuncts of all these words. A sentence's own words increase by bytes and disjuncts by their words first, so that the
// lists of the words stand in order one after another; those of idioms may not.
fn disjuncts_of(alloc: Global, words: &[WordExpr]) -> Result<Disjuncts, NoMemory>
    requires { AreApart words.now }
    ensures { IfOk result (AreMade words.now) }
{
    let all = listed(alloc, words)?;
    if words_rise(words) {
        return Ok(Disjuncts::of(all));
    }
    let kept = in_order(all)?;
    Ok(Disjuncts::of(kept))
}

// Whether each word comes before the next, by its bytes.
fn words_rise(words: &[WordExpr]) -> bool
    ensures { IsTrue result → IsStrictlySortedBy word_cmp words.now }
{
    for i in 1..words.len() {
        if !is_before(&words[i - 1], &words[i]) {
            return false;
        }
    }
    true
}

fn is_before(word: &WordExpr, other: &WordExpr) -> bool
    ensures { IsTrue result ↔ (word_cmp word.now other.now ≡ Less) }
{
    word.word.bytes().cmp(other.word.bytes()) == Ordering::Less
}

// The disjuncts of one word after another. If the words increase, so do they.
fn listed(alloc: Global, words: &[WordExpr]) -> Result<Vec<Disjunct>, NoMemory>
    ensures all { IfOk result (λ all. AreListedOf words.now all.items) }
    ensures rise { IsStrictlySortedBy word_cmp words.now → IfOk result (λ all. IsStrictlySortedBy disjunct_cmp all.items) }
{
    let mut all = Vec::new(alloc);
    for word in words {
        let mut more = disjuncts_of_word(alloc, word)?.into_items();
        all.append(&mut more)?;
    }
    Ok(all)
}

fn disjuncts_of_word(alloc: Global, word: &WordExpr) -> Result<Disjuncts, NoMemory>
    ensures are { IfOk result (AreDisjuncts word.now.word word.now.tree) }
    ensures fit { IfOk result (All FitsProblem) }
{
    expand(alloc, &word.word, &word.formula)
}

// These disjuncts in order, each once.
fn in_order(mut disjuncts: Vec<Disjunct>) -> Result<Vec<Disjunct>, NoMemory>
    requires { AreToldApart disjuncts.items }
    ensures rise { IfOk result (λ list. IsStrictlySortedBy disjunct_cmp list.items) }
    ensures same { IfOk result (λ list. (d : Seen) → Contains list.items d ↔ Contains disjuncts.items d) }
{
    disjuncts.sort_by(|a, b| a.compare(b))?;
    disjuncts.dedup_by(|next, kept| next.compare(kept) == Ordering::Equal);
    Ok(disjuncts)
}
