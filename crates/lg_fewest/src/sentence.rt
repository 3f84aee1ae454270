//! The least number of unlinked words of a sentence.
ghost use Rattle.std.specs.Prelude.{◌≡◌, ◌↔◌, ◌+◌, ◌<◌, ◌≤◌, ◌^◌, Some, length, Contains, IfOk, IfSome, MatchOption, OnOk};
ghost use Rattle.lg_gram.specs.Levels.{IsFewest};
ghost use Rattle.lg_fewest.specs.Spans.{HasFirstSum, IsFirstAlt, right_span};
ghost use Rattle.lg_fewest.specs.Least.{AreLeast, Lowers, SumsDecide};

use crate::law::sums_decide;
use crate::search::least;
use crate::span::{Span, right_of, word_of};
use crate::table::Table;
use lg_base::{NoMemory, Own, Steps};
use lg_gram::Problem;
use lg_region::{Alt, Alts, Key, Lists, expand_key};
use std::alloc::Global;

/// The least number of unlinked words that a linkage of the problem leaves. The only error is running out of memory.
pub fn fewest(alloc: Global, problem: &Problem) -> Result<u32, NoMemory>
    ensures { IfOk result (IsFewest problem.now) }
{
    sums_decide();
    let words = problem.positions().len() as u32;
    let lists = Lists::of(alloc, problem)?;
    lists.are_numbered();
    let firsts = firsts_of(alloc, &lists, words)?;
    let mut table = Table::new(alloc);
    let fewest = over_firsts(alloc, &lists, &mut table, &firsts, words)?;
    Ok(fewest)
}

// The least of the sums of the first linked words, and of all words.
fn over_firsts(
    alloc: Global,
    lists: &Lists<'_>,
    table: &mut Table,
    firsts: &Alts,
    words: u32,
) -> Result<u32, NoMemory>
    requires law { SumsDecide lists.now }
    requires firsts { (a : _) → Contains firsts.now a ↔ IsFirstAlt lists.now a }
    requires words { words ≡ length lists.now.positions }
    requires table { AreLeast lists.now table.old }
    ensures { IfOk result (IsFewest lists.entry.now.positions) }
{
    let mut least = words;
    for index in 0..firsts.len() {
        least = begin_at(alloc, lists, table, firsts.get(index), least)?;
    }
    Ok(least)
}

// The first linked words, with each of their disjuncts.
fn firsts_of(alloc: Global, lists: &Lists<'_>, words: u32) -> Result<Alts, NoMemory>
    requires { words ≡ length lists.now.positions }
    ensures { IfOk result (λ alts. (a : _) → Contains alts a ↔ IsFirstAlt lists.entry.now a) }
{
    let key = Key::Whole {
        nulls: words.saturating_sub(1),
    };
    expand_key(alloc, lists, key, &mut Steps::<Own>::start())
}

// The least of a number and of the sums of a first linked word: the words before it are unlinked.
fn begin_at(
    alloc: Global,
    lists: &Lists<'_>,
    table: &mut Table,
    first: Alt,
    most: u32,
) -> Result<u32, NoMemory>
    requires law { SumsDecide lists.now }
    requires first { IsFirstAlt lists.now first }
    requires few { most ≤ length lists.now.positions }
    requires table { AreLeast lists.now table.old }
    ensures lowers { IfOk result (λ least. Lowers (HasFirstSum lists.entry.now first) (Some most) (Some least)) }
    ensures table { OnOk result (AreLeast lists.entry.now table.new) }
{
    match right_of(first) {
        None => Ok(most),
        Some(behind) => begin_before(alloc, lists, table, first, behind, most),
    }
}

// The same, where this lies behind it.
fn begin_before(
    alloc: Global,
    lists: &Lists<'_>,
    table: &mut Table,
    first: Alt,
    behind: Span,
    most: u32,
) -> Result<u32, NoMemory>
    requires law { SumsDecide lists.now }
    requires first { IsFirstAlt lists.now first }
    requires behind { right_span first ≡ Some behind }
    requires few { most ≤ length lists.now.positions }
    requires table { AreLeast lists.now table.old }
    ensures lowers { IfOk result (λ least. Lowers (HasFirstSum lists.entry.now first) (Some most) (Some least)) }
    ensures table { OnOk result (AreLeast lists.entry.now table.new) }
{
    lists.keep_limits();
    let word = word_of(first);
    if word >= most {
        return Ok(most);
    }
    let right = least(alloc, lists, table, behind)?;
    Ok(least_with(most, word, right))
}

// The least of a number and of a sum, if it has both parts.
fn least_with(most: u32, word: u32, right: Option<u32>) -> u32
    requires { IfSome right (λ right. word + right < 2 ^ 32) }
    ensures { MatchOption right (result ≡ most) (λ right. Lowers (λ m. m ≡ word + right) (Some most) (Some result)) }
{
    match right {
        None => most,
        Some(right) => most.min(word + right),
    }
}
