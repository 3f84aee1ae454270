//! A linkage, by what is shown of it.

ghost use Rattle.std.specs.Prelude.{◌≡◌, ◌↔◌, ◌<◌, ◌≤◌, ◌^◌, length, IfOk, IsTrue, MatchOption};
ghost use Rattle.std.specs.List.{AllByRecursion};
ghost use Rattle.lg_gram.specs.Limits.{LINKAGE_POSITIONS};
ghost use Rattle.lg_gram.specs.Linkages.{Linkage as Seen, IsLinkage};
ghost use Rattle.lg_gram.specs.Rules.{Good, IsMatched, HasLink, Joins, rights_of, lefts_of};
ghost use Rattle.lg_text.specs.Texts.{label_text};
ghost use Rattle.lg_audit.specs.Pages.{IsOneOf, HaveNamedWords, MayFit, Keeps, problem_of, alone, links_in, sums_of, shown_links};

use crate::linkages::choice::copy_of;
use crate::linkages::chosen::chosen_of;
use crate::shown::{ShownLink, ShownLinkage, ShownSums};
use lg_base::NoMemory;
use lg_dict::View;
use lg_gram::law::{connectors_are_ordered, names_are_written};
use lg_gram::{Chosen, Disjunct, Disjuncts, Link, Linkage, Links, Positions, Problem, Token};
use lg_knowread::Knowledge;
use lg_pp::judge;
use lg_rules::{Verdict, belongs, check};
use std::alloc::Global;

/// The linkage of these tokens that is shown so, if one is that keeps all rules.
pub(crate) fn linkage_of(
    alloc: Global,
    view: &View,
    know: &Knowledge,
    tokens: &[Token],
    shown: &ShownLinkage<'_>,
) -> Result<Option<Linkage>, NoMemory>
    requires few_rules { length know.now.rules < 2 ^ 32 }
    requires few { length tokens.now ≤ LINKAGE_POSITIONS }
    requires named { HaveNamedWords view.now tokens.now }
    ensures { IfOk result (λ r. MatchOption r
        ((g : Seen) → IsOneOf know.now view.now tokens.now shown.now g → ⊥)
        (IsOneOf know.now view.now tokens.now shown.now)) }
{
    connectors_are_ordered();
    names_are_written();
    let Some(chosen) = chosen_of(alloc, view, tokens, shown.words.as_slice())? else {
        return Ok(None);
    };
    let Some(g) = made(alloc, chosen, shown.links.as_slice())? else {
        return Ok(None);
    };
    kept(alloc, know, g, shown.sums, shown.links.as_slice())
}

// The linkage of these choices and links, if they are one.
fn made(
    alloc: Global,
    chosen: Vec<Option<Disjunct>>,
    shown: &[ShownLink<'_>],
) -> Result<Option<Linkage>, NoMemory>
    ensures { let g : Seen = record { chosen = chosen.items; links = links_in shown.now } in
        IfOk result (λ r. MatchOption r (IsLinkage g → ⊥) (λ made. (made ≡ g) × IsLinkage g)) }
{
    let links = links_of(alloc, shown)?;
    Ok(Linkage::of(Chosen::of(chosen), Links::of(links)))
}

fn links_of(alloc: Global, shown: &[ShownLink<'_>]) -> Result<Vec<Link>, NoMemory>
    ensures { IfOk result (λ links. links.items ≡ links_in shown.now) }
{
    let mut links = Vec::with_capacity(alloc, shown.len())?;
    for one in shown {
        links.push(link_of(one))?;
    }
    Ok(links)
}

fn link_of(shown: &ShownLink<'_>) -> Link
    ensures { result ≡ shown.now.link }
{
    shown.link
}

// The linkage, if it keeps all rules and has these sums and labels.
fn kept(
    alloc: Global,
    know: &Knowledge,
    g: Linkage,
    sums: ShownSums,
    links: &[ShownLink<'_>],
) -> Result<Option<Linkage>, NoMemory>
    requires few_rules { length know.now.rules < 2 ^ 32 }
    requires fit { AllByRecursion MayFit g.chosen }
    requires same { g.links ≡ links_in links.now }
    ensures { IfOk result (λ r. MatchOption r (Keeps know.now sums links.now g → ⊥) (λ kept. (kept ≡ g) × Keeps know.now sums links.now g)) }
{
    if !is_good(alloc, &g)? {
        return Ok(None);
    }
    if !has_sums(&g, sums) {
        return Ok(None);
    }
    if !has_labels(&g, links) {
        return Ok(None);
    }
    if judge(alloc, know, &g)?.is_some() {
        return Ok(None);
    }
    Ok(Some(g))
}

fn has_sums(g: &Linkage, sums: ShownSums) -> bool
    ensures { IsTrue result ↔ (sums_of g.now ≡ sums) }
{
    let own = ShownSums {
        unused: u64::from(g.unused()),
        cost: g.cost(),
        length: g.length(),
    };
    own == sums
}

// Whether the linkage is good: of a problem whose positions have just what it uses.
fn is_good(alloc: Global, g: &Linkage) -> Result<bool, NoMemory>
    requires { AllByRecursion MayFit g.now.chosen }
    ensures { IfOk result (λ good. IsTrue good ↔ Good (problem_of g.now.chosen) g.now) }
{
    let problem = problem_of(alloc, g.chosen())?;
    if !belongs(&problem, g) {
        return Ok(false);
    }
    Ok(check(&problem, g) == Verdict::Good)
}

fn problem_of(alloc: Global, chosen: &[Option<Disjunct>]) -> Result<Problem, NoMemory>
    requires few { length chosen.now ≤ LINKAGE_POSITIONS }
    requires fit { AllByRecursion MayFit chosen.now }
    ensures { IfOk result (λ problem. problem ≡ problem_of chosen.now) }
{
    let positions = positions_of(alloc, chosen)?;
    Ok(Problem::of(positions).unwrap())
}

fn positions_of(alloc: Global, chosen: &[Option<Disjunct>]) -> Result<Positions, NoMemory>
    ensures { IfOk result (λ positions. positions ≡ problem_of chosen.now) }
{
    let mut positions = Vec::with_capacity(alloc, chosen.len())?;
    for choice in chosen {
        positions.push(alone(alloc, choice)?)?;
    }
    Ok(Positions::of(positions))
}

fn alone(alloc: Global, choice: &Option<Disjunct>) -> Result<Disjuncts, NoMemory>
    ensures { IfOk result (λ ds. ds ≡ alone choice.now) }
{
    let mut disjuncts = Vec::new(alloc);
    if let Some(disjunct) = choice {
        disjuncts.push(copy_of(disjunct)?)?;
    }
    Ok(Disjuncts::of(disjuncts))
}

// Whether these are the labels of the linkage's links.
fn has_labels(g: &Linkage, shown: &[ShownLink<'_>]) -> bool
    requires matched { IsMatched (rights_of g.now) (lefts_of g.now) (HasLink g.now) }
    requires same { g.now.links ≡ links_in shown.now }
    ensures { IsTrue result ↔ (shown_links g.now ≡ shown.now) }
{
    for one in shown {
        if !has_label(g, one) {
            return false;
        }
    }
    true
}

fn has_label(g: &Linkage, shown: &ShownLink<'_>) -> bool
    requires { Joins (rights_of g.now) (lefts_of g.now) shown.now.link }
    ensures { IsTrue result ↔ (label_text g.now shown.now.link ≡ shown.now.label) }
{
    is_labelled(g, &shown.link, shown.label)
}

fn is_labelled(g: &Linkage, link: &Link, label: &[u8]) -> bool
    requires { Joins (rights_of g.now) (lefts_of g.now) link.now }
    ensures { IsTrue result ↔ (label_text g.now link.now ≡ label.now) }
{
    g.label(link).letters() == label
}
