//! Linkages from their drafts.
ghost use Rattle.std.specs.Prelude.{◌≡◌, ◌↔◌, ℕ, Some, IfOk, MatchOption, Contains, slice_get};
ghost use Rattle.std.specs.List.Sorted.{IsStrictlySortedBy};
ghost use Rattle.lg_gram.specs.Linkages.{Linkage as Seen, link_cmp};
ghost use Rattle.lg_gram.specs.Rules.{Good};
ghost use Rattle.lg_gram.specs.declared.disjunct.Disjunct.{Disjunct as SeenDisjunct};
ghost use Rattle.lg_gram.specs.declared.linkage.Link.{Link as SeenLink};
ghost use Rattle.lg_forest.specs.Drafts.{Draft as SeenDraft, IsDraftOf, HaveDrafts};
ghost use Rattle.lg_forest.specs.declared.draft.Use.{Use as SeenUse};

use crate::draft::{Draft, Use};
use lg_base::NoMemory;
use lg_gram::law::links_are_ordered;
use lg_gram::{Chosen, Disjunct, Disjuncts, Link, Linkage, Links, Problem};
use std::alloc::Global;

/// The good linkage that has this draft.
pub(crate) fn linkage_of(
    alloc: Global,
    problem: &Problem,
    draft: &Draft,
) -> Result<Linkage, NoMemory>
    requires { (g : Seen) × Good problem.now g × IsDraftOf problem.now draft.now g }
    ensures { (g : Seen) → IsDraftOf problem.now draft.now g → IfOk result (λ linkage. linkage ≡ g) }
{
    links_are_ordered();
    let chosen = chosen_of(alloc, problem.positions(), draft)?;
    let links = sorted_links(alloc, draft.links())?;
    Ok(Linkage::of_known(chosen, links))
}

// What each position uses.
fn chosen_of(alloc: Global, positions: &[Disjuncts], draft: &Draft) -> Result<Chosen, NoMemory>
    ensures { (g : Seen) → IsDraftOf positions.now draft.now g → IfOk result (λ chosen. chosen ≡ g.chosen) }
{
    let mut chosen = Vec::new(alloc);
    for (word, position) in positions.iter().enumerate() {
        let choice = choice_at(position.items(), draft.uses(), word)?;
        chosen.push(choice)?;
    }
    Ok(Chosen::of(chosen))
}

// The disjunct that a word uses.
fn choice_at(position: &[Disjunct], uses: &[Use], word: usize) -> Result<Option<Disjunct>, NoMemory>
    ensures { IfOk result (λ choice. MatchOption choice ((u : SeenUse) → Contains uses.now u → (d : SeenDisjunct) → u.word ≡ word → slice_get position.now u.disjunct ≡ Some d → ⊥) (λ d. (u : SeenUse) × Contains uses.now u × (u.word ≡ word) × (slice_get position.now u.disjunct ≡ Some d))) }
{
    for used in uses {
        if let Some(disjunct) = named(position, *used, word) {
            return Ok(Some(copied(disjunct)?));
        }
    }
    Ok(None)
}

// The disjunct that a word uses, if the use is of this word.
fn named(position: &[Disjunct], used: Use, word: usize) -> Option<&Disjunct>
    ensures { MatchOption result ((d : SeenDisjunct) → used.word ≡ word → slice_get position.now used.disjunct ≡ Some d → ⊥) (λ d. (used.word ≡ word) × (slice_get position.now used.disjunct ≡ Some d.now)) }
{
    if used.word as usize == word {
        position.get(used.disjunct as usize)
    } else {
        None
    }
}

fn copied(disjunct: &Disjunct) -> Result<Disjunct, NoMemory>
    ensures { IfOk result (λ copy. copy ≡ disjunct.now) }
{
    Ok(disjunct.clone()?)
}

// The links in their order, each once.
fn sorted_links(alloc: Global, links: &[Link]) -> Result<Links, NoMemory>
    ensures rise { IfOk result (IsStrictlySortedBy link_cmp) }
    ensures same { IfOk result (λ list. (l : SeenLink) → Contains list l ↔ Contains links.now l) }
{
    links_are_ordered();
    let mut list = links.to_vec(alloc)?;
    list.sort()?;
    list.dedup();
    Ok(Links::of(list))
}

/// The good linkages that have these drafts.
pub(crate) fn linkages_of(
    alloc: Global,
    problem: &Problem,
    drafts: &[Draft],
) -> Result<Vec<Linkage>, NoMemory>
    requires { (p : SeenDraft) → Contains drafts.now p → (g : Seen) × Good problem.now g × IsDraftOf problem.now p g }
    ensures { IfOk result (λ all. HaveDrafts problem.now drafts.now all.items) }
{
    let mut all = Vec::new(alloc);
    for draft in drafts {
        let linkage = linkage_of(alloc, problem, draft)?;
        all.push(linkage)?;
    }
    Ok(all)
}
