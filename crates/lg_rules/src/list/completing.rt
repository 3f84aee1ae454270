//! The sets of links of one choice of disjuncts.
ghost use Rattle.std.specs.Prelude.{◌≡◌, ◌↔◌, ◌<◌, ◌≤◌, ◌+◌, ◌++◌, ◌^◌, [], length, IsTrue, IfOk, OnOk};
ghost use Rattle.std.specs.List.{All};
ghost use Rattle.lg_gram.specs.Limits.{LINKAGE_POSITIONS};
ghost use Rattle.lg_gram.specs.Linkages.{IsLinkage};
ghost use Rattle.lg_rules.specs.Partners.{FitsChoice, AreLinks};
ghost use Rattle.lg_rules.specs.Places.{linkage_of};
ghost use Rattle.lg_rules.specs.Steps.{Adds, IsCompletion, IsSoundWith};
ghost use Rattle.lg_rules.specs.Verdicts.{IsSound};

use crate::checker::verdict_of;
use crate::list::candidates::candidates;
use crate::list::pruning::{all_reached, fits, is_covered};
use crate::verdict::Verdict;
use lg_base::NoMemory;
use lg_gram::law::links_are_ordered;
use lg_gram::{Chosen, Disjunct, Link, Linkage, Links};
use std::alloc::Global;

fn is_sound(chosen: &[Option<Disjunct>], links: &[Link]) -> bool
    requires positions { length chosen.now ≤ LINKAGE_POSITIONS }
    requires fit { All FitsChoice chosen.now }
    requires are { AreLinks chosen.now links.now }
    ensures { IsTrue result ↔ IsSound (linkage_of chosen.now links.now) }
{
    matches!(verdict_of(chosen, links), Verdict::Good)
}

// Keeps the linkage if it is sound.
fn keep(
    alloc: Global,
    chosen: &Chosen,
    links: &[Link],
    out: &mut Vec<Linkage>,
) -> Result<(), NoMemory>
    requires positions { length chosen.now ≤ LINKAGE_POSITIONS }
    requires fit { All FitsChoice chosen.now }
    requires are { AreLinks chosen.now links.now }
    requires few { length links.now < 2 ^ 32 }
    ensures { OnOk result (Adds (IsCompletion chosen.now links.now []) out.old.items out.new.items) }
{
    if is_sound(chosen.items(), links) {
        let linkage = linkage_with(alloc, chosen, links)?;
        out.push(linkage)?;
    }
    Ok(())
}

fn linkage_with(alloc: Global, chosen: &Chosen, links: &[Link]) -> Result<Linkage, NoMemory>
    requires { IsLinkage (linkage_of chosen.now links.now) }
    ensures { IfOk result (λ g. g ≡ linkage_of chosen.now links.now) }
{
    let chosen = copied_choice(chosen)?;
    let links = copied_links(alloc, links)?;
    Ok(Linkage::of(chosen, links).unwrap())
}

pub(crate) fn copied_choice(chosen: &Chosen) -> Result<Chosen, NoMemory>
    ensures { IfOk result (λ copy. copy ≡ chosen.now) }
{
    Ok(chosen.clone()?)
}

fn copied_links(alloc: Global, links: &[Link]) -> Result<Links, NoMemory>
    ensures { IfOk result (λ copy. copy ≡ links.now) }
{
    let items = links.iter().copied().collect(alloc)?;
    Ok(Links::of(items))
}

// Adds the sound linkages with the links that are taken and some of the rest. Each link that fits is taken in turn, and
// the call goes on behind it; the loop ends at the first link that no linkage leaves out. So the recursion is as deep as
// links are taken, and not as long as the rest: links that fit together join different pairs of positions, of which eight
// positions have 28.
fn complete(
    alloc: Global,
    chosen: &Chosen,
    rest: &[Link],
    taken: &mut Vec<Link>,
    out: &mut Vec<Linkage>,
) -> Result<(), NoMemory>
    requires positions { length chosen.now ≤ LINKAGE_POSITIONS }
    requires fit { All FitsChoice chosen.now }
    requires are { AreLinks chosen.now (taken.old.items ++ rest.now) }
    requires few { length (taken.old.items ++ rest.now) < 2 ^ 32 }
    ensures restored { OnOk result (taken.new.items ≡ taken.old.items) }
    ensures added { OnOk result (Adds (IsCompletion chosen.now taken.old.items rest.now) out.old.items out.new.items) }
{
    for (i, link) in rest.iter().enumerate() {
        let later = &rest[i + 1..];
        if fits(taken, link) {
            taken.push(*link)?;
            complete(alloc, chosen, later, taken, out)?;
            taken.pop();
        }
        if !is_covered(taken, later, link) {
            return Ok(());
        }
    }
    keep(alloc, chosen, taken, out)?;
    Ok(())
}

/// Adds the sound linkages with this choice.
pub(crate) fn add_sound(
    alloc: Global,
    chosen: &Chosen,
    out: &mut Vec<Linkage>,
) -> Result<(), NoMemory>
    requires positions { length chosen.now ≤ LINKAGE_POSITIONS }
    requires fit { All FitsChoice chosen.now }
    ensures { OnOk result (Adds (IsSoundWith chosen.now) out.old.items out.new.items) }
{
    links_are_ordered();
    let links = candidates(alloc, chosen.items())?;
    if !all_reached(chosen.items(), &links) {
        return Ok(());
    }
    let mut taken = Vec::new(alloc);
    complete(alloc, chosen, &links, &mut taken, out)?;
    Ok(())
}
