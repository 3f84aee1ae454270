//! Parts in numbers, written as linkages.
ghost use Rattle.std.specs.Prelude.{◌≡◌, ◌<◌, ◌≤◌, [], ℕ, List, Option, length, slice_index_or, IfOk};
ghost use Rattle.lg_gram.specs.Linkages.{Linkage as Seen, IsLinkage};
ghost use Rattle.lg_gram.specs.declared.disjunct.Disjunct.{Disjunct as SeenDisjunct};
ghost use Rattle.lg_rank.specs.Meanings.{IsCodeOf, IsPacked, AreCodesOf};
ghost use Rattle.lg_rank.specs.Sources.{value_in};
ghost use Rattle.lg_rank.specs.Values.{value_of};

use crate::part::Part;
use crate::small::SmallLink;
use crate::source::Source;
use lg_base::NoMemory;
use lg_gram::{Chosen, Disjunct, Link, Linkage, Links, Problem};
use std::alloc::Global;

fn copy_of(disjunct: &Disjunct) -> Result<Disjunct, NoMemory>
    ensures { IfOk result (λ copy. copy ≡ disjunct.now) }
{
    let copy = disjunct.clone()?;
    Ok(copy)
}

fn links_of(alloc: Global, links: &[SmallLink]) -> Result<Vec<Link>, NoMemory>
    ensures { IfOk result (λ copy. copy.items ≡ links.now) }
{
    let mut copy = Vec::with_capacity(alloc, links.len())?;
    for link in links {
        copy.push(link.full())?;
    }
    Ok(copy)
}

// The choice that a number stands for.
fn choice_of(disjuncts: &[Disjunct], code: u32) -> Result<Option<Disjunct>, NoMemory>
    requires { code ≤ length disjuncts.now }
    ensures { IfOk result (λ choice. IsCodeOf disjuncts.now choice code) }
{
    if code == 0 {
        return Ok(None);
    }
    let copy = copy_of(&disjuncts[code as usize - 1])?;
    Ok(Some(copy))
}

// The choices that the numbers stand for.
fn choices_of(
    alloc: Global,
    problem: &Problem,
    codes: &[u32],
) -> Result<Vec<Option<Disjunct>>, NoMemory>
    requires long { length codes.now ≡ length problem.now }
    requires known { (i : ℕ) → i < length codes.now → slice_index_or codes.now i 0 ≤ length (slice_index_or problem.now i []) }
    ensures { IfOk result (λ choices. AreCodesOf problem.now choices.items codes.now) }
{
    let positions = problem.positions();
    let mut choices = Vec::new(alloc);
    for i in 0..codes.len() {
        let choice = choice_of(positions[i].items(), codes[i])?;
        choices.push(choice)?;
    }
    Ok(choices)
}

/// The linkage of a part.
pub fn linkage_of(alloc: Global, problem: &Problem, part: Source<'_>) -> Result<Linkage, NoMemory>
    requires { (g : Seen) × IsPacked problem.now g (value_in part) × IsLinkage g × (length g.chosen ≡ length problem.now) }
    ensures { (g : Seen) → IsPacked problem.now g (value_in part.entry) → length g.chosen ≡ length problem.now → IfOk result (λ linkage. linkage ≡ g) }
{
    match part {
        Source::Made(part) => {
            let codes = part.choices(alloc)?;
            let links = part.links(alloc)?;
            linkage_by(alloc, problem, part, codes.as_slice(), links.as_slice())
        }
        Source::Waiting(ready) => {
            linkage_by(alloc, problem, ready.part(), ready.choices(), ready.links())
        }
    }
}

// The linkage of a part with these choices and links.
fn linkage_by(
    alloc: Global,
    problem: &Problem,
    part: &Part,
    codes: &[u32],
    small: &[SmallLink],
) -> Result<Linkage, NoMemory>
    requires codes { codes.now ≡ (value_of part.now).choices }
    requires links { small.now ≡ (value_of part.now).links }
    requires packed { (g : Seen) × IsPacked problem.now g (value_of part.now) × IsLinkage g × (length g.chosen ≡ length problem.now) }
    ensures { (g : Seen) → IsPacked problem.now g (value_of part.now) → length g.chosen ≡ length problem.now → IfOk result (λ linkage. linkage ≡ g) }
{
    let choices = choices_of(alloc, problem, codes)?;
    let links = links_of(alloc, small)?;
    Ok(Linkage::of_known(Chosen::of(choices), Links::of(links)))
}
