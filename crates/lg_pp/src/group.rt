//! Groups: links that lie in the same domains.
ghost use Rattle.std.specs.Prelude.{◌≡◌, ◌<◌, ◌≤◌, ◌^◌, ◌⊎◌, [], length, min, slice_index, slice_set, IfOk};
ghost use Rattle.std.specs.List.{All};
ghost use Rattle.lg_pp.specs.Domains.{AreGroups};
ghost use Rattle.lg_pp.specs.Labels.{IsGood};
ghost use Rattle.lg_pp.specs.Steps.{AreAlike, AreClasses, AreHeads, AreLeasts, AreMembers, AreStillAlike};

use crate::flags::Flags;
use crate::label::Labels;
use crate::reach::rows;
use lg_base::{NoMemory, Numbers};
use lg_gram::Linkage;
use lg_knowread::Knowledge;
use std::alloc::Global;

/// All groups of a linkage, each as the increasing numbers of its links, in the order of their least links. A group holds
/// the links that lie in the same domains; each link lies in one group.
pub fn groups(alloc: Global, know: &Knowledge, g: &Linkage) -> Result<Vec<Numbers>, NoMemory>
    requires good { IsGood g.now }
    ensures { IfOk result (λ groups. AreGroups know.now g.now groups.items) }
{
    let labels = Labels::of(alloc, g)?;
    let rows = rows(alloc, know, g, &labels)?;
    let leasts = leasts(alloc, &rows, g.links().len())?;
    classes(alloc, &leasts)
}

/// For each link, below this count of them, the least link with the same flag in each row, where a row has a flag for each
/// link or none at all. Takes links times rows steps.
pub(crate) fn leasts(alloc: Global, rows: &[Flags], count: usize) -> Result<Vec<usize>, NoMemory>
    requires { All (λ row. (row ≡ []) ⊎ (count ≤ length row)) rows.now }
    ensures { IfOk result (λ leasts. AreLeasts (AreAlike rows.now) count leasts.items) }
{
    let mut leasts = vec![in alloc; 0; count]?;
    for row in rows {
        if !row.items().is_empty() {
            leasts = parted(alloc, &leasts, row.items())?;
        }
    }
    Ok(leasts)
}

// For each number the least with the same least number so far and the same flag: that least number itself, or the first
// whose flag is the other one.
fn parted(alloc: Global, leasts: &[usize], flags: &[bool]) -> Result<Vec<usize>, NoMemory>
    requires heads { AreHeads leasts.now }
    requires flags { length leasts.now ≤ length flags.now }
    ensures { IfOk result (λ parts. AreLeasts (AreStillAlike leasts.now flags.now) (length leasts.now) parts.items) }
{
    let mut others = vec![in alloc; leasts.len(); leasts.len()]?;
    let mut parts = Vec::new(alloc);
    for n in 0..leasts.len() {
        let head = leasts[n];
        if flags[n] == flags[head] {
            parts.push(head)?;
        } else {
            parts.push(first_other(&mut others, head, n))?;
        }
    }
    Ok(parts)
}

// The first of the class with the other flag, which is n where none was noted before.
fn first_other(others: &mut Vec<usize>, head: usize, n: usize) -> usize
    requires { head < length others.old.items }
    ensures first { result ≡ min (slice_index others.old.items head) n }
    ensures noted { others.new.items ≡ slice_set others.old.items head result }
{
    let first = if others[head] < n { others[head] } else { n };
    others[head] = first;
    first
}

// The numbers with one least number, together.
fn classes(alloc: Global, leasts: &[usize]) -> Result<Vec<Numbers>, NoMemory>
    requires { length leasts.now < 2 ^ 32 }
    ensures { IfOk result (λ classes. AreClasses leasts.now (length leasts.now) classes.items) }
{
    let mut classes = Vec::new(alloc);
    for n in 0..leasts.len() {
        if leasts[n] == n {
            classes.push(members(alloc, leasts, n)?)?;
        }
    }
    Ok(classes)
}

fn members(alloc: Global, leasts: &[usize], head: usize) -> Result<Numbers, NoMemory>
    requires { length leasts.now < 2 ^ 32 }
    ensures { IfOk result (λ numbers. AreMembers leasts.now head numbers) }
{
    let mut numbers = Vec::new(alloc);
    for n in 0..leasts.len() as u32 {
        if leasts[n as usize] == head {
            numbers.push(n)?;
        }
    }
    Ok(Numbers::of(numbers))
}
