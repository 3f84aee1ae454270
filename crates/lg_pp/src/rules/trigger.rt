//! Rules of links that trigger, and of links that must or must not be there.
ghost use Rattle.std.specs.Prelude.{◌≡◌, ◌↔◌, ◌<◌, ◌≤◌, false, length, slice_index_or, IsTrue, IfOk};
ghost use Rattle.lg_pp.specs.Judging.{AreHits, AreWithin, IsFirst, IsLabelled, MeetsOther, class_of};
ghost use Rattle.lg_pp.specs.Labels.{Matches};

use crate::rules::facts::Facts;
use lg_base::NoMemory;
use lg_knowread::{Pattern, Patterns};
use std::alloc::Global;

/// The number of the first link that matches the trigger where the links of its group, or all links, have one that
/// matches one of the others, or have none, as it is asked.
pub(super) fn first_trigger(
    alloc: Global,
    facts: &Facts,
    grouped: bool,
    trigger: &Pattern,
    others: &Patterns,
    asked: bool,
) -> Result<Option<usize>, NoMemory>
    requires groups { AreWithin (length facts.now.labels) facts.now.groups.items }
    ensures { let labels = facts.now.labels in IfOk result (IsFirst (λ n. IsLabelled (Matches trigger.now) labels n
        × MeetsOther grouped facts.now.groups.items others.now labels asked n) (length labels)) }
{
    let groups = facts.groups.as_slice();
    let triggers = facts.labels.picked(alloc, trigger)?;
    let met = facts.labels.picked(alloc, others)?;
    let hits = hits(alloc, groups, grouped, met.items())?;
    Ok(first_of_class(groups, grouped, triggers.items(), &hits, asked))
}

fn first_of_class(
    groups: &[usize],
    grouped: bool,
    triggers: &[bool],
    hits: &[bool],
    asked: bool,
) -> Option<usize>
    requires groups { AreWithin (length triggers.now) groups.now }
    requires hits { length triggers.now ≤ length hits.now }
    ensures { IsFirst (λ n. IsTrue (slice_index_or triggers.now n false)
        × (slice_index_or hits.now (class_of grouped groups.now n) false ≡ asked)) (length triggers.now) result }
{
    for n in 0..triggers.len() {
        if triggers[n] && hits[class_of(grouped, groups, n)] == asked {
            return Some(n);
        }
    }
    None
}

// A flag for each class: whether a link of that class has its flag set.
fn hits(alloc: Global, groups: &[usize], grouped: bool, met: &[bool]) -> Result<Vec<bool>, NoMemory>
    requires groups { AreWithin (length met.now) groups.now }
    ensures enough { IfOk result (λ hits. length hits.items ≡ length met.now) }
    ensures exactly { IfOk result (λ hits. AreHits grouped groups.now met.now hits.items) }
{
    let mut hits = vec![in alloc; false; met.len()]?;
    for n in 0..met.len() {
        if met[n] {
            hits[class_of(grouped, groups, n)] = true;
        }
    }
    Ok(hits)
}

// Where links are looked at together: the least link of the group, or one class for all.
fn class_of(grouped: bool, groups: &[usize], n: usize) -> usize
    requires { n < length groups.now }
    ensures { result ≡ class_of grouped groups.now n }
{
    if grouped { groups[n] } else { 0 }
}
