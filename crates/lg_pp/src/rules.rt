//! The first rule of a knowledge that a linkage breaks.
ghost use Rattle.std.specs.Prelude.{◌≡◌, ◌<◌, ◌^◌, length, IfOk};
ghost use Rattle.std.specs.List.{Contains};
ghost use Rattle.lg_pp.specs.Breaks.{Judges};
ghost use Rattle.lg_pp.specs.Judging.{AreFacts, AreFound, FailsAtNumber, IsFirst};
ghost use Rattle.lg_pp.specs.Labels.{IsGood};

mod bounded;
mod cycle;
mod facts;
mod found;
mod trigger;

use bounded::first_of_kind;
use cycle::first_bridge;
use facts::Facts;
use found::Found;
use lg_base::NoMemory;
use lg_gram::{Linkage, Violation};
use lg_knowread::{Knowledge, Rule};
use std::alloc::Global;
use trigger::first_trigger;

/// The first rule that the linkage breaks, by its number from 1, with the least link, by left and then right, at which
/// it fails; None where it breaks none.
///
/// Patterns are matched once for all links with one label. Domains and groups are found once, and only where some rule
/// asks for them; a kind of domain is bounded once for all rules, and a link is walked around once for all cycles.
pub fn judge(alloc: Global, know: &Knowledge, g: &Linkage) -> Result<Option<Violation>, NoMemory>
    requires few { length know.now.rules < 2 ^ 32 }
    requires good { IsGood g.now }
    ensures { IfOk result (Judges know.now g.now) }
{
    if know.rules.items().is_empty() {
        return Ok(None);
    }
    let facts = Facts::of(alloc, know, g)?;
    let mut found = Found::nothing(alloc, g)?;
    for (n, rule) in know.rules.items().iter().enumerate() {
        let first = first_failure(alloc, know, g, &facts, rule, &mut found)?;
        if let Some(k) = first {
            let link = g.links()[k];
            return Ok(Some(Violation {
                rule: n as u32 + 1,
                left: link.left,
                right: link.right,
            }));
        }
    }
    Ok(None)
}

// The number of the first link at which the rule fails.
fn first_failure(
    alloc: Global,
    know: &Knowledge,
    g: &Linkage,
    facts: &Facts,
    rule: &Rule,
    found: &mut Found,
) -> Result<Option<usize>, NoMemory>
    requires good { IsGood g.now }
    requires facts { AreFacts know.now g.now facts.now }
    requires known { Contains know.now.rules rule.now }
    requires found { AreFound know.now g.now found.old }
    ensures first { IfOk result (IsFirst (FailsAtNumber know.now g.now rule.now) (length g.now.links)) }
    ensures found { AreFound know.now g.now found.new }
{
    match rule {
        Rule::Forbid {
            grouped,
            trigger,
            others,
        } => first_trigger(alloc, facts, *grouped, trigger, others, true),
        Rule::Demand {
            grouped,
            trigger,
            others,
        } => first_trigger(alloc, facts, *grouped, trigger, others, false),
        Rule::Bounded { kind } => first_of_kind(alloc, know, g, facts, *kind, &mut found.bounded),
        Rule::Cycle { pattern } => {
            let matching = facts.labels.picked(alloc, pattern)?;
            first_bridge(alloc, g, matching.items(), &mut found.cycled)
        }
    }
}
