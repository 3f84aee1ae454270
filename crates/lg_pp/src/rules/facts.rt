//! What the rules ask of the links of a linkage.
ghost use Rattle.std.specs.Prelude.{◌≡◌, ◌↔◌, ◌≤◌, ◌⊎◌, [], length, IsTrue, IfOk};
ghost use Rattle.std.specs.List.{All, Any};
ghost use Rattle.lg_pp.specs.Judging.{AreFacts, AreWithin, IsGrouped, IsOfDomains};
ghost use Rattle.lg_pp.specs.Labels.{IsGood, AreLabels};
ghost use Rattle.lg_pp.specs.Reach.{AreRows};
ghost use Rattle.lg_pp.specs.Steps.{AreAlike, AreLeasts};

use crate::flags::Flags;
use crate::group::leasts;
use crate::label::Labels;
use crate::reach::rows;
use lg_base::NoMemory;
use lg_gram::Linkage;
use lg_knowread::{Knowledge, Rule};
use std::alloc::Global;

/// The labels of the links; for each link, which links lie in the domain that it starts, where some rule is bounded or
/// grouped; and the least link of each link's group, where some rule is grouped.
#[derive(Drop)]
pub(crate) struct Facts {
    pub(crate) labels: Labels,
    pub(crate) rows: Vec<Flags>,
    pub(crate) groups: Vec<usize>,
}

impl Facts {
    /// The facts of a linkage that the rules of a knowledge ask for.
    pub(crate) fn of(alloc: Global, know: &Knowledge, g: &Linkage) -> Result<Facts, NoMemory>
        requires { IsGood g.now }
        ensures { IfOk result (AreFacts know.now g.now) }
    {
        let rules = know.rules.items();
        let labels = Labels::of(alloc, g)?;
        let rows = rows_if(alloc, is_any_of_domains(rules), know, g, &labels)?;
        let groups = groups_if(alloc, is_any_grouped(rules), &rows, g.links().len())?;
        Ok(Facts {
            labels,
            rows,
            groups,
        })
    }
}

// Which links lie in the domain of each link, where it is wanted; else no rows.
fn rows_if(
    alloc: Global,
    wanted: bool,
    know: &Knowledge,
    g: &Linkage,
    labels: &Labels,
) -> Result<Vec<Flags>, NoMemory>
    requires good { IsGood g.now }
    requires labels { AreLabels g.now labels.now }
    ensures rows { IfOk result (λ rows. IsTrue wanted → AreRows know.now g.now rows.items) }
    ensures long { IfOk result (λ rows. All (λ row. (row ≡ []) ⊎ (length g.now.links ≤ length row)) rows.items) }
{
    if wanted {
        rows(alloc, know, g, labels)
    } else {
        Ok(Vec::new(alloc))
    }
}

// The least link of each link's group, where it is wanted; else the first link of all.
fn groups_if(
    alloc: Global,
    wanted: bool,
    rows: &[Flags],
    count: usize,
) -> Result<Vec<usize>, NoMemory>
    requires { All (λ row. (row ≡ []) ⊎ (count ≤ length row)) rows.now }
    ensures within { IfOk result (λ groups. AreWithin count groups.items) }
    ensures groups { IfOk result (λ groups. IsTrue wanted → AreLeasts (AreAlike rows.now) count groups.items) }
{
    if wanted {
        leasts(alloc, rows, count)
    } else {
        leasts(alloc, &[], count)
    }
}

fn is_any_of_domains(rules: &[Rule]) -> bool
    ensures { IsTrue result ↔ Any IsOfDomains rules.now }
{
    rules.iter().any(|rule| is_of_domains(rule))
}

fn is_of_domains(rule: &Rule) -> bool
    ensures { IsTrue result ↔ IsOfDomains rule.now }
{
    matches!(rule, Rule::Bounded { .. }) || is_grouped(rule)
}

fn is_any_grouped(rules: &[Rule]) -> bool
    ensures { IsTrue result ↔ Any IsGrouped rules.now }
{
    rules.iter().any(|rule| is_grouped(rule))
}

fn is_grouped(rule: &Rule) -> bool
    ensures { IsTrue result ↔ IsGrouped rule.now }
{
    match rule {
        Rule::Forbid { grouped, .. } | Rule::Demand { grouped, .. } => *grouped,
        Rule::Bounded { .. } | Rule::Cycle { .. } => false,
    }
}
