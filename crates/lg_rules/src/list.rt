//! The slow lister: every choice of disjuncts and every set of links that they allow.
ghost use Rattle.std.specs.Prelude.{◌≤◌, IfOk, length};
ghost use Rattle.lg_gram.specs.Levels.{AreCandidates};
ghost use Rattle.lg_gram.specs.Limits.{LINKAGE_POSITIONS};
ghost use Rattle.lg_rules.specs.Steps.{AreGoodWithin};

mod candidates;
mod choosing;
mod completing;
mod pruning;

use choosing::choose;
use lg_base::NoMemory;
use lg_gram::{Chosen, Linkage, Problem, in_order};
use std::alloc::Global;

/// The most positions of a problem for the slow lister.
pub const PLAIN_POSITIONS: usize = 8;

/// All good linkages of the problem with the fewest unlinked positions, in order, each once. The list is never empty,
/// since the linkage with every position unlinked is good. A problem has at most eight positions.
pub fn plain_list(alloc: Global, problem: &Problem) -> Result<Vec<Linkage>, NoMemory>
    requires { length problem.now ≤ 8 }
    ensures { IfOk result (λ list. AreCandidates problem.now list.items) }
{
    for spare in 0..problem.positions().len() + 1 {
        let all = good_within(alloc, problem, spare)?;
        if !all.is_empty() {
            let list = in_order(all)?;
            return Ok(list);
        }
    }
    unreachable!()
}

// The good linkages with at most so many unlinked positions, in no order.
fn good_within(alloc: Global, problem: &Problem, spare: usize) -> Result<Vec<Linkage>, NoMemory>
    requires { length problem.now ≤ LINKAGE_POSITIONS }
    ensures { IfOk result (λ all. AreGoodWithin problem.now spare all.items) }
{
    let none = Chosen::of(Vec::new(alloc));
    let mut all = Vec::new(alloc);
    choose(alloc, problem.positions(), spare, &none, &mut all)?;
    Ok(all)
}
