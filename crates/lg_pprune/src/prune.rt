//! The disjuncts that are alive.
ghost use Rattle.std.specs.Prelude.{IfOk};
ghost use Rattle.lg_pprune.specs.Alive.{IsPruned};

use crate::rounds::settle;
use lg_base::NoMemory;
use lg_gram::Problem;
use lg_member::{members_of, rows_are_problems, rows_of};
use std::alloc::Global;

/// The problem of the disjuncts that are alive: those of the greatest set in which each connector of each disjunct has a partner,
/// a connector of another member that it can be linked to.
///
/// This is link-parser's power pruning, by the distances of words alone: a connector's partner is no nearer than the connectors
/// before it need, and leaves room for those behind it. The only error is running out of memory.
pub fn pprune(alloc: Global, problem: Problem) -> Result<Problem, NoMemory>
    ensures { IfOk result (IsPruned problem) }
{
    let pruned = alive(alloc, &problem)?;
    Ok(pruned)
}

fn alive(alloc: Global, problem: &Problem) -> Result<Problem, NoMemory>
    ensures { IfOk result (IsPruned problem.now) }
{
    let positions = problem.positions();
    let words = positions.len() as u32;
    let mut lefts = Vec::new(alloc);
    let mut rights = Vec::new(alloc);
    let mut members = members_of(alloc, positions, &mut lefts, &mut rights)?;
    settle(alloc, words, &lefts, &rights, &mut members)?;
    let rows = rows_of(alloc, words, &members)?;
    rows_are_problems();
    Ok(Problem::of_known(rows))
}
