//! Linkages of one problem in their order.
ghost use Rattle.std.specs.Prelude.{◌↔◌, IfOk};
ghost use Rattle.std.specs.List.{Contains};
ghost use Rattle.std.specs.List.Sorted.{IsStrictlySortedBy};
ghost use Rattle.lg_gram.specs.Linkages.{Linkage as Seen, linkage_cmp};
ghost use Rattle.lg_gram.specs.Levels.{AreOfOneProblem};

use crate::linkage::Linkage;
use lg_base::NoMemory;
use std::cmp::Ordering;

/// These linkages of one problem in their order, each once. The only error is running out of memory.
pub fn in_order(mut linkages: Vec<Linkage>) -> Result<Vec<Linkage>, NoMemory>
    requires { AreOfOneProblem linkages.items }
    ensures rise { IfOk result (λ list. IsStrictlySortedBy linkage_cmp list.items) }
    ensures same { IfOk result (λ list. (g : Seen) → Contains list.items g ↔ Contains linkages.items g) }
{
    linkages.sort_by(|a, b| a.compare(b))?;
    linkages.dedup_by(|next, kept| next.compare(kept) == Ordering::Equal);
    Ok(linkages)
}
