//! What rules that held have told, for the rules after them.
ghost use Rattle.std.specs.Prelude.{IfOk};
ghost use Rattle.lg_pp.specs.Judging.{IsNothing};

use lg_base::NoMemory;
use lg_gram::Linkage;
use std::alloc::Global;

/// Kinds of domains that are bounded, and numbers of links whose ends a walk over the other links joins: a flag for each
/// kind and for each link, set where this is known.
#[derive(Drop)]
pub(crate) struct Found {
    pub(crate) bounded: [bool; 256],
    pub(crate) cycled: Vec<bool>,
}

impl Found {
    /// Nothing of the linkage is known.
    pub(crate) fn nothing(alloc: Global, g: &Linkage) -> Result<Found, NoMemory>
        ensures { IfOk result (IsNothing g.now) }
    {
        Ok(Found {
            bounded: [false; 256],
            cycled: vec![in alloc; false; g.links().len()]?,
        })
    }
}
