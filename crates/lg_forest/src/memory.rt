//! What the search remembers beside its table.
ghost use Rattle.std.specs.Prelude.{◌≡◌, []};

use crate::half_set::HalfRow;
use crate::halves::Halves;
use crate::key_set::KeySet;
use crate::known::Known;
use crate::openings::Openings;
use std::alloc::Global;

/// The alternatives that workers found, and how the regions begin that begin alike, and end that end alike. Halves of which no disjunct
/// goes on are in a set of their own.
#[derive(Drop)]
pub(crate) struct Memory {
    pub(crate) known: Known,
    pub(crate) openings: Openings,
    pub(crate) halves: Halves,
    pub(crate) shut: KeySet<HalfRow>,
}

impl Memory {
    /// Before the search: what workers found. No memory.
    pub(crate) fn of(alloc: Global, known: Known) -> Memory
        ensures known { result.known ≡ known }
        ensures openings { result.openings ≡ [] }
        ensures halves { result.halves ≡ [] }
        ensures shut { result.shut ≡ [] }
    {
        Memory {
            known,
            openings: Openings::new(alloc),
            halves: Halves::new(alloc),
            shut: KeySet::new(alloc),
        }
    }
}
