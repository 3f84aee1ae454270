//! What is known of the regions that begin alike: the ways to begin whose left key has a linkage.
ghost use Rattle.std.specs.Prelude.{◌≡◌, ◌≢◌, ◌⊎◌, ◌+◌, ◌<◌, [], IfOk, IsTrue, MatchOption, OnErr, OnOk};
ghost use Rattle.std.specs.List.{Contains};
ghost use Rattle.std.specs.Map.{keys_of};
ghost use Rattle.lg_forest.specs.Shut.{IsShut, IsShutIn};

use crate::slots::Slots;
use lg_base::NoMemory;
use lg_region::{Beginning, Group, Origin};
use std::alloc::Global;
use std::marker::Model;

/// A group of disjuncts, and a way to begin with it.
#[derive(Clone, Copy, Debug)]
pub(crate) struct Start {
    pub(crate) group: Group,
    pub(crate) begin: Beginning,
}

/// The starts at the words before `done` whose left key has a linkage. They do not depend on where the region ends.
#[derive(Drop)]
pub(crate) struct Opening {
    pub(crate) done: u32,
    pub(crate) starts: Vec<Start>,
}

impl Opening {
    /// That of a region that begins here, where no word was looked at. No memory.
    pub(crate) fn none(alloc: Global, left: u32) -> Opening
        requires { left < 4294967295 }
        ensures done { result.done ≡ left + 1 }
        ensures starts { result.starts.items ≡ [] }
    {
        Opening {
            done: left + 1,
            starts: Vec::new(alloc),
        }
    }

    // Whether all words before this end were looked at, and none of them has a start.
    fn is_shut(&self, end: u32) -> bool
        ensures { IsTrue result → IsShut end self.now }
    {
        self.done >= end && self.starts.iter().all(|start| start.group.word >= end)
    }
}

/// Openings by where they begin. Contracts see the pairs.
#[derive(Drop)]
pub(crate) struct Openings {
    found: Slots<Origin, Opening>,
}

impl Model for Openings {
    ghost use Rattle.std.specs.Prelude.{List};
    ghost use Rattle.lg_region.specs.declared.opening.Origin.{Origin as SeenOrigin};
    ghost use Rattle.lg_forest.specs.declared.openings.Opening.{Opening as SeenOpening};

    ghost Value = { List (SeenOrigin × SeenOpening) };

    ghost view = { λ o. o.found };
}

impl Openings {
    /// No opening. No memory.
    pub(crate) fn new(alloc: Global) -> Openings
        ensures { result ≡ [] }
    {
        Openings {
            found: Slots::new(alloc),
        }
    }

    /// Whether all words before this end were looked at, and none of them has a start. No memory.
    pub(crate) fn is_shut(&self, origin: &Origin, end: u32) -> bool
        ensures { IsTrue result → IsShutIn self.now origin.now end }
    {
        match self.found.get(origin) {
            Some(opening) => opening.is_shut(end),
            None => false,
        }
    }

    /// Takes an opening out, and leaves another one in its place. None where it is not there, and then the other is put in. The only error
    /// is running out of memory, and then nothing has changed.
    pub(crate) fn take(
        &mut self,
        origin: &Origin,
        other: Opening,
    ) -> Result<Option<Opening>, NoMemory>
        ensures taken { IfOk result (λ found. MatchOption found (Contains (keys_of self.old) origin.now → ⊥) (λ opening. Contains self.old (origin.now, opening))) }
        ensures left { OnOk result ((o : Origin) (x : Opening) → Contains self.new (o, x) → Contains self.old (o, x) ⊎ ((o ≡ origin.now) × (x ≡ other))) }
        ensures there { OnOk result (Contains self.new (origin.now, other)) }
        ensures kept { OnOk result ((o : Origin) (x : Opening) → o ≢ origin.now → Contains self.old (o, x) → Contains self.new (o, x)) }
        ensures unchanged { OnErr result (self.new ≡ self.old) }
    {
        self.found.put(*origin, other)
    }

    /// Puts an opening in, in place of the one that is there. The only error is running out of memory, and then nothing has
    /// changed.
    pub(crate) fn put(&mut self, origin: Origin, opening: Opening) -> Result<(), NoMemory>
        ensures put { OnOk result ((o : Origin) (x : Opening) → Contains self.new (o, x) → Contains self.old (o, x) ⊎ ((o ≡ origin) × (x ≡ opening))) }
        ensures there { OnOk result (Contains self.new (origin, opening)) }
        ensures kept { OnOk result ((o : Origin) (x : Opening) → o ≢ origin → Contains self.old (o, x) → Contains self.new (o, x)) }
        ensures unchanged { OnErr result (self.new ≡ self.old) }
    {
        self.found.put(origin, opening)?;
        Ok(())
    }
}
