//! Lists of connectors, side by side.
ghost use Rattle.std.specs.Prelude.{◌≡◌, ◌<◌, ◌++◌, ◌∷◌, [], length, map, get_or, OnOk};
ghost use Rattle.std.specs.List.{All};
ghost use Rattle.lg_disj.specs.Lists.{AreLists, lists_in};
ghost use Rattle.lg_disj.specs.Places.{leaf_at};

use lg_base::NoMemory;
use lg_gram::Connector;
use std::alloc::Global;

/// Where a list stands: from one connector up to another.
#[derive(Clone, Copy, Debug)]
pub(crate) struct Span {
    pub(crate) from: usize,
    pub(crate) end: usize,
}

/// Lists of connectors, numbered from 0 in the order in which they came.
#[derive(Debug, Drop)]
pub(crate) struct Lists {
    pub(crate) connectors: Vec<Connector>,
    pub(crate) spans: Vec<Span>,
}

impl Lists {
    /// No lists.
    pub(crate) fn new(alloc: Global) -> Lists
        ensures exact { lists_in result ≡ [] }
        ensures within { AreLists result }
    {
        Lists {
            connectors: Vec::new(alloc),
            spans: Vec::new(alloc),
        }
    }

    /// How many there are.
    pub(crate) fn len(&self) -> usize
        ensures { result ≡ length (lists_in self.now) }
    {
        self.spans.len()
    }

    /// The list of a number.
    pub(crate) fn get(&self, number: usize) -> &[Connector]
        requires within { AreLists self.now }
        requires listed { number < length (lists_in self.now) }
        ensures { result.now ≡ get_or (lists_in self.now) number [] }
    {
        let span = self.spans[number];
        &self.connectors[span.from..span.end]
    }

    /// Adds the list of the leaves at these places.
    pub(crate) fn push(&mut self, leaves: &[Connector], places: &[usize]) -> Result<(), NoMemory>
        requires within { AreLists self.old }
        requires placed { All (λ n. n < length leaves.now) places.now }
        ensures exact { OnOk result (lists_in self.new ≡ lists_in self.old ++ map (leaf_at leaves.now) places.now ∷ []) }
        ensures within { OnOk result (AreLists self.new) }
    {
        let from = self.connectors.len();
        push_leaves(leaves, places, &mut self.connectors)?;
        let end = self.connectors.len();
        self.spans.push(Span { from, end })?;
        Ok(())
    }
}

fn push_leaves(
    leaves: &[Connector],
    places: &[usize],
    connectors: &mut Vec<Connector>,
) -> Result<(), NoMemory>
    requires { All (λ n. n < length leaves.now) places.now }
    ensures { OnOk result (connectors.new.items ≡ connectors.old.items ++ map (leaf_at leaves.now) places.now) }
{
    for place in places {
        connectors.push(leaves[*place])?;
    }
    Ok(())
}
