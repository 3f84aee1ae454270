//! The least numbers that are known.
ghost use Rattle.std.specs.Prelude.{◌≡◌, ◌⊎◌, [], ℕ, Option, IfSome, OnOk};
ghost use Rattle.std.specs.List.{Contains};
ghost use Rattle.lg_fewest.specs.declared.span.Span.{Span as SeenSpan};

use crate::span::Span;
use indexmap::IndexMap;
use lg_base::NoMemory;
use lg_region::Spare;
use std::alloc::Global;
use std::marker::Model;

/// Spans, each with its least number of unlinked words, if it has a linkage. Contracts see the pairs. Beside them stand vectors that the
/// search uses again.
#[derive(Drop)]
pub(crate) struct Table {
    found: IndexMap<Span, Option<u32>>,
    pub(crate) spare: Spare,
}

impl Model for Table {
    ghost use Rattle.std.specs.Prelude.{ℕ, List, Option};
    ghost use Rattle.lg_fewest.specs.declared.span.Span.{Span as SeenSpan};

    ghost Value = { List (SeenSpan × Option ℕ) };

    ghost view = { λ t. t.found.entries };
}

impl Table {
    /// A table without spans. No memory.
    pub(crate) fn new(alloc: Global) -> Table
        ensures { result ≡ [] }
    {
        Table {
            found: IndexMap::new(alloc),
            spare: Spare::new(alloc),
        }
    }

    /// What is known of a span. None where nothing is.
    pub(crate) fn get(&self, span: &Span) -> Option<&Option<u32>>
        ensures { IfSome result (λ least. Contains self.now (span.now, least.now)) }
    {
        self.found.get(span)
    }

    /// Adds what is known of a span. The only error is running out of memory.
    pub(crate) fn add(&mut self, span: Span, least: Option<u32>) -> Result<(), NoMemory>
        ensures { OnOk result ((s : SeenSpan) (x : Option ℕ) → Contains self.new (s, x) → Contains self.old (s, x) ⊎ ((s ≡ span) × (x ≡ least))) }
    {
        self.found.insert(span, least)?;
        Ok(())
    }
}
