//! What disjuncts share with their copies.
ghost use Rattle.std.specs.Prelude.{◌≡◌, IfOk};

use crate::connector::Connector;
use lg_base::NoMemory;
use std::alloc::{AllocError, Global};
use std::marker::Model;
use std::sync::Arc;

/// A list of connectors, as a disjunct has it on a side. Its copies share it: each takes a constant time and no memory.
///
/// Contracts see the list.
#[derive(Debug, Drop)]
pub struct Connectors {
    items: Arc<Vec<Connector>>,
}

impl Model for Connectors {
    ghost use Rattle.std.specs.Prelude.{List};
    ghost use Rattle.std.specs.Arc.{arc_value};
    ghost use Rattle.lg_gram.specs.Connectors.{Connector as Seen};

    ghost Value = { List Seen };

    ghost view = { λ c. (arc_value c.items).items };
}

impl Clone for Connectors {
    ghost is_clone = { λ list copy. copy ≡ list };

    fn clone(&self) -> Result<Connectors, AllocError> {
        let items = Arc::try_clone(&self.items)?;
        Ok(Connectors { items })
    }
}

impl PartialEq for Connectors {
    ghost use Rattle.std.specs.Cmp.Lexicographic.{pointwise};
    ghost use Rattle.std.specs.Cmp.{partial_equiv_from_equiv};
    ghost use Rattle.std.specs.Cmp.Rules.{comparing};
    ghost use Rattle.std.proofs.Common.{rules};
    ghost use Rattle.lg_gram.specs.Connectors.{connector_eq};

    ghost eq = { pointwise connector_eq };

    ghost laws = { partial_equiv_from_equiv (Prim.search (comparing, rules) depth 12) };

    fn eq(&self, other: &Connectors) -> bool {
        self.items() == other.items()
    }
}

impl Eq for Connectors {
    ghost use Rattle.std.specs.Cmp.Rules.{comparing};
    ghost use Rattle.std.proofs.Common.{rules};

    ghost laws = { Prim.search (comparing, rules) depth 12 };
}

impl Connectors {
    /// The list of these connectors, from near to far. The only error is running out of memory.
    pub fn of(alloc: Global, items: Vec<Connector>) -> Result<Connectors, NoMemory>
        ensures { IfOk result (λ list. list ≡ items.items) }
    {
        let items = Arc::new(alloc, items)?;
        Ok(Connectors { items })
    }

    /// The connectors.
    pub fn items(&self) -> &[Connector]
        ensures { result.now ≡ self.now }
    {
        self.items.as_slice()
    }
}

/// The dictionary word of a disjunct. Its copies share its bytes: each takes a constant time and no memory.
///
/// Contracts see the list of the bytes.
#[derive(Debug, Drop)]
pub struct Word {
    bytes: Arc<Vec<u8>>,
}

impl Model for Word {
    ghost use Rattle.std.specs.Prelude.{List, ℕ};
    ghost use Rattle.std.specs.Arc.{arc_value};

    ghost Value = { List ℕ };

    ghost view = { λ w. (arc_value w.bytes).items };
}

impl Clone for Word {
    ghost is_clone = { λ word copy. copy ≡ word };

    fn clone(&self) -> Result<Word, AllocError> {
        let bytes = Arc::try_clone(&self.bytes)?;
        Ok(Word { bytes })
    }
}

impl PartialEq for Word {
    ghost use Rattle.std.specs.Prelude.{◌==◌};
    ghost use Rattle.std.specs.Cmp.Lexicographic.{pointwise};
    ghost use Rattle.std.specs.Cmp.{partial_equiv_from_equiv};
    ghost use Rattle.std.specs.Cmp.Rules.{comparing};
    ghost use Rattle.std.proofs.Common.{rules};

    ghost eq = { pointwise ◌==◌ };

    ghost laws = { partial_equiv_from_equiv (Prim.search (comparing, rules) depth 9) };

    fn eq(&self, other: &Word) -> bool {
        self.bytes() == other.bytes()
    }
}

impl Eq for Word {
    ghost use Rattle.std.specs.Cmp.Rules.{comparing};
    ghost use Rattle.std.proofs.Common.{rules};

    ghost laws = { Prim.search (comparing, rules) depth 9 };
}

impl Word {
    /// The word of these bytes. The only error is running out of memory.
    pub fn of(alloc: Global, bytes: &[u8]) -> Result<Word, NoMemory>
        ensures { IfOk result (λ word. word ≡ bytes.now) }
    {
        let bytes = bytes.to_vec(alloc)?;
        let bytes = Arc::new(alloc, bytes)?;
        Ok(Word { bytes })
    }

    /// The bytes.
    pub fn bytes(&self) -> &[u8]
        ensures { result.now ≡ self.now }
    {
        self.bytes.as_slice()
    }
}
