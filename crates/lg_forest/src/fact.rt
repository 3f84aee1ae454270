//! What the workers' memo keeps: the alternatives of keys.
use crate::spread::Spread;
use lg_base::NoMemory;
use lg_gram::Problem;
use lg_memo::Fact;
use lg_region::{Alts, Key};
use std::alloc::Global;

/// A key of a problem, with its alternatives.
pub(crate) struct Expansion;

impl Fact for Expansion {
    ghost use Rattle.lg_forest.specs.Known.{AreKept, same_key, alike_if_equal};
    ghost use Rattle.std.specs.Cmp.Rules.{comparing};
    ghost use Rattle.std.proofs.Common.{rules};

    type Name = Problem;

    type Key = Key;

    type Value = Alts;

    ghost right = { λ positions key alts. AreKept positions key alts };

    ghost same = { same_key };

    fn place(key: &Key) -> u64 {
        key.spread()
    }

    fn same(a: &Key, b: &Key) -> bool {
        a == b
    }

    fn copy(alloc: Global, value: &Alts) -> Result<Alts, NoMemory> {
        value.copied(alloc)
    }

    ghost alike = { alike_if_equal AreKept same_key (λ a b. Prim.search rules) };
}
