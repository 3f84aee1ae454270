//! How the keys of the search's tables are spread.
ghost use Rattle.std.specs.Prelude.{◌≡◌, ◌↔◌, ℕ, IsTrue};
ghost use Rattle.lg_forest.specs.Spread.{mixed_of};

use crate::dead::NearRow;
use crate::half_set::HalfRow;
use crate::halves::Half;
use crate::key_set::Row;
use lg_region::{Key, Origin};

// 2^64 by the golden ratio, an odd number whose products spread well.
const GOLDEN: u64 = 0x9e37_79b9_7f4a_7c15;

/// A key of a few numbers, which a table of the search finds a value by.
pub(crate) trait Spread: Copy {
    // The number that chooses where to look.
    ghost spread: { Self → ℕ };

    /// A number by which a table chooses where to look. A table is fast where most keys have numbers of their own, and where those that are
    /// looked up one after another have neighbouring ones: their buckets then lie side by side.
    fn spread(&self) -> u64
        ensures { result ≡ spread self.now };

    /// Whether it is the same key.
    fn is(&self, other: &Self) -> bool
        ensures { IsTrue result ↔ (self.now ≡ other.now) };
}

// One number of two: the upper half of a product, which depends on all of both.
#[tactic(auto, unfolding(crate::specs::Spread::mixed_of))]
fn mixed(ends: u64, lists: u64) -> u64
    ensures { result ≡ mixed_of ends lists }
{
    ends.wrapping_mul(GOLDEN)
        .wrapping_add(lists)
        .wrapping_mul(GOLDEN)
        >> 32
}

impl Spread for Key {
    ghost use Rattle.lg_forest.specs.Spread.{of_key};

    ghost spread = { of_key };

    fn spread(&self) -> u64 {
        match *self {
            Key::Whole { nulls } => nulls as u64,
            Key::Region {
                left,
                right,
                llist,
                rlist,
                nulls,
            } => {
                let ends = (left as u64) << 16 | ((right as u64) << 8 | nulls as u64);
                mixed(ends, rlist as u64).wrapping_add(llist as u64)
            }
        }
    }

    fn is(&self, other: &Self) -> bool {
        *self == *other
    }
}

impl Spread for Row {
    ghost use Rattle.lg_forest.specs.Spread.{of_row};

    ghost spread = { of_row };

    fn spread(&self) -> u64 {
        match *self {
            Row::Whole { block } => block as u64,
            Row::Region {
                left,
                right,
                nulls,
                block,
                rlist,
            } => {
                let ends = (left as u64) << 16 | ((right as u64) << 8 | nulls as u64);
                mixed(ends, rlist as u64).wrapping_add(block as u64)
            }
        }
    }

    fn is(&self, other: &Self) -> bool {
        *self == *other
    }
}

impl Spread for Origin {
    ghost use Rattle.lg_forest.specs.Spread.{of_origin};

    ghost spread = { of_origin };

    fn spread(&self) -> u64 {
        let lists = (self.llist as u64) << 32 | self.last as u64;
        mixed(self.left as u64, lists).wrapping_add(self.nulls as u64)
    }

    fn is(&self, other: &Self) -> bool {
        *self == *other
    }
}

impl Spread for Half {
    ghost use Rattle.lg_forest.specs.Spread.{of_half};

    ghost spread = { of_half };

    fn spread(&self) -> u64 {
        let ends = (self.word as u64) << 16 | ((self.right as u64) << 8 | self.nulls as u64);
        mixed(ends, self.rlist as u64).wrapping_add(self.from as u64)
    }

    fn is(&self, other: &Self) -> bool {
        *self == *other
    }
}

impl Spread for HalfRow {
    ghost use Rattle.lg_forest.specs.Spread.{of_half_row};

    ghost spread = { of_half_row };

    fn spread(&self) -> u64 {
        let ends = (self.word as u64) << 16 | ((self.right as u64) << 8 | self.nulls as u64);
        mixed(ends, self.block as u64).wrapping_add(self.from as u64)
    }

    fn is(&self, other: &Self) -> bool {
        *self == *other
    }
}

impl Spread for NearRow {
    ghost use Rattle.lg_forest.specs.Spread.{of_near_row};

    ghost spread = { of_near_row };

    fn spread(&self) -> u64 {
        let lists = (self.nulls as u64) << 32 | self.llist as u64;
        mixed(self.left as u64, lists).wrapping_add(self.block as u64)
    }

    fn is(&self, other: &Self) -> bool {
        *self == *other
    }
}
