//! Keys: regions in numbers.
ghost use Rattle.std.specs.Prelude.{◌++◌};
ghost use Rattle.std.specs.Hash as fed;
ghost use Rattle.std.specs.Cmp.Rules.{comparing, hashing};
ghost use Rattle.std.proofs.Common.{rules};

use std::hash::{Hash, Hasher};

/// The places of a link at the word on the left and at the word on the right.
#[derive(Clone, Copy, Debug, PartialEq, Eq)]
pub struct Joint {
    pub near: u32,
    pub far: u32,
}

/// What the alternatives are asked for: the whole sentence with so many unlinked words, or a region, whose two lists are
/// given by their numbers.
///
/// `right` may be the number of positions, the end of the sentence, with the empty list.
#[derive(Clone, Copy, Debug, PartialEq, Eq)]
pub enum Key {
    Whole {
        nulls: u32,
    },
    Region {
        left: u32,
        right: u32,
        llist: u32,
        rlist: u32,
        nulls: u32,
    },
}

// Keys are looked up all the time, so each gives the hasher one number. Positions and numbers of unlinked words are below 2^8, and most
// problems have fewer than 2^20 lists, so that two keys of one problem give two numbers.
impl Hash for Key {
    ghost use Rattle.lg_region.specs.Hashed.{input_of};

    ghost hash_input = { input_of };

    ghost respects_eq = { Prim.search (hashing, rules) };

    fn hash<H: Hasher>(&self, state: &mut H) {
        match *self {
            Key::Whole { nulls } => state.write_u32(nulls),
            Key::Region {
                left,
                right,
                llist,
                rlist,
                nulls,
            } => {
                let ends = (left as u64) << 56 | ((right as u64) << 48 | (nulls as u64) << 40);
                let lists = (llist as u64) << 20 | rlist as u64;
                state.write_u64(ends | lists);
            }
        }
    }
}
