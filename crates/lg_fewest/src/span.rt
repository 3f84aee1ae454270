//! Regions without a number of unlinked words.
ghost use Rattle.std.specs.Prelude.{◌≡◌, ◌++◌};
ghost use Rattle.std.specs.Hash as fed;
ghost use Rattle.std.specs.Cmp.Rules.{comparing, hashing};
ghost use Rattle.std.proofs.Common.{rules};
ghost use Rattle.lg_fewest.specs.Spans.{key_of, right_span, span_in, word_in};

use lg_region::{Alt, Key};
use std::hash::{Hash, Hasher};

/// A region whatever it leaves unlinked: its two ends, and the numbers of their lists.
#[derive(Clone, Copy, Debug, PartialEq, Eq)]
pub(crate) struct Span {
    pub(crate) left: u32,
    pub(crate) right: u32,
    pub(crate) llist: u32,
    pub(crate) rlist: u32,
}

// Spans are looked up all the time, so each gives the hasher one number.
impl Hash for Span {
    ghost use Rattle.lg_fewest.specs.Hashed.{input_of};

    ghost hash_input = { input_of };

    ghost respects_eq = { Prim.search (hashing, rules) };

    fn hash<H: Hasher>(&self, state: &mut H) {
        let ends = (self.left as u64) << 56 | (self.right as u64) << 48;
        let lists = (self.llist as u64) << 24 | self.rlist as u64;
        state.write_u64(ends | lists);
    }
}

impl Span {
    /// Its key with no unlinked word.
    pub(crate) fn key(&self) -> Key
        ensures { result ≡ key_of self.now }
    {
        Key::Region {
            left: self.left,
            right: self.right,
            llist: self.llist,
            rlist: self.rlist,
            nulls: 0,
        }
    }
}

/// The word of an alternative, 0 where nothing is cut.
pub(crate) fn word_of(alt: Alt) -> u32
    ensures { result ≡ word_in alt }
{
    match alt {
        Alt::AllNull => 0,
        Alt::Split { word, .. } => word,
    }
}

/// The span to the right of an alternative's word. None where nothing is cut.
pub(crate) fn right_of(alt: Alt) -> Option<Span>
    ensures { result ≡ right_span alt }
{
    match alt {
        Alt::AllNull => None,
        Alt::Split { rkey, .. } => span_of(rkey),
    }
}

// The span of a key. None for the whole sentence.
fn span_of(key: Option<Key>) -> Option<Span>
    ensures { result ≡ span_in key }
{
    match key {
        Some(
            Key::Region {
                left,
                right,
                llist,
                rlist,
                ..
            },
        ) => Some(Span {
            left,
            right,
            llist,
            rlist,
        }),
        _ => None,
    }
}
