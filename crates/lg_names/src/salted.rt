//! What gives each table of names its hasher.

ghost use Rattle.std.specs.Prelude.{◌≡◌};
ghost use Rattle.lg_names.specs.Hashing.{salted_after};

use crate::name_hasher::NameHasher;
use std::hash::{BuildHasher, DefaultHasher, Hasher};

/// SipHash that has read one number before, the same for each name of a table.
///
/// A table looks at some twenty bits of a hash, so that names of equal bits could be searched for one by one if each name had a
/// hash of its own. Here a hash depends on the number too. Whoever makes the number of a whole text, or of all names, has hashes
/// that depend on all of it, and the same ones each time.
#[derive(Clone, Copy)]
pub struct Salted {
    start: NameHasher,
}

impl BuildHasher for Salted {
    type Hasher = NameHasher;

    ghost build_hasher = { λ salted. salted.start };

    fn build_hasher(&self) -> NameHasher {
        self.start
    }
}

impl Salted {
    /// After this number. No memory.
    pub fn after(seed: u64) -> Salted
        ensures { result ≡ salted_after seed }
    {
        // a number is one whole word, and SipHash that has read whole words goes on word by word
        let mut start = DefaultHasher::new();
        start.write_u64(seed);
        Salted {
            start: NameHasher::of(start),
        }
    }
}
