//! How a sentence is listed.

/// Which linkages decide how many words may stay unlinked.
#[derive(Clone, Copy, Debug, PartialEq, Eq)]
pub enum Nulls {
    /// All good linkages: those with the fewest unlinked words are listed.
    First,
    /// Those that pass post-processing: linkages are listed up to the fewest unlinked words of one that passes.
    Passing,
}

/// How a sentence is listed: the numbers are from 1 to 1,000,000.
#[derive(Clone, Copy, Debug, PartialEq, Eq)]
pub struct Options {
    /// A page stops where so many candidates have passed.
    pub want: u64,
    /// A page stops where so many candidates were looked at.
    pub examine: u64,
    /// Which linkages decide how many words may stay unlinked.
    pub nulls: Nulls,
    /// Only disjuncts that are alive are searched. That changes no page, but the second of the numbers of disjuncts.
    pub prune: bool,
    /// The numbers of disjuncts are counted, for which all of them are made.
    pub count: bool,
    /// So many threads, from 1 to 16, may look for the linkages of a sentence. That changes no page.
    pub workers: u32,
    /// Compounds of the dictionary, as `New_York`, stand for the tokens that are their parts.
    pub idioms: bool,
}

impl Default for Options {
    ghost use Rattle.std.specs.Prelude.{◌≡◌};
    ghost use Rattle.lg_answer.specs.Pages.{default_options};

    ghost is_default = { λ options. options ≡ default_options };

    fn default() -> Self {
        Options {
            want: 10,
            examine: 1000,
            nulls: Nulls::First,
            prune: true,
            count: false,
            workers: 1,
            idioms: false,
        }
    }
}
