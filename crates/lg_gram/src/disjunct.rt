//! Disjuncts, and lists of them.
ghost use Rattle.std.specs.Prelude.{◌≡◌, ◌↔◌, IsTrue, None, slice_index_or, if◌then◌else◌};
ghost use Rattle.std.specs.List.{Contains};
ghost use Rattle.lg_gram.specs.Disjuncts.{disjunct_cmp};
ghost use Rattle.lg_gram.specs.Rules.{left_list, right_list};

use crate::connector::Connector;
use crate::order::{Ranked, rank_lists};
use crate::shared::{Connectors, Word};
use lg_base::{Cost, List};
use std::cmp::Ordering;
use std::marker::Model;

/// One way to use a word: its connectors to the left and to the right, each list from near to far, and what it costs.
/// After the Link Grammar report, a word of a linkage uses exactly one disjunct. Copies share the word and both lists.
#[derive(Clone, Debug, Drop, PartialEq, Eq)]
pub struct Disjunct {
    pub word: Word,
    pub left: Connectors,
    pub right: Connectors,
    pub cost: Cost,
}

impl Ranked for Disjunct {
    ghost use Rattle.lg_gram.specs.Disjuncts.{disjunct_cmp};
    ghost use Rattle.std.specs.Cmp.Rules.{comparing};
    ghost use Rattle.std.proofs.Common.{rules};

    ghost rank = { disjunct_cmp };

    fn rank(&self, other: &Disjunct) -> Ordering {
        self.compare(other)
    }

    ghost total = { Prim.search (comparing, rules) depth 12 };
}

impl Disjunct {
    /// The order by word, then left list, then right list. Costs take no part.
    pub fn compare(&self, other: &Disjunct) -> Ordering
        ensures { result ≡ disjunct_cmp self.now other.now }
    {
        self.word
            .bytes()
            .cmp(other.word.bytes())
            .then(rank_lists(self.left.items(), other.left.items()))
            .then(rank_lists(self.right.items(), other.right.items()))
    }
}

/// The disjuncts of a word, or of a position.
#[derive(Clone, Debug, Drop)]
pub struct Disjuncts {
    items: Vec<Disjunct>,
}

impl Model for Disjuncts {
    ghost use Rattle.std.specs.Prelude.{List};
    ghost use Rattle.lg_gram.specs.declared.disjunct.Disjunct.{Disjunct as Seen};

    ghost Value = { List Seen };

    ghost view = { λ t. t.items.items };
}

impl Disjuncts {
    /// The list of these disjuncts.
    pub fn of(items: Vec<Disjunct>) -> Self
        ensures { result ≡ items.items }
    {
        Disjuncts { items }
    }

    /// The disjuncts.
    pub fn items(&self) -> &[Disjunct]
        ensures { result.now ≡ self.now }
    {
        self.items.as_slice()
    }

    /// The disjuncts, as a vector.
    pub fn into_items(self) -> Vec<Disjunct>
        ensures { result.items ≡ self }
    {
        let Disjuncts { items } = self;
        items
    }

    /// Whether the disjunct is one of the list.
    pub fn contains(&self, disjunct: &Disjunct) -> bool
        ensures { IsTrue result ↔ Contains self.now disjunct.now }
    {
        self.items.iter().any(|d| same_disjunct(d, disjunct))
    }
}

fn same_disjunct(a: &Disjunct, b: &Disjunct) -> bool
    ensures { IsTrue result ↔ (a.now ≡ b.now) }
{
    a == b
}

/// A list of positions, each a list of disjuncts.
pub type Positions = List<Disjuncts>;

/// What each position uses: a disjunct, or none where the position is unlinked.
pub type Chosen = List<Option<Disjunct>>;

/// The connectors of a side (true: the right) of a position; none where the position is unlinked, and past the end.
pub fn side(chosen: &[Option<Disjunct>], right: bool, position: u32) -> &[Connector]
    ensures { let choice = slice_index_or chosen.now position None in
        result.now ≡ (if right then right_list choice else left_list choice) }
{
    match chosen.get(position as usize) {
        Some(Some(disjunct)) if right => disjunct.right.items(),
        Some(Some(disjunct)) => disjunct.left.items(),
        _ => &[],
    }
}
