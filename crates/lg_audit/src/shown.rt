//! What a document shows.

ghost use Rattle.std.specs.Prelude.{◌≡◌};

use lg_base::Cost;
use lg_gram::{Bound, Link, Violation};
use std::marker::Model;

/// The numbers of the last line of a page: how many linkages it shows, how many candidates were looked at, which one comes next, and
/// whether none does.
#[derive(Clone, Copy, Debug, PartialEq, Eq)]
pub struct ShownEnd {
    pub shown: u64,
    pub examined: u64,
    pub next: u64,
    pub end: bool,
}

/// The numbers of a linkage's heading: how many positions stay unlinked, its cost, and the sum of the lengths of its links.
#[derive(Clone, Copy, Debug, PartialEq, Eq)]
pub struct ShownSums {
    pub unused: u64,
    pub cost: Cost,
    pub length: u64,
}

/// What a linked position uses: a word, its connectors to the left and to the right as they are printed, and its cost.
#[derive(Debug, Drop)]
pub struct ShownChoice<'a> {
    pub word: &'a [u8],
    pub left: &'a [u8],
    pub right: &'a [u8],
    pub cost: Cost,
}

impl<'a> Model for ShownChoice<'a> {
    ghost use Rattle.lg_audit.specs.Lines.{ShownChoice as Seen};

    ghost Value = { Seen };

    ghost view = { λ c. record { word = c.word.now; left = c.left.now; right = c.right.now; cost = c.cost } };
}

/// A position: its number, the text of its token, and what it uses, or none where it stays unlinked.
#[derive(Debug, Drop)]
pub struct ShownWord<'a> {
    pub position: u64,
    pub text: &'a [u8],
    pub choice: Option<ShownChoice<'a>>,
}

impl<'a> Model for ShownWord<'a> {
    ghost use Rattle.lg_audit.specs.Lines.{ShownWord as Seen};

    ghost Value = { Seen };

    ghost view = { λ w. record { position = w.position; text = w.text.now; choice = w.choice } };
}

/// A link, and its label.
#[derive(Debug, Drop)]
pub struct ShownLink<'a> {
    pub link: Link,
    pub label: &'a [u8],
}

impl<'a> Model for ShownLink<'a> {
    ghost use Rattle.lg_audit.specs.Lines.{ShownLink as Seen};

    ghost Value = { Seen };

    ghost view = { λ l. record { link = l.link; label = l.label.now } };
}

/// A linkage: its sums, its positions and its links.
#[derive(Debug, Drop)]
pub struct ShownLinkage<'a> {
    pub sums: ShownSums,
    pub words: Vec<ShownWord<'a>>,
    pub links: Vec<ShownLink<'a>>,
}

impl<'a> Model for ShownLinkage<'a> {
    ghost use Rattle.lg_audit.specs.Lines.{ShownLinkage as Seen};

    ghost Value = { Seen };

    ghost view = { λ g. record { sums = g.sums; words = g.words.items; links = g.links.items } };
}

/// A candidate that was looked at, with its number: the linkage if it passes, with the lines behind it that are not read, or the rule
/// that it breaks.
#[derive(Debug, Drop)]
pub enum ShownItem<'a> {
    Passes {
        number: u64,
        linkage: ShownLinkage<'a>,
        unread: Vec<&'a [u8]>,
    },
    Fails {
        number: u64,
        violation: Violation,
    },
}

/// A page: the candidates, and its last line.
#[derive(Debug, Drop)]
pub struct ShownPage<'a> {
    pub items: Vec<ShownItem<'a>>,
    pub last: ShownEnd,
}

impl<'a> Model for ShownPage<'a> {
    ghost use Rattle.std.specs.Prelude.{map};
    ghost use Rattle.lg_audit.specs.Lines.{ShownPage as Seen};
    ghost use Rattle.lg_audit.specs.Views.{item_of};

    ghost Value = { Seen };

    ghost view = { λ p. record { items = map item_of p.items.items; last = p.last } };
}

/// What is shown of an answer: a page at a version, behind a line of numbers of disjuncts that is not read; a bound; the version that an
/// edit made; why an edit was refused, as it is printed; a version; or that there was nothing to go on with.
#[derive(Debug, Drop)]
pub enum ShownReply<'a> {
    Listed {
        version: u64,
        stats: Option<&'a [u8]>,
        page: ShownPage<'a>,
    },
    Beyond {
        version: u64,
        bound: Bound,
    },
    Published {
        version: u64,
    },
    Refused {
        version: u64,
        cause: &'a [u8],
    },
    At {
        version: u64,
    },
    NothingHeld,
}
