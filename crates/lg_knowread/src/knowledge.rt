//! What a knowledge text says, after link-parser's post-processing.
ghost use Rattle.std.specs.Prelude.{◌≡◌, [], ◌∷◌, ◌++◌, IfOk};

use lg_base::{List, NoMemory, Text};
use std::marker::Model;

/// What labels of links are like: one or more capital letters, and then subscripts, which are small letters and stars.
///
/// A label matches where its capital letters are the pattern's, and at each place of the pattern's subscripts stands a
/// star in the pattern, or its letter in the label.
#[derive(Clone, Debug, Drop, PartialEq, Eq)]
pub struct Pattern {
    pub caps: Text,
    pub subs: Text,
}

/// A list of patterns.
#[derive(Clone, Debug, Drop)]
pub struct Patterns {
    items: Vec<Pattern>,
}

impl Model for Patterns {
    ghost use Rattle.std.specs.Prelude.{List};
    ghost use Rattle.lg_knowread.specs.declared.knowledge.Pattern.{Pattern as Seen};

    ghost Value = { List Seen };

    ghost view = { λ t. t.items.items };
}

impl Patterns {
    /// The list of these patterns.
    pub fn of(items: Vec<Pattern>) -> Self
        ensures { result ≡ items.items }
    {
        Patterns { items }
    }

    /// With one more pattern at the end.
    pub(crate) fn with(self, pattern: Pattern) -> Result<Self, NoMemory>
        ensures { IfOk result (λ patterns. patterns ≡ self ++ pattern ∷ []) }
    {
        let mut items = self.into_items();
        items.push(pattern)?;
        Ok(Patterns { items })
    }

    /// The patterns.
    pub fn items(&self) -> &[Pattern]
        ensures { result.now ≡ self.now }
    {
        self.items.as_slice()
    }

    /// The patterns, as a vector.
    pub fn into_items(self) -> Vec<Pattern>
        ensures { result.items ≡ self }
    {
        let Patterns { items } = self;
        items
    }
}

/// A link whose label matches the pattern starts a domain of this kind, which is a letter from a to z.
#[derive(Clone, Debug, Drop, PartialEq, Eq)]
pub struct Start {
    pub kind: u8,
    pub pattern: Pattern,
}

/// A list of starts.
pub type Starts = List<Start>;

/// What a linkage must keep. A grouped rule looks at the links of the trigger's group alone; the trigger is among the
/// links that are looked at.
#[derive(Clone, Debug, Drop)]
pub enum Rule {
    /// Where a link matches the trigger, no link matches one of the others.
    Forbid {
        grouped: bool,
        trigger: Pattern,
        others: Patterns,
    },
    /// Where a link matches the trigger, some link matches one of the others.
    Demand {
        grouped: bool,
        trigger: Pattern,
        others: Patterns,
    },
    /// No link of a domain of this kind has an end to the left of the domain's root.
    Bounded {
        kind: u8,
    },
    /// The two ends of a link that matches are joined by a walk over the other links.
    Cycle {
        pattern: Pattern,
    },
}

/// A list of rules.
pub type Rules = List<Rule>;

/// What a knowledge text says: the links that start domains, those that are ignored, and the rules, numbered from 1.
#[derive(Clone, Debug, Drop)]
pub struct Knowledge {
    pub starts: Starts,
    pub ignored: Patterns,
    pub rules: Rules,
}
