//! Flags of links.
ghost use Rattle.std.specs.Prelude.{◌≡◌};

use std::marker::Model;

/// A flag for each link of a linkage, in its order. Contracts see the list of the flags.
#[derive(Drop)]
pub(crate) struct Flags {
    items: Vec<bool>,
}

impl Model for Flags {
    ghost use Rattle.std.specs.Prelude.{List, Bool};

    ghost Value = { List Bool };

    ghost view = { λ t. t.items.items };
}

impl Flags {
    /// The list of these flags.
    pub(crate) fn of(items: Vec<bool>) -> Self
        ensures { result ≡ items.items }
    {
        Flags { items }
    }

    /// The flags.
    pub(crate) fn items(&self) -> &[bool]
        ensures { result.now ≡ self.now }
    {
        self.items.as_slice()
    }
}
