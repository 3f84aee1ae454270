//! Sites: connectors at positions, with how long their links are at least.
ghost use Rattle.std.specs.Prelude.{◌↔◌, ◌≡◌, ◌<◌, IsTrue, OnOk, cond};
ghost use Rattle.std.specs.List.{Contains};
ghost use Rattle.lg_member.specs.Cells.{Stands};
ghost use Rattle.lg_reach.specs.Ends.{HasSite, Keeps};
ghost use Rattle.lg_reach.specs.Wide.{IsWider};

use lg_base::NoMemory;
use lg_gram::Connector;
use lg_member::{Cells, Wide};
use std::alloc::Global;

/// A connector of a position, how long a link of it is at least, and whether it is alone: it has one link, which is the nearest of its side.
#[derive(Clone, Copy, Debug)]
pub(crate) struct Site {
    pub(crate) connector: Connector,
    pub(crate) least: usize,
    pub(crate) lone: bool,
}

impl Wide for Site {
    ghost use Rattle.std.proofs.Common.{arith, refl};

    ghost wider = { IsWider };

    /// Whether what meets the other site meets this one too.
    fn is_wider(&self, site: &Site) -> bool {
        self.least <= site.least
            && (!self.lone || site.lone)
            && is_same(&self.connector, &site.connector)
    }

    ghost itself = { λ s. record { connector = refl; least = omega arith; lone = λ is. is } };
}

fn is_same(a: &Connector, b: &Connector) -> bool
    ensures { IsTrue result ↔ (a.now ≡ b.now) }
{
    a == b
}

/// The sites of the connectors to the left, and of those to the right, by position.
#[derive(Drop)]
pub(crate) struct Sites {
    lefts: Cells<Site>,
    rights: Cells<Site>,
}

impl Sites {
    /// No sites, for so many words.
    pub(crate) fn new(alloc: Global, words: u32) -> Result<Sites, NoMemory> {
        let lefts = Cells::new(alloc, words)?;
        let rights = Cells::new(alloc, words)?;
        Ok(Sites { lefts, rights })
    }

    /// The connector stands at the position, its links are at least so long, and it is alone or may not be.
    pub(crate) fn add(
        &mut self,
        position: usize,
        connector: &Connector,
        least: usize,
        lone: bool,
    ) -> Result<(), NoMemory>
        ensures keeps { OnOk result (Keeps self.old self.new) }
        ensures added { OnOk result (HasSite self.new position connector.now least lone) }
    {
        let site = Site {
            connector: *connector,
            least,
            lone,
        };
        if connector.is_right() {
            self.rights.push(position, connector.caps(), &site)
        } else {
            self.lefts.push(position, connector.caps(), &site)
        }
    }

    /// The sites at a position of a class of capital letters, below 64: of connectors to the right, or to the left.
    pub(crate) fn at(&self, right: bool, position: usize, class: usize) -> &[Site]
        requires { class < 64 }
        ensures { (site : Site) → Contains result.now site ↔ Stands (cond right self.now.rights self.now.lefts) position class site }
    {
        if right {
            self.rights.at(position, class)
        } else {
            self.lefts.at(position, class)
        }
    }
}
