//! The nearest word at which a link may end.
ghost use Rattle.std.specs.Prelude.{◌≡◌, ◌≤◌, ◌<◌, ◌↔◌, true, ℕ, IsTrue};
ghost use Rattle.std.specs.List.{Any};
ghost use Rattle.lg_gram.specs.Linkages.{Linkage};
ghost use Rattle.lg_sharpen.specs.Filling.{MaySpan};
ghost use Rattle.lg_reach.specs.Ends.{EndsSo, IsNear, Suits};
ghost use Rattle.lg_reach.specs.Partners.{HasPartner, IsClassOf, IsPartner, MatchOn, MayEnd, bound_on, far_end, is_long};

use crate::known::Known;
use crate::site::{Site, Sites};
use crate::walk::Next;
use lg_gram::{Connector, matches};
use lg_member::class_of;

/// A position among so many words, of which fewer than `most` are unlinked, and what is known of before; none where nothing is known yet.
#[derive(Clone, Copy)]
pub(crate) struct Stand<'a> {
    pub(crate) position: usize,
    pub(crate) words: usize,
    pub(crate) most: usize,
    pub(crate) known: Option<&'a Known>,
}

impl Stand<'_> {
    /// The least length of a link of the connector that comes next on its side. None where none can be so long.
    pub(crate) fn nearest(&self, connector: &Connector, next: Next) -> Option<usize>
        ensures { (g : Linkage) → Suits g self.now → (n : ℕ) → EndsSo g self.now.position next.first connector.now n → next.least ≤ n → IsNear n result }
    {
        let end = self.end(connector.is_right());
        match self.known {
            None if next.least < end => Some(next.least),
            None => None,
            Some(known) => self.partner(known, connector, next, end),
        }
    }

    // Below which length all links to the right are, or to the left.
    fn end(&self, right: bool) -> usize
        ensures { result ≡ bound_on right self.now }
    {
        if right {
            self.words.saturating_sub(self.position)
        } else {
            self.words.min(self.position.saturating_add(1))
        }
    }

    // The least length, of these, that a link of the connector may have.
    fn partner(&self, known: &Known, connector: &Connector, next: Next, end: usize) -> Option<usize>
        requires { end ≡ bound_on connector.now.right self.now }
        ensures { (n : ℕ) → MayEnd self.now known.now connector.now next.first n → next.least ≤ n → n < end → IsNear n result }
    {
        let class = class_of(connector.caps());
        for length in next.least..end {
            if self.may_end(known, connector, class, next.first, length) {
                return Some(length);
            }
        }
        None
    }

    // Whether a link of the connector, whose capital letters are of this class, may be so long.
    fn may_end(
        &self,
        known: &Known,
        connector: &Connector,
        class: usize,
        first: bool,
        length: usize,
    ) -> bool
        requires length { length < bound_on connector.now.right self.now }
        requires class { IsClassOf connector.now class }
        ensures { IsTrue result ↔ MayEnd self.now known.now connector.now first length }
    {
        self.is_open(known, connector, first, length)
            && self.meets(
                &known.sites,
                connector,
                class,
                self.is_long(first, length),
                length,
            )
    }

    // Whether the nearest link may be so long, where nothing comes before the connector.
    fn is_open(&self, known: &Known, connector: &Connector, first: bool, length: usize) -> bool
        ensures { IsTrue result ↔ (first ≡ true → MaySpan connector.now.right known.now.gaps self.now.position length) }
    {
        !first
            || known
                .gaps
                .may_span(connector.is_right(), self.position, length)
    }

    // Whether a link that is the nearest of this end is too long to be the nearest of both.
    fn is_long(&self, first: bool, length: usize) -> bool
        ensures { result ≡ is_long self.now.most first length }
    {
        first && self.most < length
    }

    // Whether a partner of the connector stands so far away, and reaches back.
    fn meets(
        &self,
        sites: &Sites,
        connector: &Connector,
        class: usize,
        long: bool,
        length: usize,
    ) -> bool
        requires length { length < bound_on connector.now.right self.now }
        requires class { IsClassOf connector.now class }
        ensures { IsTrue result ↔ HasPartner sites.now self.now.position connector.now long length }
    {
        let right = connector.is_right();
        let position = self.far(right, length);
        let others = sites.at(!right, position, class);
        has_partner(connector, long, length, others)
    }

    // The position at the other end of a link to the right that is so long, or to the left.
    fn far(&self, right: bool, length: usize) -> usize
        requires { length < bound_on right self.now }
        ensures { result ≡ far_end right self.now.position length }
    {
        if right {
            self.position + length
        } else {
            self.position.saturating_sub(length)
        }
    }
}

// Whether a link of the connector that is so long may end at one of the sites.
fn has_partner(connector: &Connector, long: bool, length: usize, sites: &[Site]) -> bool
    ensures { IsTrue result ↔ Any (IsPartner connector.now long length) sites.now }
{
    sites
        .iter()
        .any(|site| is_partner(connector, long, length, site))
}

// Whether a link of the connector that is so long may end at the site, which reaches back.
fn is_partner(connector: &Connector, long: bool, length: usize, site: &Site) -> bool
    ensures { IsTrue result ↔ IsPartner connector.now long length site.now }
{
    site.least <= length
        && !(long && site.lone)
        && joins(connector.is_right(), connector, &site.connector)
}

// Whether the two may be linked, the first to the right of its word, or to the left.
fn joins(right: bool, connector: &Connector, other: &Connector) -> bool
    ensures { IsTrue result ↔ MatchOn right connector.now other.now }
{
    if right {
        matches(connector, other)
    } else {
        matches(other, connector)
    }
}
