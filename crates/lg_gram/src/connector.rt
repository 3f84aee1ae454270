//! Connectors, and which of them may be linked.
ghost use Rattle.std.specs.Prelude.{◌≡◌, ◌<◌, ◌≤◌, ◌↔◌, ◌++◌, ◌∷◌, [], false, IsTrue, Some, None, if◌then◌else◌, max, length, take, slice_index_or};
ghost use Rattle.std.specs.Cmp.Lexicographic.{pointwise};
ghost use Rattle.std.specs.Cmp.{partial_equiv_from_equiv};
ghost use Rattle.std.specs.Cmp.Rules.{comparing, hashing};
ghost use Rattle.std.proofs.Common.{rules};
ghost use Rattle.lg_gram.specs.Names.{is_written, trimmed, IsName, STAR, joint_text, joint_fits};
ghost use Rattle.lg_gram.specs.Connectors.{Match, Agree, name_of, label_of, connector_cmp, connector_eq, either, merged};

use crate::label::{LETTERS, Label};
use crate::order::Ranked;
use std::cmp::Ordering;
use std::hash::{Hash, Hasher};
use std::marker::Model;

/// One end of a link that a word can have: a name, whether it may take one link or more (`@`), and whether it joins a
/// word to the right (`+`) or to the left (`-`).
///
/// Contracts see `{ caps, subs, multi, right }`.
#[derive(Clone, Copy, Debug)]
pub struct Connector {
    name: Label,
    multi: bool,
    right: bool,
}

impl Model for Connector {
    ghost use Rattle.lg_gram.specs.Connectors.{Connector as Seen, name_of};

    ghost Value = { Seen };

    ghost view = { λ c. record { caps = c.name.caps; subs = c.name.subs; multi = c.multi; right = c.right } };

    ghost inverse = { λ c. record { name = name_of c; multi = c.multi; right = c.right } };
}

impl PartialEq for Connector {
    ghost eq = { connector_eq };

    ghost laws = { partial_equiv_from_equiv (Prim.search (comparing, rules) depth 9) };

    fn eq(&self, other: &Connector) -> bool {
        self.multi == other.multi && self.right == other.right && self.name == other.name
    }
}

impl Eq for Connector {
    ghost laws = { Prim.search (comparing, rules) depth 9 };
}

impl Hash for Connector {
    // The name alone: few connectors of a sentence differ in the rest.
    ghost hash_input = { λ c. (c.caps ++ c.subs) ∷ [] };

    ghost respects_eq = { Prim.search (hashing, rules) };

    fn hash<H: Hasher>(&self, state: &mut H) {
        self.name.hash(state);
    }
}

impl Ranked for Connector {
    ghost use Rattle.lg_gram.specs.Connectors.{connector_cmp};
    ghost use Rattle.std.specs.Cmp.Rules.{comparing};
    ghost use Rattle.std.proofs.Common.{rules};

    ghost rank = { connector_cmp };

    fn rank(&self, other: &Connector) -> Ordering {
        self.compare(other)
    }

    ghost total = { Prim.search (comparing, rules) depth 12 };
}

impl Connector {
    /// The connector that is written so, without the stars at its end. None where a byte is not allowed, there is no
    /// capital letter, or there are more than 16 letters.
    pub fn of(caps: &[u8], subs: &[u8], multi: bool, right: bool) -> Option<Connector>
        ensures { result ≡ (if is_written caps.now subs.now then
            Some (record { caps = caps.now; subs = trimmed subs.now; multi = multi; right = right }) else None) }
    {
        let name = Label::of(caps, subs)?;
        Some(Connector { name, multi, right })
    }

    /// The joint of a chain, by which an idiom's words hang together: named by the rank of the idiom's word, the position
    /// at which the chain starts, and the number of the joint, each from 0. It takes one link. None where the rank is above
    /// 999,999, or one of the others above 999. No memory.
    pub fn chain(rank: u32, start: u32, joint: u32, right: bool) -> Option<Connector>
        ensures { result ≡ (if joint_fits rank start joint then
            Some (record { caps = joint_text rank start joint; subs = []; multi = false; right = right }) else None) }
    {
        let name = Label::joint(rank, start, joint)?;
        Some(Connector {
            name,
            multi: false,
            right,
        })
    }

    /// The capital letters, or the text of a joint.
    pub fn caps(&self) -> &[u8]
        ensures value { result.now ≡ self.now.caps }
        ensures named { IsName (name_of self.now) }
    {
        self.name.caps()
    }

    /// The subscripts.
    pub fn subs(&self) -> &[u8]
        ensures value { result.now ≡ self.now.subs }
        ensures named { IsName (name_of self.now) }
    {
        self.name.subs()
    }

    /// Whether it may take several links.
    pub fn is_multi(&self) -> bool
        ensures { result ≡ self.now.multi }
    {
        self.multi
    }

    /// Whether it joins a word to the right.
    pub fn is_right(&self) -> bool
        ensures { result ≡ self.now.right }
    {
        self.right
    }

    /// The order by the bytes of the text without the direction sign.
    pub fn compare(&self, other: &Connector) -> Ordering
        ensures { result ≡ connector_cmp self.now other.now }
    {
        let own = self.name.letters();
        let others = other.name.letters();
        if self.multi == other.multi {
            own.cmp(others)
        } else if self.multi {
            Ordering::Less
        } else {
            Ordering::Greater
        }
    }
}

/// Whether a link may join the two, the first at its left word and the second at its right word.
pub fn matches(a: &Connector, b: &Connector) -> bool
    ensures { IsTrue result ↔ Match a.now b.now }
{
    a.is_right() && !b.is_right() && a.caps() == b.caps() && agree(a.subs(), b.subs())
}

fn agree(xs: &[u8], ys: &[u8]) -> bool
    ensures { IsTrue result ↔ Agree xs.now ys.now }
{
    xs.iter()
        .zip(ys)
        .all(|(x, y)| *x == *y || *x == b'*' || *y == b'*')
}

/// The label of a link of two connectors that match: the capital letters of both, and at each subscript place up to the
/// longer of the two the letter that stands there in either, a star where neither has one. It has no star at its end.
/// So `S**b` and `Ss` give `Ss*b`.
pub fn link_label(a: &Connector, b: &Connector) -> Label
    requires { Match a.now b.now }
    ensures { result ≡ label_of a.now b.now }
{
    let (first, second) = (a.subs(), b.subs());
    if a.name == b.name {
        return a.name;
    }
    let letters = merged(first, second);
    Label::of(a.caps(), &letters[..first.len().max(second.len())]).unwrap()
}

// The letter that stands at a place in either list, else a star.
fn letter_at(xs: &[u8], ys: &[u8], place: usize) -> u8
    ensures { result ≡ either (slice_index_or xs.now place STAR) (slice_index_or ys.now place STAR) }
{
    let letter = xs.get(place).copied().unwrap_or(b'*');
    if letter == b'*' {
        ys.get(place).copied().unwrap_or(b'*')
    } else {
        letter
    }
}

// The letters of both lists, and stars behind them.
fn merged(xs: &[u8], ys: &[u8]) -> [u8; LETTERS]
    requires first { length xs.now ≤ LETTERS }
    requires second { length ys.now ≤ LETTERS }
    ensures { take (max (length xs.now) (length ys.now)) result ≡ merged xs.now ys.now }
{
    let mut letters = [b'*'; LETTERS];
    for place in 0..xs.len().max(ys.len()) {
        letters[place] = letter_at(xs, ys, place);
    }
    letters
}
