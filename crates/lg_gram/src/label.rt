//! Names of connectors and labels of links.
ghost use Rattle.std.specs.Prelude.{◌≡◌, ◌+◌, ◌-◌, ◌≤◌, ◌++◌, ◌∷◌, [], List, ℕ, true, length, replicate, Some, None, if◌then◌else◌};
ghost use Rattle.std.specs.List.{list_all, prefix_len};
ghost use Rattle.std.specs.Cmp.{partial_equiv_from_equiv};
ghost use Rattle.std.specs.Cmp.Rules.{comparing, hashing};
ghost use Rattle.std.proofs.Common.{rules};
ghost use Rattle.lg_gram.specs.Names.{is_capital, is_subscript, is_written, trimmed, IsName, joint_text, joint_fits};
ghost use Rattle.lg_gram.specs.Stored.{HoldsText};
ghost use Rattle.lg_gram.specs.Connectors.{name_eq};

use itoa::Buffer;
use std::hash::{Hash, Hasher};
use std::marker::Model;

/// The most letters of a name, capitals and subscripts together.
pub const LETTERS: usize = 16;

// The greatest rank in the text of a joint, and the greatest position or number of a joint in it.
const JOINT_RANK: u32 = 999_999;

const JOINT_PLACE: u32 = 999;

/// The name of a connector, and the label of a link: one or more capital letters, and then subscripts, which are small
/// letters and stars. It has at most 16 letters and no star at the end. In place of capital letters stands the text of a
/// joint, `idR.S.J` with three numbers, in the names that hold the words of an idiom together; no dictionary can write
/// such a name.
///
/// Contracts see `{ caps, subs }`.
#[derive(Clone, Copy, Debug)]
pub struct Label {
    letters: [u8; LETTERS],
    caps_len: u8,
    len: u8,
}

impl Model for Label {
    ghost use Rattle.lg_gram.specs.Names.{Name};

    ghost Value = { Name };

    ghost use Rattle.lg_gram.specs.Stored.{named, IsStored, stored, stored_named};

    ghost view = { named };

    ghost invariant = { IsStored };

    ghost inverse = { stored };

    ghost inverse_ok = { stored_named };
}

impl PartialEq for Label {
    ghost eq = { name_eq };

    ghost laws = { partial_equiv_from_equiv (Prim.search (comparing, rules) depth 9) };

    // Zeros stand behind the letters, so that equal names are kept in equal bytes.
    fn eq(&self, other: &Label) -> bool {
        self.caps_len == other.caps_len && self.len == other.len && self.letters == other.letters
    }
}

impl Eq for Label {
    ghost laws = { Prim.search (comparing, rules) depth 9 };
}

impl Hash for Label {
    // All letters at once: one step of a hasher for most names.
    ghost hash_input = { λ n. (n.caps ++ n.subs) ∷ [] };

    ghost respects_eq = { Prim.search (hashing, rules) };

    fn hash<H: Hasher>(&self, state: &mut H) {
        state.write(self.letters());
    }
}

impl Label {
    /// The name that is written so, without the stars at its end. None where a byte is not allowed, there is no capital
    /// letter, or there are more than 16 letters.
    pub fn of(caps: &[u8], subs: &[u8]) -> Option<Label>
        ensures { result ≡ (if is_written caps.now subs.now then Some (record { caps = caps.now; subs = trimmed subs.now }) else None) }
    {
        if !can_be_name(caps, subs) {
            return None;
        }
        let kept = without_stars(subs);
        Some(Label {
            letters: packed(caps, kept),
            caps_len: caps.len() as u8,
            len: (caps.len() + kept.len()) as u8,
        })
    }

    /// The name of a joint, by the rank of an idiom's word, the position at which it starts, and the number of the joint
    /// among those of the idiom. None where the rank is above 999,999, or one of the others above 999. No memory.
    pub fn joint(rank: u32, start: u32, joint: u32) -> Option<Label>
        ensures { result ≡ (if joint_fits rank start joint then Some (record { caps = joint_text rank start joint; subs = [] }) else None) }
    {
        if rank > JOINT_RANK || start > JOINT_PLACE || joint > JOINT_PLACE {
            return None;
        }
        let mut letters = [0; LETTERS];
        let len = write_joint(&mut letters, rank, start, joint) as u8;
        Some(Label {
            letters,
            caps_len: len,
            len,
        })
    }

    /// The capital letters, or the text of a joint.
    pub fn caps(&self) -> &[u8]
        ensures value { result.now ≡ self.now.caps }
        ensures named { IsName self.now }
    {
        &self.letters[..usize::from(self.caps_len)]
    }

    /// The subscripts.
    pub fn subs(&self) -> &[u8]
        ensures value { result.now ≡ self.now.subs }
        ensures named { IsName self.now }
    {
        &self.letters[usize::from(self.caps_len)..usize::from(self.len)]
    }

    /// All letters.
    #[tactic(auto, using(crate::proofs::Letters::stored_text))]
    pub fn letters(&self) -> &[u8]
        ensures value { result.now ≡ self.now.caps ++ self.now.subs }
        ensures named { IsName self.now }
    {
        &self.letters[..usize::from(self.len)]
    }
}

/// How many capital letters stand at the front.
pub fn capitals(letters: &[u8]) -> usize
    ensures within { result ≤ length letters.now }
    ensures count { result ≡ prefix_len is_capital letters.now }
{
    letters
        .iter()
        .take_while(|b| b.is_ascii_uppercase())
        .count()
}

fn can_be_name(caps: &[u8], subs: &[u8]) -> bool
    ensures { result ≡ is_written caps.now subs.now }
{
    !caps.is_empty()
        && caps.len() <= LETTERS
        && subs.len() <= LETTERS - caps.len()
        && are_capitals(caps)
        && are_subscripts(subs)
}

fn are_capitals(bytes: &[u8]) -> bool
    ensures { result ≡ list_all is_capital bytes.now }
{
    bytes.iter().all(|b| *b >= b'A' && *b <= b'Z')
}

fn are_subscripts(bytes: &[u8]) -> bool
    ensures { result ≡ list_all is_subscript bytes.now }
{
    bytes
        .iter()
        .all(|b| (*b >= b'a' && *b <= b'z') || *b == b'*')
}

/// The subscripts without the stars at their end.
pub(crate) fn without_stars(subs: &[u8]) -> &[u8]
    ensures value { result.now ≡ trimmed subs.now }
    ensures short { trimmed result.now ≡ result.now }
{
    let mut n = subs.len();
    while n > 0 && subs[n - 1] == b'*' {
        n -= 1;
    }
    &subs[..n]
}

// The letters one after another, and zeros behind them.
fn packed(caps: &[u8], subs: &[u8]) -> [u8; LETTERS]
    requires { length caps.now + length subs.now ≤ 16 }
    ensures { result ≡ caps.now ++ subs.now ++ replicate (16 - (length caps.now + length subs.now)) 0 }
{
    let mut letters = [0; LETTERS];
    letters[..caps.len()].copy_from_slice(caps);
    letters[caps.len()..caps.len() + subs.len()].copy_from_slice(subs);
    letters
}

// Writes the text of a joint over zeros, and tells how long it is.
fn write_joint(letters: &mut [u8; LETTERS], rank: u32, start: u32, joint: u32) -> usize
    requires empty { letters.old ≡ replicate 16 0 }
    requires fits { joint_fits rank start joint ≡ true }
    ensures length { result ≡ length (joint_text rank start joint) }
    ensures written { HoldsText letters.new (joint_text rank start joint) }
{
    let mut digits = Buffer::new();
    let end = put(letters, 0, b"id");
    let end = put(letters, end, digits.format(rank).as_bytes());
    let end = put(letters, end, b".");
    let end = put(letters, end, digits.format(start).as_bytes());
    let end = put(letters, end, b".");
    put(letters, end, digits.format(joint).as_bytes())
}

// Writes these bytes after so many letters, where zeros stand, and tells where they end.
fn put(letters: &mut [u8; LETTERS], at: usize, bytes: &[u8]) -> usize
    requires { at + length bytes.now ≤ 16 }
    ensures end { result ≡ at + length bytes.now }
    ensures written { (text : List ℕ) → length text ≡ at → HoldsText letters.old text → HoldsText letters.new (text ++ bytes.now) }
{
    let end = at + bytes.len();
    letters[at..end].copy_from_slice(bytes);
    end
}
