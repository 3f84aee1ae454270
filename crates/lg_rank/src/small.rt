//! Links and ways in few bytes: words and places are below 256.
ghost use Rattle.std.specs.Prelude.{◌≡◌, ◌+◌, ◌<◌, ◌^◌, IfOk};
ghost use Rattle.lg_rank.specs.Meanings.{length_of};
ghost use Rattle.lg_rank.specs.Small.{IsShort};

use crate::part::Way;
use lg_base::NoMemory;
use lg_gram::Link;
use std::marker::Model;

/// A link in four bytes. Contracts see the link.
#[derive(Clone, Copy, Debug)]
pub struct SmallLink {
    left: u8,
    lplace: u8,
    right: u8,
    rplace: u8,
}

impl Model for SmallLink {
    ghost use Rattle.lg_gram.specs.declared.linkage.Link.{Link as Seen};

    ghost Value = { Seen };

    ghost view = { λ l. record { left = l.left; lplace = l.lplace; right = l.right; rplace = l.rplace } };

    ghost inverse = { λ l. record { left = l.left; lplace = l.lplace; right = l.right; rplace = l.rplace } };
}

impl SmallLink {
    /// The link in few bytes.
    pub fn of(link: Option<Link>) -> Option<SmallLink>
        requires { IsShort link }
        ensures { result ≡ link }
    {
        match link {
            None => None,
            Some(link) => Some(SmallLink {
                left: link.left as u8,
                lplace: link.lplace as u8,
                right: link.right as u8,
                rplace: link.rplace as u8,
            }),
        }
    }

    /// The link.
    pub fn full(&self) -> Link
        ensures { result ≡ self.now }
    {
        Link {
            left: u32::from(self.left),
            lplace: u32::from(self.lplace),
            right: u32::from(self.right),
            rplace: u32::from(self.rplace),
        }
    }
}

// The length of a link; 0 where there is none.
fn span_of(link: Option<SmallLink>) -> u64
    ensures value { result ≡ length_of link }
    ensures small { result < 2 ^ 32 }
{
    match link {
        None => 0,
        Some(link) => u64::from(link.right.saturating_sub(link.left)),
    }
}

// The number of a node in 32 bits. More nodes are more than memory holds.
fn number_of(node: Option<usize>) -> Result<Option<u32>, NoMemory>
    ensures { IfOk result (λ number. number ≡ node) }
{
    match node {
        None => Ok(None),
        Some(number) => match u32::try_from(number) {
            Ok(number) => Ok(Some(number)),
            Err(_) => Err(NoMemory),
        },
    }
}

fn full_number(number: Option<u32>) -> Option<usize>
    ensures { result ≡ number }
{
    match number {
        None => None,
        Some(number) => Some(number as usize),
    }
}

/// A way in 40 bytes. Contracts see the way.
#[derive(Debug, Drop)]
pub struct SmallWay {
    cost: i64,
    choice: u32,
    left: Option<u32>,
    right: Option<u32>,
    word: u8,
    near: Option<SmallLink>,
    far: Option<SmallLink>,
}

impl Model for SmallWay {
    ghost use Rattle.std.specs.Prelude.{◌+◌};
    ghost use Rattle.lg_rank.specs.declared.part.Way.{Way as Seen};

    ghost Value = { Seen };

    ghost use Rattle.lg_rank.specs.Meanings.{length_of};

    ghost view = { λ w. record { word = w.word; choice = w.choice; cost = w.cost; span = length_of w.near + length_of w.far; near = w.near; far = w.far; left = w.left; right = w.right } };
}

impl SmallWay {
    /// The way of a word and its choice with these links and nodes. Its span is the sum of the lengths of the links.
    pub fn of(
        word: u32,
        choice: u32,
        cost: i64,
        near: Option<Link>,
        far: Option<Link>,
        left: Option<usize>,
        right: Option<usize>,
    ) -> Result<SmallWay, NoMemory>
        requires word { word < 256 }
        requires near { IsShort near }
        requires far { IsShort far }
        ensures { IfOk result (λ w. w ≡ record { word = word; choice = choice; cost = cost; span = length_of near + length_of far; near = near; far = far; left = left; right = right }) }
    {
        let left = number_of(left)?;
        let right = number_of(right)?;
        Ok(SmallWay {
            cost,
            choice,
            left,
            right,
            word: word as u8,
            near: SmallLink::of(near),
            far: SmallLink::of(far),
        })
    }

    /// The way.
    pub fn full(&self) -> Way
        ensures { result ≡ self.now }
    {
        Way {
            word: self.word,
            choice: self.choice,
            cost: self.cost,
            span: span_of(self.near) + span_of(self.far),
            near: self.near,
            far: self.far,
            left: full_number(self.left),
            right: full_number(self.right),
        }
    }
}
