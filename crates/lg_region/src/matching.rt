//! Which last connectors of lists match.
ghost use Rattle.std.specs.Prelude.{◌≡◌, ◌+◌, ◌*◌, ◌<◌, ◌≤◌, ◌↔◌, length, IfOk, IsTrue, slice_index};
ghost use Rattle.lg_region.specs.Chains.{IsChain, IsNextOf};
ghost use Rattle.lg_region.specs.Matching.{AreFilled, AreTried, IsMatching, IsTable, MatchAt, classes_of_kinds, has_bit, with_bit};

use crate::chains::{Chain, chain_of, class_of_caps};
use lg_base::NoMemory;
use lg_gram::{Connector, matches};
use std::alloc::Global;

// Up to how many kinds the table is made.
const LIMIT: usize = 1_024;

// How many words of bits a row of the table has.
const WORDS: usize = 16;

/// The kinds of last connectors, and which of them match: bit b of row a is 1 where a connector of kind a at a left word matches one
/// of kind b at a right word. Where there are too many kinds there are no bits, and letters tell.
#[derive(Debug, Drop)]
pub(crate) struct Matching {
    kinds: Vec<Connector>,
    bits: Vec<u64>,
}

impl Matching {
    /// Which of these kinds match.
    pub(crate) fn of(alloc: Global, kinds: &[Connector]) -> Result<Matching, NoMemory>
        ensures kinds { IfOk result (λ m. m.kinds.items ≡ kinds.now) }
        ensures table { IfOk result IsMatching }
    {
        let mut bits = Vec::new(alloc);
        if kinds.len() <= LIMIT {
            bits = table_of(alloc, kinds)?;
        }
        Ok(Matching {
            kinds: copy_of(alloc, kinds)?,
            bits,
        })
    }

    /// Whether two kinds match. No memory.
    pub(crate) fn has(&self, near: u32, far: u32) -> bool
        requires matching { IsMatching self.now }
        requires near { near < length self.now.kinds.items }
        requires far { far < length self.now.kinds.items }
        ensures { IsTrue result ↔ MatchAt self.now.kinds.items near far }
    {
        if self.bits.is_empty() {
            return matches(&self.kinds[near as usize], &self.kinds[far as usize]);
        }
        is_set(&self.bits, near as usize, far as usize)
    }
}

fn copy_of(alloc: Global, kinds: &[Connector]) -> Result<Vec<Connector>, NoMemory>
    ensures { IfOk result (λ copy. copy.items ≡ kinds.now) }
{
    let mut copy = Vec::with_capacity(alloc, kinds.len())?;
    for kind in kinds {
        copy.push(*kind)?;
    }
    Ok(copy)
}

// The table of some kinds. Those of other capital letters never match, so only kinds of one class are tried.
fn table_of(alloc: Global, kinds: &[Connector]) -> Result<Vec<u64>, NoMemory>
    requires { length kinds.now ≤ 1024 }
    ensures { IfOk result (λ bits. IsTable kinds.now bits.items) }
{
    let classes = classes_of(alloc, kinds)?;
    let chain = chain_of(alloc, &classes)?;
    let mut bits = vec![in alloc; 0; kinds.len() * WORDS]?;
    for near in 0..kinds.len() {
        let first = chain.firsts[classes[near] as usize];
        fill_row(kinds, &chain, near, first, &mut bits);
    }
    Ok(bits)
}

// The class of each kind.
fn classes_of(alloc: Global, kinds: &[Connector]) -> Result<Vec<u8>, NoMemory>
    ensures { IfOk result (λ classes. classes.items ≡ classes_of_kinds kinds.now) }
{
    let mut classes = Vec::with_capacity(alloc, kinds.len())?;
    for kind in kinds {
        classes.push(class_of_caps(kind.caps()))?;
    }
    Ok(classes)
}

// Sets the bits of the row of a kind, from the first kind of its class on.
fn fill_row(kinds: &[Connector], chain: &Chain, near: usize, first: u32, bits: &mut Vec<u64>)
    requires few { length kinds.now ≤ 1024 }
    requires listed { near < length kinds.now }
    requires chain { IsChain (classes_of_kinds kinds.now) chain.now }
    requires first { IsNextOf (classes_of_kinds kinds.now) (slice_index (classes_of_kinds kinds.now) near) 0 first }
    requires filled { AreFilled kinds.now near 0 bits.old.items }
    ensures { AreFilled kinds.now (near + 1) 0 bits.new.items }
{
    let mut far = first as usize;
    while far < kinds.len() {
        try_pair(kinds, near, far, bits);
        far = chain.nexts[far] as usize;
    }
}

// Sets the bit of two kinds, where they match.
fn try_pair(kinds: &[Connector], near: usize, far: usize, bits: &mut Vec<u64>)
    requires few { length kinds.now ≤ 1024 }
    requires near { near < length kinds.now }
    requires far { far < length kinds.now }
    requires words { length bits.old.items ≡ length kinds.now * 16 }
    ensures { AreTried kinds.now near far bits.old.items bits.new.items }
{
    if matches(&kinds[near], &kinds[far]) {
        set_bit(bits, near, far);
    }
}

fn set_bit(bits: &mut Vec<u64>, near: usize, far: usize)
    requires near { near < 1024 }
    requires far { far < 1024 }
    requires room { near * 16 + 16 ≤ length bits.old.items }
    ensures { bits.new.items ≡ with_bit near far bits.old.items }
{
    let index = near * WORDS + far / 64;
    bits[index] |= 1 << (far % 64);
}

fn is_set(bits: &[u64], near: usize, far: usize) -> bool
    requires near { near < 1024 }
    requires far { far < 1024 }
    requires room { near * 16 + 16 ≤ length bits.now }
    ensures { IsTrue result ↔ has_bit bits.now near far }
{
    bits[near * WORDS + far / 64] >> (far % 64) & 1 == 1
}
