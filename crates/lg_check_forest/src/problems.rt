//! Problems as the tests write them.
//!
//! A disjunct is a text of one letter for each connector, from near to far: a capital for one to the right, a small
//! letter for one to the left, and `@` before one that is multi. So `@adS` is `@A- & D- & S+`. The disjuncts of a position
//! are written with `|` between them, in the order of their texts.
use lg_base::Cost;
use lg_gram::{Connector, Connectors, Disjunct, Disjuncts, Linkage, Positions, Problem, Word};
use std::alloc::Global;
use std::test::Fail;

/// The connectors that the letters stand for, in their order.
pub fn connectors(alloc: Global, letters: &[u8]) -> Result<Vec<Connector>, Fail> {
    let mut all = Vec::new(alloc);
    let mut multi = false;
    for letter in letters {
        if *letter == b'@' {
            multi = true;
        } else {
            let caps = [letter.to_ascii_uppercase()];
            let right = letter.is_ascii_uppercase();
            all.push(Connector::of(&caps, &[], multi, right).ok_or("no connector")?)?;
            multi = false;
        }
    }
    Ok(all)
}

fn disjunct(alloc: Global, letters: &[u8]) -> Result<Disjunct, Fail> {
    let mut left = Vec::new(alloc);
    let mut right = Vec::new(alloc);
    for connector in connectors(alloc, letters)? {
        if connector.is_right() {
            right.push(connector)?;
        } else {
            left.push(connector)?;
        }
    }
    Ok(Disjunct {
        word: Word::of(alloc, letters)?,
        left: Connectors::of(alloc, left)?,
        right: Connectors::of(alloc, right)?,
        cost: Cost::of(0),
    })
}

fn position(alloc: Global, word: &str) -> Result<Disjuncts, Fail> {
    let mut disjuncts = Vec::new(alloc);
    for letters in word.as_bytes().split(|byte| *byte == b'|') {
        disjuncts.push(disjunct(alloc, letters)?)?;
    }
    Ok(Disjuncts::of(disjuncts))
}

// Adds 200 disjuncts to those of a first position, which have no partner. They make a problem large, and add no linkage.
fn pad(alloc: Global, disjuncts: &mut Vec<Disjunct>) -> Result<(), Fail> {
    for number in 0..200u8 {
        let letters = [b'z', b'a' + number / 26, b'a' + number % 26];
        disjuncts.push(disjunct(alloc, &letters)?)?;
    }
    Ok(())
}

fn padded_position(alloc: Global, word: &str) -> Result<Disjuncts, Fail> {
    let mut disjuncts = position(alloc, word)?.into_items();
    pad(alloc, &mut disjuncts)?;
    Ok(Disjuncts::of(disjuncts))
}

/// The problem with these positions.
pub fn problem(alloc: Global, words: &[&str]) -> Result<Problem, Fail> {
    let mut positions = Vec::new(alloc);
    for word in words {
        positions.push(position(alloc, *word)?)?;
    }
    Ok(Problem::of(Positions::of(positions)).ok_or("no problem")?)
}

// Positions that bring forth joints on both sides, multi connectors, and words that stay unlinked.
const WORDS: [&str; 12] = [
    "@A|A|a",
    "@a|aA|b",
    "A|AB|a|b",
    "AA|a|aa",
    "@AB|aB|ab",
    "B|aA|b",
    "@A@A|a",
    "@a@b|aA|bA",
    "aB",
    "A|B|ab",
    "BA|a|b",
    "aAB|b|ba",
];

// Words with few disjuncts, for longer problems.
const SHORT: [&str; 6] = ["A|a", "aA", "AB|b", "@a|B", "A", "a|bA"];

// The word at a position of the problem of a seed.
fn word_of(count: u32, rest: u32) -> &'static str {
    if count < 6 {
        WORDS[rest as usize % WORDS.len()]
    } else {
        SHORT[rest as usize % SHORT.len()]
    }
}

// Disjuncts of which words are drawn, in the order of their texts.
const DRAWN: [&str; 13] = [
    "@A", "@aB", "A", "AB", "B", "BA", "a", "aA", "aB", "ab", "b", "bA", "ba",
];

// Those of them at which the number has a 1, written by twos from its end.
fn drawn_disjuncts(alloc: Global, number: u32) -> Result<Vec<Disjunct>, Fail> {
    let mut disjuncts = Vec::new(alloc);
    let mut rest = number;
    for letters in DRAWN {
        if rest % 2 == 1 {
            disjuncts.push(disjunct(alloc, letters.as_bytes())?)?;
        }
        rest = rest / 2;
    }
    Ok(disjuncts)
}

/// One of a family of problems of two to eight positions, of which many have linkages of one cost and one length.
pub fn made(alloc: Global, seed: u32) -> Result<Problem, Fail> {
    let mut rest = seed;
    let mut positions = Vec::new(alloc);
    let count = 2 + seed % 7;
    for _ in 0..count {
        positions.push(position(alloc, word_of(count, rest))?)?;
        rest = rest / 5 + seed % 11;
    }
    Ok(Problem::of(Positions::of(positions)).ok_or("no problem")?)
}

/// The same problem with 200 disjuncts more, which have no partner.
pub fn padded(alloc: Global, seed: u32) -> Result<Problem, Fail> {
    let mut rest = seed;
    let mut positions = Vec::new(alloc);
    let count = 2 + seed % 7;
    positions.push(padded_position(alloc, word_of(count, rest))?)?;
    for _ in 1..count {
        rest = rest / 5 + seed % 11;
        positions.push(position(alloc, word_of(count, rest))?)?;
    }
    Ok(Problem::of(Positions::of(positions)).ok_or("no problem")?)
}

// The number that comes behind this one: each is as if drawn at random.
fn drawn_behind(number: u32) -> u32 {
    number.wrapping_mul(1_664_525).wrapping_add(1_013_904_223)
}

/// A problem of 5 to 11 positions with disjuncts drawn at random, and 200 more, which have no partner. It is the same one for
/// the same seed. A third of them have linkages with at most one unlinked word, and a few have a thousand with two.
pub fn drawn(alloc: Global, seed: u32) -> Result<Problem, Fail> {
    let mut number = drawn_behind(drawn_behind(seed));
    let mut positions = Vec::new(alloc);
    for place in 0..5 + seed % 7 {
        let next = drawn_behind(number);
        let mut disjuncts = drawn_disjuncts(alloc, (number & next) >> 16)?;
        if place == 0 {
            pad(alloc, &mut disjuncts)?;
        }
        positions.push(Disjuncts::of(disjuncts))?;
        number = drawn_behind(next);
    }
    Ok(Problem::of(Positions::of(positions)).ok_or("no problem")?)
}

/// The problem with these positions, and with 200 disjuncts more at the first, which have no partner.
pub fn padded_problem(alloc: Global, first: &str, words: &[&str]) -> Result<Problem, Fail> {
    let mut positions = Vec::new(alloc);
    positions.push(padded_position(alloc, first)?)?;
    for word in words {
        positions.push(position(alloc, *word)?)?;
    }
    Ok(Problem::of(Positions::of(positions)).ok_or("no problem")?)
}

/// Two words of the family, of which a word of a longer sentence is made.
pub fn pair(seed: u32) -> (&'static str, &'static str) {
    let first = WORDS[seed as usize % WORDS.len()];
    let second = SHORT[(seed / 12) as usize % SHORT.len()];
    (first, second)
}

/// Whether both have the same disjuncts.
pub fn are_equal(a: &Problem, b: &Problem) -> bool {
    let a = a.positions();
    let b = b.positions();
    a.len() == b.len() && a.iter().zip(b).all(|(x, y)| x.items() == y.items())
}

/// Whether the two lists have the same linkages in the same order.
pub fn are_same(a: &[Linkage], b: &[Linkage]) -> bool {
    a.len() == b.len()
        && a.iter().zip(b).all(|(g, h)| g.chosen() == h.chosen() && g.links() == h.links())
}
