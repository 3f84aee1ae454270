//! Linkages as the tests write them.
//!
//! A disjunct is a text of one letter for each connector, from near to far: a capital for one to the right, a small
//! letter for one to the left, and `@` before one that is multi. So `@adS` is `@A- & D- & S+`.
use lg_base::Cost;
use lg_gram::{
    Chosen, Connector, Connectors, Disjunct, Disjuncts, Link, Linkage, Links, Positions, Problem,
    Word,
};
use std::alloc::Global;
use std::test::Fail;

fn disjunct(alloc: Global, letters: &str) -> Result<Disjunct, Fail> {
    let mut left = Vec::new(alloc);
    let mut right = Vec::new(alloc);
    let mut multi = false;
    for letter in letters.as_bytes() {
        if *letter == b'@' {
            multi = true;
        } else {
            let is_right = letter.is_ascii_uppercase();
            let caps = [letter.to_ascii_uppercase()];
            let connector = Connector::of(&caps, &[], multi, is_right).ok_or("no connector")?;
            if is_right {
                right.push(connector)?;
            } else {
                left.push(connector)?;
            }
            multi = false;
        }
    }
    Ok(Disjunct {
        word: Word::of(alloc, letters.as_bytes())?,
        left: Connectors::of(alloc, left)?,
        right: Connectors::of(alloc, right)?,
        cost: Cost::of(0),
    })
}

/// The problem whose positions have one disjunct each, or none where it is written `.`.
pub fn problem(alloc: Global, words: &[&str]) -> Result<Problem, Fail> {
    let mut positions = Vec::new(alloc);
    for word in words {
        let mut disjuncts = Vec::new(alloc);
        if *word != "." {
            disjuncts.push(disjunct(alloc, *word)?)?;
        }
        positions.push(Disjuncts::of(disjuncts))?;
    }
    Ok(Problem::of(Positions::of(positions)).ok_or("no problem")?)
}

/// The linkage that uses these disjuncts and links, where `.` is an unlinked position.
pub fn linkage(alloc: Global, words: &[&str], links: &[Link]) -> Result<Linkage, Fail> {
    let mut chosen = Vec::new(alloc);
    for word in words {
        if *word == "." {
            chosen.push(None)?;
        } else {
            chosen.push(Some(disjunct(alloc, *word)?))?;
        }
    }
    let links = Vec::from_slice(alloc, links)?;
    Ok(Linkage::of(Chosen::of(chosen), Links::of(links)).ok_or("no linkage")?)
}

/// A link between two places.
pub fn link(left: u32, lplace: u32, right: u32, rplace: u32) -> Link {
    Link {
        left,
        lplace,
        right,
        rplace,
    }
}
