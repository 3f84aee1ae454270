//! Rounds of walks through all formulas of a sentence.
ghost use Rattle.std.specs.Prelude.{◌≡◌, ◌≢◌, ◌≤◌, ◌+◌, IfOk};
ghost use Rattle.lg_gram.specs.Linkages.{Linkage, unlinked};
ghost use Rattle.lg_reach.specs.Ends.{IsLinkageOf};
ghost use Rattle.lg_reach.specs.Reach.{HaveFewer, HaveUsed};
ghost use Rattle.lg_reach.specs.Rounds.{AreWalked};

use crate::formulas::{formulas_of, parts_of};
use crate::known::Known;
use crate::nearest::Stand;
use crate::site::Sites;
use crate::words::{Parts, reach_words};
use lg_base::NoMemory;
use lg_eprune::{PositionExprs, WordExprs};
use lg_sharpen::{Gaps, Ways};
use std::alloc::Global;

// How often the formulas are walked through after the first time.
const ROUNDS: u32 = 3;

/// The words of each position with fewer choices of their formulas, among them all that any good linkage with at most so many unlinked words
/// uses. A word of which nothing is left is dropped.
///
/// A choice goes where one of its links would have to be longer than the sentence allows, or would end at no word that has a partner which
/// reaches back as far: a link is longer than those of the connectors before it, at both its ends. The words under the nearest link of a
/// word, to one side of it, link among themselves and with that link's other end alone; those whose formulas have no choice for that are
/// unlinked, and so are those elsewhere that have none left, so all these are no more than `nulls`. Where a link is the nearest of both its
/// ends, all words under it are unlinked. The time is that of four walks through all formulas. The only error is running out of memory.
pub fn within_reach(
    alloc: Global,
    positions: &[WordExprs],
    nulls: u32,
) -> Result<PositionExprs, NoMemory>
    ensures fewer { IfOk result (HaveFewer positions.now) }
    ensures used { (g : Linkage) → IsLinkageOf positions.now g → unlinked g ≤ nulls → IfOk result (HaveUsed g positions.now) }
{
    let most = nulls as usize + 1;
    let all = parts_of(alloc, positions)?;
    let mut round = walk_through(alloc, all, most, None)?;
    for _round in 0..ROUNDS {
        let Round { kept, sites, ways } = round;
        let gaps = Gaps::of(alloc, count_of(kept.len()), most as u64, &ways)?;
        let known = Known { sites, gaps };
        round = walk_through(alloc, kept, most, Some(&known))?;
    }
    let left = formulas_of(alloc, positions, round.kept)?;
    Ok(left)
}

/// What a round has left, and what it has learned.
#[derive(Drop)]
struct Round<'a> {
    kept: Vec<Parts<'a>>,
    sites: Sites,
    ways: Ways,
}

fn walk_through<'a>(
    alloc: Global,
    positions: Vec<Parts<'a>>,
    most: usize,
    known: Option<&Known>,
) -> Result<Round<'a>, NoMemory>
    ensures { IfOk result (λ round. AreWalked most positions.entry.items round.kept.items known.entry round.sites round.ways) }
{
    let words = positions.len();
    let mut sites = Sites::new(alloc, count_of(words))?;
    let mut ways = Ways::none(alloc, count_of(words))?;
    let mut kept = Vec::with_capacity(alloc, words)?;
    for parts in positions {
        let stand = Stand {
            position: kept.len(),
            words,
            most,
            known,
        };
        kept.push(reach_words(alloc, parts, &stand, &mut sites, &mut ways)?)?;
    }
    Ok(Round { kept, sites, ways })
}

// The number of positions. Where it is too great to be counted, which that of no sentence is, it is 0: then no gap is shut.
fn count_of(words: usize) -> u32
    ensures { result ≢ 0 → result ≡ words }
{
    u32::try_from(words).unwrap_or(0)
}
