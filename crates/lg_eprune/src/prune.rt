//! Formulas without the choices that no linkage can use.
ghost use Rattle.std.specs.Prelude.{◌≡◌, [], true, false, reverse, IfOk};
ghost use Rattle.lg_eprune.specs.Live.{AreNarrowed};
ghost use Rattle.lg_eprune.specs.Cuts.{swept, sweep_loses, swept_back, next_round, round_loses};

use crate::cut::{Left, cut_words};
use crate::seen::{Seen, see_words};
use crate::words::{PositionExprs, WordExprs};
use lg_base::NoMemory;
use std::alloc::Global;

/// The words of each position with the choices of their formulas all of whose connectors are live, and with their costs. Live are the
/// connectors of the greatest set in which each matches one at a position on its side, and stands in a choice all of whose connectors are
/// in the set. A word of which no choice is kept is dropped.
///
/// This is link-parser's expression pruning. No formula is expanded for it; the time is that of some sweeps over the nodes of all formulas.
/// The only error is running out of memory.
pub fn eprune(alloc: Global, positions: PositionExprs) -> Result<PositionExprs, NoMemory>
    ensures { IfOk result (AreNarrowed positions) }
{
    let Swept {
        positions: mut kept,
        ..
    } = sweep(alloc, positions.into_items(), true)?;
    loop {
        let Swept { positions, is_less } = round(alloc, kept)?;
        kept = positions;
        if !is_less {
            return Ok(PositionExprs::of(kept));
        }
    }
}

/// Positions of which what cannot be linked is taken away.
#[derive(Drop)]
struct Swept {
    positions: Vec<WordExprs>,
    /// Whether the last sweep took anything.
    is_less: bool,
}

// A sweep back, and then one to the right if the first took something.
fn round(alloc: Global, positions: Vec<WordExprs>) -> Result<Swept, NoMemory>
    ensures positions { IfOk result (λ next. next.positions.items ≡ next_round positions.items) }
    ensures less { IfOk result (λ next. next.is_less ≡ round_loses positions.items) }
{
    let Swept {
        positions: back,
        is_less,
    } = sweep_back(alloc, positions)?;
    if !is_less {
        return Ok(Swept {
            positions: back,
            is_less: false,
        });
    }
    sweep(alloc, back, true)
}

// A sweep from the last position to the first.
fn sweep_back(alloc: Global, positions: Vec<WordExprs>) -> Result<Swept, NoMemory>
    ensures positions { IfOk result (λ next. next.positions.items ≡ swept_back positions.items) }
    ensures less { IfOk result (λ next. next.is_less ≡ sweep_loses false [] (reverse positions.items)) }
{
    let mut turned = positions;
    turned.reverse();
    let Swept {
        positions: mut back,
        is_less,
    } = sweep(alloc, turned, false)?;
    back.reverse();
    Ok(Swept {
        positions: back,
        is_less,
    })
}

// The positions without the leaves of the direction other than `right` that nothing of an earlier list joins.
fn sweep(alloc: Global, positions: Vec<WordExprs>, right: bool) -> Result<Swept, NoMemory>
    ensures positions { IfOk result (λ next. next.positions.items ≡ swept right [] positions.items) }
    ensures less { IfOk result (λ next. next.is_less ≡ sweep_loses right [] positions.items) }
{
    let mut seen = Seen::new(alloc)?;
    let mut kept = Vec::with_capacity(alloc, positions.len())?;
    let mut is_less = false;
    for words in positions {
        let Left {
            words: left,
            is_less: loses,
        } = cut_words(alloc, words, right, &seen)?;
        is_less = is_less || loses;
        see_words(&mut seen, right, left.items())?;
        kept.push(left)?;
    }
    Ok(Swept {
        positions: kept,
        is_less,
    })
}
