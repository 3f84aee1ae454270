//! Choices of several expressions, one after another.
ghost use Rattle.std.specs.Prelude.{◌≡◌, ◌<◌, ◌++◌, length, map, get_or, IsTrue, [], ◌∷◌, IfOk, OnOk};
ghost use Rattle.std.specs.List.{All};
ghost use Rattle.lg_gram.specs.Problems.{IsDisjunctCost};
ghost use Rattle.lg_disj.specs.Picked.{picked, IsReady};
ghost use Rattle.lg_disj.specs.Places.{no_places, both, listed, all_both, IsArena, IsCheap, only_cost};

use crate::arena::Choices;
use lg_base::{Cost, NoMemory};
use std::alloc::Global;

/// Each of the first choices joined with each of the second, by the first and then by the second.
///
/// Where the first or the second is one choice of no connector, nothing is copied. So many such lists in a row take time in
/// proportion to how many there are.
pub(crate) fn products(
    alloc: Global,
    mut firsts: Choices,
    mut seconds: Choices,
) -> Result<Choices, NoMemory>
    requires first_arena { IsArena firsts }
    requires second_arena { IsArena seconds }
    requires first_costs { All IsCheap (listed firsts) }
    requires second_costs { All IsCheap (listed seconds) }
    ensures exact { IfOk result (λ all. listed all ≡ all_both (listed firsts) (listed seconds)) }
    ensures arena { IfOk result IsArena }
{
    if is_bare(&seconds) {
        firsts.add_price(0, seconds.cost(0));
        return Ok(firsts);
    }
    if is_bare(&firsts) {
        seconds.add_price(0, firsts.cost(0));
        return Ok(seconds);
    }
    let mut all = Choices::new(alloc);
    push_all(&firsts, &seconds, &mut all)?;
    Ok(all)
}

/// Picks of several expressions: those of all but the last, which each choice of the last follows.
#[derive(Debug, Drop)]
pub(crate) struct Picks {
    pub(crate) firsts: Choices,
    pub(crate) last: Choices,
}

/// One choice, of no connector, which costs nothing.
pub(crate) fn bare(alloc: Global) -> Result<Choices, NoMemory>
    ensures exact { IfOk result (λ all. listed all ≡ no_places ∷ []) }
    ensures arena { IfOk result IsArena }
{
    let mut all = Choices::new(alloc);
    all.push(&[], &[], &[], &[], Cost::of(0))?;
    Ok(all)
}

/// Adds the picks, each whole.
pub(crate) fn push_picks(alloc: Global, picks: Picks, all: &mut Choices) -> Result<(), NoMemory>
    requires ready { IsReady picks }
    requires arena { IsArena all.old }
    ensures exact { OnOk result (listed all.new ≡ listed all.old ++ picked picks) }
    ensures arena { OnOk result (IsArena all.new) }
{
    let Picks { firsts, last } = picks;
    if is_bare(&firsts) || is_bare(&last) {
        let whole = products(alloc, firsts, last)?;
        return all.append(&whole);
    }
    push_all(&firsts, &last, all)
}

// Adds each of the first choices joined with each of the second.
fn push_all(firsts: &Choices, seconds: &Choices, all: &mut Choices) -> Result<(), NoMemory>
    requires first_arena { IsArena firsts.now }
    requires second_arena { IsArena seconds.now }
    requires arena { IsArena all.old }
    requires first_costs { All IsCheap (listed firsts.now) }
    requires second_costs { All IsCheap (listed seconds.now) }
    ensures exact { OnOk result (listed all.new ≡ listed all.old ++ all_both (listed firsts.now) (listed seconds.now)) }
    ensures arena { OnOk result (IsArena all.new) }
{
    all.reserve_products(firsts, seconds)?;
    for first in 0..firsts.len() {
        push_products(firsts, first, seconds, all)?;
    }
    Ok(())
}

// Whether it is one choice, of no connector.
fn is_bare(choices: &Choices) -> bool
    requires { IsArena choices.now }
    ensures { IsTrue result → (listed choices.now ≡ only_cost (get_or (listed choices.now) 0 no_places).cost ∷ []) }
{
    choices.len() == 1 && choices.left(0).is_empty() && choices.right(0).is_empty()
}

fn push_products(
    firsts: &Choices,
    first: usize,
    seconds: &Choices,
    all: &mut Choices,
) -> Result<(), NoMemory>
    requires first_arena { IsArena firsts.now }
    requires second_arena { IsArena seconds.now }
    requires arena { IsArena all.old }
    requires within { first < length (listed firsts.now) }
    requires first_costs { All IsCheap (listed firsts.now) }
    requires second_costs { All IsCheap (listed seconds.now) }
    ensures exact { OnOk result (listed all.new ≡ listed all.old ++ map (both (get_or (listed firsts.now) first no_places)) (listed seconds.now)) }
    ensures arena { OnOk result (IsArena all.new) }
{
    for second in 0..seconds.len() {
        all.push(
            firsts.left(first),
            seconds.left(second),
            firsts.right(first),
            seconds.right(second),
            firsts.cost(first).plus(seconds.cost(second)),
        )?;
    }
    Ok(())
}
