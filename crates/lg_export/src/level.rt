//! The levels of expressions as they are spelled.
ghost use Rattle.std.specs.Prelude.{◌≡◌, ◌+◌, min};
ghost use Rattle.lg_gram.specs.Trees.{tree_of, trees_in, expr_items, one_of, all_of};
ghost use Rattle.lg_export.specs.Spelling.{in_or, level_at, members_level};
ghost use Rattle.lg_export.specs.Spots.{spot_of};

use crate::spelling::is_optional;
use crate::spot::Spot;
use lg_gram::{Expr, Exprs};

// Where the count of levels stops, past the greatest level of a macro.
const COUNTED: u32 = 1000;

/// How many brackets of the spelling at a spot are open at once where they are most, counted to 1000.
#[cycle(level)]
pub(crate) fn level(spot: Spot, e: &Expr) -> u32
    ensures { result ≡ min (level_at (spot_of spot) (tree_of e.now)) 1000 }
{
    match e {
        Expr::Empty => 1,
        Expr::Conn(_) => 0,
        Expr::And(members) => level_of_all(spot, members),
        Expr::Or(members) => level_of_any(spot, members),
        Expr::Priced(inner, _) => one_more(level(Spot::Top, inner)),
    }
}

#[cycle(level)]
fn level_of_all(spot: Spot, members: &Exprs) -> u32
    ensures { result ≡ min (level_at (spot_of spot) (all_of (trees_in (expr_items members.now)))) 1000 }
{
    match spot {
        Spot::Top | Spot::InOr => level_of_members(Spot::InAnd, members),
        Spot::InAnd => one_more(level_of_members(Spot::InAnd, members)),
    }
}

#[cycle(level)]
fn level_of_any(spot: Spot, members: &Exprs) -> u32
    ensures { result ≡ min (level_at (spot_of spot) (one_of (trees_in (expr_items members.now)))) 1000 }
{
    match spot {
        Spot::Top => level_of_members(Spot::InOr, members),
        Spot::InOr | Spot::InAnd => one_more(level_in_brackets(members)),
    }
}

// Within the brackets that it has as a member.
#[cycle(level)]
fn level_in_brackets(members: &Exprs) -> u32
    ensures { min (result + 1) 1000 ≡ min (level_at in_or (one_of (trees_in (expr_items members.now)))) 1000 }
{
    if is_optional(members) {
        level(Spot::Top, &members.items()[1])
    } else {
        level_of_members(Spot::InOr, members)
    }
}

#[cycle(level)]
fn level_of_members(spot: Spot, members: &Exprs) -> u32
    ensures { result ≡ min (members_level (spot_of spot) (trees_in (expr_items members.now))) 1000 }
{
    let mut highest: u32 = 0;
    for member in members.items() {
        highest = highest.max(level(spot, member));
    }
    highest
}

// In one bracket more.
fn one_more(level: u32) -> u32
    ensures { result ≡ min (level + 1) 1000 }
{
    level.saturating_add(1).min(COUNTED)
}
