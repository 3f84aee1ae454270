//! Whether a linkage is one of a problem.
ghost use Rattle.std.specs.Prelude.{◌≡◌, ◌↔◌, ◌≤◌, ℕ, [], None, IsTrue, IfSome, length, slice_index_or};
ghost use Rattle.std.specs.List.{All, Contains};
ghost use Rattle.lg_rules.specs.Places.{IsOf, IsPlaced};

use lg_gram::{Disjunct, Disjuncts, Link, Linkage, Problem, side};

/// Whether the linkage has as many positions as the problem, each chosen disjunct stands in its position's list, and
/// each link has `right` below the number of positions and places within the lists of two chosen disjuncts.
pub fn belongs(problem: &Problem, g: &Linkage) -> bool
    ensures { IsTrue result ↔ IsOf problem.now g.now }
{
    let positions = problem.positions();
    let chosen = g.chosen();
    chosen.len() == positions.len()
        && are_listed(positions, chosen)
        && g.links().iter().all(|link| is_placed(g, link))
}

// Whether each chosen disjunct stands in the list of its position.
fn are_listed(positions: &[Disjuncts], chosen: &[Option<Disjunct>]) -> bool
    requires { length chosen.now ≤ length positions.now }
    ensures { IsTrue result
        ↔ ((i : ℕ) → IfSome (slice_index_or chosen.now i None) (Contains (slice_index_or positions.now i []))) }
{
    for (i, choice) in chosen.iter().enumerate() {
        if !is_listed(&positions[i], choice) {
            return false;
        }
    }
    true
}

fn is_listed(disjuncts: &Disjuncts, choice: &Option<Disjunct>) -> bool
    ensures { IsTrue result ↔ IfSome choice.now (Contains disjuncts.now) }
{
    match choice {
        None => true,
        Some(disjunct) => disjuncts.contains(disjunct),
    }
}

fn is_placed(g: &Linkage, link: &Link) -> bool
    ensures { IsTrue result ↔ IsPlaced g.now link.now }
{
    let chosen = g.chosen();
    link.left < link.right
        && (link.right as usize) < chosen.len()
        && (link.lplace as usize) < side(chosen, true, link.left).len()
        && (link.rplace as usize) < side(chosen, false, link.right).len()
}
