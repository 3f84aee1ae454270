//! Connectivity: any two linked positions are joined by a walk over links.
ghost use Rattle.std.specs.Prelude.{◌≡◌, ◌≢◌, ◌≤◌, ℕ, [], length, EachIndex, IfNone, IfSome, slice_index};
ghost use Rattle.lg_gram.specs.Rules.{IsConnected, IsLinked, HasLink};
ghost use Rattle.lg_gram.specs.Walks.{LinkFrom};
ghost use Rattle.lg_rules.specs.Least.{IsLeast};
ghost use Rattle.lg_rules.specs.Places.{ArePlaced, linkage_of};
ghost use Rattle.lg_rules.specs.Verdicts.{ApartAt};

use lg_gram::linkage::LINKAGE_POSITIONS;
use lg_gram::{Disjunct, Link};
use lg_walks::label_islands;

/// The least linked position that no walk over links joins to the first linked position.
pub(super) fn first_apart(chosen: &[Option<Disjunct>], links: &[Link]) -> Option<u32>
    requires few { length chosen.now ≤ LINKAGE_POSITIONS }
    requires placed { ArePlaced (linkage_of chosen.now links.now) }
    ensures some { IfSome result (IsLeast (ApartAt (linkage_of chosen.now links.now))) }
    ensures none { let g = linkage_of chosen.now links.now in
        IfNone result (IsConnected (IsLinked g) (LinkFrom (HasLink g))) }
{
    let mut labels = [0; LINKAGE_POSITIONS];
    label_islands(links, &mut labels);
    let first = first_linked(chosen)?;
    first_labelled_otherwise(chosen, &labels, labels[first])
}

fn first_linked(chosen: &[Option<Disjunct>]) -> Option<usize>
    ensures some { IfSome result (IsLeast (IsLinked (linkage_of chosen.now []))) }
    ensures none { IfNone result (EachIndex chosen.now (λ i. IsLinked (linkage_of chosen.now []) i → ⊥)) }
{
    chosen.iter().position(|choice| choice.is_some())
}

// The first linked position with another label.
fn first_labelled_otherwise(
    chosen: &[Option<Disjunct>],
    labels: &[usize],
    label: usize,
) -> Option<u32>
    requires few { length chosen.now ≤ LINKAGE_POSITIONS }
    requires labelled { length chosen.now ≤ length labels.now }
    ensures some { IfSome result (IsLeast (λ i. IsLinked (linkage_of chosen.now []) i × (slice_index labels.now i ≢ label))) }
    ensures none { IfNone result ((i : ℕ) → IsLinked (linkage_of chosen.now []) i → slice_index labels.now i ≡ label) }
{
    for (i, choice) in chosen.iter().enumerate() {
        if choice.is_some() && labels[i] != label {
            return Some(i as u32);
        }
    }
    None
}
