//! The choices of disjuncts, position by position.
ghost use Rattle.std.specs.Prelude.{◌≡◌, ◌≤◌, ◌+◌, ◌++◌, ◌∷◌, [], length, Some, None, IfOk, OnOk};
ghost use Rattle.std.specs.List.{All};
ghost use Rattle.lg_gram.specs.Limits.{LINKAGE_POSITIONS};
ghost use Rattle.lg_gram.specs.Problems.{FitsProblem};
ghost use Rattle.lg_rules.specs.Partners.{FitsChoice};
ghost use Rattle.lg_rules.specs.Steps.{Adds, GoesOn};

use crate::list::completing::{add_sound, copied_choice};
use crate::list::pruning::can_stand;
use lg_base::NoMemory;
use lg_gram::{Chosen, Disjunct, Disjuncts, Linkage};
use std::alloc::Global;

fn with_choice(chosen: &Chosen, choice: Option<Disjunct>) -> Result<Chosen, NoMemory>
    ensures { IfOk result (λ longer. longer ≡ chosen.now ++ choice ∷ []) }
{
    let mut items = copied_choice(chosen)?.into_items();
    items.push(choice)?;
    Ok(Chosen::of(items))
}

fn with_disjunct(chosen: &Chosen, disjunct: &Disjunct) -> Result<Chosen, NoMemory>
    ensures { IfOk result (λ longer. longer ≡ chosen.now ++ Some disjunct.now ∷ []) }
{
    with_choice(chosen, Some(disjunct.clone()?))
}

/// Adds the sound linkages that go on from the choice so far by picks from these rows, at most `spare` of them none. The
/// recursion is as deep as there are rows.
pub(crate) fn choose(
    alloc: Global,
    rows: &[Disjuncts],
    spare: usize,
    chosen: &Chosen,
    out: &mut Vec<Linkage>,
) -> Result<(), NoMemory>
    requires positions { length chosen.now + length rows.now ≤ LINKAGE_POSITIONS }
    requires fit { All FitsChoice chosen.now }
    requires rows_fit { All (All FitsProblem) rows.now }
    ensures { OnOk result (Adds (GoesOn chosen.now rows.now spare) out.old.items out.new.items) }
{
    match rows {
        [] => {
            add_sound(alloc, chosen, out)?;
        }
        [row, later @ ..] => {
            if spare > 0 {
                let next = with_choice(chosen, None)?;
                choose(alloc, later, spare - 1, &next, out)?;
            }
            for disjunct in row.items() {
                if can_stand(chosen.items(), later.len(), disjunct) {
                    let next = with_disjunct(chosen, disjunct)?;
                    choose(alloc, later, spare, &next, out)?;
                }
            }
        }
    }
    Ok(())
}
