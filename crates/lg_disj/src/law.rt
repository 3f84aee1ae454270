//! Laws of disjuncts, the contracts of functions without a body.
ghost use Rattle.std.specs.Prelude.{◌≡◌, ℕ, List};
ghost use Rattle.lg_gram.specs.Trees.{Tree};
ghost use Rattle.lg_gram.specs.Disjuncts.{AreDisjuncts};
ghost use Rattle.lg_gram.specs.declared.disjunct.Disjunct.{Disjunct};
ghost use Rattle.lg_disj.specs.Exist.{ExpressionsHaveDisjuncts};

use lg_gram::law::connectors_are_ordered;

/// A word has one list of disjuncts.
pub fn disjuncts_are_one_list()
    ensures { (word : List ℕ) (t : Tree) (xs ys : List Disjunct) → AreDisjuncts word t xs → AreDisjuncts word t ys → xs ≡ ys }
{}

/// Each expression whose connectors have names has a list of its disjuncts, whether it is made or not. `see_names` tells of names. The
/// function does nothing: a caller whose proof needs the fact calls it.
pub fn expressions_have_disjuncts()
    ensures { ExpressionsHaveDisjuncts }
{
    connectors_are_ordered();
}
