//! Laws of the grammar, each the contract of a function without a body.
ghost use Rattle.std.specs.Prelude.{◌≡◌, List, length};
ghost use Rattle.std.specs.Cmp.{IsTotalOrder};
ghost use Rattle.lg_gram.specs.Names.{NamesAreWritten};
ghost use Rattle.lg_gram.specs.Connectors.{connector_cmp, ConnectorsToldApart};
ghost use Rattle.lg_gram.specs.Trees.{Tree};
ghost use Rattle.lg_gram.specs.Measures.{choices_of, choice_count};
ghost use Rattle.lg_gram.specs.Linkages.{link_cmp, linkage_cmp};
ghost use Rattle.lg_gram.specs.Levels.{TellsApart};
ghost use Rattle.lg_gram.specs.Pairs.{PairsDecide, GoodByPairs};
ghost use Rattle.std.specs.declared.cmp.Ordering.TheVariants.{Less, Equal};
ghost use Rattle.lg_gram.specs.Problems.{IsProblem};
ghost use Rattle.lg_gram.specs.Rules.{Good};
ghost use Rattle.lg_gram.specs.Ground.{mary_ran, mary_ran_linked, mary_ran_unlinked, linked_twice, crossed};
ghost use Rattle.lg_gram.specs.declared.disjunct.Disjunct.{Disjunct};
ghost use Rattle.lg_gram.specs.declared.linkage.Link.{Link};

/// A name that may be written has one capital letter or more, at most 16 letters, and letters of the two kinds alone;
/// its capital letters are those that its text begins with.
pub fn names_are_written()
    ensures { NamesAreWritten }
{}

/// The order of connectors is total, and tells connectors of one direction apart.
pub fn connectors_are_ordered()
    ensures total { IsTotalOrder connector_cmp }
    ensures exact { ConnectorsToldApart }
{}

/// The order of links is total, and tells links apart.
pub fn links_are_ordered()
    ensures total { IsTotalOrder link_cmp }
    ensures exact { (k l : Link) → link_cmp k l ≡ Equal → k ≡ l }
{}

/// The order of linkages is total, and tells the linkages of one problem apart.
pub fn linkages_are_ordered()
    ensures total { IsTotalOrder linkage_cmp }
    ensures exact { TellsApart }
{}

/// An expression has as many choices as are counted.
pub fn choices_are_counted()
    ensures { (t : Tree) → length (choices_of t) ≡ choice_count t }
{}

/// Links that are compared one by one, in their order, compare as they do pair by pair of positions: no link before a
/// link, and then by the places. So `Linkage::compare` is the order pair by pair of the good linkages of one problem.
pub fn pairs_decide()
    ensures links { PairsDecide }
    ensures good { GoodByPairs }
{}

/// What the rules and the order say of a few linkages: `Mary ran` has a good linkage, which comes before the one with
/// both words unlinked; and no linkage is good, for any problem, that has two links between the same two words, or two
/// links that cross.
pub fn ground_facts()
    ensures problem { IsProblem mary_ran }
    ensures good { Good mary_ran mary_ran_linked }
    ensures once { (positions : List (List Disjunct)) → Good positions linked_twice → ⊥ }
    ensures planar { (positions : List (List Disjunct)) → Good positions crossed → ⊥ }
    ensures first { linkage_cmp mary_ran_linked mary_ran_unlinked ≡ Less }
{}
