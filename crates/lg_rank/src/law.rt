//! Laws of the order, each the contract of a function whose body only calls the laws that it follows from.
ghost use Rattle.lg_rank.specs.Joins.{JoinsGrow, CutsKeepOrder};
ghost use Rattle.lg_rank.specs.Meanings.{ForestsStandForLinkages};

use lg_region::{
    cuts_are_valid, parts_make_linkages, regions_are_cut_once, sentences_are_cut_once,
};

/// Of two linkages that are made of a common part and one other each, the one with the earlier other part is earlier.
pub fn joins_grow()
    ensures { JoinsGrow }
{}

/// What a cut spells follows the order of each of its two parts, and what a first word spells that of its one part.
pub fn cuts_keep_order()
    ensures { CutsKeepOrder }
{
    regions_are_cut_once();
    sentences_are_cut_once();
}

/// The values of a node of a forest are the linkages under what the node stands for, in numbers, and they follow the order of
/// their parts.
pub fn values_are_linkages()
    ensures { ForestsStandForLinkages }
{
    regions_are_cut_once();
    sentences_are_cut_once();
    cuts_are_valid();
    parts_make_linkages();
    cuts_keep_order();
}
