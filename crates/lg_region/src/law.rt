//! Laws of regions, each the contract of a function without a body.
ghost use Rattle.std.specs.Prelude.{List};
ghost use Rattle.lg_gram.specs.Connectors.{Connector};
ghost use Rattle.lg_gram.specs.declared.disjunct.Disjunct.{Disjunct};
ghost use Rattle.lg_region.specs.Fronts.{AreListsOf};
ghost use Rattle.lg_region.specs.Alike.{RegionsBeginAlike};
ghost use Rattle.lg_region.specs.Openings.{AlternativesEnd};
ghost use Rattle.lg_region.specs.Laws.{RegionsAreCutOnce, SentencesAreCutOnce, CutsAreValid, AlternativesDecide, WholeAlternativesDecide, PartsMakeLinkages, NumbersTellListsApart, AlternativesAreSmall};

/// Every linkage under a region is spelled by exactly one alternative of the region, and an alternative spells only linkages
/// under it.
pub fn regions_are_cut_once()
    ensures { RegionsAreCutOnce }
{}

/// The same of the whole sentence: a good linkage has a first linked word and a part under the region behind it, or no linked
/// word.
pub fn sentences_are_cut_once()
    ensures { SentencesAreCutOnce }
{}

/// The regions of a cut are valid where its region is.
pub fn cuts_are_valid()
    ensures { CutsAreValid }
{}

/// Some linkage lies under a region exactly where some lies under each region of one of its alternatives; and the same of
/// the whole sentence.
pub fn alternatives_decide()
    ensures region { AlternativesDecide }
    ensures whole { WholeAlternativesDecide }
{}

/// Linkages under the two regions of a cut are the parts of exactly one linkage that it spells. The same of a first word.
pub fn parts_make_linkages()
    ensures { PartsMakeLinkages }
{}

/// Two numbers with the same list are one, and two keys of one region. Each region that may be asked for has a key, and the
/// keys of an alternative may be asked for.
pub fn numbers_tell_lists_apart()
    ensures { (positions : List (List Disjunct)) (lists : List (List Connector)) → AreListsOf positions lists → NumbersTellListsApart positions lists }
{}

/// The alternatives of a key of a problem have room in few bytes.
pub fn alternatives_are_small()
    ensures { AlternativesAreSmall }
{}

/// Two regions that begin at one position with one list, or with none and with right lists that end with one connector, begin
/// alike: for each alternative of the one that cuts it where the other can be cut with as many unlinked words on the left, the
/// other has one with the same word, disjunct, left joint and left key.
pub fn regions_begin_alike()
    ensures { RegionsBeginAlike }
{}

/// The alternatives of a group that begin alike are told apart by their disjunct and how its right list goes on, and each disjunct of
/// the group makes one.
pub fn alternatives_end()
    ensures { AlternativesEnd }
{}
