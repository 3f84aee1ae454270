//! The laws of idioms: what chains do in the good linkages of a sentence.
ghost use Rattle.lg_idiom.specs.Overlays.{AddedAreFew, TakenAreChains, TakenAreLaidOver, TakenAreOne};
ghost use Rattle.lg_idiom.specs.Wholes.{ChainsAreWhole, ChainsStandForWords, JointsJoinNeighbours, PlainLinkagesStay};

/// In a good linkage each link of a joint joins neighbours. The function does nothing: a caller whose proof needs the fact calls it.
pub fn joints_join_neighbours()
    ensures { JointsJoinNeighbours }
{}

/// A good linkage uses each chain at all of its positions or at none. The function does nothing: a caller whose proof needs the fact calls it.
pub fn chains_are_whole()
    ensures { ChainsAreWhole }
{}

/// The good linkages without a chain are exactly those of the plain problem. The function does nothing: a caller whose proof needs the fact calls it.
pub fn plain_linkages_stay()
    ensures { PlainLinkagesStay }
{}

/// The chains that are taken of a sentence are chains as the other laws want them, where no disjunct of the dictionary's own has a joint and
/// the tokens are no more than a sentence may have. The function does nothing: a caller whose proof needs the fact calls it.
pub fn taken_are_chains()
    ensures { TakenAreChains }
{}

/// The chains that are taken of a sentence are what is laid over its plain problem. The function does nothing: a caller whose proof needs the
/// fact calls it.
pub fn taken_are_laid_over()
    ensures { TakenAreLaidOver }
{}

/// A good linkage that uses a chain is, without its joints, a good linkage with the compound as a word at the chain's last position; and each
/// of these in which that position is linked comes so from exactly one. The function does nothing: a caller whose proof needs the fact calls it.
pub fn chains_stand_for_words()
    ensures { ChainsStandForWords }
{}

/// What idioms add to a sentence has at most 4,000,000 choices in all. The function does nothing: a caller whose proof needs the fact calls it.
pub fn added_are_few()
    ensures { AddedAreFew }
{}

/// A sentence has one list of chains that are taken. The function does nothing: a caller whose proof needs the fact calls it.
pub fn taken_are_one()
    ensures { TakenAreOne }
{}
