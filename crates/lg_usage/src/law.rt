//! Laws of totals.
ghost use Rattle.lg_usage.specs.Bounds.{UsesAreFew, TotalsAreFew};
ghost use Rattle.lg_usage.specs.Shares.{GivesTotals, TotalsAreEqual, CountsDecide, SharesAgree, TotalsGrow};

/// Shares that are counted apart and merged in any order and grouping give the same totals as one share to which all linkages
/// were added. What is given is the totals of the linkages, which do not depend on their order; the numbers decide which totals
/// they are. The function does nothing: a caller whose proof needs the fact calls it.
pub fn shares_agree()
    ensures agree { SharesAgree }
    ensures given { GivesTotals }
    ensures equal { TotalsAreEqual }
    ensures counts { CountsDecide }
    ensures grow { TotalsGrow }
{}

/// How great totals may be: a linkage uses a word at most once a position, of which there are at most 252, and a label at most
/// once for each two positions. The function does nothing: a caller whose proof needs the fact calls it.
pub fn totals_are_few()
    ensures uses { UsesAreFew }
    ensures totals { TotalsAreFew }
{}
