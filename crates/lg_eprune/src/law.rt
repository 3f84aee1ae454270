//! The law of expression pruning.
ghost use Rattle.lg_eprune.specs.Live.{LinkagesAreLive};

/// In a good linkage each connector is live, so that it is one of the pruned formulas too. The function does nothing: a caller whose proof
/// needs the fact calls it.
pub fn linkages_are_live()
    ensures { LinkagesAreLive }
{}
