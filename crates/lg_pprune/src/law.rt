//! The law of pruning.
ghost use Rattle.lg_pprune.specs.Alive.{PruningKeepsLinkages};

/// Pruning keeps the good linkages of a problem, with any number of unlinked words, and makes no new ones. The function does
/// nothing: a caller whose proof needs the fact calls it.
pub fn pruning_keeps_linkages()
    ensures { PruningKeepsLinkages }
{}
