//! What the turns of all sessions come to.
ghost use Rattle.lg_session.specs.Paths.{PathsMakeRuns};

use lg_core::every_run_is_legal;
use lg_log::code_laws;

/// The turns of all sessions are a run of the core, where each turn takes the steps that `turn` tells and all of them end in one
/// history. So that every run is legal says something of the threads: each published edit was accepted by the version before its place,
/// each refused one is refused by the version of its answer, and each listing is by the version that it names.
///
/// The function does nothing: a caller whose proof needs the fact calls it.
pub fn paths_make_runs()
    ensures { PathsMakeRuns }
{
    code_laws();
    every_run_is_legal();
}
