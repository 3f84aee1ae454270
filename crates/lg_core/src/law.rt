//! What holds of every run of the core.
ghost use Rattle.lg_core.specs.Core.{StepsAreDetermined};
ghost use Rattle.lg_core.specs.Lawful.{EveryRunIsLegal};

use lg_script::place_laws;
use lg_token::tokens_are_one_list;

/// Whatever steps are made, in whatever order: the history and the notes that come of them are legal. Each published edit was accepted by the
/// version before its place, each refused one is refused by the version of its note, and each listing is by the version that it names.
///
/// The function does nothing: a caller whose proof needs the fact calls it.
pub fn every_run_is_legal()
    ensures { EveryRunIsLegal }
{
    place_laws();
}

/// What comes of a step is determined.
///
/// The function does nothing: a caller whose proof needs the fact calls it.
pub fn steps_are_determined()
    ensures { StepsAreDetermined }
{
    tokens_are_one_list();
}
