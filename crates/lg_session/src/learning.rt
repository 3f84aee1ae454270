//! How a session learns what others have published.
ghost use Rattle.std.specs.Prelude.{◌≡◌, ◌∷◌, [], true, IfOk, OnOk};
ghost use Rattle.lg_log.specs.Codes.{is_code};
ghost use Rattle.lg_script.specs.Commands.{script_views};
ghost use Rattle.lg_script.specs.EditNumbers.{edit_counts};
ghost use Rattle.lg_script.specs.Histories.{dictionary_after};
ghost use Rattle.lg_session.specs.Answering.{IsUp};
ghost use Rattle.lg_script.specs.Codes.{AreScripts, place_of};
ghost use Rattle.lg_session.specs.Learning.{CatchesUp, Nowhere};

use crate::session::Session;
use lg_base::NoMemory;
use lg_dict::View;
use lg_edit::{apply, check};
use lg_log::{Log, Pass};
use lg_script::Scripts;
use std::alloc::Global;

/// More than the codes that can come: scripts have at most 100,000 edits.
pub(crate) const MORE_THAN_ALL: u32 = 100_001;

/// Looks until the end of the history was met. The dictionary learns each edit that was seen.
pub(crate) fn catch_up(
    alloc: Global,
    scripts: &Scripts,
    log: &Log,
    pass: &mut Pass,
    view: &mut View,
) -> Result<(), NoMemory>
    requires scripts { AreScripts (script_views scripts.now) }
    requires counts { log.now.counts ≡ edit_counts (script_views scripts.now) }
    requires log { pass.old.log ≡ log.now }
    ensures { OnOk result (CatchesUp (script_views scripts.now) Nowhere (pass.old, view.old) (pass.new, view.new)) }
{
    for _ in 0..MORE_THAN_ALL {
        let Some(code) = pass.look(log) else {
            return Ok(());
        };
        learn(alloc, scripts, view, code)?;
    }
    unreachable!()
}

/// The session when it has caught up.
pub(crate) fn caught_up<'a, H: Drop>(
    alloc: Global,
    scripts: &Scripts,
    log: &Log,
    state: Session<'a, H>,
) -> Result<Session<'a, H>, NoMemory>
    requires scripts { AreScripts (script_views scripts.now) }
    requires counts { log.now.counts ≡ edit_counts (script_views scripts.now) }
    requires log { state.pass.log ≡ log.now }
    ensures { IfOk result (IsUp (script_views scripts.now) Nowhere state.entry) }
{
    let Session {
        session,
        place,
        mut pass,
        mut view,
        held,
    } = state;
    catch_up(alloc, scripts, log, &mut pass, &mut view)?;
    Ok(Session {
        session,
        place,
        pass,
        view,
        held,
    })
}

/// Makes the edit of a code, if the dictionary accepts it.
pub(crate) fn learn(
    alloc: Global,
    scripts: &Scripts,
    view: &mut View,
    code: u64,
) -> Result<(), NoMemory>
    requires scripts { AreScripts (script_views scripts.now) }
    requires code { is_code (edit_counts (script_views scripts.now)) code ≡ true }
    ensures { OnOk result (view.new ≡ dictionary_after (script_views scripts.now) view.old (place_of (script_views scripts.now) code ∷ [])) }
{
    let (_, edit) = scripts.edit_of(code);
    match check(view, edit) {
        Ok(()) => apply(alloc, view, edit),
        Err(_) => Ok(()),
    }
}
