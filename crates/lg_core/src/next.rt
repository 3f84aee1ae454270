//! The next command of a session.
ghost use Rattle.std.specs.Prelude.{MatchOption};
ghost use Rattle.lg_script.specs.Commands.{command_view, script_views};
ghost use Rattle.lg_core.specs.Core.{IsNext, IsNextAtEnd};
ghost use Rattle.lg_core.specs.Steps.{HasNoNext, IsNotAtEnd};

use crate::state::{Actor, Core};
use lg_script::{Command, Scripts};

/// The actor of a session and its next command. None where the core lacks the session, or no command is left.
pub(crate) fn next<'a>(
    scripts: &'a Scripts,
    core: &Core,
    session: u32,
) -> Option<(Actor, &'a Command)>
    ensures { MatchOption result (HasNoNext (script_views scripts.now) core.now session) (λ r. IsNext (script_views scripts.now) core.now session r.0 (command_view r.1.now)) }
{
    let Some(actor) = core.actors.items().get(session as usize) else {
        return None;
    };
    let Some(commands) = scripts.items().get(session as usize) else {
        return None;
    };
    let Some(command) = commands.items().get(actor.place as usize) else {
        return None;
    };
    Some((*actor, command))
}

/// The same of a session that has seen the whole history.
pub(crate) fn next_at_end<'a>(
    scripts: &'a Scripts,
    core: &Core,
    session: u32,
) -> Option<(Actor, &'a Command)>
    ensures { MatchOption result (IsNotAtEnd (script_views scripts.now) core.now session) (λ r. IsNextAtEnd (script_views scripts.now) core.now session r.0 (command_view r.1.now)) }
{
    match next(scripts, core, session) {
        Some((actor, command)) if actor.seen == core.version() => Some((actor, command)),
        _ => None,
    }
}
