//! The answers of sessions, read back.

ghost use Rattle.std.specs.Prelude.{IfOk, MatchOption, map};
ghost use Rattle.lg_script.specs.Commands.{command_view, script_views};
ghost use Rattle.lg_audit.specs.Fronts.{HasNone, IsRead, Anything, AreFormed, numbered_lines};
ghost use Rattle.lg_audit.specs.Answers.{reply_of, AreRepliesTo, script_lines, replies_of};

use crate::reply::read_reply;
use crate::shown::ShownReply;
use lg_base::NoMemory;
use lg_script::{Command, Scripts};
use std::alloc::Global;

/// The answers at the front of a text to the commands of every session, in order, and what stands behind their lines.
pub(crate) fn read_sessions<'a>(
    alloc: Global,
    scripts: &Scripts,
    text: &'a [u8],
) -> Result<Option<(Vec<Vec<ShownReply<'a>>>, &'a [u8])>, NoMemory>
    ensures { IfOk result (λ r. MatchOption r
        (HasNone (AreFormed AreRepliesTo (script_views scripts.now)) (numbered_lines script_lines 1 (script_views scripts.now)) text.now)
        (λ f. IsRead (AreFormed AreRepliesTo (script_views scripts.now)) (numbered_lines script_lines 1 (script_views scripts.now)) Anything text.now (replies_of f.0.items) f.1.now)) }
{
    let mut sessions = Vec::new(alloc);
    let mut left = text;
    for (index, commands) in scripts.items().iter().enumerate() {
        let Some((replies, rest)) = read_session(alloc, index as u64 + 1, commands.items(), left)?
        else {
            return Ok(None);
        };
        sessions.push(replies)?;
        left = rest;
    }
    Ok(Some((sessions, left)))
}

// The answers at the front of a text to the commands of a session, in order, and what stands behind their lines.
fn read_session<'a>(
    alloc: Global,
    session: u64,
    commands: &[Command],
    text: &'a [u8],
) -> Result<Option<(Vec<ShownReply<'a>>, &'a [u8])>, NoMemory>
    ensures { IfOk result (λ r. MatchOption r
        (HasNone (AreRepliesTo (map command_view commands.now)) (script_lines session (map command_view commands.now)) text.now)
        (λ f. IsRead (AreRepliesTo (map command_view commands.now)) (script_lines session (map command_view commands.now)) Anything text.now (map reply_of f.0.items) f.1.now)) }
{
    let mut replies = Vec::new(alloc);
    let mut left = text;
    for (index, command) in commands.iter().enumerate() {
        let Some((reply, rest)) = read_reply(
            alloc,
            session,
            index as u64 + 1,
            command.kind(),
            left,
        )?
        else {
            return Ok(None);
        };
        replies.push(reply)?;
        left = rest;
    }
    Ok(Some((replies, left)))
}
