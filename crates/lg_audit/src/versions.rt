//! The versions that the answers of a session name.

ghost use Rattle.std.specs.Prelude.{◌≡◌, ◌↔◌, IsTrue};
ghost use Rattle.lg_gram.specs.declared.reply.Reply.TheVariants.{At};
ghost use Rattle.lg_script.specs.Commands.{command_view};
ghost use Rattle.lg_script.specs.Histories.{Precedes, reply_version};
ghost use Rattle.lg_audit.specs.Answers.{reply_of};
ghost use Rattle.lg_audit.specs.Replies.{outline};
ghost use Rattle.lg_audit.specs.Rising.{Rises, named_after};

use crate::shown::ShownReply;
use lg_script::Command;

/// Whether an answer's version is one of the journal, and is not lower than the one that was named last. A published version is
/// higher. `more` goes on with an old version.
pub(crate) fn is_in_time(named: u64, newest: u64, command: &Command, reply: &ShownReply) -> bool
    ensures { IsTrue result ↔ Rises named newest (command_view command.now) (reply_of reply.now) }
{
    if version_in(reply) > newest {
        return false;
    }
    match command {
        Command::More => true,
        _ => is_later(named, reply),
    }
}

/// The version that is named last, once this answer is given.
pub(crate) fn newly_named(named: u64, command: &Command, reply: &ShownReply) -> u64
    ensures { result ≡ named_after named (command_view command.now) (reply_of reply.now) }
{
    match command {
        Command::More => named,
        _ => version_in(reply),
    }
}

// Whether the answer may come behind one that names this version.
fn is_later(named: u64, reply: &ShownReply) -> bool
    ensures { IsTrue result ↔ Precedes (At named) (outline (reply_of reply.now)) }
{
    match reply {
        ShownReply::Published { version } => named < *version,
        _ => named <= version_in(reply),
    }
}

// The version that an answer names; 0 where it names none.
fn version_in(reply: &ShownReply) -> u64
    ensures { result ≡ reply_version (outline (reply_of reply.now)) }
{
    match reply {
        ShownReply::Listed { version, .. } => *version,
        ShownReply::Beyond { version, .. } => *version,
        ShownReply::Published { version } => *version,
        ShownReply::Refused { version, .. } => *version,
        ShownReply::At { version } => *version,
        ShownReply::NothingHeld => 0,
    }
}
