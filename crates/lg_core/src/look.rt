//! What a look at the end of the history makes of a command.
ghost use Rattle.std.specs.Prelude.{◌≡◌, Option, IfOk};
ghost use Rattle.lg_gram.specs.declared.listing.Bound.{Bound as SeenBound};
ghost use Rattle.lg_script.specs.Bounds.{IsSentence, IsInBounds};
ghost use Rattle.lg_script.specs.Commands.{command_view, script_views};
ghost use Rattle.lg_script.specs.Codes.{AreScripts};
ghost use Rattle.lg_core.specs.Core.{IsCore};
ghost use Rattle.lg_core.specs.Steps.{HasBound, kind_by, LooksSo, newest_of};

use crate::edits::newest;
use crate::note::NoteKind;
use crate::state::Core;
use lg_base::{NoMemory, Text};
use lg_dict::{Dict, View};
use lg_edit::check;
use lg_script::{Command, Scripts};
use lg_token::listed_tokens;
use std::alloc::Global;

/// What a look at the end of the history makes of a command.
#[derive(Clone, Copy)]
pub(crate) enum Looked {
    /// The command does not look: it is `more`.
    Waits,
    /// It is an edit that is accepted.
    Accepted,
    /// The command ends so.
    Ends(NoteKind),
}

/// Looks at a command by the dictionary after all edits of the history. The only error is running out of memory.
pub(crate) fn look_at_end(
    alloc: Global,
    base: &Dict,
    scripts: &Scripts,
    core: &Core,
    command: &Command,
) -> Result<Looked, NoMemory>
    requires scripts { AreScripts (script_views scripts.now) }
    requires core { IsCore (script_views scripts.now) base.now core.now }
    requires command { IsInBounds (command_view command.now) }
    ensures { IfOk result (LooksSo (newest_of (script_views scripts.now) base.now core.now) (command_view command.now)) }
{
    let view = newest(alloc, base, scripts, core)?;
    look_at(alloc, &view, command)
}

// Looks at a command by this dictionary.
fn look_at(alloc: Global, view: &View, command: &Command) -> Result<Looked, NoMemory>
    requires { IsInBounds (command_view command.now) }
    ensures { IfOk result (LooksSo view.now (command_view command.now)) }
{
    match command {
        Command::Parse(text) => Ok(Looked::Ends(listing_kind(alloc, view, text)?)),
        Command::List(_, _, text) => Ok(Looked::Ends(listing_kind(alloc, view, text)?)),
        Command::More => Ok(Looked::Waits),
        Command::Edit(edit) => match check(view, edit) {
            Ok(()) => Ok(Looked::Accepted),
            Err(cause) => Ok(Looked::Ends(NoteKind::Refused(cause))),
        },
        Command::Version => Ok(Looked::Ends(NoteKind::At)),
    }
}

// Whether a sentence is listed or passes a bound.
fn listing_kind(alloc: Global, view: &View, text: &Text) -> Result<NoteKind, NoMemory>
    requires { IsSentence text.now }
    ensures { IfOk result (λ kind. (bound : Option SeenBound) × HasBound view.now text.now bound × (kind ≡ kind_by bound)) }
{
    let Ok(sentence) = str::from_utf8(text.bytes()) else {
        unreachable!()
    };
    match listed_tokens(alloc, view, sentence)? {
        Ok(_) => Ok(NoteKind::Listed),
        Err(_) => Ok(NoteKind::Beyond),
    }
}
