//! What an answer comes to.

ghost use Rattle.std.specs.Prelude.{◌≡◌, ◌≤◌, ℕ, length, Option, Some, IfOk, OnOk};
ghost use Rattle.lg_gram.specs.declared.reply.Place.{Place as SeenPlace};
ghost use Rattle.lg_edit.specs.Edits.{edit_view, IsEditInBounds};
ghost use Rattle.lg_script.specs.Commands.{command_view, makes, asks};
ghost use Rattle.lg_script.specs.Histories.{command_at, reply_version};
ghost use Rattle.lg_script.specs.Kinds.{kind_of};
ghost use Rattle.lg_audit.specs.Answers.{reply_of};
ghost use Rattle.lg_audit.specs.Documents.{IsReplyInForm};
ghost use Rattle.lg_audit.specs.Replies.{Basis as SeenBasis, Held, outline};
ghost use Rattle.lg_audit.specs.Grounds.{basis_in, IsUsable, IsDated};
ghost use Rattle.lg_audit.specs.Rising.{IsAhead, Rises, named_after};
ghost use Rattle.lg_audit.specs.Walks.{IsKept, ComesTo};

use crate::basis::Basis;
use crate::dated::Dated;
use crate::edited::edit_holds;
use crate::listed::{Going, gone_on, opened};
use crate::shown::ShownReply;
use lg_base::NoMemory;
use lg_edit::Edit;
use lg_gram::Place;
use lg_script::{Command, place_laws};
use std::alloc::Global;

/// Whether an answer holds, and what is held after it.
#[derive(Drop)]
pub(crate) enum Verdict<'a> {
    Wrong,
    Right(Option<Going<'a>>),
}

/// Checks the answer to the command at a place. One dictionary is brought up to the versions that tested edits, the other to those of
/// listings.
pub(crate) fn verdict_of<'a>(
    alloc: Global,
    basis: &Basis,
    edits: &mut Dated,
    lists: &mut Dated,
    held: Option<Going<'a>>,
    place: Place,
    command: &'a Command,
    reply: &ShownReply,
) -> Result<Verdict<'a>, NoMemory>
    requires usable { IsUsable (basis_in basis.now) }
    requires edits { IsDated (basis_in basis.now) edits.old }
    requires lists { IsDated (basis_in basis.now) lists.old }
    requires command { command_at (basis_in basis.now).scripts place ≡ Some (command_view command.now) }
    requires form { IsReplyInForm (kind_of (command_view command.now)) (reply_of reply.now) }
    requires kept { (h : Option Held) × IsKept lists.old.version h held }
    requires edits_time { Rises edits.old.version (length (basis_in basis.now).journal) (command_view command.now) (reply_of reply.now) }
    requires lists_time { Rises lists.old.version (length (basis_in basis.now).journal) (command_view command.now) (reply_of reply.now) }
    ensures comes { (h : Option Held) → IsKept lists.old.version h held.entry → IfOk result (ComesTo (basis_in basis.now) place h (command_view command.now) (reply_of reply.now) lists.new.version) }
    ensures edits { OnOk result (IsDated (basis_in basis.now) edits.new) }
    ensures lists { OnOk result (IsDated (basis_in basis.now) lists.new) }
    ensures edits_low { (named : ℕ) → edits.old.version ≤ named → Rises named (length (basis_in basis.now).journal) (command_view command.now) (reply_of reply.now)
        → OnOk result (edits.new.version ≤ named_after named (command_view command.now) (reply_of reply.now)) }
    ensures lists_low { (named : ℕ) → lists.old.version ≤ named → Rises named (length (basis_in basis.now).journal) (command_view command.now) (reply_of reply.now)
        → OnOk result (lists.new.version ≤ named_after named (command_view command.now) (reply_of reply.now)) }
{
    place_laws();
    match command {
        Command::Parse(text) => opened(alloc, basis, lists, text, 1, reply),
        Command::List(first, _, text) => opened(alloc, basis, lists, text, *first, reply),
        Command::More => gone_on(alloc, basis, lists, held, reply),
        Command::Edit(edit) => edited(alloc, basis, edits, held, place, edit, reply),
        Command::Version => Ok(told(held, reply)),
    }
}

// Checks the answer to an edit. A listing that is held stays so.
fn edited<'a>(
    alloc: Global,
    basis: &Basis,
    dated: &mut Dated,
    held: Option<Going<'a>>,
    place: Place,
    edit: &Edit,
    reply: &ShownReply,
) -> Result<Verdict<'a>, NoMemory>
    requires usable { IsUsable (basis_in basis.now) }
    requires dated { IsDated (basis_in basis.now) dated.old }
    requires bounds { IsEditInBounds (edit_view edit.now) }
    requires time { IsAhead dated.old.version (length (basis_in basis.now).journal) (reply_of reply.now) }
    ensures comes { (h : Option Held) (version : ℕ) → IsKept version h held.entry → IfOk result (ComesTo (basis_in basis.now) place h (makes (edit_view edit.now)) (reply_of reply.now) version) }
    ensures dated { OnOk result (IsDated (basis_in basis.now) dated.new) }
    ensures within { OnOk result (dated.new.version ≤ reply_version (outline (reply_of reply.now))) }
{
    let holds = edit_holds(alloc, basis, dated, place, edit, reply)?;
    if holds {
        return Ok(Verdict::Right(held));
    }
    Ok(Verdict::Wrong)
}

// Checks the answer to `version`.
fn told<'a>(held: Option<Going<'a>>, reply: &ShownReply) -> Verdict<'a>
    ensures { (basis : SeenBasis) (p : SeenPlace) (h : Option Held) (version : ℕ) → IsKept version h held.entry → ComesTo basis p h asks (reply_of reply.now) version result }
{
    match reply {
        ShownReply::At { .. } => Verdict::Right(held),
        _ => Verdict::Wrong,
    }
}
