//! The answers of a session, one after another.

ghost use Rattle.std.specs.Prelude.{◌≡◌, ◌≤◌, ℕ, length, map, Option, Some, IfOk, MatchOption};
ghost use Rattle.lg_script.specs.Commands.{command_view};
ghost use Rattle.lg_script.specs.Histories.{command_at, numbered};
ghost use Rattle.lg_script.specs.Kinds.{kind_of};
ghost use Rattle.lg_audit.specs.Answers.{reply_of, AreRepliesTo};
ghost use Rattle.lg_audit.specs.Documents.{IsReplyInForm};
ghost use Rattle.lg_audit.specs.Replies.{Held, ReplyHolds};
ghost use Rattle.lg_audit.specs.Grounds.{basis_in, IsUsable, IsDated};
ghost use Rattle.lg_audit.specs.Rising.{Rises};
ghost use Rattle.lg_audit.specs.Walks.{IsKept, IsStepped, HoldSome, IsFirstWrong};

use crate::basis::Basis;
use crate::dated::Dated;
use crate::listed::Going;
use crate::shown::ShownReply;
use crate::verdict::{Verdict, verdict_of};
use crate::versions::{is_in_time, newly_named};
use lg_base::NoMemory;
use lg_dict::View;
use lg_gram::Place;
use lg_script::Command;
use std::alloc::Global;

/// What is kept between two answers of a session, beside its dictionaries: the version that was named last, and the listing that is held.
#[derive(Drop)]
pub(crate) struct Walked<'a> {
    pub(crate) named: u64,
    pub(crate) held: Option<Going<'a>>,
}

/// The number of the first answer of a session that does not hold. None where all hold. Each answer is looked at once.
pub(crate) fn first_wrong_of(
    alloc: Global,
    basis: &Basis,
    session: u32,
    commands: &[Command],
    replies: &[ShownReply],
) -> Result<Option<u32>, NoMemory>
    requires usable { IsUsable (basis_in basis.now) }
    requires script { numbered (basis_in basis.now).scripts session ≡ Some (map command_view commands.now) }
    requires form { AreRepliesTo (map command_view commands.now) (map reply_of replies.now) }
    ensures { IfOk result (λ r. MatchOption r
        (HoldSome (basis_in basis.now) session (map command_view commands.now) (map reply_of replies.now) (length commands.now))
        (IsFirstWrong (basis_in basis.now) session (map command_view commands.now) (map reply_of replies.now))) }
{
    let mut edits = Dated {
        view: View::of(alloc, basis.base),
        version: 0,
    };
    let mut lists = Dated {
        view: View::of(alloc, basis.base),
        version: 0,
    };
    walk(
        alloc, basis, &mut edits, &mut lists, session, commands, replies,
    )
}

// The same by two dictionaries at the start.
fn walk(
    alloc: Global,
    basis: &Basis,
    edits: &mut Dated,
    lists: &mut Dated,
    session: u32,
    commands: &[Command],
    replies: &[ShownReply],
) -> Result<Option<u32>, NoMemory>
    requires usable { IsUsable (basis_in basis.now) }
    requires script { numbered (basis_in basis.now).scripts session ≡ Some (map command_view commands.now) }
    requires form { AreRepliesTo (map command_view commands.now) (map reply_of replies.now) }
    requires edits { IsDated (basis_in basis.now) edits.old × (edits.old.version ≡ 0) }
    requires lists { IsDated (basis_in basis.now) lists.old × (lists.old.version ≡ 0) }
    ensures { IfOk result (λ r. MatchOption r
        (HoldSome (basis_in basis.now) session (map command_view commands.now) (map reply_of replies.now) (length commands.now))
        (IsFirstWrong (basis_in basis.now) session (map command_view commands.now) (map reply_of replies.now))) }
{
    let mut walked = Walked {
        named: 0,
        held: None,
    };
    for (index, command) in commands.iter().enumerate() {
        let number = index as u32 + 1;
        let place = Place {
            session,
            command: number,
        };
        let reply = &replies[index];
        match step(alloc, basis, edits, lists, walked, place, command, reply)? {
            Some(next) => walked = next,
            None => return Ok(Some(number)),
        }
    }
    Ok(None)
}

// Checks the next answer. None where it does not hold.
fn step<'a>(
    alloc: Global,
    basis: &Basis,
    edits: &mut Dated,
    lists: &mut Dated,
    walked: Walked<'a>,
    place: Place,
    command: &'a Command,
    reply: &ShownReply,
) -> Result<Option<Walked<'a>>, NoMemory>
    requires usable { IsUsable (basis_in basis.now) }
    requires edits { IsDated (basis_in basis.now) edits.old }
    requires lists { IsDated (basis_in basis.now) lists.old }
    requires edits_low { edits.old.version ≤ walked.named }
    requires lists_low { lists.old.version ≤ walked.named }
    requires command { command_at (basis_in basis.now).scripts place ≡ Some (command_view command.now) }
    requires form { IsReplyInForm (kind_of (command_view command.now)) (reply_of reply.now) }
    requires kept { (h : Option Held) × IsKept lists.old.version h walked.held }
    ensures { (h : Option Held) → IsKept lists.old.version h walked.entry.held → IfOk result (λ r. MatchOption r
        ((then : Option Held) → Rises walked.entry.named (length (basis_in basis.now).journal) (command_view command.now) (reply_of reply.now)
        → ReplyHolds (basis_in basis.now) place h (command_view command.now) (reply_of reply.now) then → ⊥)
        (IsStepped (basis_in basis.now) place walked.entry.named h (command_view command.now) (reply_of reply.now) edits.new lists.new)) }
{
    let newest = basis.journal.len() as u64;
    if !is_in_time(walked.named, newest, command, reply) {
        return Ok(None);
    }
    let named = newly_named(walked.named, command, reply);
    let comes = verdict_of(
        alloc,
        basis,
        edits,
        lists,
        walked.held,
        place,
        command,
        reply,
    )?;
    match comes {
        Verdict::Right(held) => Ok(Some(Walked { named, held })),
        Verdict::Wrong => Ok(None),
    }
}
