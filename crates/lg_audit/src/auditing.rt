//! The audit of a document.

ghost use Rattle.std.specs.Prelude.{◌≡◌, ◌<◌, ◌^◌, length, IfOk, MatchOption};
ghost use Rattle.std.specs.List.{sum_by};
ghost use Rattle.lg_script.specs.Codes.{AreScripts};
ghost use Rattle.lg_script.specs.Commands.{script_views};
ghost use Rattle.lg_audit.specs.Answers.{AreRepliesTo, replies_of};
ghost use Rattle.lg_audit.specs.Audits.{IsAudit, shown_by};
ghost use Rattle.lg_audit.specs.Documents.{AreRepliesInForm};
ghost use Rattle.lg_audit.specs.Fronts.{AreFormed};
ghost use Rattle.lg_audit.specs.Grounds.{basis_in, IsUsable};
ghost use Rattle.lg_audit.specs.Judged.{IsJudged};
ghost use Rattle.lg_audit.specs.Walks.{AllHold, IsFirstPlace};

use crate::answer::AuditAnswer;
use crate::basis::Basis;
use crate::document::{Document, read_document};
use crate::published::journal_holds;
use crate::shown::ShownReply;
use crate::tally::shown_in_all;
use crate::walk::first_wrong_of;
use lg_base::NoMemory;
use lg_dict::Dict;
use lg_gram::Place;
use lg_knowread::Knowledge;
use lg_script::Scripts;
use std::alloc::Global;

/// Whether the bytes are a document of these scripts by the dictionary and the knowledge, and what it shows is right: the journal, and
/// each answer by the version that it names. No sentence is parsed: each linkage is checked as it is shown.
///
/// The scripts are as `lg_session::run_sessions` asks for them, and there are fewer than 2^32 rules. The time and the memory grow with
/// the bytes, and with the edits of the journal once more for each session. The only error is running out of memory.
pub fn audit(
    alloc: Global,
    base: &Dict,
    know: &Knowledge,
    scripts: &Scripts,
    doc: &[u8],
) -> Result<AuditAnswer, NoMemory>
    requires scripts { AreScripts (script_views scripts.now) }
    requires few { length know.now.rules < 2 ^ 32 }
    ensures { IfOk result (IsAudit (record { base = base.now; know = know.now; scripts = script_views scripts.now }) doc.now) }
{
    let Some(document) = read_document(alloc, scripts, doc)? else {
        return Ok(AuditAnswer::Shape);
    };
    let Document {
        replies,
        journal,
        ..
    } = document;
    let basis = Basis {
        base,
        know,
        scripts,
        journal: journal.as_slice(),
    };
    judged(alloc, &basis, replies.as_slice())
}

// What comes of the journal and of the answers.
fn judged(
    alloc: Global,
    basis: &Basis,
    replies: &[Vec<ShownReply>],
) -> Result<AuditAnswer, NoMemory>
    requires usable { IsUsable (basis_in basis.now) }
    requires form { AreRepliesInForm (basis_in basis.now).scripts (replies_of replies.now) }
    requires few { sum_by (sum_by shown_by) (replies_of replies.now) < 2 ^ 64 }
    ensures { IfOk result (IsJudged (basis_in basis.now) (replies_of replies.now)) }
{
    if !journal_holds(alloc, basis.scripts, basis.journal, replies)? {
        return Ok(AuditAnswer::Journal);
    }
    match first_wrong(alloc, basis, replies)? {
        Some(place) => Ok(AuditAnswer::Reply(place)),
        None => Ok(AuditAnswer::Yes {
            shown: shown_in_all(replies),
        }),
    }
}

// The place of the first answer that does not hold, by session and then by command. None where all hold.
fn first_wrong(
    alloc: Global,
    basis: &Basis,
    replies: &[Vec<ShownReply>],
) -> Result<Option<Place>, NoMemory>
    requires usable { IsUsable (basis_in basis.now) }
    requires form { AreFormed AreRepliesTo (basis_in basis.now).scripts (replies_of replies.now) }
    ensures { IfOk result (λ r. MatchOption r
        (AllHold (basis_in basis.now) (replies_of replies.now) (length replies.now))
        (IsFirstPlace (basis_in basis.now) (replies_of replies.now))) }
{
    for (index, commands) in basis.scripts.items().iter().enumerate() {
        let session = index as u32 + 1;
        let answers = replies[index].as_slice();
        let wrong = first_wrong_of(alloc, basis, session, commands.items(), answers)?;
        if let Some(command) = wrong {
            return Ok(Some(Place { session, command }));
        }
    }
    Ok(None)
}
