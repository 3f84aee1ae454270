//! The line of an audit.
ghost use Rattle.std.specs.Prelude.{◌≡◌, ◌<◌, ◌^◌, length, IfOk};
ghost use Rattle.lg_script.specs.Codes.{AreScripts};
ghost use Rattle.lg_script.specs.Commands.{script_views};
ghost use Rattle.lg_audit.specs.declared.answer.AuditAnswer.TheVariants.{Yes, Reply};
ghost use Rattle.lg_run.specs.Audits.{audit_line, IsAuditLine};

use crate::line::{Piece, joined};
use lg_audit::{AuditAnswer, audit};
use lg_base::NoMemory;
use lg_dict::Dict;
use lg_gram::Place;
use lg_knowread::Knowledge;
use lg_script::Scripts;
use std::alloc::Global;

/// The line that says whether the document is one of these scripts, and right.
pub(crate) fn audit_text(
    alloc: Global,
    dict: &Dict,
    know: &Knowledge,
    scripts: &Scripts,
    document: &[u8],
) -> Result<Vec<u8>, NoMemory>
    requires few { length know.now.rules < 2 ^ 32 }
    requires scripts { AreScripts (script_views scripts.now) }
    ensures { IfOk result (λ text. IsAuditLine (record { base = dict.now; know = know.now; scripts = script_views scripts.now }) document.now text.items) }
{
    let answer = audit(alloc, dict, know, scripts, document)?;
    answer_line(alloc, answer)
}

// The line of an answer.
fn answer_line(alloc: Global, answer: AuditAnswer) -> Result<Vec<u8>, NoMemory>
    ensures { IfOk result (λ line. line.items ≡ audit_line answer) }
{
    match answer {
        AuditAnswer::Yes { shown } => right_line(alloc, shown),
        AuditAnswer::Shape => joined(alloc, &[Piece::Text(b"audit no shape\n")]),
        AuditAnswer::Journal => joined(alloc, &[Piece::Text(b"audit no journal\n")]),
        AuditAnswer::Reply(place) => wrong_line(alloc, place),
    }
}

// The line of a document that is right and shows so many linkages.
fn right_line(alloc: Global, shown: u64) -> Result<Vec<u8>, NoMemory>
    ensures { IfOk result (λ line. line.items ≡ audit_line (Yes shown)) }
{
    let pieces = [
        Piece::Text(b"audit yes "),
        Piece::Number(shown),
        Piece::Text(b"\n"),
    ];
    joined(alloc, &pieces)
}

// The line of a document of which the answer at this place is the first that is wrong.
fn wrong_line(alloc: Global, place: Place) -> Result<Vec<u8>, NoMemory>
    ensures { IfOk result (λ line. line.items ≡ audit_line (Reply place)) }
{
    let pieces = [
        Piece::Text(b"audit no at "),
        Piece::Number(u64::from(place.session)),
        Piece::Text(b"."),
        Piece::Number(u64::from(place.command)),
        Piece::Text(b"\n"),
    ];
    joined(alloc, &pieces)
}
