//! A document, read back.

ghost use Rattle.std.specs.Prelude.{IfOk, MatchOption};
ghost use Rattle.lg_script.specs.Commands.{script_views};
ghost use Rattle.lg_audit.specs.Documents.{ShownDocument, Shows};

use crate::journal::read_journal;
use crate::runs::unread;
use crate::session::read_sessions;
use crate::shown::ShownReply;
use lg_base::NoMemory;
use lg_gram::Place;
use lg_script::Scripts;
use std::alloc::Global;
use std::marker::Model;

/// What a document shows: the answers of each session, the journal, and the lines of usage, which are not read. It borrows the bytes.
#[derive(Debug, Drop)]
pub struct Document<'a> {
    pub replies: Vec<Vec<ShownReply<'a>>>,
    pub journal: Vec<Place>,
    pub usage: Vec<&'a [u8]>,
}

impl<'a> Model for Document<'a> {
    ghost use Rattle.lg_audit.specs.Answers.{replies_of};
    ghost use Rattle.lg_audit.specs.Documents.{ShownDocument as Seen};
    ghost use Rattle.lg_audit.specs.Views.{texts};

    ghost Value = { Seen };

    ghost view = { λ d. record { replies = replies_of d.replies.items; journal = d.journal.items; usage = texts d.usage.items } };
}

/// What the document of these scripts shows. None where the bytes are no such document. The time and the memory grow with the bytes.
pub fn read_document<'a>(
    alloc: Global,
    scripts: &Scripts,
    doc: &'a [u8],
) -> Result<Option<Document<'a>>, NoMemory>
    ensures { IfOk result (λ r. MatchOption r
        ((d : ShownDocument) → Shows (script_views scripts.now) doc.now d → ⊥)
        (λ document. Shows (script_views scripts.now) doc.now document)) }
{
    let Some((replies, behind_replies)) = read_sessions(alloc, scripts, doc)? else {
        return Ok(None);
    };
    let Some((journal, behind_journal)) = read_journal(alloc, behind_replies)? else {
        return Ok(None);
    };
    let (usage, last) = unread(alloc, behind_journal, b"usage ")?;
    if last == b"done\n".as_slice() {
        return Ok(Some(Document {
            replies,
            journal,
            usage,
        }));
    }
    Ok(None)
}
