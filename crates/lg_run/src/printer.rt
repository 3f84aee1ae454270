//! What a run keeps of the answers of its sessions.
ghost use Rattle.std.specs.Prelude.{◌≡◌, ◌<◌, ◌+◌, ◌^◌, ◌++◌, ◌∷◌, [], ℕ, List, true, map, OnOk};
ghost use Rattle.lg_gram.specs.Linkages.{Linkage as SeenLinkage};
ghost use Rattle.lg_text.specs.Replies.{IsPrintableReply};
ghost use Rattle.lg_run.specs.Counted.{IsShare};
ghost use Rattle.lg_run.specs.Documents.{first_linkage};
ghost use Rattle.lg_run.specs.Lines.{joined};
ghost use Rattle.lg_run.specs.Printers.{texts_of};

use crate::usage::add_first;
use lg_base::NoMemory;
use lg_gram::{CommandKind, Place, Reply};
use lg_script::Command;
use lg_session::Keeper;
use lg_text::{Look, reply_text};
use lg_usage::{Usage, shares_agree};
use std::alloc::Global;

/// Prints the answers of sessions when they come, and counts their first linkages, if that is asked for.
#[derive(Clone, Copy, Debug)]
pub(crate) struct Printer {
    pub(crate) look: Look,
    pub(crate) usage: bool,
}

/// The texts of a session's answers, a piece for each, and what their first linkages use, if that is asked for.
#[derive(Drop)]
pub struct PrintedSession {
    pub(crate) pieces: Vec<Vec<u8>>,
    pub(crate) share: Usage,
}

impl Keeper for Printer {
    ghost use Rattle.lg_run.specs.Printers.{MayBePrinted, IsPrinted};

    type Kept = PrintedSession;

    ghost takes = { λ printer command reply. MayBePrinted command reply };

    ghost keeps = { λ printer session commands replies printed. IsPrinted printer session commands replies printed };

    fn begin(&self, alloc: Global, _session: u32) -> Result<PrintedSession, NoMemory> {
        shares_agree();
        Ok(PrintedSession {
            pieces: Vec::new(alloc),
            share: Usage::new(alloc),
        })
    }

    fn keep(
        &self,
        alloc: Global,
        kept: PrintedSession,
        place: Place,
        command: &Command,
        reply: Reply,
    ) -> Result<PrintedSession, NoMemory> {
        let PrintedSession {
            mut pieces,
            mut share,
        } = kept;
        let text = reply_text(alloc, place, command.kind(), &reply, self.look)?;
        add_text(&mut pieces, text)?;
        count(self.usage, &mut share, command.kind(), &reply)?;
        Ok(PrintedSession { pieces, share })
    }
}

// Adds a text, as a piece of its own.
fn add_text(pieces: &mut Vec<Vec<u8>>, text: Vec<u8>) -> Result<(), NoMemory>
    ensures { OnOk result (joined (texts_of pieces.new.items) ≡ joined (texts_of pieces.old.items) ++ text.items) }
{
    pieces.push(text)?;
    Ok(())
}

// Counts the first linkage of an answer, if that is asked for.
fn count(asked: bool, share: &mut Usage, kind: CommandKind, reply: &Reply) -> Result<(), NoMemory>
    requires printable { IsPrintableReply reply.now }
    requires room { asked ≡ true → (n : ℕ) × (gs : List SeenLinkage) × (n < 2 ^ 32) × IsShare n gs share.old }
    ensures { OnOk result ((n : ℕ) (gs : List SeenLinkage) → asked ≡ true → IsShare n gs share.old → IsShare (n + 1) (gs ++ first_linkage kind reply.now) share.new) }
{
    if asked {
        add_first(share, kind, reply)?;
    }
    Ok(())
}
