//! The text of the journal.
ghost use Rattle.std.specs.Prelude.{◌≡◌, ◌++◌, OnOk, IfOk};
ghost use Rattle.lg_text.specs.Replies.{edit_line, journal_text};

use crate::piece::{Piece, write_line};
use lg_base::NoMemory;
use lg_gram::Place;
use std::alloc::Global;

/// The text of the journal of edits: the line `journal N`, a line `edit V S.C` for each edit that was published, in
/// order, and the line `done`. N is how many they are, V the version that the edit made, counted from 1, and S.C the
/// session and the number of its command. There is one space between the parts of a line, and a line feed at its end. The
/// only error is running out of memory.
pub fn journal_text(alloc: Global, journal: &[Place]) -> Result<Vec<u8>, NoMemory>
    ensures { IfOk result (λ bytes. bytes.items ≡ journal_text journal.now) }
{
    let mut out = Vec::new(alloc);
    write_line(&mut out, b"journal", &[Piece::Number(journal.len() as u64)])?;
    for (earlier, place) in journal.iter().enumerate() {
        write_edit(&mut out, earlier as u64 + 1, *place)?;
    }
    write_line(&mut out, b"done", &[])?;
    Ok(out)
}

fn write_edit(out: &mut Vec<u8>, version: u64, place: Place) -> Result<(), NoMemory>
    ensures { OnOk result (out.new.items ≡ out.old.items ++ edit_line (version, place)) }
{
    write_line(out, b"edit", &[Piece::Number(version), Piece::Place(place)])
}
