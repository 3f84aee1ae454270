//! Answers to edits.

ghost use Rattle.std.specs.Prelude.{◌≡◌, ◌↔◌, ◌≤◌, ◌<◌, length, Some, IfOk, OnOk, IsTrue};
ghost use Rattle.lg_edit.specs.Edits.{edit_view, IsEditInBounds};
ghost use Rattle.lg_script.specs.Histories.{numbered, IsPublishedAt, reply_version};
ghost use Rattle.lg_audit.specs.Answers.{reply_of};
ghost use Rattle.lg_audit.specs.Replies.{outline};
ghost use Rattle.lg_audit.specs.Grounds.{basis_in, IsUsable, IsDated};
ghost use Rattle.lg_audit.specs.Rising.{IsAhead};
ghost use Rattle.lg_audit.specs.Tests.{EditHolds, TellsRefusal};

use crate::basis::Basis;
use crate::cause::tells_cause;
use crate::dated::{Dated, bring};
use crate::shown::ShownReply;
use lg_base::NoMemory;
use lg_edit::{Edit, check};
use lg_gram::Place;
use std::alloc::Global;

/// Whether the answer to the edit at this place holds. The dictionary is brought up to the version that tested the edit.
pub(crate) fn edit_holds(
    alloc: Global,
    basis: &Basis,
    dated: &mut Dated,
    place: Place,
    edit: &Edit,
    reply: &ShownReply,
) -> Result<bool, NoMemory>
    requires usable { IsUsable (basis_in basis.now) }
    requires dated { IsDated (basis_in basis.now) dated.old }
    requires bounds { IsEditInBounds (edit_view edit.now) }
    requires time { IsAhead dated.old.version (length (basis_in basis.now).journal) (reply_of reply.now) }
    ensures holds { IfOk result (λ holds. IsTrue holds ↔ EditHolds (basis_in basis.now) place (edit_view edit.now) (reply_of reply.now)) }
    ensures dated { OnOk result (IsDated (basis_in basis.now) dated.new) }
    ensures within { OnOk result (dated.new.version ≤ reply_version (outline (reply_of reply.now))) }
{
    match reply {
        ShownReply::Published { version } => {
            published_holds(alloc, basis, dated, place, edit, *version)
        }
        ShownReply::Refused { version, cause } => {
            refused_holds(alloc, basis, dated, edit, *version, cause)
        }
        _ => Ok(false),
    }
}

// Whether the edit at this place made this version.
fn published_holds(
    alloc: Global,
    basis: &Basis,
    dated: &mut Dated,
    place: Place,
    edit: &Edit,
    version: u64,
) -> Result<bool, NoMemory>
    requires usable { IsUsable (basis_in basis.now) }
    requires dated { IsDated (basis_in basis.now) dated.old }
    requires bounds { IsEditInBounds (edit_view edit.now) }
    requires later { dated.old.version < version }
    requires there { version ≤ length (basis_in basis.now).journal }
    ensures holds { IfOk result (λ holds. IsTrue holds ↔ IsPublishedAt (basis_in basis.now).scripts (basis_in basis.now).base (basis_in basis.now).journal place (edit_view edit.now) version) }
    ensures dated { OnOk result (IsDated (basis_in basis.now) dated.new) }
    ensures within { OnOk result (dated.new.version ≤ version) }
{
    bring(alloc, basis, dated, version - 1)?;
    if !stands(basis.journal, version, place) {
        return Ok(false);
    }
    Ok(check(&dated.view, edit).is_ok())
}

// Whether the edit at this place stands in the journal as the one that made the version.
fn stands(journal: &[Place], version: u64, place: Place) -> bool
    requires least { 1 ≤ version }
    requires there { version ≤ length journal.now }
    ensures { IsTrue result ↔ (numbered journal.now version ≡ Some place) }
{
    journal[version as usize - 1] == place
}

// Whether this version refuses the edit, and the text tells the cause.
fn refused_holds(
    alloc: Global,
    basis: &Basis,
    dated: &mut Dated,
    edit: &Edit,
    version: u64,
    text: &[u8],
) -> Result<bool, NoMemory>
    requires usable { IsUsable (basis_in basis.now) }
    requires dated { IsDated (basis_in basis.now) dated.old }
    requires bounds { IsEditInBounds (edit_view edit.now) }
    requires later { dated.old.version ≤ version }
    requires there { version ≤ length (basis_in basis.now).journal }
    ensures holds { IfOk result (λ holds. IsTrue holds ↔ TellsRefusal (basis_in basis.now) (edit_view edit.now) version text.now) }
    ensures dated { OnOk result (IsDated (basis_in basis.now) dated.new) }
    ensures within { OnOk result (dated.new.version ≤ version) }
{
    bring(alloc, basis, dated, version)?;
    match check(&dated.view, edit) {
        Ok(()) => Ok(false),
        Err(cause) => Ok(tells_cause(text, edit, cause)),
    }
}
