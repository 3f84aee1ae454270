//! The edits of a session.
ghost use Rattle.std.specs.Prelude.{◌≡◌, ℕ, List, [], true, false, eqb, length, IfOk, slice_index_or};
ghost use Rattle.lg_gram.specs.declared.reply.Reply.TheVariants.{Refused};
ghost use Rattle.std.specs.List.{list_any};
ghost use Rattle.lg_gram.specs.EntryViews.{entry_view};
ghost use Rattle.lg_gram.specs.Filled.{macro_names};
ghost use Rattle.lg_edit.specs.Edits.{edit_view, DefinesAsItMay, IsEditInBounds};
ghost use Rattle.lg_log.specs.Codes.{is_code, is_of};
ghost use Rattle.lg_script.specs.EditNumbers.{edit_counts};
ghost use Rattle.lg_script.specs.Histories.{names_in, unknown_name as name_of};
ghost use Rattle.lg_script.specs.Codes.{AreScripts};
ghost use Rattle.lg_session.specs.Learning.{IsEdited};
ghost use Rattle.lg_script.specs.Commands.{script_views};

use crate::learning::{MORE_THAN_ALL, catch_up, learn};
use lg_base::{NoMemory, Text};
use lg_dict::View;
use lg_edit::{Edit, apply, check};
use lg_gram::{EditRefusal, RawEntry, Reply};
use lg_log::{Log, Pass};
use lg_script::Scripts;
use std::alloc::Global;

/// Publishes an edit that the dictionary accepts as it is at its place in the history, or tells why it is refused at the end of
/// the history. Where another edit came first, that one is learned, and the test is made again. The only error is running out of
/// memory.
pub(crate) fn publish(
    alloc: Global,
    scripts: &Scripts,
    log: &Log,
    pass: &mut Pass,
    view: &mut View,
    code: u64,
    edit: &Edit,
) -> Result<Reply, NoMemory>
    requires scripts { AreScripts (script_views scripts.now) }
    requires counts { log.now.counts ≡ edit_counts (script_views scripts.now) }
    requires log { pass.old.log ≡ log.now }
    requires code { is_code (edit_counts (script_views scripts.now)) code ≡ true }
    requires carried { is_of pass.old.sessions code ≡ true }
    requires fresh { list_any (eqb code) pass.old.seen ≡ false }
    requires items { DefinesAsItMay (edit_view edit.now) }
    requires bounds { IsEditInBounds (edit_view edit.now) }
    ensures { IfOk result (IsEdited (script_views scripts.now) code (edit_view edit.now) (pass.old, view.old) (pass.new, view.new)) }
{
    for _ in 0..MORE_THAN_ALL {
        catch_up(alloc, scripts, log, pass, view)?;
        if let Err(cause) = check(view, edit) {
            return refuse(alloc, pass, edit, cause);
        }
        let Some(other) = pass.publish(log, code) else {
            apply(alloc, view, edit)?;
            let version = pass.seen().len() as u64;
            return Ok(Reply::Published { version });
        };
        learn(alloc, scripts, view, other)?;
    }
    unreachable!()
}

// The answer to an edit that is refused.
fn refuse(alloc: Global, pass: &Pass, edit: &Edit, cause: EditRefusal) -> Result<Reply, NoMemory>
    ensures { IfOk result (λ reply. (name : List ℕ) × (reply ≡ Refused (length pass.now.seen) cause name) × (name ≡ name_of (edit_view edit.now) cause)) }
{
    let name = unknown_name(alloc, edit, cause)?;
    Ok(Reply::Refused {
        version: pass.seen().len() as u64,
        cause,
        name,
    })
}

// The name of the macro that is not known, or nothing where the cause is another.
fn unknown_name(alloc: Global, edit: &Edit, cause: EditRefusal) -> Result<Text, NoMemory>
    ensures { IfOk result (λ name. name ≡ name_of (edit_view edit.now) cause) }
{
    match cause {
        EditRefusal::UnknownMacro(number) => macro_name(alloc, edit, number),
        _ => Text::of(alloc, b""),
    }
}

// The name of the reference of that number, or nothing past the last.
fn macro_name(alloc: Global, edit: &Edit, number: u32) -> Result<Text, NoMemory>
    ensures { IfOk result (λ name. name ≡ slice_index_or (names_in (edit_view edit.now)) number []) }
{
    match edit {
        Edit::Put(entry) => name_in(alloc, entry, number),
        Edit::Macro(entry) => name_in(alloc, entry, number),
        Edit::Del(_) => Text::of(alloc, b""),
    }
}

fn name_in(alloc: Global, entry: &RawEntry, number: u32) -> Result<Text, NoMemory>
    ensures { IfOk result (λ name. name ≡ slice_index_or (macro_names (entry_view entry.now).expr) number []) }
{
    match entry.macro_name(number) {
        Some(name) => Text::of(alloc, name.bytes()),
        None => Text::of(alloc, b""),
    }
}
