//! Which edits are accepted.
ghost use Rattle.std.specs.Prelude.{◌≡◌};
ghost use Rattle.std.specs.Option.{option_or};
ghost use Rattle.std.specs.Result.{result_err};
ghost use Rattle.lg_gram.specs.EntryBounds.{IsEntryInBounds};
ghost use Rattle.lg_gram.specs.EntryViews.{entry_view};
ghost use Rattle.lg_edit.specs.Edits.{IsEditInBounds, edit_view, accept, accept_entry, too_deep, too_large, refuse_excess};

use crate::edit::Edit;
use lg_dict::View;
use lg_gram::macros::{LEVEL, filled_level, first_unknown};
use lg_gram::{EditRefusal, Excess, RawEntry, first_excess};

/// Tests an edit against the dictionary as it is now. The error is the first cause for which it is refused, in the order
/// of `EditRefusal`, where the expression has the macros of the dictionary put in. A word can be removed only where it is
/// itself a word of the dictionary; that it is a stem does not count. No memory.
///
/// The time is linear in the expression as it is written; a reference to a macro takes no longer than its look-up.
pub fn check(view: &View, edit: &Edit) -> Result<(), EditRefusal>
    requires { IsEditInBounds (edit_view edit.now) }
    ensures { result_err result ≡ accept view.now (edit_view edit.now) }
{
    match edit {
        Edit::Put(entry) => check_entry(view, entry),
        Edit::Macro(entry) => check_entry(view, entry),
        Edit::Del(word) => match view.get(word.bytes()) {
            Some(_) => Ok(()),
            None => Err(EditRefusal::NoSuchWord),
        },
    }
}

fn check_entry(view: &View, entry: &RawEntry) -> Result<(), EditRefusal>
    requires { IsEntryInBounds (entry_view entry.now) }
    ensures { result_err result ≡ accept_entry view.now (entry_view entry.now) }
{
    match first_unknown(&entry.expr, view) {
        Some(number) => Err(EditRefusal::UnknownMacro(number)),
        None => check_size(view, entry),
    }
}

fn check_size(view: &View, entry: &RawEntry) -> Result<(), EditRefusal>
    requires { IsEntryInBounds (entry_view entry.now) }
    ensures { result_err result ≡ option_or (too_deep view.now (entry_view entry.now)) (too_large view.now (entry_view entry.now)) }
{
    view.macros_fit();
    let level = filled_level(entry.level, &entry.expr, view);
    if level > LEVEL {
        return Err(EditRefusal::TooDeep(level));
    }
    check_measures(view, entry)
}

fn check_measures(view: &View, entry: &RawEntry) -> Result<(), EditRefusal>
    ensures { result_err result ≡ too_large view.now (entry_view entry.now) }
{
    match first_excess(&entry.expr, view) {
        None => Ok(()),
        Some(excess) => Err(refusal_of(excess)),
    }
}

fn refusal_of(excess: Excess) -> EditRefusal
    ensures { result ≡ refuse_excess excess }
{
    match excess {
        Excess::Nodes(count) => EditRefusal::TooManyNodes(count),
        Excess::Choices(count) => EditRefusal::TooManyChoices(count),
        Excess::Side(count) => EditRefusal::SideTooLong(count),
    }
}
