//! Why an edit is refused, as it is printed.

ghost use Rattle.std.specs.Prelude.{◌≡◌, ◌↔◌, ◌++◌, [], codes, decimal, slice_index_or, IsTrue};
ghost use Rattle.lg_edit.specs.Edits.{edit_view};
ghost use Rattle.lg_gram.specs.EntryViews.{entry_view};
ghost use Rattle.lg_gram.specs.Filled.{macro_names};
ghost use Rattle.lg_script.specs.Histories.{names_in, unknown_name};
ghost use Rattle.lg_text.specs.Replies.{cause_pieces};
ghost use Rattle.lg_audit.specs.Lines.{line};

use crate::head::{count, small_count};
use crate::piece::behind;
use lg_edit::Edit;
use lg_gram::{EditRefusal, RawEntry};

/// Whether the text tells this cause, for which the edit is refused.
pub(crate) fn tells_cause(text: &[u8], edit: &Edit, cause: EditRefusal) -> bool
    ensures { IsTrue result ↔ (text.now ≡ line (cause_pieces cause (unknown_name (edit_view edit.now) cause))) }
{
    match cause {
        EditRefusal::UnknownMacro(number) => tells_macro(text, name_of(edit, number)),
        EditRefusal::TooDeep(level) => tells_small(text, b"too deep ", level),
        EditRefusal::TooManyNodes(nodes) => tells_count(text, b"too many nodes ", nodes),
        EditRefusal::TooManyChoices(choices) => tells_count(text, b"too many choices ", choices),
        EditRefusal::SideTooLong(connectors) => {
            tells_small(text, b"too many connectors on a side ", connectors)
        }
        EditRefusal::NoSuchWord => text == b"no such word".as_slice(),
    }
}

// Whether this number stands alone behind these bytes.
fn tells_count(text: &[u8], front: &[u8], number: u64) -> bool
    ensures { IsTrue result ↔ (text.now ≡ front.now ++ decimal number) }
{
    match count(text, front) {
        Some(found) => found == number,
        None => false,
    }
}

// The same with a number of 32 bits.
fn tells_small(text: &[u8], front: &[u8], number: u32) -> bool
    ensures { IsTrue result ↔ (text.now ≡ front.now ++ decimal number) }
{
    match small_count(text, front) {
        Some(found) => found == number,
        None => false,
    }
}

// Whether the text tells that this macro is not known.
fn tells_macro(text: &[u8], name: &[u8]) -> bool
    ensures { IsTrue result ↔ (text.now ≡ codes "unknown macro " ++ name.now) }
{
    match behind(text, b"unknown macro ") {
        Some(rest) => rest == name,
        None => false,
    }
}

// The name of the reference of that number, or nothing past the last.
fn name_of(edit: &Edit, number: u32) -> &[u8]
    ensures { result.now ≡ slice_index_or (names_in (edit_view edit.now)) number [] }
{
    match edit {
        Edit::Put(entry) => name_in(entry, number),
        Edit::Macro(entry) => name_in(entry, number),
        Edit::Del(_) => b"",
    }
}

fn name_in(entry: &RawEntry, number: u32) -> &[u8]
    ensures { result.now ≡ slice_index_or (macro_names (entry_view entry.now).expr) number [] }
{
    match entry.macro_name(number) {
        Some(name) => name.bytes(),
        None => b"",
    }
}
