ghost use Rattle.std.specs.Prelude.{◌≡◌, ◌≤◌, ℕ, List, length, Ok};
ghost use Rattle.lg_dictread.specs.Limits.{FILE};
ghost use Rattle.lg_script.specs.Bounds.{AreInBounds};
ghost use Rattle.lg_script.specs.Codes.{EditsHavePlaces, CommandsKeepBounds};
ghost use Rattle.lg_script.specs.Commands.{CommandView};
ghost use Rattle.lg_script.specs.Scripts.{Outcome, ScriptIs};
ghost use Rattle.lg_script.specs.SingleLines.{ScriptsHaveSingleLines};

use lg_dictread::{entry_texts_keep_bounds, exactly_one_entry_text};
use lg_lex::{bytes_are_utf8_or_at_fault, parts_are_utf8};
use lg_log::code_laws;

/// A script stands for one outcome: its commands, or its first fault.
///
/// The function does nothing: a caller whose proof needs the fact calls it.
pub fn exactly_one_script()
    ensures some { (bytes : List ℕ) → (x : Outcome) × ScriptIs bytes x }
    ensures one { (bytes : List ℕ) (x y : Outcome) → ScriptIs bytes x → ScriptIs bytes y → x ≡ y }
{
    bytes_are_utf8_or_at_fault();
    exactly_one_entry_text();
}

/// The commands of a script of at most 67,108,864 bytes are within their bounds: its sentences are UTF-8, its numbers lie
/// in their range, and its edits are as `lg_edit::check` asks.
///
/// The function does nothing: a caller whose proof needs the fact calls it.
pub fn scripts_keep_bounds()
    ensures { (bytes : List ℕ) (commands : List CommandView) → length bytes ≤ FILE → ScriptIs bytes (Ok commands) → AreInBounds commands }
{
    entry_texts_keep_bounds();
    parts_are_utf8();
}

/// No text that a command says has a line feed: its sentence, what its edit defines, the connectors of the edit's expression and the
/// macros that it names, and the word that it removes.
///
/// The function does nothing: a caller whose proof needs the fact calls it.
pub fn scripts_have_single_lines()
    ensures { ScriptsHaveSingleLines }
{}

/// What holds of places in scripts: each edit has a code, which names its place, and each command keeps its bounds.
///
/// The function does nothing: a caller whose proof needs the facts calls it.
pub fn place_laws()
    ensures edits { EditsHavePlaces }
    ensures bounds { CommandsKeepBounds }
{
    code_laws();
}
