//! Lists of commands.

ghost use Rattle.std.specs.Prelude.{◌≡◌, ◌+◌, ◌<◌, ◌≤◌, ◌^◌, true, Some, length, map, take, count_by, slice_get, IfOk, IfNone, IfSome};
ghost use Rattle.std.specs.Option.{option_map};
ghost use Rattle.lg_edit.specs.Edits.{EditView, edit_view, DefinesAsItMay, IsEditInBounds};
ghost use Rattle.lg_log.specs.Codes.{is_code};
ghost use Rattle.lg_script.specs.Codes.{AreScripts, place_of};
ghost use Rattle.lg_script.specs.Commands.{command_view, script_views, is_edit, makes};
ghost use Rattle.lg_script.specs.EditNumbers.{edit_numbers, edit_counts};
ghost use Rattle.lg_script.specs.Histories.{numbered, command_at};

use crate::command::Command;
use lg_base::NoMemory;
use lg_edit::Edit;
use lg_gram::Place;
use lg_log::{code_laws, index_of, session_of};
use std::alloc::Global;
use std::marker::Model;

/// The commands of a session, in their order, with the numbers of those that are edits. There are fewer than 2^32 commands.
///
/// Contracts see the list of commands.
#[derive(Debug, Drop)]
pub struct Commands {
    items: Vec<Command>,
    // The numbers of the edits, from 1.
    edits: Vec<u32>,
}

impl Model for Commands {
    ghost use Rattle.std.specs.Prelude.{◌≡◌, ◌<◌, ◌^◌, List, length, map};
    ghost use Rattle.std.specs.Coded.{codes};
    ghost use Rattle.lg_gram.specs.contracts.entry.RawExpr as raw;
    ghost use Rattle.lg_script.specs.declared.command.Command.{Command as Seen};
    ghost use Rattle.lg_script.specs.Commands.{command_view};
    ghost use Rattle.lg_script.specs.EditNumbers.{edit_numbers};

    ghost Value = { List Seen };

    ghost coded = { Prim.hlevel (codes, raw.the_row.coded) };

    ghost view = { λ t. t.items.items };

    ghost invariant = { λ t. (length t.items.items < 2 ^ 32) × (t.edits.items ≡ edit_numbers (map command_view t.items.items)) };
}

impl Commands {
    /// The list of these commands, fewer than 2^32. The only error is running out of memory.
    pub fn of(alloc: Global, items: Vec<Command>) -> Result<Self, NoMemory>
        requires { length items.items < 2 ^ 32 }
        ensures { IfOk result (λ commands. commands ≡ items.items) }
    {
        let edits = numbers_of_edits(alloc, items.as_slice())?;
        Ok(Commands { items, edits })
    }

    /// The commands.
    pub fn items(&self) -> &[Command]
        ensures { result.now ≡ self.now }
    {
        self.items.as_slice()
    }

    /// The commands, as a vector.
    pub fn into_items(self) -> Vec<Command>
        ensures { result.items ≡ self }
    {
        let Commands { items, .. } = self;
        items
    }

    /// The edit of that index, from 0 among the edits alone, with the number of its command, from 1. None past the last. The
    /// time does not depend on the commands.
    pub fn edit(&self, index: u32) -> Option<(u32, &Edit)>
        ensures number { option_map (λ r. r.0) result ≡ slice_get (edit_numbers (map command_view self.now)) index }
        ensures past { IfNone result (count_by is_edit (map command_view self.now) ≤ index) }
        ensures edit { IfSome result (λ r. numbered (map command_view self.now) r.0 ≡ Some (makes (edit_view r.1.now))) }
    {
        let number = *self.edits.as_slice().get(index as usize)?;
        match &self.items[number as usize - 1] {
            Command::Edit(edit) => Some((number, edit)),
            _ => unreachable!(),
        }
    }

    /// How many of the commands are edits.
    pub fn edit_count(&self) -> u32
        ensures { result ≡ count_by is_edit (map command_view self.now) }
    {
        self.edits.len() as u32
    }

    /// How many of the first `place` commands are edits: where the command just after them is an edit, that is its index. The time
    /// grows with the logarithm of the number of edits.
    pub fn edits_before(&self, place: u32) -> u32
        ensures count { result ≡ count_by is_edit (take place (map command_view self.now)) }
        ensures index { (edit : EditView) → slice_get (map command_view self.now) place ≡ Some (makes edit)
            → (result < count_by is_edit (map command_view self.now)) × (slice_get (edit_numbers (map command_view self.now)) result ≡ Some (place + 1)) }
    {
        self.edits.partition_point(|number| *number <= place) as u32
    }
}

// The numbers, from 1, of the commands that are edits.
fn numbers_of_edits(alloc: Global, commands: &[Command]) -> Result<Vec<u32>, NoMemory>
    requires { length commands.now < 2 ^ 32 }
    ensures { IfOk result (λ edits. edits.items ≡ edit_numbers (map command_view commands.now)) }
{
    let mut edits = Vec::new(alloc);
    let mut number = 0;
    for command in commands {
        number += 1;
        if command.is_edit() {
            edits.push(number)?;
        }
    }
    Ok(edits)
}

/// The commands of each session, by sessions.
#[derive(Debug, Drop)]
pub struct Scripts {
    items: Vec<Commands>,
}

impl Model for Scripts {
    ghost use Rattle.std.specs.Prelude.{List};
    ghost use Rattle.std.specs.Coded.{codes};
    ghost use Rattle.lg_gram.specs.contracts.entry.RawExpr as raw;
    ghost use Rattle.lg_script.specs.declared.command.Command.{Command as Seen};

    ghost Value = { List (List Seen) };

    ghost coded = { Prim.hlevel (codes, raw.the_row.coded) };

    ghost view = { λ t. t.items.items };
}

impl Scripts {
    /// The commands of these sessions.
    pub fn of(items: Vec<Commands>) -> Self
        ensures { result ≡ items.items }
    {
        Scripts { items }
    }

    /// The commands of each session.
    pub fn items(&self) -> &[Commands]
        ensures { result.now ≡ self.now }
    {
        self.items.as_slice()
    }

    /// The edit that a code names, with its place. The time does not depend on the scripts.
    ///
    /// The code is one of these scripts, which sessions may run.
    pub fn edit_of(&self, code: u64) -> (Place, &Edit)
        requires scripts { AreScripts (script_views self.now) }
        requires code { is_code (edit_counts (script_views self.now)) code ≡ true }
        ensures place { result.0 ≡ place_of (script_views self.now) code }
        ensures edit { command_at (script_views self.now) (place_of (script_views self.now) code) ≡ Some (makes (edit_view result.1.now)) }
        ensures items { DefinesAsItMay (edit_view result.1.now) }
        ensures bounds { IsEditInBounds (edit_view result.1.now) }
    {
        code_laws();
        let session = session_of(code);
        let commands = &self.items()[session as usize];
        let Some((command, edit)) = commands.edit(index_of(code)) else {
            unreachable!()
        };
        let place = Place {
            session: session + 1,
            command,
        };
        (place, edit)
    }

    /// The commands of each session, as a vector.
    pub fn into_items(self) -> Vec<Commands>
        ensures { result.items ≡ self }
    {
        let Scripts { items } = self;
        items
    }
}
