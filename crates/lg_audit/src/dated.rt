//! The dictionary at a version.

ghost use Rattle.std.specs.Prelude.{◌≡◌, ◌≤◌, ◌∷◌, [], length, Some, None, OnOk, MatchOption};
ghost use Rattle.lg_dict.specs.Dictionary.{Dictionary};
ghost use Rattle.lg_edit.specs.Edits.{edit_view};
ghost use Rattle.lg_script.specs.Codes.{AreScripts};
ghost use Rattle.lg_script.specs.Commands.{command_view, makes, script_views};
ghost use Rattle.lg_script.specs.Histories.{command_at, after_command, dictionary_after};
ghost use Rattle.lg_audit.specs.Grounds.{basis_in, IsUsable, IsDated};

use crate::basis::Basis;
use lg_base::NoMemory;
use lg_dict::View;
use lg_edit::{Edit, apply, check};
use lg_gram::Place;
use lg_script::{Command, Scripts, place_laws};
use std::alloc::Global;

/// The dictionary after so many edits of the journal.
#[derive(Drop)]
pub(crate) struct Dated<'a> {
    pub(crate) view: View<'a>,
    pub(crate) version: u64,
}

/// Brings the dictionary up to a later version of the journal. The time grows with the edits between.
pub(crate) fn bring(
    alloc: Global,
    basis: &Basis,
    dated: &mut Dated,
    version: u64,
) -> Result<(), NoMemory>
    requires usable { IsUsable (basis_in basis.now) }
    requires dated { IsDated (basis_in basis.now) dated.old }
    requires later { dated.old.version ≤ version }
    requires there { version ≤ length (basis_in basis.now).journal }
    ensures dated { OnOk result (IsDated (basis_in basis.now) dated.new) }
    ensures version { OnOk result (dated.new.version ≡ version) }
{
    let between = &basis.journal[dated.version as usize..version as usize];
    learn_all(alloc, basis.scripts, &mut dated.view, between)?;
    dated.version = version;
    Ok(())
}

// Makes the edits of these places, one after another.
fn learn_all(
    alloc: Global,
    scripts: &Scripts,
    view: &mut View,
    places: &[Place],
) -> Result<(), NoMemory>
    requires { AreScripts (script_views scripts.now) }
    ensures { OnOk result (view.new ≡ dictionary_after (script_views scripts.now) view.old places.now) }
{
    for place in places {
        learn(alloc, scripts, view, *place)?;
    }
    Ok(())
}

// Makes the edit of a place, if there is one and the dictionary accepts it.
fn learn(alloc: Global, scripts: &Scripts, view: &mut View, place: Place) -> Result<(), NoMemory>
    requires { AreScripts (script_views scripts.now) }
    ensures { OnOk result (view.new ≡ dictionary_after (script_views scripts.now) view.old (place ∷ [])) }
{
    place_laws();
    let Some(command) = command_of(scripts, place) else {
        return Ok(());
    };
    let Some(edit) = edit_in(command) else {
        return Ok(());
    };
    match check(view, edit) {
        Ok(()) => apply(alloc, view, edit),
        Err(_) => Ok(()),
    }
}

// The edit that a command makes, if it makes one.
fn edit_in(command: &Command) -> Option<&Edit>
    ensures { MatchOption result
        ((dict : Dictionary) → after_command dict (Some (command_view command.now)) ≡ dict)
        (λ edit. command_view command.now ≡ makes (edit_view edit.now)) }
{
    match command {
        Command::Parse(_) => None,
        Command::List(_, _, _) => None,
        Command::More => None,
        Command::Edit(edit) => Some(edit),
        Command::Version => None,
    }
}

/// The command at a place, if there is one.
pub(crate) fn command_of(scripts: &Scripts, place: Place) -> Option<&Command>
    ensures { MatchOption result
        (command_at (script_views scripts.now) place ≡ None)
        (λ command. command_at (script_views scripts.now) place ≡ Some (command_view command.now)) }
{
    if place.session == 0 {
        return None;
    }
    if place.command == 0 {
        return None;
    }
    let Some(commands) = scripts.items().get(place.session as usize - 1) else {
        return None;
    };
    let Some(command) = commands.items().get(place.command as usize - 1) else {
        return None;
    };
    Some(command)
}
