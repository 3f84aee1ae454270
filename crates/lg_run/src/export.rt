//! The text of a version of a dictionary.
ghost use Rattle.std.specs.Prelude.{◌≡◌, ◌<◌, ◌+◌, ℕ, List, [], ◌∷◌, map, slice_get, Some, IfOk, IfErr, if◌then◌else◌};
ghost use Rattle.lg_dict.specs.Dictionary.{Dictionary};
ghost use Rattle.lg_edit.specs.Edits.{DefinesAsItMay, IsEditInBounds, edit_view};
ghost use Rattle.lg_script.specs.Bounds.{AreInBounds, IsInBounds};
ghost use Rattle.lg_script.specs.Codes.{AreScripts, commands_of};
ghost use Rattle.lg_script.specs.Commands.{CommandView, command_view, script_views, makes};
ghost use Rattle.lg_run.specs.Inputs.{ExportGiven, ExportReads, versions};
ghost use Rattle.lg_run.specs.Reads.{Tells, IsAbout, IsNoFault};
ghost use Rattle.lg_run.specs.Versions.{Reaches};

use crate::stop::Stop;
use lg_base::NoMemory;
use lg_dict::{Dict, View};
use lg_edit::{Edit, apply, check};
use lg_export::{ExportError, export};
use lg_script::{Command, Scripts};
use std::alloc::Global;

/// The commands of the first script.
pub(crate) fn first_commands(scripts: &Scripts) -> &[Command]
    requires { AreScripts (script_views scripts.now) }
    ensures commands { map command_view result.now ≡ commands_of (script_views scripts.now) 0 }
    ensures bounds { AreInBounds (map command_view result.now) }
{
    scripts.items()[0].items()
}

/// The text of the dictionary after so many edits of a script that are accepted.
pub(crate) fn version_text<'a>(
    alloc: Global,
    dictionary: &'a str,
    dict: &Dict,
    script: &'a str,
    commands: &[Command],
    number: u32,
) -> Result<Vec<u8>, Stop<'a>>
    requires { AreInBounds (map command_view commands.now) }
    ensures told { (asked : List (List ℕ)) → Tells (λ text. ExportGiven text.items) (ExportReads dictionary.entry.now script.entry.now number dict.now (map command_view commands.now)) asked asked result }
    ensures calm { IsNoFault result }
    ensures about { (asked : List (List ℕ)) → IfErr result (IsAbout (dictionary.entry.now ∷ script.entry.now ∷ []) asked) }
{
    let mut view = View::of(alloc, dict);
    text_after(alloc, dictionary, &mut view, script, commands, number)
}

// The text of the view after so many edits that are accepted.
fn text_after<'a>(
    alloc: Global,
    dictionary: &'a str,
    view: &mut View,
    script: &'a str,
    commands: &[Command],
    number: u32,
) -> Result<Vec<u8>, Stop<'a>>
    requires { AreInBounds (map command_view commands.now) }
    ensures told { (asked : List (List ℕ)) → Tells (λ text. ExportGiven text.items) (ExportReads dictionary.entry.now script.entry.now number view.old (map command_view commands.now)) asked asked result }
    ensures calm { IsNoFault result }
    ensures about { (asked : List (List ℕ)) → IfErr result (IsAbout (dictionary.entry.now ∷ script.entry.now ∷ []) asked) }
{
    match make_edits(alloc, view, commands, number) {
        Ok(count) => text_at(alloc, dictionary, view, script, count, number),
        Err(NoMemory) => Err(Stop::Memory),
    }
}

// The text of the view, if as many edits were made as were asked for.
fn text_at<'a>(
    alloc: Global,
    dictionary: &'a str,
    view: &View,
    script: &'a str,
    count: u32,
    number: u32,
) -> Result<Vec<u8>, Stop<'a>>
    ensures told { (asked : List (List ℕ)) (dict : Dictionary) (commands : List CommandView) → Reaches (versions dict commands) number count view.now
        → Tells (λ text. ExportGiven text.items) (ExportReads dictionary.entry.now script.entry.now number dict commands) asked asked result }
    ensures calm { IsNoFault result }
    ensures about { (asked : List (List ℕ)) → IfErr result (IsAbout (dictionary.entry.now ∷ script.entry.now ∷ []) asked) }
{
    if number > count {
        return Err(Stop::TooFewVersions(script, count));
    }
    text_of(alloc, dictionary, view)
}

// The text of a version.
fn text_of<'a>(alloc: Global, dictionary: &'a str, view: &View) -> Result<Vec<u8>, Stop<'a>>
    ensures told { (asked : List (List ℕ)) (script : List ℕ) (number : ℕ) (dict : Dictionary) (commands : List CommandView) → slice_get (versions dict commands) number ≡ Some view.now
        → Tells (λ text. ExportGiven text.items) (ExportReads dictionary.entry.now script number dict commands) asked asked result }
    ensures calm { IsNoFault result }
    ensures about { (asked : List (List ℕ)) (script : List ℕ) → IfErr result (IsAbout (dictionary.entry.now ∷ script ∷ []) asked) }
{
    match export(alloc, view) {
        Ok(text) => Ok(text),
        Err(ExportError::QuoteInWord(word)) => Err(Stop::Quoted(dictionary, word)),
        Err(ExportError::NoMemory) => Err(Stop::Memory),
    }
}

// Makes the edits that are accepted, up to so many, and tells how many they are.
fn make_edits(
    alloc: Global,
    view: &mut View,
    commands: &[Command],
    most: u32,
) -> Result<u32, NoMemory>
    requires { AreInBounds (map command_view commands.now) }
    ensures { IfOk result (λ count. Reaches (versions view.old (map command_view commands.now)) most count view.new) }
{
    let mut count = 0;
    for command in commands {
        if count == most {
            return Ok(count);
        }
        let made = make_edit(alloc, view, command)?;
        count = counted(count, made);
    }
    Ok(count)
}

// One more, if an edit was made.
fn counted(count: u32, made: bool) -> u32
    requires { count < 4294967295 }
    ensures { result ≡ (if made then count + 1 else count) }
{
    if made { count + 1 } else { count }
}

// Makes an edit if the command is one that is accepted, and tells whether it was made.
fn make_edit(alloc: Global, view: &mut View, command: &Command) -> Result<bool, NoMemory>
    requires { IsInBounds (command_view command.now) }
    ensures { IfOk result (λ made. (commands : List CommandView) → versions view.old (command_view command.now ∷ commands) ≡ (if made then view.old ∷ versions view.new commands else versions view.new commands)) }
{
    match command {
        Command::Edit(edit) => make_accepted(alloc, view, edit),
        Command::Parse(_) | Command::List(..) | Command::More | Command::Version => Ok(false),
    }
}

// Makes an edit if it is accepted, and tells whether it was made.
fn make_accepted(alloc: Global, view: &mut View, edit: &Edit) -> Result<bool, NoMemory>
    requires items { DefinesAsItMay (edit_view edit.now) }
    requires bounds { IsEditInBounds (edit_view edit.now) }
    ensures { IfOk result (λ made. (commands : List CommandView) → versions view.old (makes (edit_view edit.now) ∷ commands) ≡ (if made then view.old ∷ versions view.new commands else versions view.new commands)) }
{
    if check(view, edit).is_err() {
        return Ok(false);
    }
    apply(alloc, view, edit)?;
    Ok(true)
}
