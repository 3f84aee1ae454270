//! The scripts of a command.
ghost use Rattle.std.specs.Prelude.{◌≡◌, ◌≤◌, ◌<◌, ℕ, suc, List, length, map, take, sum, slice_get, Some, string_bytes, IfSome, IfOk, IfErr, MatchOption, All, [], ◌∷◌};
ghost use Rattle.lg_dictread.specs.Limits.{FILE};
ghost use Rattle.lg_script.specs.Bounds.{AreInBounds};
ghost use Rattle.lg_script.specs.Commands.{command_view, script_views};
ghost use Rattle.lg_script.specs.EditNumbers.{edit_counts};
ghost use Rattle.lg_script.specs.Codes.{AreScripts};
ghost use Rattle.lg_run.specs.Words.{SCRIPTS};
ghost use Rattle.lg_run.specs.Inputs.{Followed, ScriptReads, ScriptInput, ScriptsInput, EditsRead, EDITS};
ghost use Rattle.lg_run.specs.Reads.{AsksInOrder, AsksMore, Tells, HasCause, IsAbout, IsNoFault};

use crate::inputs::read_file;
use crate::stop::Stop;
use lg_base::{Files, NoMemory};
use lg_script::{
    Commands, ScriptError, Scripts, exactly_one_script, read_script, scripts_keep_bounds,
};
use std::alloc::Global;

// The most edits of all scripts.
const EDITS: u32 = 100_000;

/// The scripts of these names, where they have at most 100,000 edits together.
pub(crate) fn read_scripts<'a, F: Files>(
    alloc: Global,
    files: &mut F,
    names: &'a [String],
) -> Result<Scripts, Stop<'a>>
    requires some { 1 ≤ length names.now }
    requires few { length names.now ≤ SCRIPTS }
    ensures unchanged { F.contents files.new ≡ F.contents files.old }
    ensures asks { AsksMore (F.asked files.old) (F.asked files.new) }
    ensures names { IfSome (F.contents files.old) (λ known. AsksInOrder (Followed (ScriptsInput known (map string_bytes names.now)) (EditsRead (map string_bytes names.now))) (F.asked files.old) (F.asked files.new)) }
    ensures told { IfSome (F.contents files.old) (λ known. Tells script_views (Followed (ScriptsInput known (map string_bytes names.now)) (EditsRead (map string_bytes names.now))) (F.asked files.old) (F.asked files.new) result) }
    ensures bounds { IfOk result (λ scripts. AreScripts (script_views scripts)) }
    ensures cause { HasCause (F.asked files.new) (F.faults files.old) (F.faults files.new) result }
    ensures about { IfErr result (IsAbout (map string_bytes names.now) (F.asked files.new)) }
{
    exactly_one_script();
    match read_each(alloc, files, names) {
        Ok(scripts) => within_edits(names, scripts),
        Err(stop) => Err(stop),
    }
}

/// The commands of each script, by the names of the scripts.
fn read_each<'a, F: Files>(
    alloc: Global,
    files: &mut F,
    names: &'a [String],
) -> Result<Vec<Commands>, Stop<'a>>
    ensures unchanged { F.contents files.new ≡ F.contents files.old }
    ensures asks { AsksMore (F.asked files.old) (F.asked files.new) }
    ensures names { IfSome (F.contents files.old) (λ known. AsksInOrder (ScriptsInput known (map string_bytes names.now)) (F.asked files.old) (F.asked files.new)) }
    ensures told { IfSome (F.contents files.old) (λ known. Tells (λ scripts. script_views scripts.items) (ScriptsInput known (map string_bytes names.now)) (F.asked files.old) (F.asked files.new) result) }
    ensures each { IfOk result (λ scripts. (length scripts.items ≡ length names.now) × All AreInBounds (script_views scripts.items)) }
    ensures cause { HasCause (F.asked files.new) (F.faults files.old) (F.faults files.new) result }
    ensures about { IfErr result (IsAbout (map string_bytes names.now) (F.asked files.new)) }
{
    exactly_one_script();
    let mut scripts = Vec::new(alloc);
    for name in names {
        match read_commands(alloc, files, name) {
            Ok(commands) => {
                let Ok(()) = scripts.push(commands) else {
                    return Err(Stop::Memory);
                };
            }
            Err(stop) => return Err(stop),
        }
    }
    Ok(scripts)
}

/// The scripts of these names, where they have at most 100,000 edits together.
fn within_edits<'a>(names: &'a [String], scripts: Vec<Commands>) -> Result<Scripts, Stop<'a>>
    requires { length scripts.items ≡ length names.now }
    ensures told { (asked : List (List ℕ)) → Tells script_views (EditsRead (map string_bytes names.entry.now) (script_views scripts.items)) asked asked result }
    ensures edits { IfOk result (λ all. (all ≡ scripts.items) × (sum (edit_counts (script_views all)) ≤ EDITS)) }
    ensures calm { IsNoFault result }
    ensures about { (asked : List (List ℕ)) → IfErr result (IsAbout (map string_bytes names.entry.now) asked) }
{
    match first_past(names, &scripts) {
        Some(name) => Err(Stop::TooManyEdits(name)),
        None => Ok(Scripts::of(scripts)),
    }
}

/// The name of the script with which the edits become more than 100,000.
fn first_past<'a>(names: &'a [String], scripts: &[Commands]) -> Option<&'a str>
    requires { length scripts.now ≡ length names.now }
    ensures { MatchOption result
        (sum (edit_counts (script_views scripts.now)) ≤ EDITS)
        (λ name. (i : ℕ) × (slice_get (map string_bytes names.entry.now) i ≡ Some name.now)
        × (sum (take i (edit_counts (script_views scripts.now))) ≤ EDITS) × (EDITS < sum (take (suc i) (edit_counts (script_views scripts.now))))) }
{
    let mut left = EDITS;
    for (name, commands) in names.iter().zip(scripts) {
        match left.checked_sub(commands.edit_count()) {
            Some(less) => left = less,
            None => return Some(name.as_str()),
        }
    }
    None
}

/// The commands of the script with this name.
fn read_commands<'a, F: Files>(
    alloc: Global,
    files: &mut F,
    name: &'a str,
) -> Result<Commands, Stop<'a>>
    ensures unchanged { F.contents files.new ≡ F.contents files.old }
    ensures asks { AsksMore (F.asked files.old) (F.asked files.new) }
    ensures names { IfSome (F.contents files.old) (λ known. AsksInOrder (ScriptInput known name.now) (F.asked files.old) (F.asked files.new)) }
    ensures told { IfSome (F.contents files.old) (λ known. Tells (λ commands. map command_view commands) (ScriptInput known name.now) (F.asked files.old) (F.asked files.new) result) }
    ensures bounds { IfOk result (λ commands. AreInBounds (map command_view commands)) }
    ensures cause { HasCause (F.asked files.new) (F.faults files.old) (F.faults files.new) result }
    ensures about { IfErr result (IsAbout (name.now ∷ []) (F.asked files.new)) }
{
    match read_file(alloc, files, name) {
        Ok(bytes) => commands_of(alloc, name, &bytes),
        Err(stop) => Err(stop),
    }
}

/// The commands of these bytes.
fn commands_of<'a>(alloc: Global, name: &'a str, bytes: &[u8]) -> Result<Commands, Stop<'a>>
    requires { length bytes.now ≤ FILE }
    ensures told { (asked : List (List ℕ)) → Tells (λ commands. map command_view commands) (ScriptReads name.entry.now bytes.now) asked asked result }
    ensures bounds { IfOk result (λ commands. AreInBounds (map command_view commands)) }
    ensures calm { IsNoFault result }
    ensures about { (asked : List (List ℕ)) → IfErr result (IsAbout (name.entry.now ∷ []) asked) }
{
    scripts_keep_bounds();
    match read_script(alloc, bytes) {
        Ok(commands) => match Commands::of(alloc, commands) {
            Ok(commands) => Ok(commands),
            Err(NoMemory) => Err(Stop::Memory),
        },
        Err(ScriptError::NoMemory) => Err(Stop::Memory),
        Err(error) => Err(Stop::Script(name, error)),
    }
}
