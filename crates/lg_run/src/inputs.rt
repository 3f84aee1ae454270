//! The inputs of a command, read and taken apart in order.
ghost use Rattle.std.specs.Prelude.{◌≡◌, ◌≤◌, ◌<◌, ◌^◌, ℕ, List, [], ◌∷◌, length, map, string_bytes, IfSome, IfOk, IfErr};
ghost use Rattle.lg_dictread.specs.Limits.{FILE};
ghost use Rattle.lg_script.specs.Codes.{AreScripts, commands_of};
ghost use Rattle.lg_script.specs.Commands.{script_views};
ghost use Rattle.lg_run.specs.Commands.{task};
ghost use Rattle.lg_run.specs.Words.{One, Run, Export, IsShort, AreInRange, SENTENCE, SCRIPTS};
ghost use Rattle.lg_run.specs.Inputs.{FileIs, DictionaryReads, DictionaryInput, ExportReads, KnowledgeGiven, ScriptsGiven, VersionGiven, InputsAre};
ghost use Rattle.lg_run.specs.Reads.{AsksInOrder, AsksMore, Tells, HasCause, IsAbout, IsNoFault, given_in};
ghost use Rattle.lg_run.specs.Answers.{names_of, IsGivenInBounds};

mod audit;

use crate::command::Command;
use crate::export::{first_commands, version_text};
use crate::inputs::audit::inputs_of_audit;
use crate::knowledge::read_know;
use crate::script::read_scripts;
use crate::setup::Setup;
use crate::stop::Stop;
use lg_base::{FileError, Files, NoMemory};
use lg_dict::Dict;
use lg_dictread::{DictError, FILE, exactly_one_dictionary, read_dict};
use lg_knowread::{Knowledge, exactly_one_knowledge};
use lg_script::{Scripts, exactly_one_script};
use std::alloc::Global;
use std::slice;

/// The inputs of a command.
#[derive(Drop)]
pub enum Inputs<'a> {
    One {
        setup: Setup,
        dict: Dict,
        sentence: &'a str,
    },
    Run {
        setup: Setup,
        dict: Dict,
        know: Knowledge,
        scripts: Scripts,
    },
    /// Nothing is read for made input.
    Gen {
        seed: u32,
        words: u32,
        sentences: u32,
    },
    /// The text of a version of the dictionary.
    Export {
        text: Vec<u8>,
    },
    /// A document of scripts, and all that it is audited by.
    Audit {
        dict: Dict,
        know: Knowledge,
        scripts: Scripts,
        document: Vec<u8>,
    },
}

/// Reads the inputs of a command that has this setup.
///
/// After an error the files have their contents still; the names asked and the count of faults may have grown.
pub fn read_inputs<'a, F: Files>(
    alloc: Global,
    files: &mut F,
    setup: Setup,
    command: Command<'a>,
) -> Result<Inputs<'a>, Stop<'a>>
    requires short { IsShort (task setup command) }
    requires range { AreInRange setup }
    ensures unchanged { F.contents files.new ≡ F.contents files.old }
    ensures asks { AsksMore (F.asked files.old) (F.asked files.new) }
    ensures names { IfSome (F.contents files.old) (λ known. AsksInOrder (InputsAre known (task setup command.entry)) (F.asked files.old) (F.asked files.new)) }
    ensures told { IfSome (F.contents files.old) (λ known. Tells given_in (InputsAre known (task setup command.entry)) (F.asked files.old) (F.asked files.new) result) }
    ensures bounds { IfOk result (λ inputs. IsGivenInBounds (given_in inputs)) }
    ensures cause { HasCause (F.asked files.new) (F.faults files.old) (F.faults files.new) result }
    ensures about { IfErr result (IsAbout (names_of (task setup command.entry)) (F.asked files.new)) }
{
    match command {
        Command::One {
            dictionary,
            sentence,
            ..
        } => inputs_of_one(alloc, files, setup, dictionary, sentence),
        Command::Run {
            dictionary,
            knowledge,
            scripts,
            ..
        } => inputs_of_run(alloc, files, setup, dictionary, knowledge, scripts),
        Command::Gen {
            seed,
            words,
            sentences,
        } => Ok(Inputs::Gen {
            seed,
            words,
            sentences,
        }),
        Command::Export {
            dictionary,
            script,
            number,
        } => inputs_of_export(alloc, files, dictionary, script, number),
        Command::Audit {
            dictionary,
            knowledge,
            document,
            scripts,
        } => inputs_of_audit(alloc, files, dictionary, knowledge, document, scripts),
    }
}

/// A dictionary for a sentence.
fn inputs_of_one<'a, F: Files>(
    alloc: Global,
    files: &mut F,
    setup: Setup,
    dictionary: &'a str,
    sentence: &'a str,
) -> Result<Inputs<'a>, Stop<'a>>
    requires range { AreInRange setup }
    requires short { length sentence.now ≤ SENTENCE }
    ensures unchanged { F.contents files.new ≡ F.contents files.old }
    ensures asks { AsksMore (F.asked files.old) (F.asked files.new) }
    ensures names { IfSome (F.contents files.old) (λ known. AsksInOrder (InputsAre known (One setup dictionary.now sentence.now)) (F.asked files.old) (F.asked files.new)) }
    ensures told { IfSome (F.contents files.old) (λ known. Tells given_in (InputsAre known (One setup dictionary.now sentence.now)) (F.asked files.old) (F.asked files.new) result) }
    ensures bounds { IfOk result (λ inputs. IsGivenInBounds (given_in inputs)) }
    ensures cause { HasCause (F.asked files.new) (F.faults files.old) (F.faults files.new) result }
    ensures about { IfErr result (IsAbout (dictionary.now ∷ []) (F.asked files.new)) }
{
    exactly_one_dictionary();
    match read_dictionary(alloc, files, dictionary) {
        Ok(dict) => Ok(Inputs::One {
            setup,
            dict,
            sentence,
        }),
        Err(stop) => Err(stop),
    }
}

/// A dictionary, knowledge and scripts.
fn inputs_of_run<'a, F: Files>(
    alloc: Global,
    files: &mut F,
    setup: Setup,
    dictionary: &'a str,
    knowledge: &'a str,
    scripts: &'a [String],
) -> Result<Inputs<'a>, Stop<'a>>
    requires range { AreInRange setup }
    requires scripts { (1 ≤ length scripts.now) × (length scripts.now ≤ SCRIPTS) }
    ensures unchanged { F.contents files.new ≡ F.contents files.old }
    ensures asks { AsksMore (F.asked files.old) (F.asked files.new) }
    ensures names { IfSome (F.contents files.old) (λ known. AsksInOrder (InputsAre known (Run setup dictionary.now knowledge.now (map string_bytes scripts.now))) (F.asked files.old) (F.asked files.new)) }
    ensures told { IfSome (F.contents files.old) (λ known. Tells given_in (InputsAre known (Run setup dictionary.now knowledge.now (map string_bytes scripts.now))) (F.asked files.old) (F.asked files.new) result) }
    ensures bounds { IfOk result (λ inputs. IsGivenInBounds (given_in inputs)) }
    ensures cause { HasCause (F.asked files.new) (F.faults files.old) (F.faults files.new) result }
    ensures about { IfErr result (IsAbout (dictionary.now ∷ knowledge.now ∷ map string_bytes scripts.now) (F.asked files.new)) }
{
    exactly_one_dictionary();
    match read_dictionary(alloc, files, dictionary) {
        Ok(dict) => after_dictionary(alloc, files, setup, dict, knowledge, scripts),
        Err(stop) => Err(stop),
    }
}

/// Knowledge and scripts, where the dictionary is in hand.
fn after_dictionary<'a, F: Files>(
    alloc: Global,
    files: &mut F,
    setup: Setup,
    dict: Dict,
    knowledge: &'a str,
    scripts: &'a [String],
) -> Result<Inputs<'a>, Stop<'a>>
    requires range { AreInRange setup }
    requires scripts { (1 ≤ length scripts.now) × (length scripts.now ≤ SCRIPTS) }
    ensures unchanged { F.contents files.new ≡ F.contents files.old }
    ensures asks { AsksMore (F.asked files.old) (F.asked files.new) }
    ensures names { IfSome (F.contents files.old) (λ known. AsksInOrder (KnowledgeGiven known setup dict knowledge.now (map string_bytes scripts.now)) (F.asked files.old) (F.asked files.new)) }
    ensures told { IfSome (F.contents files.old) (λ known. Tells given_in (KnowledgeGiven known setup dict knowledge.now (map string_bytes scripts.now)) (F.asked files.old) (F.asked files.new) result) }
    ensures bounds { IfOk result (λ inputs. IsGivenInBounds (given_in inputs)) }
    ensures cause { HasCause (F.asked files.new) (F.faults files.old) (F.faults files.new) result }
    ensures about { IfErr result (IsAbout (knowledge.now ∷ map string_bytes scripts.now) (F.asked files.new)) }
{
    exactly_one_knowledge();
    match read_know(alloc, files, knowledge) {
        Ok(know) => after_knowledge(alloc, files, setup, dict, know, scripts),
        Err(stop) => Err(stop),
    }
}

/// Scripts, where the dictionary and the knowledge are in hand.
fn after_knowledge<'a, F: Files>(
    alloc: Global,
    files: &mut F,
    setup: Setup,
    dict: Dict,
    know: Knowledge,
    scripts: &'a [String],
) -> Result<Inputs<'a>, Stop<'a>>
    requires range { AreInRange setup }
    requires few { length know.rules < 2 ^ 32 }
    requires scripts { (1 ≤ length scripts.now) × (length scripts.now ≤ SCRIPTS) }
    ensures unchanged { F.contents files.new ≡ F.contents files.old }
    ensures asks { AsksMore (F.asked files.old) (F.asked files.new) }
    ensures names { IfSome (F.contents files.old) (λ known. AsksInOrder (ScriptsGiven known setup dict know (map string_bytes scripts.now)) (F.asked files.old) (F.asked files.new)) }
    ensures told { IfSome (F.contents files.old) (λ known. Tells given_in (ScriptsGiven known setup dict know (map string_bytes scripts.now)) (F.asked files.old) (F.asked files.new) result) }
    ensures bounds { IfOk result (λ inputs. IsGivenInBounds (given_in inputs)) }
    ensures cause { HasCause (F.asked files.new) (F.faults files.old) (F.faults files.new) result }
    ensures about { IfErr result (IsAbout (map string_bytes scripts.now) (F.asked files.new)) }
{
    exactly_one_script();
    match read_scripts(alloc, files, scripts) {
        Ok(scripts) => Ok(Inputs::Run {
            setup,
            dict,
            know,
            scripts,
        }),
        Err(stop) => Err(stop),
    }
}

/// A dictionary and a script, and the text of a version that the script makes.
fn inputs_of_export<'a, F: Files>(
    alloc: Global,
    files: &mut F,
    dictionary: &'a str,
    script: &'a String,
    number: u32,
) -> Result<Inputs<'a>, Stop<'a>>
    ensures unchanged { F.contents files.new ≡ F.contents files.old }
    ensures asks { AsksMore (F.asked files.old) (F.asked files.new) }
    ensures names { IfSome (F.contents files.old) (λ known. AsksInOrder (InputsAre known (Export dictionary.now (string_bytes script.now) number)) (F.asked files.old) (F.asked files.new)) }
    ensures told { IfSome (F.contents files.old) (λ known. Tells given_in (InputsAre known (Export dictionary.now (string_bytes script.now) number)) (F.asked files.old) (F.asked files.new) result) }
    ensures bounds { IfOk result (λ inputs. IsGivenInBounds (given_in inputs)) }
    ensures cause { HasCause (F.asked files.new) (F.faults files.old) (F.faults files.new) result }
    ensures about { IfErr result (IsAbout (dictionary.now ∷ string_bytes script.now ∷ []) (F.asked files.new)) }
{
    exactly_one_dictionary();
    match read_dictionary(alloc, files, dictionary) {
        Ok(dict) => version_of(alloc, files, dictionary, &dict, script, number),
        Err(stop) => Err(stop),
    }
}

/// A script, and the text of a version that it makes of the dictionary.
fn version_of<'a, F: Files>(
    alloc: Global,
    files: &mut F,
    dictionary: &'a str,
    dict: &Dict,
    script: &'a String,
    number: u32,
) -> Result<Inputs<'a>, Stop<'a>>
    ensures unchanged { F.contents files.new ≡ F.contents files.old }
    ensures asks { AsksMore (F.asked files.old) (F.asked files.new) }
    ensures names { IfSome (F.contents files.old) (λ known. AsksInOrder (VersionGiven known dictionary.now (string_bytes script.now) number dict.now) (F.asked files.old) (F.asked files.new)) }
    ensures told { IfSome (F.contents files.old) (λ known. Tells given_in (VersionGiven known dictionary.now (string_bytes script.now) number dict.now) (F.asked files.old) (F.asked files.new) result) }
    ensures bounds { IfOk result (λ inputs. IsGivenInBounds (given_in inputs)) }
    ensures cause { HasCause (F.asked files.new) (F.faults files.old) (F.faults files.new) result }
    ensures about { IfErr result (IsAbout (dictionary.now ∷ string_bytes script.now ∷ []) (F.asked files.new)) }
{
    exactly_one_script();
    match read_scripts(alloc, files, slice::from_ref(script)) {
        Ok(scripts) => exported(alloc, dictionary, dict, script.as_str(), &scripts, number),
        Err(stop) => Err(stop),
    }
}

/// The text of a version that the first of the scripts makes of the dictionary.
fn exported<'a>(
    alloc: Global,
    dictionary: &'a str,
    dict: &Dict,
    script: &'a str,
    scripts: &Scripts,
    number: u32,
) -> Result<Inputs<'a>, Stop<'a>>
    requires { AreScripts (script_views scripts.now) }
    ensures told { (asked : List (List ℕ)) → Tells given_in (ExportReads dictionary.entry.now script.entry.now number dict.now (commands_of (script_views scripts.now) 0)) asked asked result }
    ensures bounds { IfOk result (λ inputs. IsGivenInBounds (given_in inputs)) }
    ensures calm { IsNoFault result }
    ensures about { (asked : List (List ℕ)) → IfErr result (IsAbout (dictionary.entry.now ∷ script.entry.now ∷ []) asked) }
{
    let commands = first_commands(scripts);
    match version_text(alloc, dictionary, dict, script, commands, number) {
        Ok(text) => Ok(Inputs::Export { text }),
        Err(stop) => Err(stop),
    }
}

/// The dictionary with this name.
pub(crate) fn read_dictionary<'a, F: Files>(
    alloc: Global,
    files: &mut F,
    name: &'a str,
) -> Result<Dict, Stop<'a>>
    ensures unchanged { F.contents files.new ≡ F.contents files.old }
    ensures asks { AsksMore (F.asked files.old) (F.asked files.new) }
    ensures names { IfSome (F.contents files.old) (λ known. AsksInOrder (DictionaryInput known name.now) (F.asked files.old) (F.asked files.new)) }
    ensures told { IfSome (F.contents files.old) (λ known. Tells (λ d. d) (DictionaryInput known name.now) (F.asked files.old) (F.asked files.new) result) }
    ensures cause { HasCause (F.asked files.new) (F.faults files.old) (F.faults files.new) result }
    ensures about { IfErr result (IsAbout (name.now ∷ []) (F.asked files.new)) }
{
    match read_file(alloc, files, name) {
        Ok(bytes) => take_apart(alloc, files, name, &bytes),
        Err(stop) => Err(stop),
    }
}

/// The bytes of the file with this name.
pub(crate) fn read_file<'a, F: Files>(
    alloc: Global,
    files: &mut F,
    name: &'a str,
) -> Result<Vec<u8>, Stop<'a>>
    ensures unchanged { F.contents files.new ≡ F.contents files.old }
    ensures asks { AsksMore (F.asked files.old) (F.asked files.new) }
    ensures names { IfSome (F.contents files.old) (λ known. AsksInOrder (FileIs known name.now) (F.asked files.old) (F.asked files.new)) }
    ensures told { IfSome (F.contents files.old) (λ known. Tells (λ bytes. bytes.items) (FileIs known name.now) (F.asked files.old) (F.asked files.new) result) }
    ensures limited { IfOk result (λ bytes. length bytes.items ≤ FILE) }
    ensures cause { HasCause (F.asked files.new) (F.faults files.old) (F.faults files.new) result }
    ensures about { IfErr result (IsAbout (name.now ∷ []) (F.asked files.new)) }
{
    match files.read_all(alloc, name, FILE) {
        Ok(bytes) => Ok(bytes),
        Err(FileError::NoMemory) => Err(Stop::Memory),
        Err(FileError::Failed) => Err(Stop::Unreadable(name)),
        Err(FileError::TooLong) => Err(Stop::TooLong(name)),
    }
}

/// The dictionary of these bytes, with its word files.
fn take_apart<'a, F: Files>(
    alloc: Global,
    files: &mut F,
    name: &'a str,
    bytes: &[u8],
) -> Result<Dict, Stop<'a>>
    ensures unchanged { F.contents files.new ≡ F.contents files.old }
    ensures asks { AsksMore (F.asked files.old) (F.asked files.new) }
    ensures names { IfSome (F.contents files.old) (λ known. AsksInOrder (DictionaryReads known name.now bytes.now) (F.asked files.old) (F.asked files.new)) }
    ensures told { IfSome (F.contents files.old) (λ known. Tells (λ d. d) (DictionaryReads known name.now bytes.now) (F.asked files.old) (F.asked files.new) result) }
    ensures cause { HasCause (F.asked files.new) (F.faults files.old) (F.faults files.new) result }
    ensures about { IfErr result (IsAbout (name.now ∷ []) (F.asked files.new)) }
{
    match read_dict(alloc, bytes, files) {
        Ok(entries) => match Dict::of(alloc, entries) {
            Ok(dict) => Ok(dict),
            Err(NoMemory) => Err(Stop::Memory),
        },
        Err(DictError::NoMemory) => Err(Stop::Memory),
        Err(error) => Err(Stop::Dictionary(name, error)),
    }
}
