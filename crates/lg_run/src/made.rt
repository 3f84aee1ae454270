//! A made session, and the sums over its answers.
ghost use Rattle.std.specs.Prelude.{◌≡◌, ◌≤◌, ◌^◌, ◌++◌, ◌∷◌, [], List, length, map, decimal, Ok, OnOk, IfOk};
ghost use Rattle.std.specs.List.{All, flat_map};
ghost use Rattle.lg_gram.specs.Linkages.{unlinked, total_length};
ghost use Rattle.lg_dictread.specs.Limits.{FILE};
ghost use Rattle.lg_dictread.specs.Texts.{Meaning, DictionaryGives, stands};
ghost use Rattle.lg_gen.specs.Accepted.{IsMade};
ghost use Rattle.lg_script.specs.Codes.{AreScripts};
ghost use Rattle.lg_script.specs.Commands.{CommandView, script_views};
ghost use Rattle.lg_script.specs.Scripts.{ScriptIs};
ghost use Rattle.lg_session.specs.Legal.{IsLegal, AnswersAll, run_of};
ghost use Rattle.lg_text.specs.Texts.{line_of};
ghost use Rattle.lg_answer.specs.Pages.{default_options};
ghost use Rattle.lg_run.specs.Answers.{Documents};
ghost use Rattle.lg_run.specs.Documents.{listings, no_knowledge, items_of};
ghost use Rattle.lg_run.specs.Inputs.{GenGiven, dictionary_from};
ghost use Rattle.lg_run.specs.MadeRuns.{first_of, sums_text, IsMadeDocument};
ghost use Rattle.lg_run.specs.Sums.{AreMade, EndsWithin, IsSmall, AreSums, AreSumsOf, AreAtMost, sum_lines};
ghost use Rattle.lg_run.specs.Written.{HasHaltCause};
ghost use Rattle.lg_gram.specs.declared.reply.Reply.{Reply as SeenReply};

use crate::lister::Lister;
use crate::outcome::{Halt, put};
use crate::sentence::no_knowledge;
use lg_answer::Options;
use lg_base::{MemFiles, NoMemory, Sink, write_bytes, write_number};
use lg_dict::Dict;
use lg_dictread::{exactly_one_dictionary, read_dict};
use lg_gen::{generate, made_input_is_accepted};
use lg_gram::{Linkage, PageItem, Replies, Reply};
use lg_script::{Commands, Scripts, exactly_one_script, read_script, scripts_keep_bounds};
use lg_session::{Gate, Outcome, WholeReplies, run_sessions};
use std::alloc::Global;
use std::thread::Threads;

/// Sums over the answers to parses.
#[derive(Clone, Copy, Debug, PartialEq, Eq)]
pub struct Sums {
    /// How many candidates were looked at.
    pub examined: u64,
    /// How many of them pass.
    pub shown: u64,
    /// The unlinked words of the first linkage that passes, of each answer.
    pub unused: u64,
    /// The lengths of that linkage's links.
    pub lengths: u64,
}

/// Writes the sums of a made session, in one piece. No file is read.
pub(crate) fn write_made<R: Threads + Sync, O: Sink, G: Gate>(
    rt: &R,
    alloc: Global,
    seed: u32,
    words: u32,
    sentences: u32,
    out: &mut O,
    gate: &G,
) -> Result<(), Halt>
    requires words { IsMade words }
    requires sentences { IsMade sentences }
    ensures written { Documents (GenGiven seed words sentences) (O.written out.old) (O.written out.new) result }
    ensures cause { HasHaltCause (O.faults out.old) (O.faults out.new) result }
{
    match made_document(rt, alloc, seed, words, sentences, gate) {
        Ok(text) => put(out, &text),
        Err(NoMemory) => Err(Halt::Memory),
    }
}

// The sums of a made session, as text.
fn made_document<R: Threads + Sync, G: Gate>(
    rt: &R,
    alloc: Global,
    seed: u32,
    words: u32,
    sentences: u32,
    gate: &G,
) -> Result<Vec<u8>, NoMemory>
    requires words { IsMade words }
    requires sentences { IsMade sentences }
    ensures { IfOk result (λ text. IsMadeDocument seed words sentences text.items) }
{
    let (dict, scripts) = made_inputs(alloc, seed, words, sentences)?;
    let outcome = answers(rt, alloc, &dict, &scripts, gate)?;
    let sums = sums_of(outcome.kept[0].items());
    text_of(alloc, seed, words, sentences, sums)
}

// The dictionary and the script that are made of the seed.
fn made_inputs(
    alloc: Global,
    seed: u32,
    words: u32,
    sentences: u32,
) -> Result<(Dict, Scripts), NoMemory>
    requires words { IsMade words }
    requires sentences { IsMade sentences }
    ensures { IfOk result (λ both. AreMade seed words sentences both.0 (script_views both.1)) }
{
    made_input_is_accepted();
    scripts_keep_bounds();
    let made = generate(alloc, seed, words, sentences)?;
    let dict = accepted_dictionary(alloc, made.dict.bytes())?;
    let scripts = accepted_script(alloc, made.script.bytes())?;
    Ok((dict, scripts))
}

// The dictionary of a text that stands for entries and asks for no word file, so that only out of memory is an error.
fn accepted_dictionary(alloc: Global, text: &[u8]) -> Result<Dict, NoMemory>
    requires { (entries : List Meaning) × DictionaryGives text.now [] (stands entries) }
    ensures { (entries : List Meaning) → DictionaryGives text.now [] (stands entries) → IfOk result (λ dict. dict ≡ dictionary_from entries) }
{
    exactly_one_dictionary();
    let mut files = MemFiles::new(alloc);
    match read_dict(alloc, text, &mut files) {
        Ok(entries) => Dict::of(alloc, entries),
        Err(_) => Err(NoMemory),
    }
}

// The one script of a text that stands for commands, so that only out of memory is an error.
fn accepted_script(alloc: Global, text: &[u8]) -> Result<Scripts, NoMemory>
    requires short { length text.now ≤ FILE }
    requires accepted { (commands : List CommandView) × ScriptIs text.now (Ok commands) }
    ensures { (commands : List CommandView) → ScriptIs text.now (Ok commands) → IfOk result (λ scripts. script_views scripts ≡ commands ∷ []) }
{
    exactly_one_script();
    scripts_keep_bounds();
    match read_script(alloc, text) {
        Ok(commands) => one_script(alloc, Commands::of(alloc, commands)?),
        Err(_) => Err(NoMemory),
    }
}

// The scripts of one session.
fn one_script(alloc: Global, commands: Commands) -> Result<Scripts, NoMemory>
    ensures { IfOk result (λ scripts. scripts ≡ commands ∷ []) }
{
    let mut scripts = Vec::new(alloc);
    scripts.push(commands)?;
    Ok(Scripts::of(scripts))
}

// What the scripts are answered, without knowledge and with the usual options.
fn answers<R: Threads + Sync, G: Gate>(
    rt: &R,
    alloc: Global,
    dict: &Dict,
    scripts: &Scripts,
    gate: &G,
) -> Result<Outcome<Replies>, NoMemory>
    requires scripts { AreScripts (script_views scripts.now) }
    ensures legal { IfOk result (λ outcome. IsLegal (run_of (listings no_knowledge default_options) scripts.now dict.now outcome.journal) outcome.kept.items) }
    ensures whole { IfOk result (λ outcome. AnswersAll (script_views scripts.now) outcome.kept.items) }
{
    let know = no_knowledge(alloc);
    let lister = Lister::new(&know, Options::default());
    run_sessions(rt, alloc, dict, scripts, &lister, gate, &WholeReplies)
}

// The sums over answers.
fn sums_of(replies: &[Reply]) -> Sums
    requires few { length replies.now ≤ 100000 }
    requires small { All IsSmall replies.now }
    ensures { AreSums replies.now result }
{
    let mut sums = Sums {
        examined: 0,
        shown: 0,
        unused: 0,
        lengths: 0,
    };
    for reply in replies {
        let more = sums_in(reply);
        sums = Sums {
            examined: sums.examined + more.examined,
            shown: sums.shown + more.shown,
            unused: sums.unused + more.unused,
            lengths: sums.lengths + more.lengths,
        };
    }
    sums
}

// What an answer adds to the sums.
fn sums_in(reply: &Reply) -> Sums
    requires { IsSmall reply.now }
    ensures sums { AreSumsOf (items_of reply.now) result }
    ensures small { AreAtMost 1 result }
{
    let items = items_in(reply);
    let (unused, lengths) = first_measures(items);
    Sums {
        examined: items.len() as u64,
        shown: items.iter().filter(|item| item.broken.is_none()).count() as u64,
        unused,
        lengths,
    }
}

/// The candidates that the answer shows.
pub(crate) fn items_in(reply: &Reply) -> &[PageItem]
    ensures { result.now ≡ items_of reply.now }
{
    match reply {
        Reply::Listed { page, .. } => page.items.items(),
        _ => &[],
    }
}

// The unlinked words and the length of the first linkage that passes, or zeros where none does.
fn first_measures(items: &[PageItem]) -> (u64, u64)
    requires { All (λ item. EndsWithin item.linkage) items.now }
    ensures unused { result.0 ≡ first_of unlinked items.now }
    ensures lengths { result.1 ≡ first_of total_length items.now }
    ensures small { (result.0 ≤ 2 ^ 32) × (result.1 ≤ 2 ^ 40) }
{
    for item in items {
        if item.broken.is_none() {
            let unused = u64::from(item.linkage.unused());
            return (unused, length_of(&item.linkage));
        }
    }
    (0, 0)
}

// The sum of the lengths of the links, of which there are fewer than 2^32, each no longer than 252.
fn length_of(linkage: &Linkage) -> u64
    requires { EndsWithin linkage.now }
    ensures value { result ≡ total_length linkage.now }
    ensures small { result ≤ 2 ^ 40 }
{
    let _ = linkage.links();
    linkage.length()
}

// The text of the sums.
fn text_of(
    alloc: Global,
    seed: u32,
    words: u32,
    sentences: u32,
    sums: Sums,
) -> Result<Vec<u8>, NoMemory>
    ensures { (replies : List SeenReply) → AreSums replies sums → IfOk result (λ text. text.items ≡ sums_text seed words sentences replies) }
{
    let asked = [u64::from(seed), u64::from(words), u64::from(sentences)];
    let mut out = Vec::new(alloc);
    write_line(&mut out, b"gen", &asked)?;
    write_line(&mut out, b"sentences", &[u64::from(sentences)])?;
    write_sums(&mut out, sums)?;
    Ok(out)
}

// Appends a line for each sum.
fn write_sums(out: &mut Vec<u8>, sums: Sums) -> Result<(), NoMemory>
    ensures { OnOk result (out.new.items ≡ out.old.items ++ sum_lines sums) }
{
    write_line(out, b"examined", &[sums.examined])?;
    write_line(out, b"shown", &[sums.shown])?;
    write_line(out, b"unused", &[sums.unused])?;
    write_line(out, b"length", &[sums.lengths])?;
    Ok(())
}

// Appends a line with a word and numbers behind it.
fn write_line(out: &mut Vec<u8>, word: &[u8], numbers: &[u64]) -> Result<(), NoMemory>
    ensures { OnOk result (out.new.items ≡ out.old.items ++ line_of (word.now ∷ map decimal numbers.now)) }
{
    write_bytes(out, word)?;
    write_numbers(out, numbers)?;
    write_bytes(out, b"\n")?;
    Ok(())
}

// Appends the numbers, each behind a space.
fn write_numbers(out: &mut Vec<u8>, numbers: &[u64]) -> Result<(), NoMemory>
    ensures { OnOk result (out.new.items ≡ out.old.items ++ flat_map (λ n. 32 ∷ decimal n) numbers.now) }
{
    for number in numbers {
        write_bytes(out, b" ")?;
        write_number(out, *number)?;
    }
    Ok(())
}
