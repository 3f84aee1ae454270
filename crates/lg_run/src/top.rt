//! The top call.
ghost use Rattle.std.specs.Prelude.{◌≡◌, ◌↔◌, ◌≤◌, ◌++◌, length, IfSome, OnOk, map, string_bytes};
ghost use Rattle.std.specs.Io.KnownBytes.{Appends};
ghost use Rattle.lg_base.specs.Faults.{Rose};
ghost use Rattle.lg_base.specs.Sinks.{AppendsFront, HasWriteCause};
ghost use Rattle.lg_script.specs.Commands.{script_views};
ghost use Rattle.lg_run.specs.Words.{SENTENCE, AreInRange};
ghost use Rattle.lg_run.specs.Inputs.{OneGiven, RunGiven, AuditGiven};
ghost use Rattle.lg_run.specs.Lines.{line_about};
ghost use Rattle.lg_run.specs.Reads.{AsksInOrder, AsksMore, given_in};
ghost use Rattle.lg_run.specs.Written.{HasHaltCause};
ghost use Rattle.lg_run.specs.Shown.{ShowsWhatItSays};
ghost use Rattle.lg_run.specs.Stops.{dict_status, SaysOf, EndsAs, EndsWithLine};
ghost use Rattle.lg_run.specs.Answers.{WhereTold, IsNoTask, Unwritten, Caused, Told, AnswersRefused, AnswersAccepted, WritesLine, WritesLineFront, Finishes, Documents, last_line, IsStopped, IsGivenInBounds};

use crate::audit::audit_text;
use crate::command::command_of;
use crate::inputs::{Inputs, read_inputs};
use crate::law::{documents_show, inputs_have_one_verdict, words_have_one_task};
use crate::line::{dict_line, edits_line, know_line, quote_line, script_line, versions_line};
use crate::lister::Lister;
use crate::made::write_made;
use crate::matched::read_setup;
use crate::outcome::{Halt, put, write_outcome};
use crate::printer::Printer;
use crate::sentence::document;
use crate::setup::Setup;
use crate::status::Status;
use crate::stop::Stop;
use crate::usage::usage_lines;
use lg_base::{Files, NoMemory, Sink, SinkFault};
use lg_dict::Dict;
use lg_dictread::{DictError, WordFileError};
use lg_knowread::Knowledge;
use lg_script::Scripts;
use lg_session::{Gate, run_sessions};
use std::alloc::Global;
use std::thread::Threads;

/// Does all that the program does: reads the files that the words name, and once all of them are accepted writes the document
/// to `out`: that of a run one piece an answer and a last one for the journal, and every other in one piece. Every status but
/// Done has one line on `err`; a fault of `err` changes no status.
///
/// `words` is the command line without the program's name. The gate is called before each command of each session; it does not
/// affect what is written.
///
/// However it ends, the files have their contents still; the names asked and the counts of faults may have grown, and each sink
/// may have got a front part of what was to be written.
pub fn run<R: Threads + Sync, F: Files, O: Sink, E: Sink, G: Gate>(
    rt: &R,
    alloc: Global,
    words: &[String],
    files: &mut F,
    out: &mut O,
    err: &mut E,
    gate: &G,
) -> Status
    // The words alone decide this, whatever memory is left.
    ensures usage { result ≡ Status.Usage ↔ IsNoTask (map string_bytes words.now) }
    ensures reads_nothing { result ≡ Status.Usage → F.asked files.new ≡ F.asked files.old }

    // Where the files tell what they hold: what was asked, what comes of the inputs, and what was written.
    ensures names { WhereTold (F.contents files.old) (map string_bytes words.now) (λ inputs.
        AsksInOrder inputs (F.asked files.old) (F.asked files.new)) }
    ensures told { WhereTold (F.contents files.old) (map string_bytes words.now) (λ inputs.
        Told inputs (F.asked files.old) (F.asked files.new) (O.written out.old) (O.written out.new) result) }

    // A fault has its cause, and nothing is written before all input is accepted.
    ensures caused { Caused result (F.faults files.old) (F.faults files.new) (O.faults out.old) (O.faults out.new) }
    ensures unwritten { Unwritten result (O.written out.old) (O.written out.new) }

    // Without a fault, a text that is refused is told and inputs that are accepted are answered, but where memory ran out.
    ensures refused { WhereTold (F.contents files.old) (map string_bytes words.now) (λ inputs.
        AnswersRefused inputs (¬ Rose (F.faults files.old) (F.faults files.new)) result) }
    ensures complete { WhereTold (F.contents files.old) (map string_bytes words.now) (λ inputs.
        AnswersAccepted inputs (¬ Rose (F.faults files.old) (F.faults files.new)) (¬ Rose (O.faults out.old) (O.faults out.new)) result) }

    // What was written of a run shows its journal and the place, the kind and the version of each answer.
    ensures shown { IfSome (F.contents files.old) (λ known.
        ShowsWhatItSays known (map string_bytes words.now) (O.written out.old) (O.written out.new) result) }

    // Each status has its line.
    ensures line { ¬ Rose (E.faults err.old) (E.faults err.new) →
        WritesLine (F.contents files.old) (map string_bytes words.now) (F.asked files.old) (F.asked files.new) result (E.written err.old) (E.written err.new) }

    // However it ends: the files have their contents still, the names asked only grow, no count of faults falls, and a front
    // part of the line was written.
    ensures unchanged { F.contents files.new ≡ F.contents files.old }
    ensures asks { AsksMore (F.asked files.old) (F.asked files.new) }
    ensures file_faults { F.faults files.old ≤ F.faults files.new }
    ensures out_faults { O.faults out.old ≤ O.faults out.new }
    ensures err_faults { E.faults err.old ≤ E.faults err.new }
    ensures line_front { WritesLineFront (F.contents files.old) (map string_bytes words.now) (F.asked files.old) (F.asked files.new) result (E.written err.old) (E.written err.new) }
{
    inputs_have_one_verdict();
    words_have_one_task();
    documents_show();
    let Some(command) = command_of(words) else {
        return fail(err, Status::Usage, USAGE);
    };
    let Ok(setup) = read_setup(alloc, command.options()) else {
        return fail(err, Status::NoMemory, MEMORY);
    };
    match read_inputs(alloc, files, setup, command) {
        Ok(inputs) => finish(rt, alloc, &inputs, out, err, gate),
        Err(stop) => refuse(alloc, err, stop),
    }
}

// Writes the document of a command that has its inputs in hand.
fn finish<R: Threads + Sync, O: Sink, E: Sink, G: Gate>(
    rt: &R,
    alloc: Global,
    inputs: &Inputs<'_>,
    out: &mut O,
    err: &mut E,
    gate: &G,
) -> Status
    requires bounds { IsGivenInBounds (given_in inputs.now) }
    ensures told { Finishes (given_in inputs.now) result (O.written out.old) (O.written out.new) }
    ensures caused { result ≡ Status.WriteFault → Rose (O.faults out.old) (O.faults out.new) }
    ensures line { ¬ Rose (E.faults err.old) (E.faults err.new) →
        Appends (E.written err.old) (E.written err.new) (last_line result) }
    ensures line_front { AppendsFront (E.written err.old) (E.written err.new) (last_line result) }
    ensures out_faults { O.faults out.old ≤ O.faults out.new }
    ensures err_faults { E.faults err.old ≤ E.faults err.new }
{
    match write_document(rt, alloc, inputs, out, gate) {
        Ok(()) => Status::Done,
        Err(Halt::Output) => fail(err, Status::WriteFault, OUTPUT),
        Err(Halt::Memory) => fail(err, Status::NoMemory, MEMORY),
    }
}

// Writes the document of a command.
fn write_document<R: Threads + Sync, O: Sink, G: Gate>(
    rt: &R,
    alloc: Global,
    inputs: &Inputs<'_>,
    out: &mut O,
    gate: &G,
) -> Result<(), Halt>
    requires bounds { IsGivenInBounds (given_in inputs.now) }
    ensures written { Documents (given_in inputs.now) (O.written out.old) (O.written out.new) result }
    ensures cause { HasHaltCause (O.faults out.old) (O.faults out.new) result }
{
    match inputs {
        Inputs::One {
            setup,
            dict,
            sentence,
        } => write_sentence(rt, alloc, *setup, dict, sentence, out),
        Inputs::Run {
            setup,
            dict,
            know,
            scripts,
        } => write_sessions(rt, alloc, *setup, dict, know, scripts, out, gate),
        Inputs::Gen {
            seed,
            words,
            sentences,
        } => write_made(rt, alloc, *seed, *words, *sentences, out, gate),
        Inputs::Export { text } => put(out, text),
        Inputs::Audit {
            dict,
            know,
            scripts,
            document,
        } => write_audit(alloc, dict, know, scripts, document, out),
    }
}

// Writes the page of a sentence.
fn write_sentence<R: Threads + Sync, O: Sink>(
    rt: &R,
    alloc: Global,
    setup: Setup,
    dict: &Dict,
    sentence: &str,
    out: &mut O,
) -> Result<(), Halt>
    requires short { length sentence.now ≤ SENTENCE }
    requires range { AreInRange setup }
    ensures written { Documents (OneGiven setup dict.now sentence.now) (O.written out.old) (O.written out.new) result }
    ensures cause { HasHaltCause (O.faults out.old) (O.faults out.new) result }
{
    match document(rt, alloc, setup, dict, sentence) {
        Ok(text) => put(out, &text),
        Err(NoMemory) => Err(Halt::Memory),
    }
}

// Runs the sessions, and writes what they are answered, with the totals of usage if they are asked for.
fn write_sessions<R: Threads + Sync, O: Sink, G: Gate>(
    rt: &R,
    alloc: Global,
    setup: Setup,
    dict: &Dict,
    know: &Knowledge,
    scripts: &Scripts,
    out: &mut O,
    gate: &G,
) -> Result<(), Halt>
    requires bounds { IsGivenInBounds (RunGiven setup dict.now know.now (script_views scripts.now)) }
    ensures written { Documents (RunGiven setup dict.now know.now (script_views scripts.now)) (O.written out.old) (O.written out.new) result }
    ensures cause { HasHaltCause (O.faults out.old) (O.faults out.new) result }
{
    let lister = Lister::new(know, setup.listing);
    let printer = Printer {
        look: setup.look,
        usage: setup.usage,
    };
    let Ok(outcome) = run_sessions(rt, alloc, dict, scripts, &lister, gate, &printer) else {
        return Err(Halt::Memory);
    };
    match usage_lines(alloc, setup.usage, outcome.kept.as_slice()) {
        Ok(lines) => write_outcome(alloc, &outcome, &lines, out),
        Err(NoMemory) => Err(Halt::Memory),
    }
}

// Writes the line of an audit.
fn write_audit<O: Sink>(
    alloc: Global,
    dict: &Dict,
    know: &Knowledge,
    scripts: &Scripts,
    document: &[u8],
    out: &mut O,
) -> Result<(), Halt>
    requires bounds { IsGivenInBounds (AuditGiven dict.now know.now (script_views scripts.now) document.now) }
    ensures written { Documents (AuditGiven dict.now know.now (script_views scripts.now) document.now) (O.written out.old) (O.written out.new) result }
    ensures cause { HasHaltCause (O.faults out.old) (O.faults out.new) result }
{
    match audit_text(alloc, dict, know, scripts, document) {
        Ok(text) => put(out, &text),
        Err(NoMemory) => Err(Halt::Memory),
    }
}

const USAGE: &[u8] = b"lgparse: the words are not a command of this program\n";

const OUTPUT: &[u8] = b"lgparse: cannot write the output\n";

const MEMORY: &[u8] = b"lgparse: out of memory\n";

// The status, after its line as far as the sink takes it.
fn fail<E: Sink>(err: &mut E, status: Status, line: &[u8]) -> Status
    ensures status { result ≡ status }
    ensures line { ¬ Rose (E.faults err.old) (E.faults err.new) →
        Appends (E.written err.old) (E.written err.new) line.now }
    ensures front { AppendsFront (E.written err.old) (E.written err.new) line.now }
    ensures err_faults { E.faults err.old ≤ E.faults err.new }
{
    let _ = err.put(line);
    status
}

// The status where reading the inputs failed, after its line as far as the sink takes it. Where there is no memory for the line
// memory ran out.
fn refuse<E: Sink>(alloc: Global, err: &mut E, stop: Stop<'_>) -> Status
    ensures stopped { IsStopped result }
    ensures line { EndsAs stop.entry result (¬ Rose (E.faults err.old) (E.faults err.new)) (E.written err.old) (E.written err.new) }
    ensures err_faults { E.faults err.old ≤ E.faults err.new }
{
    match stop {
        Stop::Memory => fail(err, Status::NoMemory, MEMORY),
        Stop::Unreadable(name) => {
            fail_about(
                err,
                Status::ReadFault,
                b"lgparse: cannot read ",
                name,
                b"\n",
            )
        }
        Stop::TooLong(name) => {
            let back = b" is longer than 67108864 bytes\n";
            fail_about(err, Status::BadInput, b"lgparse: ", name, back)
        }
        Stop::Dictionary(name, error) => {
            let line = dict_line(alloc, name.as_bytes(), &error);
            fail_with(err, dict_status(&error), line)
        }
        Stop::Knowledge(name, error) => {
            let line = know_line(alloc, name.as_bytes(), error);
            fail_with(err, Status::BadInput, line)
        }
        Stop::Script(name, error) => {
            let line = script_line(alloc, name.as_bytes(), error);
            fail_with(err, Status::BadInput, line)
        }
        Stop::TooManyEdits(name) => {
            let line = edits_line(alloc, name.as_bytes());
            fail_with(err, Status::BadInput, line)
        }
        Stop::TooFewVersions(name, count) => {
            let line = versions_line(alloc, name.as_bytes(), count);
            fail_with(err, Status::BadInput, line)
        }
        Stop::Quoted(name, word) => {
            let line = quote_line(alloc, name.as_bytes(), word.bytes());
            fail_with(err, Status::BadInput, line)
        }
    }
}

// The status, after a line about the file of this name as far as the sink takes it.
fn fail_about<E: Sink>(err: &mut E, status: Status, front: &[u8], name: &str, back: &[u8]) -> Status
    ensures line { SaysOf result status (¬ Rose (E.faults err.old) (E.faults err.new)) (E.written err.old) (E.written err.new) (line_about front.now name.now back.now) }
    ensures err_faults { E.faults err.old ≤ E.faults err.new }
{
    let _ = put_line(err, front, name, back);
    status
}

// The status, after its line as far as the sink takes it. Where there is no memory for the line, memory ran out.
fn fail_with<E: Sink>(err: &mut E, status: Status, line: Result<Vec<u8>, NoMemory>) -> Status
    ensures line { EndsWithLine result status line (¬ Rose (E.faults err.old) (E.faults err.new)) (E.written err.old) (E.written err.new) }
    ensures err_faults { E.faults err.old ≤ E.faults err.new }
{
    match line {
        Ok(line) => fail(err, status, &line),
        Err(NoMemory) => fail(err, Status::NoMemory, MEMORY),
    }
}

// A word file that cannot be read is a read fault, and each other error is one of the text.
fn dict_status(error: &DictError) -> Status
    ensures status { result ≡ dict_status error.now }
    ensures stopped { IsStopped result }
{
    match error {
        DictError::WordFile(_, _, WordFileError::Failed) => Status::ReadFault,
        _ => Status::BadInput,
    }
}

fn put_line<E: Sink>(err: &mut E, front: &[u8], name: &str, back: &[u8]) -> Result<(), SinkFault>
    ensures whole { OnOk result (Appends (E.written err.old) (E.written err.new) (front.now ++ (name.now ++ back.now))) }
    ensures front { AppendsFront (E.written err.old) (E.written err.new) (front.now ++ (name.now ++ back.now)) }
    ensures cause { HasWriteCause (E.faults err.old) (E.faults err.new) result }
{
    err.put(front)?;
    err.put(name.as_bytes())?;
    err.put(back)?;
    Ok(())
}
