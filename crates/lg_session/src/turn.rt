//! The turns of a session: a command and its answer.
ghost use Rattle.std.specs.Prelude.{◌≡◌, ◌+◌, true, List, Some, IfOk, IfSome, IsSome};
ghost use Rattle.lg_dict.specs.Dictionary.{Dictionary};
ghost use Rattle.lg_edit.specs.Edits.{EditView, edit_view};
ghost use Rattle.lg_log.specs.Codes.{is_code, code_session};
ghost use Rattle.lg_script.specs.Bounds.{IsSentence, IsCount, IsInBounds};
ghost use Rattle.lg_script.specs.Commands.{CommandView, command_view, goes_on, makes, script_views};
ghost use Rattle.lg_script.specs.EditNumbers.{edit_counts};
ghost use Rattle.lg_script.specs.Histories.{command_at};
ghost use Rattle.lg_session.specs.Answering.{IsAnswered, IsMade, Answers, GivesNextPage};
ghost use Rattle.lg_script.specs.Codes.{AreScripts, place_of, code_after};
ghost use Rattle.lg_core.specs.declared.state.Actor.{Actor};
ghost use Rattle.lg_session.specs.Legal.{AsksFor};
ghost use Rattle.lg_session.specs.Paths.{StandsFor, TakesSteps};
ghost use Rattle.lg_session.specs.Turns.{Story, HasCome, IsAt, MayGoOn, Turned, place_in};

use crate::edits::publish;
use crate::engine::{Engine, Opening};
use crate::learning::caught_up;
use crate::session::Session;
use lg_base::{NoMemory, Text};
use lg_edit::Edit;
use lg_gram::Reply;
use lg_log::{Log, code};
use lg_script::{Command, Scripts, place_laws};
use std::alloc::Global;
use std::thread::Threads;

/// Answers the next command of a session. All but `more` look first until the end of the history was met. The only error is running
/// out of memory, and then the session is gone.
///
/// By `steps` it makes steps of the core (`lg_core`), one after another: each look, and each code that it writes, is one.
pub fn turn<'a, R: Threads + Sync, E: Engine>(
    rt: &R,
    alloc: Global,
    scripts: &Scripts,
    engine: &E,
    log: &Log,
    state: Session<'a, E::Held>,
) -> Result<(Session<'a, E::Held>, Reply), NoMemory>
    requires scripts { AreScripts (script_views scripts.now) }
    requires log { log.now.counts ≡ edit_counts (script_views scripts.now) }
    requires at { IsAt log.now (script_views scripts.now) state }
    requires next { IsSome (command_at (script_views scripts.now) (place_in state)) }
    requires held { MayGoOn (E.stands engine.now) state.held }
    ensures at { IfOk result (λ r. IsAt log.now (script_views scripts.now) r.0) }
    ensures turned { (story : Story) (command : CommandView) → story.scripts ≡ script_views scripts.now → command_at story.scripts (place_in state.entry) ≡ Some command → HasCome (E.stands engine.now) story state.entry
        → IfOk result (Turned (E.meaning engine.now) (E.stands engine.now) story state.entry command) }
    ensures steps { (base : Dictionary) (actors : List Actor) → StandsFor (script_views scripts.now) base state.entry actors → IfOk result (TakesSteps (script_views scripts.now) base state.entry actors) }
{
    let (mut session, reply) = answer(rt, alloc, scripts, engine, log, state)?;
    session.place += 1;
    Ok((session, reply))
}

// Answers the next command, and does not count it yet.
fn answer<'a, R: Threads + Sync, E: Engine>(
    rt: &R,
    alloc: Global,
    scripts: &Scripts,
    engine: &E,
    log: &Log,
    state: Session<'a, E::Held>,
) -> Result<(Session<'a, E::Held>, Reply), NoMemory>
    requires scripts { AreScripts (script_views scripts.now) }
    requires log { log.now.counts ≡ edit_counts (script_views scripts.now) }
    requires at { IsAt log.now (script_views scripts.now) state }
    requires next { IsSome (command_at (script_views scripts.now) (place_in state)) }
    requires held { MayGoOn (E.stands engine.now) state.held }
    ensures { (story : Story) → story.scripts ≡ script_views scripts.now → IfOk result (Answers (E.meaning engine.now) (E.stands engine.now) story state.entry) }
{
    match next_command(scripts, state.session, state.place) {
        Command::Parse(text) => {
            let state = caught_up(alloc, scripts, log, state)?;
            open(rt, alloc, engine, state, text, 1, None)
        }
        Command::List(first, want, text) => {
            let state = caught_up(alloc, scripts, log, state)?;
            open(rt, alloc, engine, state, text, *first, Some(*want))
        }
        Command::More => go_on(alloc, engine, state),
        Command::Edit(edit) => make(alloc, scripts, log, state, edit),
        Command::Version => {
            let state = caught_up(alloc, scripts, log, state)?;
            let version = state.pass.seen().len() as u64;
            Ok((state, Reply::At { version }))
        }
    }
}

// The command of a session after so many.
fn next_command(scripts: &Scripts, session: u32, place: u32) -> &Command
    requires scripts { AreScripts (script_views scripts.now) }
    requires next { IsSome (command_at (script_views scripts.now) (record { session = session + 1; command = place + 1 })) }
    ensures command { command_at (script_views scripts.now) (record { session = session + 1; command = place + 1 }) ≡ Some (command_view result.now) }
    ensures bounds { IsInBounds (command_view result.now) }
{
    place_laws();
    let commands = &scripts.items()[session as usize];
    &commands.items()[place as usize]
}

// Lists a sentence by the dictionary as it is now. The listing is held, and past a bound none is.
fn open<'a, R: Threads + Sync, E: Engine>(
    rt: &R,
    alloc: Global,
    engine: &E,
    mut state: Session<'a, E::Held>,
    text: &Text,
    first: u64,
    want: Option<u64>,
) -> Result<(Session<'a, E::Held>, Reply), NoMemory>
    requires text { IsSentence text.now }
    requires first { IsCount first }
    requires want { IfSome want IsCount }
    ensures { (command : CommandView) → AsksFor command text.now first want → IfOk result (IsAnswered (E.meaning engine.now) (E.stands engine.now) state.entry command) }
{
    let version = state.pass.seen().len() as u64;
    let opening = engine.begin(rt, alloc, &state.view, text, first, want)?;
    match opening {
        Opening::Listed {
            held,
            tokens,
            page,
            stats,
        } => {
            state.held = Some((version, held));
            let reply = Reply::Listed {
                version,
                tokens,
                page,
                stats: Some(stats),
            };
            Ok((state, reply))
        }
        Opening::Beyond(bound) => {
            state.held = None;
            Ok((state, Reply::Beyond { version, bound }))
        }
    }
}

// Goes on with the listing that is held, by the dictionary that it began with. It does not look.
fn go_on<'a, E: Engine>(
    alloc: Global,
    engine: &E,
    state: Session<'a, E::Held>,
) -> Result<(Session<'a, E::Held>, Reply), NoMemory>
    requires { MayGoOn (E.stands engine.now) state.held }
    ensures { IfOk result (IsAnswered (E.meaning engine.now) (E.stands engine.now) state.entry goes_on) }
{
    let Session {
        session,
        place,
        pass,
        view,
        held,
    } = state;
    let (held, reply) = next_page(alloc, engine, held)?;
    let state = Session {
        session,
        place,
        pass,
        view,
        held,
    };
    Ok((state, reply))
}

// The next page of the listing that is held, if there is one.
fn next_page<E: Engine>(
    alloc: Global,
    engine: &E,
    held: Option<(u64, E::Held)>,
) -> Result<(Option<(u64, E::Held)>, Reply), NoMemory>
    requires { MayGoOn (E.stands engine.now) held }
    ensures { IfOk result (GivesNextPage (E.meaning engine.now) (E.stands engine.now) held) }
{
    match held {
        Some((version, held)) => {
            let (held, tokens, page) = engine.more(alloc, held)?;
            let reply = Reply::Listed {
                version,
                tokens,
                page,
                stats: None,
            };
            Ok((Some((version, held)), reply))
        }
        None => Ok((None, Reply::NoListing)),
    }
}

// Publishes the edit at the session's place, or tells why it is refused.
fn make<'a, H: Drop>(
    alloc: Global,
    scripts: &Scripts,
    log: &Log,
    state: Session<'a, H>,
    edit: &Edit,
) -> Result<(Session<'a, H>, Reply), NoMemory>
    requires scripts { AreScripts (script_views scripts.now) }
    requires counts { log.now.counts ≡ edit_counts (script_views scripts.now) }
    requires at { IsAt log.now (script_views scripts.now) state }
    requires next { command_at (script_views scripts.now) (place_in state) ≡ Some (makes (edit_view edit.now)) }
    requires bounds { IsInBounds (makes (edit_view edit.now)) }
    ensures { IfOk result (IsMade (script_views scripts.now) (edit_view edit.now) state.entry) }
{
    let Session {
        session,
        place,
        mut pass,
        mut view,
        held,
    } = state;
    let code = code_at(scripts, session, place);
    let reply = publish(alloc, scripts, log, &mut pass, &mut view, code, edit)?;
    let state = Session {
        session,
        place,
        pass,
        view,
        held,
    };
    Ok((state, reply))
}

// The code of the edit that comes after so many commands of a session.
fn code_at(scripts: &Scripts, session: u32, place: u32) -> u64
    requires scripts { AreScripts (script_views scripts.now) }
    requires edit { (edit : EditView) × (command_at (script_views scripts.now) (record { session = session + 1; command = place + 1 }) ≡ Some (makes edit)) }
    ensures code { is_code (edit_counts (script_views scripts.now)) result ≡ true }
    ensures session { code_session result ≡ session }
    ensures at { place_of (script_views scripts.now) result ≡ record { session = session + 1; command = place + 1 } }
    ensures counted_so { result ≡ code_after (script_views scripts.now) session place }
{
    place_laws();
    code(
        session,
        scripts.items()[session as usize].edits_before(place),
    )
}
