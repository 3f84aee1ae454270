//! The steps of the core.
ghost use Rattle.std.specs.Prelude.{◌≡◌, ◌+◌, ◌<◌, ◌^◌, ◌++◌, [], ◌∷◌, length, IfOk, OnOk, OnErr};
ghost use Rattle.lg_dict.specs.Dictionary.{Dictionary};
ghost use Rattle.lg_script.specs.Codes.{AreScripts};
ghost use Rattle.lg_script.specs.Commands.{script_views};
ghost use Rattle.lg_core.specs.Core.{IsCore, AreActors, IsStep};
ghost use Rattle.lg_core.specs.Steps.{held_after};
ghost use Rattle.lg_core.specs.declared.event.Event.TheVariants.{Look, Learn, Publish, More};

use crate::event::{Event, Stepped};
use crate::look::{Looked, look_at_end};
use crate::next::{next, next_at_end};
use crate::note::NoteKind;
use crate::state::{Actor, Core, Hold};
use lg_base::{Codes, NoMemory};
use lg_dict::Dict;
use lg_log::code;
use lg_script::{Command, Scripts, place_laws};
use std::alloc::Global;
use std::mem;

/// Makes one step, if it can happen. It has one outcome.
///
/// There are 1 to 64 scripts with at most 100,000 edits in all, each with fewer than 2^32 commands within their bounds, and the core has
/// an actor for each. The dictionary of a version is made anew from the base for each step that needs it. The only error is running out
/// of memory, and then the core is unchanged.
pub fn step(
    alloc: Global,
    base: &Dict,
    scripts: &Scripts,
    core: &mut Core,
    event: Event,
) -> Result<Stepped, NoMemory>
    requires scripts { AreScripts (script_views scripts.now) }
    requires core { IsCore (script_views scripts.now) base.now core.old }
    ensures done { IfOk result (IsStep (script_views scripts.now) base.now core.old event core.new) }
    ensures kept { OnOk result (IsCore (script_views scripts.now) base.now core.new) }
    ensures unchanged { OnErr result (core.new ≡ core.old) }
{
    place_laws();
    match event {
        Event::Look(session) => look(alloc, base, scripts, core, session),
        Event::Learn(session) => Ok(learn(scripts, core, session)),
        Event::Publish(session) => publish(alloc, base, scripts, core, session),
        Event::More(session) => Ok(more(scripts, core, session)),
    }
}

// A look at the end of the history.
fn look(
    alloc: Global,
    base: &Dict,
    scripts: &Scripts,
    core: &mut Core,
    session: u32,
) -> Result<Stepped, NoMemory>
    requires scripts { AreScripts (script_views scripts.now) }
    requires core { IsCore (script_views scripts.now) base.now core.old }
    ensures done { IfOk result (IsStep (script_views scripts.now) base.now core.old (Look session) core.new) }
    ensures unchanged { OnErr result (core.new ≡ core.old) }
{
    let Some((actor, command)) = next_at_end(scripts, core, session) else {
        return Ok(Stepped::NotEnabled);
    };
    place_laws();
    match look_at_end(alloc, base, scripts, core, command)? {
        Looked::Waits => Ok(Stepped::NotEnabled),
        Looked::Accepted => Ok(Stepped::Done(None)),
        Looked::Ends(kind) => {
            let held = held_after(actor, kind);
            let note = core.end(session, actor, held, actor.seen, kind);
            Ok(Stepped::Done(Some(note)))
        }
    }
}

// What an actor holds after a look that ends its command so.
fn held_after(actor: Actor, kind: NoteKind) -> Option<Hold>
    requires { actor.place + 1 < 2 ^ 32 }
    ensures { result ≡ held_after actor kind }
{
    match kind {
        NoteKind::Listed => Some(Hold {
            version: actor.seen,
            command: actor.place + 1,
            mores: 0,
        }),
        NoteKind::Beyond => None,
        _ => actor.held,
    }
}

// A look that finds one code more.
fn learn(scripts: &Scripts, core: &mut Core, session: u32) -> Stepped
    ensures { (base : Dictionary) → IsStep (script_views scripts.now) base core.old (Learn session) core.new result }
{
    let Some((actor, _)) = next(scripts, core, session) else {
        return Stepped::NotEnabled;
    };
    if actor.seen >= core.version() {
        return Stepped::NotEnabled;
    }
    let seen = actor.seen + 1;
    core.actors.set(session, Actor { seen, ..actor });
    Stepped::Done(None)
}

// Publishes an edit that the newest version accepts.
fn publish(
    alloc: Global,
    base: &Dict,
    scripts: &Scripts,
    core: &mut Core,
    session: u32,
) -> Result<Stepped, NoMemory>
    requires scripts { AreScripts (script_views scripts.now) }
    requires core { IsCore (script_views scripts.now) base.now core.old }
    ensures done { IfOk result (IsStep (script_views scripts.now) base.now core.old (Publish session) core.new) }
    ensures unchanged { OnErr result (core.new ≡ core.old) }
{
    let Some((actor, command)) = next_at_end(scripts, core, session) else {
        return Ok(Stepped::NotEnabled);
    };
    place_laws();
    let Looked::Accepted = look_at_end(alloc, base, scripts, core, command)? else {
        return Ok(Stepped::NotEnabled);
    };
    let index = scripts.items()[session as usize].edits_before(actor.place);
    append(alloc, &mut core.history, code(session, index))?;
    let seen = core.version();
    let actor = Actor { seen, ..actor };
    let note = core.end(session, actor, actor.held, seen, NoteKind::Published);
    Ok(Stepped::Done(Some(note)))
}

// Appends a code. Out of memory, the history is unchanged.
fn append(alloc: Global, history: &mut Codes, code: u64) -> Result<(), NoMemory>
    ensures appended { OnOk result (history.new ≡ history.old ++ code ∷ []) }
    ensures unchanged { OnErr result (history.new ≡ history.old) }
{
    let mut codes = mem::replace(history, Codes::of(Vec::new(alloc))).into_items();
    let pushed = codes.push(code);
    *history = Codes::of(codes);
    pushed?;
    Ok(())
}

// Goes on with the listing that is held.
fn more(scripts: &Scripts, core: &mut Core, session: u32) -> Stepped
    requires scripts { AreScripts (script_views scripts.now) }
    requires same_length { length core.old.actors ≡ length (script_views scripts.now) }
    requires actors { AreActors (script_views scripts.now) core.old }
    ensures { (base : Dictionary) → IsStep (script_views scripts.now) base core.old (More session) core.new result }
{
    let Some((actor, command)) = next(scripts, core, session) else {
        return Stepped::NotEnabled;
    };
    let Command::More = command else {
        return Stepped::NotEnabled;
    };
    let note = match actor.held {
        Some(hold) => {
            let mores = hold.mores + 1;
            let held = Some(Hold { mores, ..hold });
            core.end(session, actor, held, hold.version, NoteKind::Paged(hold))
        }
        None => core.end(session, actor, None, 0, NoteKind::NoListing),
    };
    Stepped::Done(Some(note))
}
