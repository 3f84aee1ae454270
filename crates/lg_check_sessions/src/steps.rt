//! That steps succeed, and their notes: a session lists, edits, lists again, and goes on.
ghost use Rattle.std.specs.Prelude.{IfOk, OnOk};
ghost use Rattle.lg_dict.specs.Dictionary.{Dictionary};
ghost use Rattle.lg_script.specs.Codes.{AreScripts};
ghost use Rattle.lg_script.specs.Commands.{script_views};
ghost use Rattle.lg_core.specs.Core.{IsCore};
ghost use Rattle.lg_check_sessions.specs.Small.{IsSmall};

use crate::session::{add, commands_of, dictionary, parse, put};
use lg_core::{Core, Event, Hold, Note, NoteKind, Stepped, step};
use lg_dict::Dict;
use lg_script::{Command, Commands, Scripts};
use std::alloc::Global;
use std::process::Abort;
use std::test::Fail;

// Lists, edits, lists again, and goes on.
fn script(alloc: Global) -> Result<Commands, Fail>
    ensures { IfOk result IsSmall }
{
    let mut commands = Vec::new(alloc);
    add(&mut commands, parse(alloc, "a b")?)?;
    add(&mut commands, put(alloc, b"b", b"A")?)?;
    add(&mut commands, parse(alloc, "a b")?)?;
    add(&mut commands, Command::More)?;
    commands_of(alloc, commands)
}

fn scripts(alloc: Global) -> Result<Scripts, Fail>
    ensures { IfOk result (λ scripts. AreScripts (script_views scripts)) }
{
    let mut lists = Vec::new(alloc);
    lists.push(script(alloc)?)?;
    Ok(Scripts::of(lists))
}

// The core before any step.
fn start(alloc: Global, scripts: &Scripts) -> Result<Core, Fail>
    requires { AreScripts (script_views scripts.now) }
    ensures { (base : Dictionary) → IfOk result (IsCore (script_views scripts.now) base) }
{
    let core = Core::new(alloc, scripts.items().len() as u32)?;
    Ok(core)
}

// A note of the session.
fn note(command: u32, version: u64, kind: NoteKind) -> Stepped {
    Stepped::Done(Some(Note {
        session: 1,
        command,
        version,
        kind,
    }))
}

// Makes a step, of which this is to come.
fn expect<R: Abort>(
    rt: &R,
    alloc: Global,
    dict: &Dict,
    scripts: &Scripts,
    core: &mut Core,
    event: Event,
    want: Stepped,
) -> Result<(), Fail>
    requires scripts { AreScripts (script_views scripts.now) }
    requires core { IsCore (script_views scripts.now) dict.now core.old }
    ensures { OnOk result (IsCore (script_views scripts.now) dict.now core.new) }
{
    let stepped = step(alloc, dict, scripts, core, event)?;
    assert!(rt; stepped == want);
    Ok(())
}

// A session that lists, edits, lists again, and goes on.
fn walk<R: Abort>(
    rt: &R,
    alloc: Global,
    dict: &Dict,
    scripts: &Scripts,
    core: &mut Core,
) -> Result<(), Fail>
    requires scripts { AreScripts (script_views scripts.now) }
    requires core { IsCore (script_views scripts.now) dict.now core.old }
{
    let listed = note(1, 0, NoteKind::Listed);
    expect(rt, alloc, dict, scripts, core, Event::Look(0), listed)?;
    let published = note(2, 1, NoteKind::Published);
    expect(rt, alloc, dict, scripts, core, Event::Publish(0), published)?;
    let listed = note(3, 1, NoteKind::Listed);
    expect(rt, alloc, dict, scripts, core, Event::Look(0), listed)?;
    let hold = Hold {
        version: 1,
        command: 3,
        mores: 0,
    };
    let paged = note(4, 1, NoteKind::Paged(hold));
    expect(rt, alloc, dict, scripts, core, Event::More(0), paged)
}

#[test]
fn a_session_lists_edits_lists_again_and_goes_on(rt: HostRuntime) -> Result<(), Fail> {
    let alloc = rt.alloc();
    let dict = dictionary(alloc)?;
    let scripts = scripts(alloc)?;
    let mut core = start(alloc, &scripts)?;
    walk(&rt, alloc, &dict, &scripts, &mut core)
}
