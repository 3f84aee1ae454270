//! Two sessions at once, each held at its second command until the other has come there.
ghost use Rattle.std.specs.Prelude.{IfOk};
ghost use Rattle.lg_script.specs.Codes.{AreScripts};
ghost use Rattle.lg_script.specs.Commands.{script_views};
ghost use Rattle.lg_check_sessions.specs.Small.{IsSmall};

use crate::session::{Told, Toy, add, commands_of, dictionary, expect, put};
use lg_gram::Replies;
use lg_script::{Command, Commands, Scripts};
use lg_session::{Gate, Outcome, WholeReplies, run_sessions};
use std::alloc::Global;
use std::process::Abort;
use std::sync::atomic::{AtomicU64, Ordering};
use std::test::Fail;
use std::thread;
use std::thread::Threads;

// A gate that holds each of two sessions before its second command until both have come to it, or for so many turns.
#[derive(Drop)]
struct Meeting {
    come: AtomicU64,
    ran_out: AtomicU64,
}

const TURNS: u32 = 100_000_000;

impl Gate for Meeting {
    fn pass(&self, _session: u32, command: u32) {
        if command == 2 {
            self.come.fetch_add(1, Ordering::SeqCst);
            if !self.have_met() {
                self.ran_out.fetch_add(1, Ordering::SeqCst);
            }
        }
    }
}

impl Meeting {
    // Waits for the other session, and tells whether it came in time.
    fn have_met(&self) -> bool {
        for _ in 0..TURNS {
            if self.come.load(Ordering::SeqCst) == 2 {
                return true;
            }
            thread::yield_now();
        }
        false
    }
}

// Gives a word an expression, and asks for the version.
fn script(alloc: Global, word: &[u8], connector: &[u8]) -> Result<Commands, Fail>
    ensures { IfOk result IsSmall }
{
    let mut commands = Vec::new(alloc);
    add(&mut commands, put(alloc, word, connector)?)?;
    add(&mut commands, Command::Version)?;
    commands_of(alloc, commands)
}

fn scripts(alloc: Global) -> Result<Scripts, Fail>
    ensures { IfOk result (λ scripts. AreScripts (script_views scripts)) }
{
    let mut lists = Vec::new(alloc);
    lists.push(script(alloc, b"x", b"A")?)?;
    lists.push(script(alloc, b"x", b"B")?)?;
    Ok(Scripts::of(lists))
}

fn run<R: Threads + Sync>(rt: &R, alloc: Global, gate: &Meeting) -> Result<Outcome<Replies>, Fail> {
    let dict = dictionary(alloc)?;
    let scripts = scripts(alloc)?;
    let outcome = run_sessions(rt, alloc, &dict, &scripts, &Toy, gate, &WholeReplies)?;
    Ok(outcome)
}

fn expect_both<R: Abort>(rt: &R, outcome: &Outcome<Replies>) {
    let lists = outcome.kept.as_slice();
    assert!(rt; lists.len() == 2);
    expect(rt, lists[0].items(), 1, Told::At(2));
    expect(rt, lists[1].items(), 1, Told::At(2));
    assert!(rt; outcome.journal.items().len() == 2);
}

#[test]
fn sessions_that_meet_see_both_edits(rt: HostRuntime) -> Result<(), Fail> {
    let gate = Meeting {
        come: AtomicU64::new(0),
        ran_out: AtomicU64::new(0),
    };
    let outcome = run(&rt, rt.alloc(), &gate)?;
    assert!(rt; gate.ran_out.load(Ordering::SeqCst) == 0, "a hold ran out");
    expect_both(&rt, &outcome);
    Ok(())
}
