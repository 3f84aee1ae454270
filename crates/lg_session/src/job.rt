//! One session, from its first command to its last.
ghost use Rattle.std.specs.Prelude.{◌≡◌, ◌∷◌, [], IfOk};
ghost use Rattle.lg_script.specs.EditNumbers.{edit_counts};
ghost use Rattle.lg_script.specs.Codes.{AreScripts};
ghost use Rattle.lg_script.specs.Commands.{script_views};
ghost use Rattle.lg_session.specs.Keepers.{TakesAll};
ghost use Rattle.lg_session.specs.Rows.{ground_of, AreDoneWith, IsFresh};

use crate::engine::Engine;
use crate::gate::Gate;
use crate::keeper::Keeper;
use crate::session::Session;
use crate::turn::turn;
use lg_base::NoMemory;
use lg_dict::{Dict, View};
use lg_gram::Place;
use lg_log::{Log, Pass};
use lg_script::Scripts;
use std::alloc::Global;
use std::thread::Threads;

/// A session that has not begun.
#[derive(Drop)]
pub(crate) struct Job {
    /// Its number, from 0.
    pub(crate) session: u32,
    /// A pass that has seen nothing and carries this session alone.
    pub(crate) pass: Pass,
}

/// Runs one session: answers each command of its script in order, tells the gate before each, and gives each answer to the keeper. With
/// what is kept comes its pass. The only error is running out of memory.
pub(crate) fn run_one<R: Threads + Sync, E: Engine, G: Gate, K: Keeper>(
    rt: &R,
    alloc: Global,
    base: &Dict,
    scripts: &Scripts,
    engine: &E,
    gate: &G,
    keeper: &K,
    log: &Log,
    job: Job,
) -> Result<(Pass, K::Kept), NoMemory>
    requires scripts { AreScripts (script_views scripts.now) }
    requires log { log.now.counts ≡ edit_counts (script_views scripts.now) }
    requires takes { TakesAll (ground_of (E.meaning engine.now) scripts.now base.now) (K.takes keeper.now) }
    requires fresh { IsFresh log.now (script_views scripts.now) job }
    ensures { IfOk result (λ r. AreDoneWith (K.keeps keeper.now) (ground_of (E.meaning engine.now) scripts.now base.now) log.now (job.session ∷ []) r.0 (r.1 ∷ [])) }
{
    let Job { session, pass } = job;
    let commands = scripts.items()[session as usize].items();
    let count = commands.len() as u32;
    let mut state = Session {
        session,
        place: 0,
        pass,
        view: View::of(alloc, base),
        held: None,
    };
    let mut kept = keeper.begin(alloc, session + 1)?;
    for index in 0..count {
        gate.pass(session + 1, index + 1);
        let (after, reply) = turn(rt, alloc, scripts, engine, log, state)?;
        state = after;
        let place = Place {
            session: session + 1,
            command: index + 1,
        };
        kept = keeper.keep(alloc, kept, place, &commands[index as usize], reply)?;
    }
    let Session { pass, .. } = state;
    Ok((pass, kept))
}
