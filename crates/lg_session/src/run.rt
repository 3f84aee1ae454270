//! Sessions, run over their scripts.
ghost use Rattle.std.specs.Prelude.{◌≡◌, ◌≤◌, length, IfOk};
ghost use Rattle.lg_script.specs.EditNumbers.{edit_counts};
ghost use Rattle.lg_script.specs.Codes.{AreScripts};
ghost use Rattle.lg_script.specs.Commands.{script_views};
ghost use Rattle.lg_session.specs.Keepers.{TakesAll, IsKept};
ghost use Rattle.lg_session.specs.Legal.{run_of};
ghost use Rattle.lg_session.specs.Rows.{ground_of, jobs_from};

use crate::engine::Engine;
use crate::gate::Gate;
use crate::halves::run_some;
use crate::job::Job;
use crate::journal::journal_of;
use crate::keeper::Keeper;
use crate::outcome::Outcome;
use lg_base::NoMemory;
use lg_dict::Dict;
use lg_gram::Places;
use lg_log::{Log, Pass, code_laws};
use lg_script::Scripts;
use std::alloc::Global;
use std::thread::Threads;

/// Runs sessions over the dictionary, a thread for each: a session answers each command of its script in order, and publishes each
/// edit that the dictionary accepts. All sessions share the edits that are published, and the journal has them in their one order. The
/// keeper is given each answer when it comes, and what it keeps of a session is what comes back: the answers themselves are let go.
///
/// There are 1 to 64 scripts with at most 100,000 edits together; each has fewer than 2^32 commands within their bounds, as
/// `lg_script::read_script` gives them for texts of at most 67,108,864 bytes. The gate is called before each command. The only
/// error is running out of memory, and then nothing is answered.
pub fn run_sessions<R: Threads + Sync, E: Engine, G: Gate, K: Keeper>(
    rt: &R,
    alloc: Global,
    base: &Dict,
    scripts: &Scripts,
    engine: &E,
    gate: &G,
    keeper: &K,
) -> Result<Outcome<K::Kept>, NoMemory>
    requires scripts { AreScripts (script_views scripts.now) }
    requires takes { TakesAll (ground_of (E.meaning engine.now) scripts.now base.now) (K.takes keeper.now) }
    ensures { IfOk result (λ outcome. IsKept (K.keeps keeper.now) (run_of (E.meaning engine.now) scripts.now base.now outcome.journal) outcome.kept.items) }
{
    let counts = counts_of(alloc, scripts)?;
    let (log, _idle, passes) = Log::make(alloc, counts.as_slice())?;
    let jobs = jobs_of(alloc, passes)?;
    let (pass, kept) = run_some(rt, alloc, base, scripts, engine, gate, keeper, &log, jobs)?;
    code_laws();
    let journal = journal_of(alloc, scripts, pass.seen())?;
    Ok(Outcome {
        journal: Places::of(journal),
        kept,
    })
}

// How many edits each script has.
fn counts_of(alloc: Global, scripts: &Scripts) -> Result<Vec<u32>, NoMemory>
    ensures { IfOk result (λ counts. counts.items ≡ edit_counts (script_views scripts.now)) }
{
    let mut counts = Vec::new(alloc);
    for commands in scripts.items() {
        counts.push(commands.edit_count())?;
    }
    Ok(counts)
}

// The sessions before they begin, by their passes in order.
fn jobs_of(alloc: Global, passes: Vec<Pass>) -> Result<Vec<Job>, NoMemory>
    requires { length passes.items ≤ 64 }
    ensures { IfOk result (λ jobs. jobs.items ≡ jobs_from 0 passes.items) }
{
    let mut jobs = Vec::new(alloc);
    for pass in passes {
        let session = jobs.len() as u32;
        jobs.push(Job { session, pass })?;
    }
    Ok(jobs)
}
