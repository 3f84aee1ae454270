//! Many sessions at once, each on a thread of its own.
ghost use Rattle.std.specs.Prelude.{IfOk};
ghost use Rattle.std.specs.Thread.{IsSync};
ghost use Rattle.lg_script.specs.Commands.{script_views};
ghost use Rattle.lg_session.specs.Keepers.{TakesAll};
ghost use Rattle.lg_session.specs.Rows.{ground_of, AreDoneWith, MayRun, numbers_of};

use crate::engine::Engine;
use crate::gate::Gate;
use crate::job::{Job, run_one};
use crate::keeper::Keeper;
use lg_base::NoMemory;
use lg_dict::Dict;
use lg_log::{Log, Pass, joins_compose};
use lg_script::Scripts;
use std::alloc::Global;
use std::thread::{Threads, join};

/// Runs these sessions, one or more, in two halves at once, and each half so again. With what is kept of each, in the same order,
/// comes the pass that carries them all. The only error is running out of memory.
#[cycle(halves)]
pub(crate) fn run_some<R: Threads + Sync, E: Engine, G: Gate, K: Keeper>(
    rt: &R,
    alloc: Global,
    base: &Dict,
    scripts: &Scripts,
    engine: &E,
    gate: &G,
    keeper: &K,
    log: &Log,
    mut jobs: Vec<Job>,
) -> Result<(Pass, Vec<K::Kept>), NoMemory>
    requires ready { MayRun log.now (script_views scripts.now) jobs.items }
    requires takes { TakesAll (ground_of (E.meaning engine.now) scripts.now base.now) (K.takes keeper.now) }
    ensures { IfOk result (λ r. AreDoneWith (K.keeps keeper.now) (ground_of (E.meaning engine.now) scripts.now base.now) log.now (numbers_of jobs.items) r.0 r.1.items) }
{
    if jobs.len() < 2 {
        let Some(job) = jobs.pop() else {
            unreachable!()
        };
        let (pass, one) = run_one(rt, alloc, base, scripts, engine, gate, keeper, log, job)?;
        let mut kept = Vec::new(alloc);
        kept.push(one)?;
        return Ok((pass, kept));
    }
    let high = jobs.split_off(jobs.len() / 2)?;
    let low = jobs;
    let (first, second) = join(
        rt,
        move || -> Result<(Pass, Vec<K::Kept>), NoMemory>
            requires { IsSync R.row × IsSync E.row × IsSync G.row × IsSync K.row × MayRun log.now (script_views scripts.now) low.items × TakesAll (ground_of (E.meaning engine.now) scripts.now base.now) (K.takes keeper.now) }
            ensures { IfOk result (λ r. AreDoneWith (K.keeps keeper.entry.now) (ground_of (E.meaning engine.entry.now) scripts.entry.now base.entry.now) log.entry.now (numbers_of low.items) r.0 r.1.items) }
        { run_some(rt, alloc, base, scripts, engine, gate, keeper, log, low) },
        move || -> Result<(Pass, Vec<K::Kept>), NoMemory>
            requires { IsSync R.row × IsSync E.row × IsSync G.row × IsSync K.row × MayRun log.now (script_views scripts.now) high.items × TakesAll (ground_of (E.meaning engine.now) scripts.now base.now) (K.takes keeper.now) }
            ensures { IfOk result (λ r. AreDoneWith (K.keeps keeper.entry.now) (ground_of (E.meaning engine.entry.now) scripts.entry.now base.entry.now) log.entry.now (numbers_of high.items) r.0 r.1.items) }
        { run_some(rt, alloc, base, scripts, engine, gate, keeper, log, high) },
    );
    let (mut pass, mut kept) = first?;
    let (other, mut others) = second?;
    pass.join(log, other);
    joins_compose();
    kept.append(&mut others)?;
    Ok((pass, kept))
}
