//! A simulation of a script.

ghost use Rattle.std.specs.Prelude.{[], map, IfOk};
ghost use Rattle.nm_script.specs.Script.{IsScript};
ghost use Rattle.nm_sched.specs.Runs.{IsRunOfScript, IsWatchedRunOfScript};

use nm_kswap::ReclaimerActor;
use nm_migrator::MigratorActor;
use nm_play::{Keep, Watcher};
use nm_programs::{SimRun, WatchedRun, run_programs};
use nm_script::Script;
use std::alloc::{AllocError, Global};

/// Runs a script on one thread: its processors, a migrator and a reclaimer make their turns on the machine in the order of its
/// schedule, until every actor has ended or all turns were made. It returns. The lists grow with the run, and `AllocError` comes
/// where there is no memory.
pub fn simulate(alloc: Global, script: &Script) -> Result<SimRun, AllocError>
    requires { IsScript script.now }
    ensures { IfOk result (IsRunOfScript script.now) }
{
    let run = simulate_with(alloc, script, Keep::new(alloc))?;
    let WatchedRun {
        watcher: Keep { events, order },
        results,
        end,
        tally,
        turns,
    } = run;
    Ok(SimRun {
        events,
        order,
        results,
        end,
        tally,
        turns,
    })
}

/// Makes the same run, and has a watcher hear each turn. No list grows with the run but those of the watcher and the results of the
/// programs' lines. `AllocError` comes where there is no memory, or where the watcher answers it. Condition: the watcher has heard nothing.
pub fn simulate_with<W: Watcher + Drop>(
    alloc: Global,
    script: &Script,
    watcher: W,
) -> Result<WatchedRun<W>, AllocError>
    requires script { IsScript script.now }
    requires nothing { W.kept watcher script.now.geometry [] }
    ensures { IfOk result (λ run. IsWatchedRunOfScript script.now (W.kept run.watcher script.now.geometry) (map (λ r. r.items) run.results.items) run.end run.tally run.turns) }
{
    let g = &script.geometry;
    let migrator = MigratorActor::new(alloc, g, script.retry)?;
    let reclaimer = ReclaimerActor::new(alloc, g)?;
    let run = run_programs(alloc, script, migrator, reclaimer, watcher)?;
    Ok(run)
}
