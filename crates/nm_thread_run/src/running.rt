//! The actors of a script run on a board.

ghost use Rattle.std.specs.Prelude.{◌≡◌, ◌≤◌, [], OnErr, IfOk, length, map, vec_capacity};
ghost use Rattle.nm_script.specs.Script.{IsScript};
ghost use Rattle.nm_crew.specs.Crewed.{tally_of, crew_tallies};
ghost use Rattle.nm_thread_crew.specs.Boarded.{IsNewBoard};
ghost use Rattle.nm_thread_run.specs.Runs.{IsBoardRun};

use nm_access::Faults;
use nm_action::Tally;
use nm_actor::{Actor, Board};
use nm_cpu::{CpuActor, Processor};
use nm_kswap::ReclaimerActor;
use nm_migrator::MigratorActor;
use nm_programs::cpus_of;
use nm_report::LineResult;
use nm_script::Script;
use nm_thread_crew::{Crew, run_crew};
use std::alloc::{AllocError, Global};
use std::sync::Wait;
use std::thread::Threads;

/// The run of a script on a board.
#[derive(Debug, Drop)]
pub struct BoardRun {
    /// For each processor what the lines of its program gave, in order.
    pub results: Vec<Vec<LineResult>>,
    /// The counts of all actors.
    pub tally: Tally,
}

/// The counts of all actors together.
fn counts_of_all<C: Actor, M: Actor, R: Actor>(crew: &Crew<C, M, R>) -> Tally
    ensures { result ≡ tally_of (crew_tallies (map C.counted crew.now.cpus.items) (M.counted crew.now.migrator) (R.counted crew.now.reclaimer)) }
{
    let mut tally = Tally::default();
    for cpu in &crew.cpus {
        tally = tally.plus(cpu.tally());
    }
    tally
        .plus(crew.migrator.tally())
        .plus(crew.reclaimer.tally())
}

/// What the lines of each processor gave, in a list with the room for it.
fn give_results<'a, F: Faults<'a> + Drop>(
    cpus: Vec<Processor<'a, F>>,
    results: &mut Vec<Vec<LineResult>>,
)
    requires none { results.old.items ≡ [] }
    requires room { length cpus.items ≤ vec_capacity results.old }
    ensures { map (λ r. r.items) results.new.items ≡ map (λ c. c.results.items) cpus.entry.items }
{
    for cpu in cpus {
        let given = cpu.into_results();
        results.push_reserved(given);
    }
}

/// The actors of a script sit down at a board, run to their ends, each on a thread of its own where threads can be made, and stand
/// up; the migrator begins again when the others have stood, and stands up last. It may wait. `AllocError` comes where there is no
/// memory for the actors, for their desks or for the list of results, and then nobody has sat.
///
/// Conditions: nobody has sat at the board, and its geometry is the script's.
pub fn run_board<T: Threads + Wait + Sync, B: Board>(
    rt: &T,
    alloc: Global,
    script: &Script,
    board: &mut B,
) -> Result<BoardRun, AllocError>
where
    B::Chair: Drop,
    requires script { IsScript script.now }
    requires new { IsNewBoard (B.board board.old) }
    requires machine { (B.board board.old).geometry ≡ script.now.geometry }
    ensures wanting { OnErr result (B.board board.new ≡ B.board board.old) }
    ensures run { IfOk result (λ run. IsBoardRun script.now (B.board board.old) (B.board board.new) (map (λ r. r.items) run.results.items) run.tally) }
{
    let g = &script.geometry;
    let mut results = Vec::with_capacity(alloc, g.cpus as usize)?;
    let cpus: Vec<CpuActor<'_>> = cpus_of(alloc, script)?;
    let migrator = MigratorActor::new(alloc, g, script.retry)?;
    let reclaimer = ReclaimerActor::new(alloc, g)?;
    let crew = run_crew(rt, alloc, board, cpus, migrator, reclaimer)?;
    let tally = counts_of_all(&crew);
    let Crew { cpus, .. } = crew;
    give_results(cpus, &mut results);
    Ok(BoardRun { results, tally })
}
