//! A simulation of any processors, a migrator and a reclaimer.

ghost use Rattle.std.specs.Prelude.{◌≡◌, ℕ, ◌+◌, [], map, length, IfOk, Some};
ghost use Rattle.nm_action.specs.declared.turn.Turn.TheVariants as turn;
ghost use Rattle.nm_script.specs.Script.{IsSchedule};
ghost use Rattle.nm_crew.specs.Crewed.{AtEach, IsNewAt, IsWatchedCrewRun, tally_of, crew_tallies};

use nm_action::Tally;
use nm_actor::Actor;
use nm_base::Geometry;
use nm_core::EndWords;
use nm_play::{Actors, Watcher, run_schedule};
use nm_script::Schedule;
use std::alloc::{AllocError, Global};

/// A simulation of processors, a migrator and a reclaimer.
#[derive(Drop)]
pub struct CrewRun<C, M, R, W> {
    /// What heard the turns.
    pub watcher: W,
    /// The actors after their turns.
    pub crew: Actors<C, M, R>,
    /// The words at the end.
    pub end: EndWords,
    /// The counts of all actors.
    pub tally: Tally,
    /// How many turns were made.
    pub turns: u32,
}

/// The counts of all actors together.
fn counts_of_all<C: Actor, M: Actor, R: Actor>(crew: &Actors<C, M, R>) -> Tally
    ensures { result ≡ tally_of (crew_tallies (map C.counted crew.now.cpus.items) (M.counted crew.now.migrator) (R.counted crew.now.reclaimer)) }
{
    let mut tally = Tally::default();
    for cpu in &crew.cpus {
        tally = tally.plus(cpu.tally());
    }
    tally
        .plus(crew.migrator.tally())
        .plus(crew.reclaimer.tally())
}

/// Runs processors, a migrator and a reclaimer on one thread, in the order of a schedule, until every actor has ended or the
/// schedule's turns were made. It returns.
///
/// The turns are those of the schedule; the events are theirs, and a run of the machine; the five facts hold at each front of
/// them; the end words are those of the state after them; each actor agrees with exactly its part of the turns; and the tally
/// is the sum of what the actors counted. The lists grow with the run. `AllocError` comes where there is no memory for them.
///
/// Conditions: each actor is the one of its place in this machine, the processors from 0, the migrator behind them, the
/// reclaimer last, and has given no turn; no actor ends at once, whatever state of it that is; the schedule is one that a script
/// can say.
pub fn run_crew<C: Actor + Drop, M: Actor + Drop, R: Actor + Drop, W: Watcher + Drop>(
    alloc: Global,
    g: &Geometry,
    schedule: &Schedule,
    crew: Actors<C, M, R>,
    watcher: W,
) -> Result<CrewRun<C, M, R, W>, AllocError>
    requires many { length crew.cpus.items ≡ g.now.cpus }
    requires each { AtEach (λ cpu c. IsNewAt C.geometry C.number (C.made c) (C.is_new c) g.now cpu) crew.cpus.items }
    requires migrator { IsNewAt M.geometry M.number (M.made crew.migrator) (M.is_new crew.migrator) g.now g.now.cpus }
    requires reclaimer { IsNewAt R.geometry R.number (R.made crew.reclaimer) (R.is_new crew.reclaimer) g.now (g.now.cpus + 1) }
    requires cpu_acts { (c : C) → ¬ C.agrees c [] (Some turn.End) }
    requires migrator_acts { (m : M) → ¬ M.agrees m [] (Some turn.End) }
    requires reclaimer_acts { (r : R) → ¬ R.agrees r [] (Some turn.End) }
    requires nothing { W.kept watcher g.now [] }
    requires schedule { IsSchedule g.now.cpus schedule.now }
    ensures cpus { IfOk result (λ run. map C.made run.crew.cpus.items ≡ map C.made crew.cpus.items) }
    ensures migrator { IfOk result (λ run. M.made run.crew.migrator ≡ M.made crew.migrator) }
    ensures reclaimer { IfOk result (λ run. R.made run.crew.reclaimer ≡ R.made crew.reclaimer) }
    ensures run { IfOk result (λ run. IsWatchedCrewRun C.agrees (M.agrees run.crew.migrator) (R.agrees run.crew.reclaimer)
        g.now schedule.now run.crew.cpus.items (W.kept run.watcher g.now) run.turns run.end) }
    ensures tally { IfOk result (λ run. run.tally ≡ tally_of (crew_tallies (map C.counted run.crew.cpus.items) (M.counted run.crew.migrator) (R.counted run.crew.reclaimer))) }
{
    // The limits of the geometry are those of an open one.
    let _cpus = g.cpus;
    let run = run_schedule(alloc, g, schedule, crew, watcher)?;
    let mut end = EndWords::with_room(alloc, g)?;
    run.state.end_words(&mut end);
    let tally = counts_of_all(&run.crew);
    Ok(CrewRun {
        watcher: run.watcher,
        crew: run.crew,
        end,
        tally,
        turns: run.turns,
    })
}
