//! The run of a script with any migrator and reclaimer.

ghost use Rattle.std.specs.Prelude.{◌≡◌, ◌+◌, [], IfOk, Some, map};
ghost use Rattle.nm_action.specs.declared.turn.Turn.TheVariants as turn;
ghost use Rattle.nm_script.specs.Script.{IsScript};
ghost use Rattle.nm_crew.specs.Crewed.{IsNewAt};
ghost use Rattle.nm_programs.specs.Runs.{HasPart, IsWatchedRunWith};

use crate::cpus::{cpus_of, results_of};
use nm_action::{Event, Tally};
use nm_actor::Actor;
use nm_core::EndWords;
use nm_cpu::CpuActor;
use nm_crew::{CrewRun, run_crew};
use nm_play::{Actors, Watcher};
use nm_report::LineResult;
use nm_schedule::SimTurn;
use nm_script::Script;
use std::alloc::{AllocError, Global};
use std::marker::Model;
use std::mem::size_of;

// The lists of a run grow with it, so their entries are small.
const _: () = prove!(size_of::<Event>() <= 64);

const _: () = prove!(size_of::<SimTurn>() <= 32);

/// The run of a script.
#[derive(Debug, Drop)]
pub struct SimRun {
    /// The events, in order, each of at most 64 bytes.
    pub events: Vec<Event>,
    /// The turns, in order, each of at most 32 bytes.
    pub order: Vec<SimTurn>,
    /// For each processor what the lines of its program gave, in order, as far as they were made.
    pub results: Vec<Vec<LineResult>>,
    /// The words at the end.
    pub end: EndWords,
    /// The counts of all actors.
    pub tally: Tally,
    /// How many turns were made.
    pub turns: u32,
}

impl Model for SimRun {
    ghost use Rattle.std.specs.Prelude.{map};
    ghost use Rattle.nm_programs.specs.Plain as plain;

    ghost Value = { plain.SimRun };

    ghost view = { λ r. record { events = r.events.items; order = r.order.items; results = map (λ v. v.items) r.results.items; end = r.end; tally = r.tally; turns = r.turns } };
}

/// The run of a script that was watched.
#[derive(Drop)]
pub struct WatchedRun<W> {
    /// What heard the turns.
    pub watcher: W,
    /// For each processor what the lines of its program gave, in order, as far as they were made.
    pub results: Vec<Vec<LineResult>>,
    /// The words at the end.
    pub end: EndWords,
    /// The counts of all actors.
    pub tally: Tally,
    /// How many turns were made.
    pub turns: u32,
}

/// Runs a script on one thread with this migrator and this reclaimer: they and the script's processors make their turns on the
/// machine in the order of its schedule, until every actor has ended or all turns were made. It returns. A watcher hears each turn.
/// `AllocError` comes where there is no memory, or where the watcher answers it.
///
/// Conditions: the migrator stands behind the processors and the reclaimer behind it, and both have given no turn; no actor of
/// their kinds ends at once, whatever state of it that is; the watcher has heard nothing.
pub fn run_programs<M: Actor + Drop, R: Actor + Drop, W: Watcher + Drop>(
    alloc: Global,
    script: &Script,
    migrator: M,
    reclaimer: R,
    watcher: W,
) -> Result<WatchedRun<W>, AllocError>
    requires script { IsScript script.now }
    requires migrator { IsNewAt M.geometry M.number (M.made migrator) (M.is_new migrator) script.now.geometry script.now.geometry.cpus }
    requires reclaimer { IsNewAt R.geometry R.number (R.made reclaimer) (R.is_new reclaimer) script.now.geometry (script.now.geometry.cpus + 1) }
    requires migrator_acts { (m : M) → ¬ M.agrees m [] (Some turn.End) }
    requires reclaimer_acts { (r : R) → ¬ R.agrees r [] (Some turn.End) }
    requires nothing { W.kept watcher script.now.geometry [] }
    ensures { IfOk result (λ run. IsWatchedRunWith (HasPart M.made M.agrees M.counted (M.made migrator)) (HasPart R.made R.agrees R.counted (R.made reclaimer)) script.now
        (W.kept run.watcher script.now.geometry) (map (λ r. r.items) run.results.items) run.end run.tally run.turns) }
{
    let g = &script.geometry;
    let cpus: Vec<CpuActor<'_>> = cpus_of(alloc, script)?;
    let crew = Actors {
        cpus,
        migrator,
        reclaimer,
    };
    let run = run_crew(alloc, g, &script.schedule, crew, watcher)?;
    let CrewRun {
        watcher,
        crew,
        end,
        tally,
        turns,
    } = run;
    let Actors { cpus, .. } = crew;
    let results = results_of(alloc, cpus)?;
    Ok(WatchedRun {
        watcher,
        results,
        end,
        tally,
        turns,
    })
}
