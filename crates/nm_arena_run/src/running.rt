//! A machine, two queues and a board over them, for one run of a script on threads.

ghost use Rattle.std.specs.Prelude.{◌≡◌, IfOk, List, map};
ghost use Rattle.nm_action.specs.declared.action.Event.{Event};
ghost use Rattle.nm_core.specs.EndWords.{HasEndRoom};
ghost use Rattle.nm_script.specs.Script.{IsScript};
ghost use Rattle.nm_thread_facts.specs.ThreadRuns.{IsThreadRun};
ghost use Rattle.nm_arena_run.specs.Machines.{IsLeftByRun, IsOpened};

use nm_action::Tally;
use nm_arena::{Arena, Seat};
use nm_arena_board::ArenaBoard;
use nm_core::EndWords;
use nm_io::Gate;
use nm_queue::{PageQueue, QueuePass};
use nm_report::LineResult;
use nm_script::Script;
use nm_thread_run::{BoardRun, run_board};
use std::alloc::{AllocError, Global};
use std::sync::Wait;
use std::thread::Threads;

/// How many pages the lane of candidates can hold.
const MOST_CANDIDATES: u32 = 1024;

/// What is left of a run on threads.
#[derive(Drop)]
pub struct ArenaRun {
    /// For each processor what the lines of its program gave, in order.
    pub results: Vec<Vec<LineResult>>,
    /// The words at the end.
    pub end: EndWords,
    /// The counts of all actors.
    pub tally: Tally,
}

/// A machine at the beginning, and two empty queues, each with what a board takes of it.
#[derive(Drop)]
struct Machine {
    arena: Arena,
    candidates: PageQueue,
    pending: PageQueue,
}

/// What a board takes of a machine, and gives back.
#[derive(Drop)]
struct Held {
    seat: Seat,
    candidate_pass: QueuePass,
    pending_pass: QueuePass,
}

/// A machine for a script, and what a board takes of it.
fn open(alloc: Global, script: &Script) -> Result<(Machine, Held), AllocError>
    requires { IsScript script.now }
    ensures { IfOk result (λ r. IsOpened script.now.geometry r.0.arena r.0.candidates r.0.pending r.1.seat r.1.candidate_pass r.1.pending_pass) }
{
    let g = &script.geometry;
    let (candidates, candidate_pass) = PageQueue::new(alloc, MOST_CANDIDATES)?;
    let (pending, pending_pass) = PageQueue::new(alloc, g.pages())?;
    let (arena, seat) = Arena::start(alloc, g)?;
    let machine = Machine {
        arena,
        candidates,
        pending,
    };
    let held = Held {
        seat,
        candidate_pass,
        pending_pass,
    };
    Ok((machine, held))
}

/// The actors of a script run at a board over a machine.
fn run_at_board<T: Threads + Wait + Sync, G: Gate>(
    rt: &T,
    alloc: Global,
    gate: &G,
    script: &Script,
    machine: &Machine,
    held: Held,
) -> Result<(BoardRun, Held), AllocError>
    requires script { IsScript script.now }
    requires opened { IsOpened script.now.geometry machine.now.arena machine.now.candidates machine.now.pending held.seat held.candidate_pass held.pending_pass }
    ensures { IfOk result (λ r. IsLeftByRun script.now machine.now.arena machine.now.candidates machine.now.pending (map (λ l. l.items) r.0.results.items) r.0.tally r.1.seat r.1.candidate_pass r.1.pending_pass) }
{
    let Held {
        seat,
        candidate_pass,
        pending_pass,
    } = held;
    let mut board = ArenaBoard::new(
        alloc,
        &script.geometry,
        gate,
        &machine.arena,
        seat,
        &machine.candidates,
        candidate_pass,
        &machine.pending,
        pending_pass,
    )?;
    let run = run_board(rt, alloc, script, &mut board)?;
    let (seat, candidate_pass, pending_pass) = board.done();
    let held = Held {
        seat,
        candidate_pass,
        pending_pass,
    };
    Ok((run, held))
}

/// Ends a machine and its queues, and writes the end words. The queues are empty.
fn close<T: Wait>(
    rt: &T,
    machine: Machine,
    held: Held,
    end: &mut EndWords,
    _script: &Script,
    _run: &BoardRun,
)
    requires script { IsScript _script.now }
    requires left { IsLeftByRun _script.now machine.arena machine.candidates machine.pending (map (λ l. l.items) _run.now.results.items) _run.now.tally held.seat held.candidate_pass held.pending_pass }
    requires room { HasEndRoom _script.now.geometry end.old }
    ensures { (events : List Event) × IsThreadRun _script.now (record { events = events; results = map (λ l. l.items) _run.now.results.items; end = end.new; tally = _run.now.tally }) }
{
    let Machine {
        arena,
        candidates,
        pending,
    } = machine;
    let Held {
        seat,
        candidate_pass,
        pending_pass,
    } = held;
    candidates.close(rt, candidate_pass);
    pending.close(rt, pending_pass);
    arena.close(seat, end);
}

/// Runs a script on threads: its processors, a migrator and a reclaimer, each an actor on a thread of its own where threads can be made,
/// over one machine that they share, by exchanges of single words. Each step asks the gate first. The script's schedule is not
/// looked at. All memory is taken before the first step; `AllocError` comes where there is none. It may wait.
pub fn run_on_arena<T: Threads + Wait + Sync, G: Gate>(
    rt: &T,
    alloc: Global,
    gate: &G,
    script: &Script,
) -> Result<ArenaRun, AllocError>
    requires { IsScript script.now }
    ensures { IfOk result (λ r. (events : List Event) × IsThreadRun script.now (record { events = events; results = map (λ l. l.items) r.results.items; end = r.end; tally = r.tally })) }
{
    let mut end = EndWords::with_room(alloc, &script.geometry)?;
    let (machine, held) = open(alloc, script)?;
    let (run, held) = run_at_board(rt, alloc, gate, script, &machine, held)?;
    close(rt, machine, held, &mut end, script, &run);
    let BoardRun { results, tally } = run;
    Ok(ArenaRun {
        results,
        end,
        tally,
    })
}
