//! A run of a schedule.

ghost use Rattle.std.specs.Prelude.{◌≡◌, ℕ, ◌++◌, ◌∷◌, [], false, List, Option, None, OnOk, IfOk};
ghost use Rattle.nm_base.specs.Geometry.{IsGeometry};
ghost use Rattle.nm_view.specs.Opening.{IsActor};
ghost use Rattle.nm_core.specs.State.{actor_count};
ghost use Rattle.nm_schedule.specs.declared.turn.Played.{Played};
ghost use Rattle.nm_script.specs.Script.{IsSchedule};
ghost use Rattle.nm_schedule.specs.Played.{has_ended};
ghost use Rattle.nm_schedule.specs.Picks.{most_turns};
ghost use Rattle.nm_play.specs.Crews.{MayStart};
ghost use Rattle.nm_play.specs.Played.{IsPlaying, IsPlayedOut, IsWatchedRun, IsSoFar, IsTurnPlayed, AreGivenBelow, HasPlaying, RepliesFit};

use crate::crew::Crew;
use crate::play::{answer, is_end};
use crate::watcher::Watcher;
use nm_action::{Heard, Turn};
use nm_base::Geometry;
use nm_core::State;
use nm_core::runs::own_list_tells_the_view;
use nm_queue::RingPort;
use nm_runs::runs::each_reply_of_a_run_fits;
use nm_schedule::{MOST_CANDIDATES, Picker, Played};
use nm_script::Schedule;
use std::alloc::{AllocError, Global};

/// A run of a schedule.
#[derive(Drop)]
pub struct Run<K, W> {
    /// What heard the turns.
    pub watcher: W,
    /// How many turns were made.
    pub turns: u32,
    /// The machine after the events.
    pub state: State,
    /// The actors after their turns.
    pub crew: K,
}

/// The machine, its lanes and its actors, each with the turn that it gave last, and what was done.
#[derive(Drop)]
struct Play<K, W> {
    state: State,
    lanes: RingPort,
    crew: K,
    given: Vec<Turn>,
    watcher: W,
}

/// Asks each actor for its first turn.
fn first_turns<K: Crew>(alloc: Global, crew: &mut K, actors: u32) -> Result<Vec<Turn>, AllocError>
    requires actors { actors ≡ actor_count (K.geometry (K.made crew.old)) }
    requires opens { (actor : ℕ) → IsActor (K.geometry (K.made crew.old)) actor → K.agrees crew.old actor [] None }
    ensures made { K.made crew.new ≡ K.made crew.old }
    ensures given { IfOk result (λ given. AreGivenBelow (K.geometry (K.made crew.old)) (K.agrees crew.new) given.items actors) }
{
    let mut given = Vec::new(alloc);
    for actor in 0..actors {
        let turn = crew.next(actor, Heard::Start);
        given.push(turn)?;
    }
    Ok(given)
}

impl<K: Crew + Drop, W: Watcher + Drop> Play<K, W> {
    /// The machine in which nothing was done, with empty lanes, and the first turn of each actor.
    fn start(alloc: Global, g: &Geometry, mut crew: K, watcher: W) -> Result<Play<K, W>, AllocError>
        requires machine { K.geometry (K.made crew) ≡ g.now }
        requires may { MayStart g.now K.agrees crew }
        requires nothing { W.kept watcher g.now [] }
        ensures made { IfOk result (λ play. K.made play.crew ≡ K.made crew) }
        ensures started { IfOk result (λ play. IsPlaying g.now (K.agrees play.crew) play.state play.lanes play.given.items (W.kept play.watcher g.now) []) }
    {
        let state = State::start(alloc, g)?;
        let lanes = RingPort::new(alloc, MOST_CANDIDATES, g.pages())?;
        let given = first_turns(alloc, &mut crew, g.cpus + 2)?;
        Ok(Play {
            state,
            lanes,
            crew,
            given,
            watcher,
        })
    }

    /// Makes the turn that an actor gave last, lets the actor hear the answer, and notes the turn. Condition: there is such an
    /// actor, and it has not ended.
    fn turn(&mut self, actor: u32) -> Result<Played, AllocError>
        requires has { HasPlaying (K.geometry (K.made self.old.crew)) (K.agrees self.old.crew) self.old.state self.old.lanes self.old.given.items (W.kept self.old.watcher (K.geometry (K.made self.old.crew))) actor }
        requires fits { RepliesFit }
        requires limits { IsGeometry (K.geometry (K.made self.old.crew)) }
        ensures made { K.made self.new.crew ≡ K.made self.old.crew }
        ensures played { (before : List Played) → IsPlaying (K.geometry (K.made self.old.crew)) (K.agrees self.old.crew) self.old.state self.old.lanes self.old.given.items (W.kept self.old.watcher (K.geometry (K.made self.old.crew))) before
            → has_ended before actor ≡ false
            → IfOk result (λ p. IsTurnPlayed (K.geometry (K.made self.old.crew)) actor before p
            × IsPlaying (K.geometry (K.made self.old.crew)) (K.agrees self.new.crew) self.new.state self.new.lanes self.new.given.items (W.kept self.new.watcher (K.geometry (K.made self.old.crew))) (before ++ p ∷ [])) }
    {
        own_list_tells_the_view();
        let place = actor as usize;
        let turn = self.given[place];
        self.watcher.sees(&self.state, actor, turn)?;
        let heard = answer(&mut self.state, &mut self.lanes, actor, turn);
        let next = self.crew.next(actor, heard);
        self.given[place] = next;
        let played = Played {
            actor,
            turn,
            heard,
            ended: is_end(next),
        };
        self.watcher.hears(played)?;
        Ok(played)
    }
}

/// Plays the turns that a schedule picks, until every actor has ended or all turns were made.
fn play_all<K: Crew + Drop, W: Watcher + Drop>(
    play: &mut Play<K, W>,
    picker: &mut Picker<'_>,
    schedule: &Schedule,
) -> Result<u32, AllocError>
    requires fits { RepliesFit }
    requires limits { IsGeometry (K.geometry (K.made play.old.crew)) }
    requires start { IsSoFar (K.geometry (K.made play.old.crew)) schedule.now (K.agrees play.old.crew) play.old.state play.old.lanes play.old.given.items (W.kept play.old.watcher (K.geometry (K.made play.old.crew))) picker.old [] }
    ensures made { K.made play.new.crew ≡ K.made play.old.crew }
    ensures played { IfOk result (λ turns. IsPlayedOut (K.geometry (K.made play.old.crew)) schedule.now (K.agrees play.new.crew) play.new.state play.new.lanes play.new.given.items (W.kept play.new.watcher (K.geometry (K.made play.old.crew))) turns) }
{
    let most = most_turns(schedule);
    for turns in 0..most {
        let Some(actor) = picker.pick() else {
            return Ok(turns);
        };
        let played = play.turn(actor)?;
        picker.note(played);
    }
    Ok(most)
}

/// Runs the actors of a machine on one thread, in the order of a schedule, until every actor has ended or the schedule's turns
/// were made. What each turn is answered its actor hears before the next turn is chosen, and before the run ends. It returns.
///
/// The turns are those of the schedule; their events are a run of the machine, which led to the state; each actor agrees
/// with exactly its part of the turns, and the watcher, which hears each turn, with all of them. `AllocError` comes where there
/// is no memory, or where the watcher answers it.
///
/// Conditions: the actors are those of this machine, they are to hear Start, and none of them ends at once; the schedule is one
/// that a script can say.
pub fn run_schedule<K: Crew + Drop, W: Watcher + Drop>(
    alloc: Global,
    g: &Geometry,
    schedule: &Schedule,
    crew: K,
    watcher: W,
) -> Result<Run<K, W>, AllocError>
    requires machine { K.geometry (K.made crew) ≡ g.now }
    requires may { MayStart g.now K.agrees crew }
    requires nothing { W.kept watcher g.now [] }
    requires schedule { IsSchedule g.now.cpus schedule.now }
    ensures made { IfOk result (λ run. K.made run.crew ≡ K.made crew) }
    ensures run { IfOk result (λ run. IsWatchedRun g.now schedule.now (K.agrees run.crew) run.state (W.kept run.watcher g.now) run.turns) }
{
    each_reply_of_a_run_fits();
    let mut play = Play::start(alloc, g, crew, watcher)?;
    let mut picker = Picker::new(alloc, schedule, g.cpus)?;
    let turns = play_all(&mut play, &mut picker, schedule)?;
    Ok(Run {
        watcher: play.watcher,
        turns,
        state: play.state,
        crew: play.crew,
    })
}

/// The most turns of a schedule.
fn most_turns(schedule: &Schedule) -> u32
    ensures { result ≡ most_turns schedule.now }
{
    match schedule {
        Schedule::Serial { turns } => *turns,
        Schedule::Shuffle { turns, .. } => *turns,
        Schedule::Plan { turns, .. } => *turns,
    }
}
