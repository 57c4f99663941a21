//! What holds at the end of every simulation, whoever the actors are.

ghost use Rattle.std.specs.Prelude.{◌≡◌, List, [], length};
ghost use Rattle.nm_base.specs.Geometry.{Geometry, IsGeometry};
ghost use Rattle.nm_action.specs.declared.action.Event.{Event};
ghost use Rattle.nm_core.specs.Roles.{IsSettled};
ghost use Rattle.nm_core.specs.Runs.{IsRun, state_after};
ghost use Rattle.nm_core.specs.State.{State, actor_count};
ghost use Rattle.nm_script.specs.declared.schedule.Schedule.{Schedule};
ghost use Rattle.nm_schedule.specs.declared.turn.Played.{Played};
ghost use Rattle.nm_schedule.specs.declared.turn.SimTurn.{SimTurn};
ghost use Rattle.nm_schedule.specs.Played.{active_actors, events_of};
ghost use Rattle.nm_schedule.specs.Picks.{most_turns};
ghost use Rattle.nm_play.specs.Played.{IsRunOf};
ghost use Rattle.nm_settled.specs.Ended.{HasNoMark};
ghost use Rattle.nm_settled_play.specs.EndedTurns.{HaveEndedTurns, TurnsTakeMarksBack, LeaveEndedViews, LeaveNoMark};

use nm_play::Crew;

/// After turns whose events are a run, of which each actor's part leaves the view of an actor that has ended, and which leave
/// no mark, the machine is settled.
pub fn ended_turns_settle_the_machine()
    ensures { (g : Geometry) (played : List Played) → IsGeometry g → IsRun g (events_of played)
        → HaveEndedTurns g played → HasNoMark (state_after g (events_of played))
        → IsSettled (state_after g (events_of played)) }
{}

/// After turns whose events are a run, and of which each actor's part shows that it takes its marks back, no page has a mark.
pub fn ended_turns_leave_no_mark()
    ensures { (g : Geometry) (played : List Played) → IsGeometry g → IsRun g (events_of played)
        → TurnsTakeMarksBack g played → HasNoMark (state_after g (events_of played)) }
{}

/// A run of a schedule in which every actor has ended is settled, so one that is not settled made all turns of the schedule: for
/// actors that leave nothing in their views when they end, and together no mark.
pub fn a_run_of_a_schedule_is_settled_or_made_all_turns<K: Crew>(crew: &K)
    ensures ended { (g : Geometry) (schedule : Schedule) (state : State) (events : List Event) (order : List SimTurn)
        → IsGeometry g → LeaveEndedViews g (K.agrees crew.now) → LeaveNoMark g schedule (K.agrees crew.now)
        → (run : IsRunOf g schedule (K.agrees crew.now) state events order)
        → active_actors (actor_count g) run.played ≡ [] → IsSettled state }
    ensures unsettled { (g : Geometry) (schedule : Schedule) (state : State) (events : List Event) (order : List SimTurn)
        → IsGeometry g → LeaveEndedViews g (K.agrees crew.now) → LeaveNoMark g schedule (K.agrees crew.now)
        → IsRunOf g schedule (K.agrees crew.now) state events order
        → ¬ IsSettled state → length order ≡ most_turns schedule }
{}
