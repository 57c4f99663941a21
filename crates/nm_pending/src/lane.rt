//! What the turns of a schedule show of the lane Pending.

ghost use Rattle.std.specs.Prelude.{ℕ, List, []};
ghost use Rattle.nm_base.specs.Geometry.{Geometry};
ghost use Rattle.nm_action.specs.declared.turn.Lane.TheVariants.{Pending};
ghost use Rattle.nm_actor.specs.Alone.{FitsLane};
ghost use Rattle.nm_actor.specs.Turns.{Turns, IsDrained};
ghost use Rattle.nm_script.specs.declared.schedule.Schedule.{Schedule};
ghost use Rattle.nm_schedule.specs.declared.turn.Played.{Played};
ghost use Rattle.nm_schedule.specs.Played.{turns_by};
ghost use Rattle.nm_schedule.specs.Scheduled.{IsScheduled};
ghost use Rattle.nm_pending.specs.PendingTurns.{FitsPending, HasPendingAlone};

/// In the turns of a schedule an actor that alone puts pages into the lane Pending and takes them from it is answered as by a lane
/// that is empty at first, and first in, first out.
pub fn the_lane_pending_is_first_in_first_out()
    ensures { (g : Geometry) (schedule : Schedule) (played : List Played) (actor : ℕ) → IsScheduled g schedule played
        → HasPendingAlone g actor played → FitsPending [] (turns_by actor played) }
{}

/// Where the last that such an actor did in the lane was to find it empty, the lane is empty after its turns.
pub fn a_drained_lane_is_left_empty()
    ensures { (turns : Turns) → FitsPending [] turns → IsDrained Pending turns → FitsLane Pending [] turns [] }
{}
