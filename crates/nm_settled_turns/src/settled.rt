//! What holds at the end of every run whose actors have all ended, whoever called upon them.

ghost use Rattle.std.specs.Prelude.{◌≢◌, ℕ, List, [], Option};
ghost use Rattle.nm_base.specs.Geometry.{Geometry, IsGeometry};
ghost use Rattle.nm_action.specs.declared.action.Event.{Event};
ghost use Rattle.nm_action.specs.declared.turn.Lane.{Lane};
ghost use Rattle.nm_action.specs.declared.turn.Lane.TheVariants.{Pending};
ghost use Rattle.nm_view.specs.Opening.{IsActor};
ghost use Rattle.nm_core.specs.Roles.{IsSettled};
ghost use Rattle.nm_core.specs.Runs.{IsRun, state_after};
ghost use Rattle.nm_actor.specs.Alone.{FitsLane};
ghost use Rattle.nm_actor.specs.Turns.{Turns, IsDrained};
ghost use Rattle.nm_script.specs.declared.script.Line.{Line};
ghost use Rattle.nm_pending.specs.PendingTurns.{AreOffPending};
ghost use Rattle.nm_settled_turns.specs.EndedParts.{IsMergeOf, AreEndedParts};

/// In the state after a run of which the own lists of actors are the parts, and in which all actors have ended, the machine is
/// settled, where the lane Pending answered the migrator first in, first out, and was empty before and after: processors, migrator
/// and reclaimer leave nothing open in their views and together no mark.
pub fn ended_parts_settle()
    ensures { (g : Geometry) (events : List Event) (programs : ℕ → List Line) (retry : Option ℕ) (turns : ℕ → Turns)
        → IsGeometry g → IsRun g events → IsMergeOf turns events → AreEndedParts g programs retry turns
        → FitsLane Pending [] (turns g.cpus) [] → IsSettled (state_after g events) }
{}

/// Where all actors have ended, the migrator alone put pages into the lane Pending and took them from it.
pub fn the_migrator_alone_uses_the_lane_pending()
    ensures { (g : Geometry) (programs : ℕ → List Line) (retry : Option ℕ) (turns : ℕ → Turns) → AreEndedParts g programs retry turns
        → (actor : ℕ) → IsActor g actor → actor ≢ g.cpus → AreOffPending (turns actor) }
{}

/// Where all actors have ended, the last that the migrator did in each lane was to find it empty.
pub fn the_migrator_drained_the_lanes()
    ensures { (g : Geometry) (programs : ℕ → List Line) (retry : Option ℕ) (turns : ℕ → Turns) → AreEndedParts g programs retry turns
        → (lane : Lane) → IsDrained lane (turns g.cpus) }
{}
