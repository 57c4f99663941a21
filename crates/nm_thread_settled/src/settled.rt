//! What holds at the end of every run that threads made.

ghost use Rattle.std.specs.Prelude.{◌≡◌, ℕ, List, [], Option};
ghost use Rattle.nm_base.specs.Geometry.{Geometry, IsGeometry};
ghost use Rattle.nm_action.specs.declared.action.Event.{Event};
ghost use Rattle.nm_action.specs.declared.turn.Lane.TheVariants.{Pending};
ghost use Rattle.nm_view.specs.Opening.{IsActor};
ghost use Rattle.nm_core.specs.Roles.{IsSettled};
ghost use Rattle.nm_core.specs.Runs.{IsRun, state_after};
ghost use Rattle.nm_actor.specs.Turns.{Turns};
ghost use Rattle.nm_script.specs.declared.script.Line.{Line};
ghost use Rattle.nm_settled_turns.specs.EndedParts.{IsMergeOf, AreEndedParts};
ghost use Rattle.nm_thread_settled.specs.Emptied.{IsEmptiedLane};

/// In the state after a run that threads made, of which the own lists of actors are the parts, and in which all actors have ended, the
/// machine is settled, where no page is left in the lane Pending: processors, migrator and reclaimer leave nothing open in their views
/// and together no mark. Nobody else has turns.
pub fn a_run_on_threads_is_settled()
    ensures { (g : Geometry) (events : List Event) (programs : ℕ → List Line) (retry : Option ℕ) (turns : ℕ → Turns)
        → IsGeometry g → IsRun g events → IsMergeOf turns events → AreEndedParts g programs retry turns
        → ((actor : ℕ) → ¬ IsActor g actor → turns actor ≡ []) → IsEmptiedLane Pending turns
        → IsSettled (state_after g events) }
{}
