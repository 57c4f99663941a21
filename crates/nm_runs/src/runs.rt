//! What holds of every run: of every list of permitted steps, whoever the actors are.

ghost use Rattle.std.specs.Prelude.{ℕ, List};
ghost use Rattle.nm_base.specs.Geometry.{Geometry, IsGeometry};
ghost use Rattle.nm_action.specs.declared.action.Event.{Event};
ghost use Rattle.nm_core.specs.Runs.{IsStep, IsRun, state_after};
ghost use Rattle.nm_core.specs.State.{view_of};
ghost use Rattle.nm_event.specs.Fitting.{Fits};
ghost use Rattle.nm_world.specs.Laws.{AreAll};
ghost use Rattle.nm_world.specs.Seen.{world_of};

/// In the state after each run all the groups hold.
pub fn each_state_of_a_run_is_lawful()
    ensures { (g : Geometry) (events : List Event) → IsGeometry g → IsRun g events
        → AreAll g (world_of (state_after g events)) }
{}

/// The reply of each step after a run fits its action and the view of its actor.
pub fn each_reply_of_a_run_fits()
    ensures { (g : Geometry) (events : List Event) (e : Event) → IsGeometry g → IsRun g events
        → IsStep (state_after g events) e → Fits g (view_of (state_after g events) e.actor) e.action e.reply }
{}
