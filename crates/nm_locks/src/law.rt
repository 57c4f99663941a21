//! Each permitted step keeps the lock law.

ghost use Rattle.std.specs.Prelude.{ℕ};
ghost use Rattle.nm_base.specs.Geometry.{Geometry};
ghost use Rattle.nm_action.specs.declared.action.Action.{Action};
ghost use Rattle.nm_view.specs.Opening.{IsActor};
ghost use Rattle.nm_permit.specs.Permitted.{Allowed};
ghost use Rattle.nm_event.specs.Fitting.{Fits};
ghost use Rattle.nm_world.specs.Worlds.{World, moved, reply_in};
ghost use Rattle.nm_world.specs.LockLaw.{LockLaw};
ghost use Rattle.nm_world.specs.Laws.{AreAll};

/// Where all the groups hold, an action that the actor's view permits, with a reply that fits, leaves a world in which the
/// lock law holds.
pub fn a_step_keeps_the_lock_law()
    ensures { (g : Geometry) (m : World) (actor : ℕ) (action : Action) → AreAll g m → IsActor g actor
        → Allowed g (m.view actor) action → Fits g (m.view actor) action (reply_in g m actor action)
        → LockLaw g (moved g m actor action) }
{}
