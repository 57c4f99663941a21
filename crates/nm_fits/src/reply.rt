//! The reply of a permitted step fits its action and the view of its actor.

ghost use Rattle.std.specs.Prelude.{ℕ};
ghost use Rattle.nm_base.specs.Geometry.{Geometry, IsGeometry};
ghost use Rattle.nm_action.specs.declared.action.Action.{Action};
ghost use Rattle.nm_view.specs.Opening.{IsActor};
ghost use Rattle.nm_permit.specs.Permitted.{Allowed};
ghost use Rattle.nm_event.specs.Fitting.{Fits};
ghost use Rattle.nm_world.specs.Worlds.{World, reply_in};
ghost use Rattle.nm_world.specs.Laws.{AreAll};

/// Where all the groups hold, the reply to an action that the actor's view permits fits.
pub fn each_reply_fits()
    ensures { (g : Geometry) (m : World) (actor : ℕ) (action : Action) → IsGeometry g → AreAll g m → IsActor g actor
        → Allowed g (m.view actor) action → Fits g (m.view actor) action (reply_in g m actor action) }
{}
