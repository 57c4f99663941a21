//! What holds of every step, and of every state that can be made.

ghost use Rattle.std.specs.Prelude.{◌≡◌, ℕ};
ghost use Rattle.nm_base.specs.Geometry.{Geometry, IsGeometry};
ghost use Rattle.nm_action.specs.declared.action.Action.{Action};
ghost use Rattle.nm_view.specs.Opening.{IsActor};
ghost use Rattle.nm_permit.specs.Permitted.{Allowed};
ghost use Rattle.nm_core.specs.Kept.{IsKept};
ghost use Rattle.nm_core.specs.State.{State, view_of, step, start};
ghost use Rattle.nm_world.specs.Worlds.{World, moved};
ghost use Rattle.nm_world.specs.ShapeLaw.{ShapeLaw};
ghost use Rattle.nm_world.specs.Bounds.{HasBounds};
ghost use Rattle.nm_world.specs.Laws.{AreAll, IsReady};
ghost use Rattle.nm_world.specs.Seen.{world_of};

/// A permitted step of a state is the step of its world: one word and one view change, each by the table.
pub fn a_step_moves_the_world()
    ensures { (s : State) (actor : ℕ) (action : Action) → IsKept s → IsActor s.geometry actor
        → Allowed s.geometry (view_of s actor) action
        → world_of (step s actor action) ≡ moved s.geometry (world_of s) actor action }
{}

/// Each state that can be made has the bounds: its words are in range, and its sums agree.
pub fn each_state_has_bounds()
    ensures { (s : State) → IsKept s → HasBounds s.geometry (world_of s) }
{}

/// Where each view has the shape, a permitted action whose reply fits leaves views that have it.
pub fn a_step_keeps_the_shape()
    ensures { (g : Geometry) (m : World) (actor : ℕ) (action : Action) → IsGeometry g
        → IsReady g m actor action → ShapeLaw g (moved g m actor action) }
{}

/// Where nothing was done, all the groups hold.
pub fn opening_is_lawful()
    ensures { (g : Geometry) → IsGeometry g → AreAll g (world_of (start g)) }
{}
