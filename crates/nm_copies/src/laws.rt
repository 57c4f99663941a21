//! What holds of the copies after every permitted step.

ghost use Rattle.std.specs.Prelude.{ℕ};
ghost use Rattle.nm_base.specs.Geometry.{Geometry, IsGeometry};
ghost use Rattle.nm_action.specs.declared.action.Action.{Action};
ghost use Rattle.nm_world.specs.Worlds.{World, moved};
ghost use Rattle.nm_world.specs.Sights.{sight_of};
ghost use Rattle.nm_world.specs.ShapeLaw.{ShapeLaw};
ghost use Rattle.nm_world.specs.LockLaw.{LockLaw};
ghost use Rattle.nm_world.specs.CacheLaw.{CacheLaw};
ghost use Rattle.nm_world.specs.CopyLaw.{CopyLaw};
ghost use Rattle.nm_world.specs.Laws.{AreAll, IsReady};
ghost use Rattle.nm_copies.specs.Facts.{CopyFacts, HasStanding};

/// A step that can be made keeps the copy law, of whatever kind it is: from the facts of the other groups before the step,
/// and from this one after it, that entries stand on their table words where the flush of an operation ended.
pub fn a_step_keeps_the_copies()
    ensures { (g : Geometry) (m : World) (actor : ℕ) (action : Action) → CopyFacts g (sight_of g m)
        → HasStanding g (sight_of g (moved g m actor action)) → IsReady g m actor action
        → CopyLaw g (sight_of g m) → CopyLaw g (sight_of g (moved g m actor action)) }
{}

/// The same with no fact left open: in a world in which all groups hold, a step that can be made, and that keeps shape,
/// locks and caches, keeps the copy law.
pub fn a_lawful_step_keeps_the_copies()
    ensures { (g : Geometry) (m : World) (actor : ℕ) (action : Action) → IsGeometry g → AreAll g m → IsReady g m actor action
        → ShapeLaw g (moved g m actor action) → LockLaw g (moved g m actor action) → CacheLaw g (moved g m actor action)
        → CopyLaw g (sight_of g (moved g m actor action)) }
{}
