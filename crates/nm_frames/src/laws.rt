//! What every permitted step keeps of frames and of shadows.

ghost use Rattle.std.specs.Prelude.{ℕ};
ghost use Rattle.nm_base.specs.Geometry.{Geometry};
ghost use Rattle.nm_action.specs.declared.action.Action.{Action};
ghost use Rattle.nm_world.specs.Worlds.{World, moved};
ghost use Rattle.nm_world.specs.Sights.{sight_of};
ghost use Rattle.nm_world.specs.FrameLaw.{FrameLaw};
ghost use Rattle.nm_world.specs.ShadowLaw.{ShadowLaw};
ghost use Rattle.nm_world.specs.Laws.{IsReady};
ghost use Rattle.nm_frames.specs.Facts.{HasFrameFacts, HasShadowFacts};

/// A step of any kind keeps one role for each frame, and the table words and taken words that name homes.
pub fn each_step_keeps_frames()
    ensures { (g : Geometry) (m : World) (actor : ℕ) (action : Action) → HasFrameFacts g m
        → IsReady g m actor action → FrameLaw g (sight_of g m) → FrameLaw g (sight_of g (moved g m actor action)) }
{}

/// A step of any kind keeps shadows true: each equals its master, in a slower tier, and its page is clean.
pub fn each_step_keeps_shadows()
    ensures { (g : Geometry) (m : World) (actor : ℕ) (action : Action) → HasShadowFacts g m
        → IsReady g m actor action → ShadowLaw g (sight_of g m) → ShadowLaw g (sight_of g (moved g m actor action)) }
{}
