//! What holds of every run.

ghost use Rattle.std.specs.Prelude.{◌≡◌, ℕ, List};
ghost use Rattle.nm_base.specs.Geometry.{Geometry};
ghost use Rattle.nm_action.specs.Own.{own_of};
ghost use Rattle.nm_action.specs.declared.action.Event.{Event};
ghost use Rattle.nm_view.specs.Opening.{opening, IsActor};
ghost use Rattle.nm_event.specs.After.{view_after};
ghost use Rattle.nm_core.specs.State.{view_of};
ghost use Rattle.nm_core.specs.Runs.{IsRun, state_after};

/// After a run, the view of an actor is what its own list makes of its opening view: the events of the others leave it.
pub fn own_list_tells_the_view()
    ensures { (g : Geometry) (events : List Event) (actor : ℕ) → IsActor g actor → IsRun g events
        → view_of (state_after g events) actor ≡ view_after g (opening g actor) (own_of actor events) }
{}
