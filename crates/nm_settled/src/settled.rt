//! What holds of every run at whose end all actors have ended, whoever the actors are.

ghost use Rattle.std.specs.Prelude.{List};
ghost use Rattle.nm_base.specs.Geometry.{Geometry, IsGeometry};
ghost use Rattle.nm_action.specs.declared.action.Event.{Event};
ghost use Rattle.nm_core.specs.Roles.{IsSettled};
ghost use Rattle.nm_core.specs.Runs.{IsRun, state_after};
ghost use Rattle.nm_settled.specs.Ended.{HaveEndedViews, HasNoMark};

/// In the state after a run in which each actor's view is one of an actor that has ended, and no page has a mark, the machine is
/// settled: no lock and no turn is held, since a view would say so, and each processor has acknowledged its end.
pub fn ended_views_settle_the_machine()
    ensures { (g : Geometry) (events : List Event) → IsGeometry g → IsRun g events
        → HaveEndedViews (state_after g events) → HasNoMark (state_after g events)
        → IsSettled (state_after g events) }
{}
