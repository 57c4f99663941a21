//! What holds of the marks at the end of every run.

ghost use Rattle.std.specs.Prelude.{List};
ghost use Rattle.nm_base.specs.Geometry.{Geometry, IsGeometry};
ghost use Rattle.nm_action.specs.declared.action.Event.{Event};
ghost use Rattle.nm_core.specs.Runs.{IsRun, state_after};
ghost use Rattle.nm_settled.specs.Ended.{HasNoMark};
ghost use Rattle.nm_unmarked.specs.Unmarking.{TakeMarksBack};

/// In the state after a run no page has a mark, where the own lists of the actors show that: processors alone make candidates,
/// and none after the end that they acknowledge; the migrator alone marks pages as pending, and takes each of these marks back;
/// and it takes back the candidate mark of each page after it has seen every processor at its end.
pub fn no_mark_is_left()
    ensures { (g : Geometry) (events : List Event) → IsGeometry g → IsRun g events → TakeMarksBack g events
        → HasNoMark (state_after g events) }
{}
