//! The roles of frames in every run.

ghost use Rattle.std.specs.Prelude.{ℕ, ◌<◌, List, length};
ghost use Rattle.nm_base.specs.Geometry.{Geometry, IsGeometry};
ghost use Rattle.nm_action.specs.declared.action.Event.{Event};
ghost use Rattle.nm_core.specs.EndWords as ends;
ghost use Rattle.nm_core.specs.Runs.{IsRun, state_after};
ghost use Rattle.nm_report.specs.Filters.{HasOneRoleEach, CountsFilters};

/// In the state after each run every frame passes exactly one of four tests: it is free, mapped, a shadow, or held.
pub fn each_frame_of_a_run_has_one_role()
    ensures { (g : Geometry) (events : List Event) → IsGeometry g → IsRun g events → HasOneRoleEach (state_after g events) }
{}

/// So at the end of each run the four counts of a tier's line are those of the frames of the tier that pass each test.
pub fn each_count_of_a_run_is_that_of_a_test()
    ensures { (g : Geometry) (events : List Event) (end : ends.EndWords) (tier : ℕ) → IsGeometry g → IsRun g events
        → ends.IsEndOf (state_after g events) end → tier < length g.tiers → CountsFilters (state_after g events) end tier }
{}
