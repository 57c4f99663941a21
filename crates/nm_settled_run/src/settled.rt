//! What holds at the end of every run of a script.

ghost use Rattle.std.specs.Prelude.{◌≡◌};
ghost use Rattle.nm_base.specs.Geometry.{IsGeometry};
ghost use Rattle.nm_core.specs.Roles.{IsSettled};
ghost use Rattle.nm_core.specs.Runs.{state_after};
ghost use Rattle.nm_script.specs.Plain.{Script};
ghost use Rattle.nm_schedule.specs.Picks.{most_turns};
ghost use Rattle.nm_sched.specs.Plain.{SimRun};
ghost use Rattle.nm_sched.specs.Runs.{IsRunOfScript};
ghost use Rattle.nm_settled_run.specs.AllEnded.{HaveAllEnded};

/// A run of a script in which every actor has ended is settled: processors, migrator and reclaimer leave nothing open in their views
/// and together no mark. So one that is not settled made all turns of the schedule.
pub fn a_run_of_a_script_is_settled_or_made_all_turns()
    ensures ended { (script : Script) (run : SimRun) → IsGeometry script.geometry → IsRunOfScript script run
        → HaveAllEnded script.geometry run.order → IsSettled (state_after script.geometry run.events) }
    ensures unsettled { (script : Script) (run : SimRun) → IsGeometry script.geometry → IsRunOfScript script run
        → ¬ IsSettled (state_after script.geometry run.events) → run.turns ≡ most_turns script.schedule }
{}
