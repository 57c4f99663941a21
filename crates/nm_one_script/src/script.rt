//! The one run of a script.

ghost use Rattle.std.specs.Prelude.{◌≡◌};
ghost use Rattle.nm_script.specs.Plain.{Script};
ghost use Rattle.nm_sched.specs.Plain.{SimRun};
ghost use Rattle.nm_sched.specs.Runs.{IsRunOfScript};

/// Two runs of one script are the same: their events, their order, what each line gave, the words at the end, and all counts.
pub fn a_run_of_a_script_is_the_only_one()
    ensures { (script : Script) (run other : SimRun) → IsRunOfScript script run → IsRunOfScript script other → run ≡ other }
{}
