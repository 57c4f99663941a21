//! What is true of each run of a script.

ghost use Rattle.nm_script.specs.Plain.{Script};
ghost use Rattle.nm_script.specs.Script.{IsScript};
ghost use Rattle.nm_sched.specs.Plain.{SimRun};
ghost use Rattle.nm_sched.specs.Runs.{IsRunOfScript};
ghost use Rattle.nm_top.specs.Output.{HoldsOfSimulation};

/// The facts hold of each run of a script: its accesses are the processors' own, follow their programs, and are one legal history of a flat
/// memory; its transactions obey their law; at each step shadows are true and the roles of frames are a partition; and the counts
/// and the last line of its report are those of its end. The last line says yes where every actor has ended, so it says no only after
/// all turns of the schedule.
pub fn the_facts_hold_of_each_simulation()
    ensures { (s : Script) (run : SimRun) → IsScript s → IsRunOfScript s run → HoldsOfSimulation s run }
{}
