//! What is true of the runs that threads make.

ghost use Rattle.nm_script.specs.Plain.{Script};
ghost use Rattle.nm_script.specs.Script.{IsScript};
ghost use Rattle.nm_thread_facts.specs.ThreadRuns.{ThreadRun, IsThreadRun, HoldsOfThreads};

/// The facts hold of each run that threads make of a script: its accesses are the processors' own, follow their whole programs, and are
/// one legal history of a flat memory; its transactions obey their law; at each step shadows are true and the roles of frames are a
/// partition; the counts of its report are those of its end; and the end is settled.
pub fn each_run_of_threads_holds()
    ensures { (s : Script) (run : ThreadRun) → IsScript s → IsThreadRun s run → HoldsOfThreads s run }
{}
