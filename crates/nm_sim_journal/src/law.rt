//! What is true of the journal of a simulation.

ghost use Rattle.std.specs.List.{AllByRecursion};
ghost use Rattle.nm_event_text.specs.Events.{FitsEvent};
ghost use Rattle.nm_script.specs.Plain.{Script};
ghost use Rattle.nm_script.specs.Script.{IsScript};
ghost use Rattle.nm_journal_text.specs.Journals.{IsJournalThatHolds};
ghost use Rattle.nm_sched.specs.Plain.{SimRun};
ghost use Rattle.nm_sched.specs.Runs.{IsRunOfScript};
ghost use Rattle.nm_sim_journal.specs.SimJournals.{journal_of};

/// The journal of each run of a script in the order of its schedule holds, where the numbers of its events fit their fields.
pub fn the_journal_of_each_simulation_holds()
    ensures { (s : Script) (run : SimRun) → IsScript s → IsRunOfScript s run → AllByRecursion FitsEvent run.events → IsJournalThatHolds (journal_of s run) }
{}
