//! The facts of the runs of scripts: of simulations, of runs on threads, and of journals that hold.

ghost use Rattle.std.specs.Prelude.{ℕ, ◌<◌, List};
ghost use Rattle.nm_base.specs.Geometry.{IsGeometry};
ghost use Rattle.nm_action.specs.declared.action.Event.{Event};
ghost use Rattle.nm_core.specs.EndWords.{EndWords, IsEndOf};
ghost use Rattle.nm_core.specs.Runs.{IsRun, state_after};
ghost use Rattle.nm_script.specs.Plain.{Script};
ghost use Rattle.nm_report.specs.declared.line_result.LineResult.{LineResult};
ghost use Rattle.nm_journal_text.specs.Journals.{IsJournalThatHolds};
ghost use Rattle.nm_run_facts.specs.RunFacts.{HasFollowed, HoldsOfEvents, HoldsOfJournal};

/// Where the events are a run of a script's machine, in which the accesses of each processor follow its program with these results,
/// and the end words are those of the state after them: the accesses are the processors' own and one legal history of a flat
/// memory; transactions obey their law; at each step shadows are true and the roles of frames are a partition; and the counts and
/// the last line of the report are those of the end.
pub fn the_facts_hold_of_each_run_of_a_script()
    ensures { (s : Script) (results : List (List LineResult)) (end : EndWords) (events : List Event) → IsGeometry s.geometry → IsRun s.geometry events
        → ((cpu : ℕ) → cpu < s.geometry.cpus → HasFollowed s results events cpu) → IsEndOf (state_after s.geometry events) end
        → HoldsOfEvents s results end events }
{}

/// So they hold of the run that a journal tells of, if the journal holds, whoever wrote it.
pub fn the_facts_hold_of_each_journal()
    ensures { (bytes : List ℕ) → IsJournalThatHolds bytes → HoldsOfJournal bytes }
{}
