//! What is true of the text of a journal.

ghost use Rattle.std.specs.Prelude.{List};
ghost use Rattle.nm_action.specs.declared.action.Event.{Event};
ghost use Rattle.nm_core.specs.EndWords as ends;
ghost use Rattle.nm_script.specs.Plain as plain;
ghost use Rattle.nm_script.specs.Script.{IsScript, script_text};
ghost use Rattle.nm_report.specs.declared.line_result.LineResult.{LineResult};
ghost use Rattle.nm_journal_text.specs.Journals.{TellsOfEvents, IsJournalThatHolds, journal_text};

/// The text of a journal of a script holds, where its events tell of the script's machine and programs with these results and this end.
pub fn written_journal_holds()
    ensures { (script : plain.Script) (events : List Event) (results : List (List LineResult)) (end : ends.EndWords) → IsScript script
        → TellsOfEvents script events results end → IsJournalThatHolds (journal_text (script_text script) script events results end) }
{}
