//! What is true of the text behind a script part.

ghost use Rattle.std.specs.Prelude.{◌≡◌, ◌≢◌, ℕ, List, ◌++◌, ◌∷◌, [], codes};
ghost use Rattle.nm_action.specs.declared.action.Event.{Event};
ghost use Rattle.nm_core.specs.State as states;
ghost use Rattle.nm_core.specs.Runs.{state_after};
ghost use Rattle.nm_follow.specs.Cursors.{Cursor};
ghost use Rattle.nm_script.specs.Plain as plain;
ghost use Rattle.nm_script.specs.Script.{IsScript};
ghost use Rattle.nm_text.specs.Cuts.{Lacks};
ghost use Rattle.nm_journal_text.specs.Journals.{IsBody};
ghost use Rattle.nm_journal_text.specs.Taken.{AreTaken, IsLineTaken, IsLineRefused};
ghost use Rattle.nm_journal_text.specs.Verdicts.{IsBegun, IsFirstWrong};
ghost use Rattle.nm_journal_text.specs.Following.{event_lines, IsMore};

/// A text behind a script part has one first line that is wrong at most, and none where it holds.
pub fn one_verdict()
    ensures one { (script : plain.Script) (body : List ℕ) (n m : ℕ) → IsFirstWrong script body n → IsFirstWrong script body m → n ≡ m }
    ensures apart { (script : plain.Script) (body : List ℕ) (n : ℕ) → IsBody script body → ¬ IsFirstWrong script body n }
{}

/// The lines of events begin a journal that holds exactly where the events are a run whose accesses follow the programs so far. No
/// event is such a run; the lines of one begin such a journal; a line that is taken makes a longer one; and with a line that is
/// refused, and isn't `report`, no journal that holds goes on.
pub fn event_lines_begin()
    ensures begun { (script : plain.Script) (events : List Event) (cursors : List Cursor) → IsScript script → AreTaken script events cursors
        → IsBegun script (event_lines events) }
    ensures taken { (script : plain.Script) (events : List Event) (l : List ℕ) (s t : states.State) (old new : List Cursor) → IsScript script
        → AreTaken script events old → s ≡ state_after script.geometry events → IsLineTaken script s old l t new → IsMore script events l t new }
    ensures refused { (script : plain.Script) (events : List Event) (l : List ℕ) (s : states.State) (old : List Cursor) → IsScript script
        → AreTaken script events old → s ≡ state_after script.geometry events → Lacks 10 l → l ≢ codes "report" → IsLineRefused script s old l
        → ¬ IsBegun script (event_lines events ++ l ∷ []) }
{}
