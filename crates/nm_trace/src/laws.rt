//! What is true of every text, and of every import.

ghost use Rattle.std.specs.Prelude.{List, ℕ};
ghost use Rattle.nm_trace.specs.declared.reference.Reference.{Reference};
ghost use Rattle.nm_trace.specs.Laws.{HasOneImport, HasOwnNumbers, IsReadAgain};
ghost use Rattle.nm_trace.specs.Traces.{HasTrace};
ghost use Rattle.nm_script.specs.Plain as script;
ghost use Rattle.nm_script.specs.Script.{IsScript};

/// Every text is the trace of one script, with tiers of these sizes, or has one first fault at one record, and never both.
pub fn one_import()
    ensures { (bytes : List ℕ) (fast slow : ℕ) → HasOneImport bytes fast slow }
{}

/// Two references have one page number exactly where their addresses have one page.
pub fn page_numbers()
    ensures { (refs : List Reference) → HasOwnNumbers refs }
{}

/// The trace of a script is read as the references of its lines: its import is the script of these, or has a fault of the
/// whole alone.
pub fn read_again()
    ensures { (s : script.Script) → IsScript s → HasTrace s → IsReadAgain s }
{}
