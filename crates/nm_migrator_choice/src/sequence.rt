//! The migrator leaves no choice: what it hears decides its turns, and what is counted of them.

ghost use Rattle.std.specs.Prelude.{ℕ, Option};
ghost use Rattle.nm_base.specs.Geometry.{Geometry};
ghost use Rattle.nm_migrator.specs.Migrating.{IsMigrating};
ghost use Rattle.nm_note_choice.specs.NotesApart.{IsDeterministicRoutine};

/// Of any two whole sequences of a migrator, either they are the same, with the same counts, or they are the same up to a turn that heard
/// two things.
pub fn a_migrator_leaves_no_choice()
    ensures { (g : Geometry) (retry : Option ℕ) → IsDeterministicRoutine (IsMigrating g retry) }
{}
