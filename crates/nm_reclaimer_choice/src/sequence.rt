//! The reclaimer leaves no choice: what it hears decides its turns, and what is counted of them.

ghost use Rattle.nm_base.specs.Geometry.{Geometry};
ghost use Rattle.nm_kswap.specs.Reclaiming.{IsReclaiming};
ghost use Rattle.nm_note_choice.specs.NotesApart.{IsDeterministicRoutine};

/// Of any two whole sequences of a reclaimer, either they are the same, with the same counts, or they are the same up to a turn that heard
/// two things.
pub fn a_reclaimer_leaves_no_choice()
    ensures { (g : Geometry) → IsDeterministicRoutine (IsReclaiming g) }
{}
