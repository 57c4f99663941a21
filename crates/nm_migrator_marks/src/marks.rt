//! What whole sequences of the migrator show of marks, and of the lanes.

ghost use Rattle.std.specs.Prelude.{ℕ, [], Option};
ghost use Rattle.nm_base.specs.Geometry.{Geometry};
ghost use Rattle.nm_action.specs.declared.turn.Lane.{Lane};
ghost use Rattle.nm_action.specs.declared.turn.Lane.TheVariants.{Pending};
ghost use Rattle.nm_actor.specs.Alone.{FitsLane};
ghost use Rattle.nm_actor.specs.Turns.{IsDrained};
ghost use Rattle.nm_worker.specs.Notes.{Notes, noted_turns};
ghost use Rattle.nm_migrator_work.specs.Planned.{MigratorKept};
ghost use Rattle.nm_migrator.specs.Migrating.{IsMigratingBy};
ghost use Rattle.nm_unmarked.specs.Unmarking.{IsMigratorUnmarking};
ghost use Rattle.nm_note_marks.specs.Contents.{own_noted};

/// In the whole sequences of the migrator, however often it was resumed, each Mark is one of its own; whenever it marked a page as
/// pending it took that mark back later; and after it saw every processor at its end it took back the candidate mark of each page.
/// The condition: it alone uses the lane Pending, which is first in, first out, and empty before and after.
pub fn an_ended_migrator_takes_marks_back()
    ensures { (resumed : ℕ) (g : Geometry) (retry : Option ℕ) (notes : Notes) (kept : MigratorKept) → IsMigratingBy resumed g retry notes kept
        → FitsLane Pending [] (noted_turns notes) [] → IsMigratorUnmarking g (own_noted notes) }
{}

/// In the whole sequences of the migrator, however often it was resumed, the last that it does in each lane is to find it empty.
pub fn an_ended_migrator_drained_the_lanes()
    ensures { (resumed : ℕ) (g : Geometry) (retry : Option ℕ) (notes : Notes) (kept : MigratorKept) → IsMigratingBy resumed g retry notes kept
        → (lane : Lane) → IsDrained lane (noted_turns notes) }
{}
