//! What a whole sequence of the reclaimer shows of marks.

ghost use Rattle.nm_base.specs.Geometry.{Geometry};
ghost use Rattle.nm_worker.specs.Notes.{Notes, noted_turns};
ghost use Rattle.nm_kswap.specs.Reclaiming.{IsReclaiming};
ghost use Rattle.nm_marks.specs.Marks.{HasOnlyMarks, IsNoMark};
ghost use Rattle.nm_note_marks.specs.Contents.{own_noted};
ghost use Rattle.nm_pending.specs.PendingTurns.{AreOffPending};

/// A whole sequence of the reclaimer has no Mark.
pub fn an_ended_reclaimer_makes_no_mark()
    ensures { (g : Geometry) (notes : Notes) → IsReclaiming g notes tt → HasOnlyMarks IsNoMark (own_noted notes) }
{}

/// In a whole sequence of the reclaimer no turn is a put into the lane Pending or a take from it.
pub fn an_ended_reclaimer_leaves_the_pending_pages()
    ensures { (g : Geometry) (notes : Notes) → IsReclaiming g notes tt → AreOffPending (noted_turns notes) }
{}
