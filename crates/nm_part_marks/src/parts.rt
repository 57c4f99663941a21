//! What each finished list of a part shows of marks.

ghost use Rattle.std.specs.Prelude.{ℕ, Bool, List};
ghost use Rattle.nm_base.specs.Geometry.{Geometry};
ghost use Rattle.nm_action.specs.Own.{Own};
ghost use Rattle.nm_prepare.specs.declared.prepare.PrepareMade.{PrepareMade};
ghost use Rattle.nm_txn.specs.declared.end.TxnEnd.{TxnEnd};
ghost use Rattle.nm_txn.specs.Transactions.{IsTxn};
ghost use Rattle.nm_txn.specs.Batches.{BatchMade, IsBatch};
ghost use Rattle.nm_locked.specs.declared.choose.ChooseMade.{ChooseMade};
ghost use Rattle.nm_locked.specs.declared.locked.LockedEnd.{LockedEnd};
ghost use Rattle.nm_locked.specs.Moves.{IsLockedInMove};
ghost use Rattle.nm_cool.specs.declared.cool.Cooled.{Cooled};
ghost use Rattle.nm_cool.specs.Cooling.{CoolData, IsCooling};
ghost use Rattle.nm_demote.specs.declared.select.DemoteMade.{DemoteMade};
ghost use Rattle.nm_demote.specs.declared.demote.DemoteEnd.{DemoteEnd};
ghost use Rattle.nm_demote.specs.Demotions.{IsDemotion};
ghost use Rattle.nm_inspect.specs.declared.inspect.Inspected.{Inspected};
ghost use Rattle.nm_inspect.specs.Inspecting.{InspectData, IsInspection};
ghost use Rattle.nm_shadow_fault.specs.declared.fault.FaultEnd.{FaultEnd};
ghost use Rattle.nm_ended.specs.Asking.{IsAsking};
ghost use Rattle.nm_fault.specs.Tasks.{FaultBegun, IsFault};
ghost use Rattle.nm_marks.specs.Contents.{HasEvent};
ghost use Rattle.nm_marks.specs.Marks.{HasOnlyMarks, IsNoMark, IsPendingMark, IsCandidateMark, IsTakenBack};
ghost use Rattle.nm_part_marks.specs.Ends.{IsTxnOver, ArePiecesBack, IsMoveOver};

/// Transactions, batches of them and locked moves make no Mark but from pending to none; a candidate that is cooled is made no
/// candidate; demotions, inspections, faults, and questions whether the processors have ended, make no Mark.
pub fn parts_make_these_marks()
    ensures transaction { (made : PrepareMade) (g : Geometry) (own : Own) (end : TxnEnd) → IsTxn made g own end → HasOnlyMarks IsPendingMark own }
    ensures batch { (made : BatchMade) (g : Geometry) (own : Own) (ends : List TxnEnd) → IsBatch made g own ends → HasOnlyMarks IsPendingMark own }
    ensures locked { (made : ChooseMade) (g : Geometry) (own : Own) (end : LockedEnd) → IsLockedInMove made g own end → HasOnlyMarks IsPendingMark own }
    ensures cool { (made : CoolData) (g : Geometry) (own : Own) (end : Cooled) → IsCooling made g own end → HasOnlyMarks IsCandidateMark own }
    ensures demotion { (made : DemoteMade) (g : Geometry) (own : Own) (end : DemoteEnd) → IsDemotion made g own end → HasOnlyMarks IsNoMark own }
    ensures inspection { (made : InspectData) (g : Geometry) (own : Own) (end : Inspected) → IsInspection made g own end → HasOnlyMarks IsNoMark own }
    ensures ask { (cpus : ℕ) (g : Geometry) (own : Own) (all : Bool) → IsAsking cpus g own all → HasOnlyMarks IsNoMark own }
    ensures fault { (begun : FaultBegun) (g : Geometry) (own : Own) (end : FaultEnd) → IsFault begun g own end → HasOnlyMarks IsNoMark own }
{}

/// A transaction, alone or in a batch, or a locked move that is over, neither aborted nor refused by a lock, took its page from pending to none.
pub fn parts_take_marks_back()
    ensures transaction { (made : PrepareMade) (g : Geometry) (own : Own) (end : TxnEnd) → IsTxn made g own end → IsTxnOver end
        → HasEvent (IsTakenBack made.page) own }
    ensures batch { (made : BatchMade) (g : Geometry) (own : Own) (ends : List TxnEnd) → IsBatch made g own ends
        → ArePiecesBack made.pieces ends own }
    ensures locked { (made : ChooseMade) (g : Geometry) (own : Own) (end : LockedEnd) → IsLockedInMove made g own end → IsMoveOver end
        → HasEvent (IsTakenBack made.page) own }
{}
