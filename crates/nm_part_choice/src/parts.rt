//! The patterns of parts leave no choice: of any two finished lists of a part, either they are the same and show the same outcome, or
//! they are the same up to an action that was answered in two ways.

ghost use Rattle.std.specs.Prelude.{ℕ, List};
ghost use Rattle.nm_base.specs.Geometry.{Geometry};
ghost use Rattle.nm_pool.specs.declared.job.PoolJob.{PoolJob};
ghost use Rattle.nm_pool.specs.Pool.{IsPool};
ghost use Rattle.nm_shoot.specs.Shootdown.{IsShootdown};
ghost use Rattle.nm_copying.specs.declared.copies.CopiesMade.{CopiesMade};
ghost use Rattle.nm_copying.specs.Copying.{IsCopying};
ghost use Rattle.nm_copying.specs.declared.zeroes.ZeroesMade.{ZeroesMade};
ghost use Rattle.nm_copying.specs.Zeroing.{IsZeroing};
ghost use Rattle.nm_mappings.specs.declared.visits.VisitsMade.{VisitsMade};
ghost use Rattle.nm_mappings.specs.Visits.{IsVisits};
ghost use Rattle.nm_looks.specs.Seeing.{LooksData, IsLooks};
ghost use Rattle.nm_looks.specs.Softening.{IsSoftens};
ghost use Rattle.nm_transfer.specs.declared.transfer.TransferMade.{TransferMade};
ghost use Rattle.nm_transfer.specs.Transferring.{IsTransfer};
ghost use Rattle.nm_reclaim.specs.declared.sweep.ReclaimMade.{ReclaimMade};
ghost use Rattle.nm_reclaim.specs.Reclaims.{IsReclaim};
ghost use Rattle.nm_obtain.specs.declared.obtain.ObtainMade.{ObtainMade};
ghost use Rattle.nm_obtain.specs.Obtains.{IsObtain};
ghost use Rattle.nm_prepare.specs.declared.prepare.PrepareMade.{PrepareMade};
ghost use Rattle.nm_txn.specs.Transactions.{IsTxn};
ghost use Rattle.nm_txn.specs.Batches.{BatchMade, IsBatch};
ghost use Rattle.nm_locked.specs.declared.choose.ChooseMade.{ChooseMade};
ghost use Rattle.nm_locked.specs.Moves.{IsLockedInMove};
ghost use Rattle.nm_cool.specs.Cooling.{CoolData, IsCooling};
ghost use Rattle.nm_demote.specs.declared.select.DemoteMade.{DemoteMade};
ghost use Rattle.nm_demote.specs.Demotions.{IsDemotion};
ghost use Rattle.nm_inspect.specs.Inspecting.{InspectData, IsInspection};
ghost use Rattle.nm_fault.specs.Tasks.{FaultBegun, IsFault};
ghost use Rattle.nm_ended.specs.Asking.{IsAsking};
ghost use Rattle.nm_choice.specs.Deterministic.{IsDeterministicPart};

/// The parts that other parts are made of leave no choice.
pub fn pieces_leave_no_choice()
    ensures shootdown { (cpus : ℕ) → IsDeterministicPart (IsShootdown cpus) }
    ensures pool { (g : Geometry) (job : PoolJob) → IsDeterministicPart (IsPool g job) }
    ensures copies { (made : CopiesMade) (g : Geometry) → IsDeterministicPart (IsCopying made g) }
    ensures zeroes { (made : ZeroesMade) (g : Geometry) → IsDeterministicPart (IsZeroing made g) }
    ensures visits { (made : VisitsMade) (g : Geometry) → IsDeterministicPart (IsVisits made g) }
    ensures looks { (made : LooksData) (g : Geometry) → IsDeterministicPart (IsLooks made g) }
    ensures softens { (pages : List ℕ) (g : Geometry) → IsDeterministicPart (IsSoftens pages g) }
    ensures transfer { (made : TransferMade) (g : Geometry) → IsDeterministicPart (IsTransfer made g) }
    ensures reclaim { (g : Geometry) (made : ReclaimMade) → IsDeterministicPart (IsReclaim g made) }
    ensures obtain { (made : ObtainMade) (g : Geometry) → IsDeterministicPart (IsObtain made g) }
{}

/// The parts that actors do leave no choice.
pub fn parts_leave_no_choice()
    ensures transaction { (made : PrepareMade) (g : Geometry) → IsDeterministicPart (IsTxn made g) }
    ensures batch { (made : BatchMade) (g : Geometry) → IsDeterministicPart (IsBatch made g) }
    ensures locked { (made : ChooseMade) (g : Geometry) → IsDeterministicPart (IsLockedInMove made g) }
    ensures cool { (made : CoolData) (g : Geometry) → IsDeterministicPart (IsCooling made g) }
    ensures demotion { (made : DemoteMade) (g : Geometry) → IsDeterministicPart (IsDemotion made g) }
    ensures inspection { (made : InspectData) (g : Geometry) → IsDeterministicPart (IsInspection made g) }
    ensures fault { (begun : FaultBegun) (g : Geometry) → IsDeterministicPart (IsFault begun g) }
    ensures ask { (cpus : ℕ) (g : Geometry) → IsDeterministicPart (IsAsking cpus g) }
{}
