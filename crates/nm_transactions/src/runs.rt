//! What the events of every run show of its transactions, whoever the actors are.

ghost use Rattle.std.specs.Prelude.{List};
ghost use Rattle.nm_base.specs.Geometry.{Geometry, IsGeometry};
ghost use Rattle.nm_action.specs.declared.action.Event.{Event};
ghost use Rattle.nm_core.specs.Runs.{IsRun};
ghost use Rattle.nm_transactions.specs.TransactionLaw.{ObeyTransactionLaw};

/// The transactions of each run obey the law: between a ClearDirty of a virtual page and the next SetHome or Map of its actor on
/// the page lies one Unmap of the virtual page, after the flush ended; a SetHome follows exactly where no dirty Walk of the
/// virtual page lies between ClearDirty and Unmap, and else the word that Unmap took goes back; and where a SetHome follows,
/// nobody stored or added to the page once the flush had ended.
pub fn transactions_of_a_run_obey_the_law()
    ensures { (g : Geometry) (events : List Event) → IsGeometry g → IsRun g events → ObeyTransactionLaw g events }
{}
