//! What the finished list of a fault counts.

ghost use Rattle.std.specs.Prelude.{◌≡◌, List};
ghost use Rattle.nm_shadow_fault.specs.declared.fault.FaultEnd.{FaultEnd};
ghost use Rattle.nm_fault.specs.Tasks.{IsFault};
ghost use Rattle.nm_access.specs.Faults.{ends_tally};
ghost use Rattle.nm_cpu_fault.specs.ProcessorFaults.{fault_counts};
ghost use Rattle.nm_fault_counts.specs.Counted.{end_counted, ends_counted, AreFaultsCounted};

/// A finished list of a fault counts what its end says, whatever came before it, and nothing before its last event.
pub fn a_fault_counts_where_it_ends()
    ensures { AreFaultsCounted IsFault end_counted }
{}

/// What ends count is what those of them count that count anything.
pub fn ends_count_what_counts()
    ensures { (ends : List FaultEnd) → ends_tally fault_counts (ends_counted end_counted ends) ≡ ends_tally fault_counts ends }
{}
