//! What a processor has counted of its faults.

ghost use Rattle.std.specs.Prelude.{◌≡◌, Option};
ghost use Rattle.nm_action.specs.declared.turn.Turn.{Turn};
ghost use Rattle.nm_action.specs.Tally.{sum_of};
ghost use Rattle.nm_actor.specs.Turns.{Turns, own_list};
ghost use Rattle.nm_cpu_fault.specs.declared.fault.ProcessorFault.{ProcessorFault};
ghost use Rattle.nm_cpu_fault.specs.ProcessorFaults.{processor_faults};
ghost use Rattle.nm_cpu.specs.declared.actor.Processor.{Processor};
ghost use Rattle.nm_cpu.specs.Agreeing.{FollowsCpu};
ghost use Rattle.nm_cpu_counts.specs.Counting.{processor_tally};

use nm_cpu_fault::ProcessorFault;
use nm_part::Part;

/// After any of its turns, whether it has ended or not, a processor has counted what its own list does.
pub fn a_processor_counts_what_its_list_does<'a>()
    ensures { (c : Processor ProcessorFault) (turns : Turns) (last : Option Turn)
        → FollowsCpu processor_faults ⟦<ProcessorFault<'a> as Part>⟧.made ⟦<ProcessorFault<'a> as Part>⟧.awaits c turns last → sum_of c.counter.tally c.access.tally ≡ processor_tally (own_list turns) }
{}
