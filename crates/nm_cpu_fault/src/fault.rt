//! The faults of a processor, as its accesses need them.

ghost use Rattle.std.specs.Prelude.{◌≡◌};
ghost use Rattle.nm_action.specs.declared.tally.Tally.{Tally};
ghost use Rattle.nm_cpu_fault.specs.ProcessorFaults.{fault_counts};

use nm_access::Faults;
use nm_base::Geometry;
use nm_compose::Or;
use nm_event::{Action, Reply, Step, Tally};
use nm_fault::FaultTask;
use nm_part::{Part, Piece};
use nm_shadow_fault::{FaultEnd, FaultMade};

/// A fault of a processor: the task of both faults, which begins and ends with no operation open and no turn held.
#[derive(Drop)]
pub struct ProcessorFault<'a> {
    task: FaultTask<'a>,
}

/// What the end of a fault counts.
fn fault_counts(end: FaultEnd) -> Tally
    ensures { result ≡ fault_counts end }
{
    let none = Tally::default();
    match end {
        FaultEnd::Demand => Tally { demand: 1, ..none },
        FaultEnd::Alias => Tally { alias: 1, ..none },
        FaultEnd::Ready | FaultEnd::Granted(_) => none,
    }
}

impl<'a> Part for ProcessorFault<'a> {
    type Outcome = FaultEnd;

    // a missing fault, or one on a page that is read-only for its shadow
    type Made = Or<(Geometry, FaultMade), (Geometry, FaultMade)>;

    ghost use Rattle.nm_fault.specs.Tasks.{fault_in, IsFault};
    ghost use Rattle.nm_cpu_fault.specs.ProcessorFaults.{MayFaultFree, IsLeftFree, AwaitsFree};

    ghost made = { λ f. ⟦<FaultTask<'a> as Part>⟧.made f.task };

    ghost is_new = { λ f. ⟦<FaultTask<'a> as Part>⟧.is_new f.task };

    ghost may_begin = { λ made g view. MayFaultFree (fault_in made) g view };

    ghost shape = { λ made g own end. IsFault made g own end };

    ghost leaves = { λ made g view end left. IsLeftFree view left };

    ghost awaits = { λ f. AwaitsFree (⟦<FaultTask<'a> as Part>⟧.awaits f.task) };

    ghost ended = { λ f. ⟦<FaultTask<'a> as Part>⟧.ended f.task };

    fn first(&mut self) -> Step<FaultEnd> {
        Step::Do(self.start())
    }

    fn after(&mut self, reply: Reply) -> Step<FaultEnd> {
        self.task.after(reply)
    }
}

impl<'a> Piece for ProcessorFault<'a> {
    fn start(&mut self) -> Action {
        self.task.start()
    }
}

impl<'a> Faults<'a> for ProcessorFault<'a> {
    ghost use Rattle.nm_compose.specs.declared.or.Or.TheVariants.{This, Other};
    ghost use Rattle.nm_shadow_fault.specs.Granting.{fault_made};
    ghost use Rattle.nm_fault.specs.Tasks.{fault_at};
    ghost use Rattle.nm_fault.specs.Waits.{is_waiting};
    ghost use Rattle.nm_cpu_fault.specs.ProcessorFaults.{fault_counts};

    ghost missing = { λ g v. This (fault_made g (fault_at g v)) };

    ghost shadowed = { λ g v. Other (fault_made g (fault_at g v)) };

    ghost waits_at = { is_waiting };

    ghost counted = { fault_counts };

    fn on_missing(g: &'a Geometry, v: u32) -> ProcessorFault<'a> {
        let mut task = FaultTask::new(g);
        task.begin_missing(v);
        ProcessorFault { task }
    }

    fn on_shadowed(g: &'a Geometry, v: u32) -> ProcessorFault<'a> {
        let mut task = FaultTask::new(g);
        task.begin_shadow(v);
        ProcessorFault { task }
    }

    fn waits(&self) -> bool {
        self.task.waits()
    }

    fn counts(end: FaultEnd) -> Tally
        ensures { result ≡ fault_counts end }
    {
        fault_counts(end)
    }
}
