//! What a whole sequence of a processor shows of marks, and of its end.

ghost use Rattle.std.specs.Prelude.{List};
ghost use Rattle.nm_base.specs.Geometry.{Geometry};
ghost use Rattle.nm_actor.specs.Turns.{Turns, own_list};
ghost use Rattle.nm_script.specs.declared.script.Line.{Line};
ghost use Rattle.nm_shadow_fault.specs.declared.fault.FaultEnd.{FaultEnd};
ghost use Rattle.nm_cpu_fault.specs.ProcessorFaults.{processor_faults};
ghost use Rattle.nm_cpu.specs.Programs.{CpuEnd, IsProgramMade};
ghost use Rattle.nm_pending.specs.PendingTurns.{AreOffPending};
ghost use Rattle.nm_unmarked.specs.Unmarking.{IsProcessorUnmarking};

/// In a whole sequence of a processor each Mark makes a candidate or takes one back, and nothing comes after the acknowledgement of
/// its end.
pub fn an_ended_processor_takes_marks_back()
    ensures { (g : Geometry) (program : List Line) (turns : Turns) (end : CpuEnd FaultEnd)
        → IsProgramMade processor_faults g program turns end → IsProcessorUnmarking (own_list turns) }
{}

/// In a whole sequence of a processor no turn is a put into the lane Pending or a take from it.
pub fn an_ended_processor_leaves_the_pending_pages()
    ensures { (g : Geometry) (program : List Line) (turns : Turns) (end : CpuEnd FaultEnd)
        → IsProgramMade processor_faults g program turns end → AreOffPending turns }
{}
