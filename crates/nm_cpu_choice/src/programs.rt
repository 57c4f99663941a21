//! A processor leaves no choice: what it hears decides its turns, its results and the ends of its faults.

ghost use Rattle.std.specs.Prelude.{List};
ghost use Rattle.nm_base.specs.Geometry.{Geometry};
ghost use Rattle.nm_cpu_fault.specs.ProcessorFaults.{processor_faults};
ghost use Rattle.nm_script.specs.declared.script.Line.{Line};
ghost use Rattle.nm_cpu.specs.Programs.{IsProgramMade};
ghost use Rattle.nm_choice.specs.Deterministic.{IsDeterministicActor};

/// Of any two whole sequences of a processor, either they are the same and show the same results and ends of faults, or they are the same
/// up to a turn that heard two things.
pub fn processors_leave_no_choice()
    ensures { (g : Geometry) (program : List Line) → IsDeterministicActor (IsProgramMade processor_faults g program) }
{}
