//! A processor's part of a run follows from what it heard.

ghost use Rattle.std.specs.Prelude.{◌≡◌, ℕ, Bool, true, List, ◌∷◌, ◌++◌};
ghost use Rattle.nm_base.specs.Geometry.{Geometry};
ghost use Rattle.nm_action.specs.declared.tally.Tally.{Tally};
ghost use Rattle.nm_action.specs.declared.turn.Turn.{Turn};
ghost use Rattle.nm_action.specs.declared.turn.Heard.{Heard};
ghost use Rattle.nm_actor.specs.Turns.{Turns};
ghost use Rattle.nm_cpu_fault.specs.ProcessorFaults.{processor_faults};
ghost use Rattle.nm_script.specs.declared.script.Line.{Line};
ghost use Rattle.nm_report.specs.declared.line_result.LineResult.{LineResult};
ghost use Rattle.nm_cpu.specs.Parts.{IsCpuPart};

/// After the same answered turns a processor gives the same turn; nothing stands behind its end; and whether it has ended, and what its
/// lines gave, follows from its turns.
pub fn a_processor_has_one_part()
    ensures next { (g : Geometry) (number : ℕ) (program : List Line) (front rest more : Turns) (t u : Turn × Heard) (ended over : Bool) (results others : List LineResult) (tally other : Tally)
        → IsCpuPart processor_faults g number program (front ++ t ∷ rest) ended results tally → IsCpuPart processor_faults g number program (front ++ u ∷ more) over others other → t.0 ≡ u.0 }
    ensures ends { (g : Geometry) (number : ℕ) (program : List Line) (turns more : Turns) (t : Turn × Heard) (ended : Bool) (results others : List LineResult) (tally other : Tally)
        → IsCpuPart processor_faults g number program turns true results tally → IsCpuPart processor_faults g number program (turns ++ t ∷ more) ended others other → ⊥ }
    ensures same { (g : Geometry) (number : ℕ) (program : List Line) (turns : Turns) (ended over : Bool) (results others : List LineResult) (tally other : Tally)
        → IsCpuPart processor_faults g number program turns ended results tally → IsCpuPart processor_faults g number program turns over others other → ended ≡ over }
    ensures results { (g : Geometry) (number : ℕ) (program : List Line) (turns : Turns) (ended over : Bool) (results others : List LineResult) (tally other : Tally)
        → IsCpuPart processor_faults g number program turns ended results tally → IsCpuPart processor_faults g number program turns over others other → results ≡ others }
{}
