//! The processors of a script: before a simulation, and what they give after it.

ghost use Rattle.std.specs.Prelude.{◌≡◌, map, length, IfOk};
ghost use Rattle.nm_script.specs.Script.{IsScript};
ghost use Rattle.nm_access.specs.Faults.{fault_kinds};
ghost use Rattle.nm_cpu.specs.Agreeing.{FollowsCpu};
ghost use Rattle.nm_crew.specs.Crewed.{AtEach};
ghost use Rattle.nm_programs.specs.Cpus.{IsCpuAt};

use nm_access::Faults;
use nm_cpu::Processor;
use nm_report::LineResult;
use nm_script::Script;
use std::alloc::{AllocError, Global};

/// The processors of a script, each with its program, over some kind of faults. `AllocError` comes where there is no memory for
/// them.
pub fn cpus_of<'a, F: Faults<'a> + Drop>(
    alloc: Global,
    script: &'a Script,
) -> Result<Vec<Processor<'a, F>>, AllocError>
    requires { IsScript script.now }
    ensures many { IfOk result (λ cpus. length cpus.items ≡ script.now.geometry.cpus) }
    ensures each { IfOk result (λ cpus. AtEach (IsCpuAt (λ c. c.made) (FollowsCpu (fault_kinds F.shape F.leaves F.waits_at F.missing F.shadowed F.counted) F.made F.awaits) script.now) cpus.items) }
{
    let g = &script.geometry;
    let mut cpus = Vec::with_capacity(alloc, g.cpus as usize)?;
    for number in 0..g.cpus {
        let program = &script.programs[number as usize];
        cpus.push(Processor::new(alloc, g, number, program)?)?;
    }
    Ok(cpus)
}

/// What the lines of each processor gave. `AllocError` comes where there is no memory for the list.
pub fn results_of<'a, F: Faults<'a> + Drop>(
    alloc: Global,
    cpus: Vec<Processor<'a, F>>,
) -> Result<Vec<Vec<LineResult>>, AllocError>
    ensures { IfOk result (λ results. map (λ r. r.items) results.items ≡ map (λ c. c.results.items) cpus.entry.items) }
{
    let mut results = Vec::with_capacity(alloc, cpus.len())?;
    for cpu in cpus {
        results.push(cpu.into_results())?;
    }
    Ok(results)
}
