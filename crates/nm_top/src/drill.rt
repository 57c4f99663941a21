//! The command `drill`.

ghost use Rattle.std.specs.Prelude.{◌≡◌, ◌≤◌, IfOk};
ghost use Rattle.nm_script.specs.Script.{IsScript};
ghost use Rattle.nm_gen.specs.Generated.{generated};
ghost use Rattle.nm_report.specs.Summary.{HasNoAwait};
ghost use Rattle.nm_top.specs.Answer.{IsDrillCall};
ghost use Rattle.nm_top.specs.Output.{IsSummary};

use crate::facts::the_facts_hold_of_each_simulation;
use crate::generated::generated_script;
use nm_answer::{Status, write_text};
use nm_io::Sink;
use nm_report::{Report, summary};
use nm_sched::{Silent, simulate_with};
use nm_script::Script;
use std::alloc::{AllocError, Global};

/// The command `drill`: it runs the script of a number, and writes the summary of the run.
pub fn drill_call<K: Sink>(alloc: Global, number: u64, size: u32, sink: &mut K) -> Status
    requires low { 1 ≤ size }
    requires high { size ≤ 100000 }
    ensures { IsDrillCall (record { held = K.held; faults = K.faults; takes = K.write_takes })
        number size sink.old sink.new result }
{
    match drill_text(alloc, number, size) {
        Ok(text) => write_text(sink, &text),
        Err(AllocError) => Status::Memory,
    }
}

/// The summary of the run of the script of a number.
fn drill_text(alloc: Global, number: u64, size: u32) -> Result<Vec<u8>, AllocError>
    requires low { 1 ≤ size }
    requires high { size ≤ 100000 }
    ensures { IfOk result (λ text. IsSummary number size text.items) }
{
    let script = generated_script(alloc, number, size)?;
    summary_text(alloc, number, size, &script)
}

/// The summary of the run of a script that was generated from a number. Nothing of the run is kept but what the summary tells.
fn summary_text(
    alloc: Global,
    number: u64,
    size: u32,
    script: &Script,
) -> Result<Vec<u8>, AllocError>
    requires script { IsScript script.now }
    requires is { script.now ≡ generated number size }
    ensures { IfOk result (λ text. IsSummary number size text.items) }
{
    the_facts_hold_of_each_simulation();
    let run = simulate_with(alloc, script, Silent)?;
    let report = Report {
        script,
        results: &run.results,
        end: &run.end,
        tally: run.tally,
    };
    summary(alloc, number, size, &report)
}
