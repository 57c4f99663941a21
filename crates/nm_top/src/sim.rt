//! The command `sim`.

ghost use Rattle.std.specs.Prelude.{IfOk};
ghost use Rattle.nm_script.specs.Script.{IsScript};
ghost use Rattle.nm_answer.specs.Answer.{SomeTextCause};
ghost use Rattle.nm_top.specs.Answer.{IsSimCall};
ghost use Rattle.nm_top.specs.Output.{IsReportOf};

use crate::facts::the_facts_hold_of_each_simulation;
use nm_answer::{Status, read_script, write_text};
use nm_io::{Sink, Source};
use nm_report::{Report, print};
use nm_sched::{Silent, simulate_with};
use nm_script::Script;
use std::alloc::{AllocError, Global};

/// The command `sim`: it reads a script, runs it and writes the report of the run.
pub fn sim_call<S: Source, K: Sink>(alloc: Global, source: &mut S, sink: &mut K) -> Status
    ensures { IsSimCall (record { left = S.left; faults = S.faults; gives = S.read_gives })
        (record { held = K.held; faults = K.faults; takes = K.write_takes })
        source.old source.new sink.old sink.new result }
{
    match read_script(alloc, source) {
        Ok(script) => script_call(alloc, &script, sink),
        Err(status) => status,
    }
}

/// What `sim` answers to a script that it has read: the report of its run is written once the whole text stands.
pub fn script_call<K: Sink>(alloc: Global, script: &Script, sink: &mut K) -> Status
    requires { IsScript script.now }
    ensures { SomeTextCause (record { held = K.held; faults = K.faults; takes = K.write_takes })
        sink.old sink.new (IsReportOf script.now) result }
{
    match report_text(alloc, script) {
        Ok(text) => write_text(sink, &text),
        Err(AllocError) => Status::Memory,
    }
}

/// The report of the run of a script. The lists of the run are given back.
fn report_text(alloc: Global, script: &Script) -> Result<Vec<u8>, AllocError>
    requires { IsScript script.now }
    ensures { IfOk result (λ text. IsReportOf script.now text.items) }
{
    the_facts_hold_of_each_simulation();
    let run = simulate_with(alloc, script, Silent)?;
    let report = Report {
        script,
        results: &run.results,
        end: &run.end,
        tally: run.tally,
    };
    print(alloc, &report)
}
