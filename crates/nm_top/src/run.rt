//! The command `run`.

ghost use Rattle.std.specs.Prelude.{IfOk};
ghost use Rattle.nm_script.specs.Script.{IsScript};
ghost use Rattle.nm_answer.specs.Answer.{SomeTextCause};
ghost use Rattle.nm_top.specs.Answer.{IsRunCall};
ghost use Rattle.nm_top.specs.Output.{IsThreadReportOf};

use nm_answer::{Status, read_script, write_text};
use nm_arena_run::run_on_arena;
use nm_io::{Gate, Sink, Source};
use nm_report::{Report, print};
use nm_script::Script;
use nm_thread_facts::each_run_of_threads_holds;
use std::alloc::{AllocError, Global};
use std::sync::Wait;
use std::thread::Threads;

/// The command `run`: it reads a script, runs its processors, a migrator and a reclaimer on threads over one shared machine, and writes
/// the report of what they did. The script's schedule is not looked at. Each step asks the gate first. All memory of the machine is
/// taken before the first step, and that of the text after the last. It may wait.
pub fn run_call<T: Threads + Wait + Sync, G: Gate, S: Source, K: Sink>(
    rt: &T,
    alloc: Global,
    gate: &G,
    source: &mut S,
    sink: &mut K,
) -> Status
    ensures { IsRunCall (record { left = S.left; faults = S.faults; gives = S.read_gives })
        (record { held = K.held; faults = K.faults; takes = K.write_takes })
        source.old source.new sink.old sink.new result }
{
    match read_script(alloc, source) {
        Ok(script) => threads_call(rt, alloc, gate, &script, sink),
        Err(status) => status,
    }
}

/// What `run` answers to a script that it has read: the report is written once the whole text stands.
fn threads_call<T: Threads + Wait + Sync, G: Gate, K: Sink>(
    rt: &T,
    alloc: Global,
    gate: &G,
    script: &Script,
    sink: &mut K,
) -> Status
    requires { IsScript script.now }
    ensures { SomeTextCause (record { held = K.held; faults = K.faults; takes = K.write_takes })
        sink.old sink.new (IsThreadReportOf script.now) result }
{
    match threads_text(rt, alloc, gate, script) {
        Ok(text) => write_text(sink, &text),
        Err(AllocError) => Status::Memory,
    }
}

/// The report of a run that threads make of a script.
fn threads_text<T: Threads + Wait + Sync, G: Gate>(
    rt: &T,
    alloc: Global,
    gate: &G,
    script: &Script,
) -> Result<Vec<u8>, AllocError>
    requires { IsScript script.now }
    ensures { IfOk result (λ text. IsThreadReportOf script.now text.items) }
{
    each_run_of_threads_holds();
    let run = run_on_arena(rt, alloc, gate, script)?;
    let report = Report {
        script,
        results: &run.results,
        end: &run.end,
        tally: run.tally,
    };
    print(alloc, &report)
}
