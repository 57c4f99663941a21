//! The command `journal`.

ghost use Rattle.std.specs.Prelude.{IfOk};
ghost use Rattle.nm_script.specs.Script.{IsScript};
ghost use Rattle.nm_answer.specs.Answer.{SomeTextCause};
ghost use Rattle.nm_top.specs.Answer.{IsJournalCall};
ghost use Rattle.nm_top.specs.Output.{IsJournalOf};

use crate::facts::the_facts_hold_of_each_simulation;
use nm_answer::{Status, read_script, write_text};
use nm_io::{Sink, Source};
use nm_journal_print::print_with_lines;
use nm_journal_writer::JournalWriter;
use nm_report::Report;
use nm_sched::simulate_with;
use nm_script::Script;
use nm_sim_journal::the_journal_of_each_simulation_holds;
use std::alloc::{AllocError, Global};

/// The command `journal`: it reads a script, runs it and writes the journal of the run, event by event.
pub fn journal_call<S: Source, K: Sink>(alloc: Global, source: &mut S, sink: &mut K) -> Status
    ensures { IsJournalCall (record { left = S.left; faults = S.faults; gives = S.read_gives })
        (record { held = K.held; faults = K.faults; takes = K.write_takes })
        source.old source.new sink.old sink.new result }
{
    match read_script(alloc, source) {
        Ok(script) => write_journal(alloc, &script, sink),
        Err(status) => status,
    }
}

/// What `journal` answers to a script that it has read: the journal of its run is written once the whole text stands.
fn write_journal<K: Sink>(alloc: Global, script: &Script, sink: &mut K) -> Status
    requires { IsScript script.now }
    ensures { SomeTextCause (record { held = K.held; faults = K.faults; takes = K.write_takes })
        sink.old sink.new (IsJournalOf script.now) result }
{
    match journal_text(alloc, script) {
        Ok(text) => write_text(sink, &text),
        Err(AllocError) => Status::Memory,
    }
}

/// The journal of the run of a script. The lines of its events are written while the run goes on.
fn journal_text(alloc: Global, script: &Script) -> Result<Vec<u8>, AllocError>
    requires { IsScript script.now }
    ensures { IfOk result (λ text. IsJournalOf script.now text.items) }
{
    the_facts_hold_of_each_simulation();
    the_journal_of_each_simulation_holds();
    let run = simulate_with(alloc, script, JournalWriter::new(alloc))?;
    let report = Report {
        script,
        results: &run.results,
        end: &run.end,
        tally: run.tally,
    };
    print_with_lines(alloc, script, &run.watcher.lines, &report)
}
