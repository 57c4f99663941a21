//! The command `lab`.

ghost use Rattle.nm_command.specs.Words.{AreRetries};
ghost use Rattle.nm_lab_run.specs.LabRuns.{IsLabOf};
ghost use Rattle.nm_script.specs.Script.{IsScript};
ghost use Rattle.nm_answer.specs.Answer.{SomeTextCause};
ghost use Rattle.nm_top.specs.Answer.{IsLabCall};

use nm_answer::{Status, read_script, write_text};
use nm_io::{Sink, Source};
use nm_lab_run::lab_of;
use nm_script::Script;
use std::alloc::{AllocError, Global};

/// The command `lab`: it reads a script, runs it once with each of the retries and writes a table of what the runs cost.
pub fn lab_call<S: Source, K: Sink>(
    alloc: Global,
    retries: &[Option<u32>],
    source: &mut S,
    sink: &mut K,
) -> Status
    requires { AreRetries retries.now }
    ensures { IsLabCall (record { left = S.left; faults = S.faults; gives = S.read_gives })
        (record { held = K.held; faults = K.faults; takes = K.write_takes })
        retries.now source.old source.new sink.old sink.new result }
{
    match read_script(alloc, source) {
        Ok(script) => write_table(alloc, retries, &script, sink),
        Err(status) => status,
    }
}

/// What `lab` answers to a script that it has read: the table is written once the whole text stands.
fn write_table<K: Sink>(
    alloc: Global,
    retries: &[Option<u32>],
    script: &Script,
    sink: &mut K,
) -> Status
    requires script { IsScript script.now }
    requires retries { AreRetries retries.now }
    ensures { SomeTextCause (record { held = K.held; faults = K.faults; takes = K.write_takes })
        sink.old sink.new (IsLabOf retries.now script.now) result }
{
    match lab_of(alloc, script, retries) {
        Ok(text) => write_text(sink, &text),
        Err(AllocError) => Status::Memory,
    }
}
