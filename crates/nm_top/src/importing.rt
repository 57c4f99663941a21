//! The command `import`.

ghost use Rattle.std.specs.Prelude.{◌≤◌, ◌+◌, IfOk};
ghost use Rattle.nm_script.specs.Script.{IsScript};
ghost use Rattle.nm_top.specs.Answer.{IsImportCall, IsTraceReading};

use nm_answer::status::{status_of_read, status_of_trace};
use nm_answer::{Status, print_call};
use nm_io::{Sink, Source, read_all};
use nm_script::{Script, one_reading};
use nm_trace::{import, page_numbers, read_again};
use std::alloc::Global;

/// The command `import`: it reads a trace and writes the text of its script, with tiers of `fast` and `slow` frames.
pub fn import_call<S: Source, K: Sink>(
    alloc: Global,
    fast: u32,
    slow: u32,
    source: &mut S,
    sink: &mut K,
) -> Status
    requires fast { 1 ≤ fast }
    requires slow { 1 ≤ slow }
    requires sum { fast + slow ≤ 4096 }
    ensures { IsImportCall (record { left = S.left; faults = S.faults; gives = S.read_gives })
        (record { held = K.held; faults = K.faults; takes = K.write_takes })
        fast slow source.old source.new sink.old sink.new result }
{
    page_numbers();
    one_reading();
    match read_trace(alloc, fast, slow, source) {
        Ok(script) => print_call(alloc, &script, sink),
        Err(status) => status,
    }
}

/// The script of the trace that the source gives, read to its end, or the status of a source that gives none.
fn read_trace<S: Source>(
    alloc: Global,
    fast: u32,
    slow: u32,
    source: &mut S,
) -> Result<Script, Status>
    requires fast { 1 ≤ fast }
    requires slow { 1 ≤ slow }
    requires sum { fast + slow ≤ 4096 }
    ensures script { IfOk result IsScript }
    ensures reading { IsTraceReading (record { left = S.left; faults = S.faults; gives = S.read_gives })
        fast slow source.old source.new result }
{
    read_again();
    let bytes = match read_all(alloc, source) {
        Ok(bytes) => bytes,
        Err(refusal) => return Err(status_of_read(refusal)),
    };
    match import(alloc, &bytes, fast, slow) {
        Ok(script) => Ok(script),
        Err(refusal) => Err(status_of_trace(refusal)),
    }
}
