//! The last step of every command.

ghost use Rattle.nm_io.specs.Whole.{SinkTells};
ghost use Rattle.nm_script.specs.Script.{IsScript, script_text};
ghost use Rattle.nm_answer.specs.Answer.{IsWritten, TextCause};

use crate::status::Status;
use nm_io::{Sink, WriteFault, write_all};
use nm_script::{Script, print};
use std::alloc::{AllocError, Global};

/// Writes a whole text.
pub fn write_text<K: Sink>(sink: &mut K, text: &[u8]) -> Status
    ensures { IsWritten (record { held = K.held; faults = K.faults; takes = K.write_takes })
        sink.old sink.new text.now result }
{
    match write_all(sink, text) {
        Ok(()) => Status::Done,
        Err(WriteFault) => Status::WriteFault,
    }
}

/// Writes the canonical text of a script.
pub fn print_call<K: Sink>(alloc: Global, script: &Script, sink: &mut K) -> Status
    requires { IsScript script.now }
    ensures { TextCause (record { held = K.held; faults = K.faults; takes = K.write_takes })
        sink.old sink.new (script_text script.now) result }
{
    match print(alloc, script) {
        Ok(text) => write_text(sink, &text),
        Err(AllocError) => Status::Memory,
    }
}
