//! The command `gen`.

ghost use Rattle.std.specs.Prelude.{◌≡◌, ◌≤◌, IfOk};
ghost use Rattle.nm_script.specs.Script.{IsScript};
ghost use Rattle.nm_gen.specs.Generated.{generated};
ghost use Rattle.nm_top.specs.Answer.{IsGenCall};

use nm_answer::{Status, print_call};
use nm_gen::{generate, is_script};
use nm_io::Sink;
use nm_script::Script;
use std::alloc::{AllocError, Global};

/// The command `gen`: the text of the script of a number.
pub fn gen_call<K: Sink>(alloc: Global, number: u64, size: u32, sink: &mut K) -> Status
    requires low { 1 ≤ size }
    requires high { size ≤ 100000 }
    ensures { IsGenCall (record { held = K.held; faults = K.faults; takes = K.write_takes })
        number size sink.old sink.new result }
{
    match generated_script(alloc, number, size) {
        Ok(script) => print_call(alloc, &script, sink),
        Err(AllocError) => Status::Memory,
    }
}

/// The script of a number.
pub(crate) fn generated_script(alloc: Global, number: u64, size: u32) -> Result<Script, AllocError>
    requires low { 1 ≤ size }
    requires high { size ≤ 100000 }
    ensures script { IfOk result IsScript }
    ensures is { IfOk result (λ s. s ≡ generated number size) }
{
    is_script();
    generate(alloc, number, size)
}
