//! The first step of the commands that read a script.

ghost use Rattle.std.specs.Prelude.{IfOk};
ghost use Rattle.nm_script.specs.Script.{IsScript};
ghost use Rattle.nm_answer.specs.Answer.{IsReading};

use crate::status::{Status, status_of_read, status_of_text};
use nm_io::{Source, read_all};
use nm_script::{Script, parse};
use std::alloc::Global;

/// The script that the source gives, read to its end, or the status of a source that gives none: ReadFault, Script with the first fault
/// (TooLong at line 0 where more than 16,777,216 bytes were taken), or Memory.
pub fn read_script<S: Source>(alloc: Global, source: &mut S) -> Result<Script, Status>
    ensures script { IfOk result IsScript }
    ensures reading { IsReading (record { left = S.left; faults = S.faults; gives = S.read_gives })
        source.old source.new result }
{
    let bytes = match read_all(alloc, source) {
        Ok(bytes) => bytes,
        Err(refusal) => return Err(status_of_read(refusal)),
    };
    match parse(alloc, &bytes) {
        Ok(script) => Ok(script),
        Err(refusal) => Err(status_of_text(refusal)),
    }
}
