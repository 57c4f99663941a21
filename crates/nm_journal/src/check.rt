//! Checking a journal.

ghost use Rattle.std.specs.Prelude.{◌+◌, ◌<◌, ◌-◌, ◌^◌, length};
ghost use Rattle.nm_journal.specs.Answers.{CheckCause, CheckAnswers, BodyCause};
ghost use Rattle.nm_script.specs.Script.{IsScript};

use crate::body::check_body;
use crate::parting::script_part;
use nm_script::{Script, ScriptRefusal, parse};
use std::alloc::Global;

/// What a checker says of a journal.
#[derive(Clone, Copy, Debug, PartialEq, Eq)]
pub enum Verdict {
    /// It holds.
    Yes,
    /// It doesn't; the first line that is wrong, the first line of the journal being 1.
    No(u32),
}

/// Checks a journal. `Yes` comes exactly where the bytes are a journal that holds. `No` comes exactly where the script part is the
/// text of a script and the journal doesn't hold: its number is that of the first line after the script part up to which the lines
/// are no beginning of a journal of that script that holds, or the number of lines plus 1 where the text ends too early. Where the
/// script part, which is all lines before the first line `events`, isn't the text of a script, the answer is its first fault.
/// `Memory` comes where memory is wanting. Condition: there are fewer than 2^32 - 1 bytes.
pub fn check(alloc: Global, bytes: &[u8]) -> Result<Verdict, ScriptRefusal>
    requires { length bytes.now < 2 ^ 32 - 1 }
    ensures cause { CheckCause bytes.now result }
    ensures answers { CheckAnswers bytes.now result }
{
    let (place, lines) = script_part(bytes);
    let script = parse(alloc, &bytes[..place])?;
    verdict_of(alloc, &script, &bytes[place..], lines)
}

/// What is answered to a text behind a script part of so many lines.
fn verdict_of(
    alloc: Global,
    script: &Script,
    body: &[u8],
    lines: u32,
) -> Result<Verdict, ScriptRefusal>
    requires script { IsScript script.now }
    requires few { lines + length body.now < 2 ^ 32 - 1 }
    ensures { BodyCause script.now body.now lines result }
{
    match check_body(alloc, script, body) {
        Err(_) => Err(ScriptRefusal::Memory),
        Ok(None) => Ok(Verdict::Yes),
        Ok(Some(right)) => Ok(Verdict::No(lines + right + 1)),
    }
}
