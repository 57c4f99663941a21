//! What cases give.

use crate::calls::push_calls;
use crate::cases::{Ask, Case};
use crate::faults::Fault;
use crate::lines::push_lines;
use nm_io::MOST_BYTES;
use nm_script::{ScriptRefusal, parse, print};
use nm_trace::to_trace;
use std::alloc::Global;

/// Appends what a case gives: its title, how the call ended, the bytes that were written, and a last line.
pub fn push_answer(alloc: Global, case: &Case, out: &mut Vec<u8>) -> Result<(), Fault> {
    out.extend_from_slice(b"case ")?;
    out.extend_from_slice(&case.title)?;
    out.extend_from_slice(b"\n")?;
    match &case.ask {
        Ask::Words(words) => push_calls(alloc, case, words, out)?,
        Ask::Script => push_script(alloc, &case.input, out)?,
        Ask::Trace => push_trace(alloc, &case.input, out)?,
    }
    out.extend_from_slice(b"end\n\n")?;
    Ok(())
}

/// Appends the canonical text of the script that the input says, or its first fault.
fn push_script(alloc: Global, input: &[u8], out: &mut Vec<u8>) -> Result<(), Fault> {
    if input.len() > MOST_BYTES {
        return Ok(out.extend_from_slice(b"too long\n")?);
    }
    match parse(alloc, input) {
        Ok(script) => {
            let text = print(alloc, &script)?;
            Ok(push_lines(out, &text)?)
        }
        Err(refusal) => push_refusal(alloc, refusal, out),
    }
}

/// Appends the trace of the script that the input says, or that it has none.
fn push_trace(alloc: Global, input: &[u8], out: &mut Vec<u8>) -> Result<(), Fault> {
    if input.len() > MOST_BYTES {
        return Ok(out.extend_from_slice(b"too long\n")?);
    }
    match parse(alloc, input) {
        Ok(script) => match to_trace(alloc, &script)? {
            Some(text) => Ok(push_lines(out, &text)?),
            None => Ok(out.extend_from_slice(b"no trace\n")?),
        },
        Err(refusal) => push_refusal(alloc, refusal, out),
    }
}

/// Appends why a text is no script.
fn push_refusal(alloc: Global, refusal: ScriptRefusal, out: &mut Vec<u8>) -> Result<(), Fault> {
    out.extend_from_slice(b"no script: ")?;
    out.extend_from_slice(refusal.to_string(alloc)?.as_bytes())?;
    Ok(out.extend_from_slice(b"\n")?)
}
