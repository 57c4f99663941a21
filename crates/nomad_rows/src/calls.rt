//! Calls of the program: what one gives, and how those end in which one call of a device fails, one after the other.

use crate::cases::{Case, Device};
use crate::faults::Fault;
use crate::lines::push_lines;
use nm_io::{MemSink, MemSource};
use nm_text::push_number;
use nm_top::{Status, plain_call};
use std::alloc::{AllocError, Global};

/// The room of a sink, in bytes.
const ROOM: usize = 40_000_000;

/// How a call ended, and the bytes that it wrote.
#[derive(Drop)]
struct Called {
    status: Status,
    bytes: Vec<u8>,
}

/// What a call has written, beside the output of the same call in which no device fails.
#[derive(Clone, Copy, PartialEq, Eq)]
enum Written {
    Nothing,
    Whole,
    /// What the calls of the sink before the failing one take.
    Front,
    Other,
}

/// How many calls in a row ended alike.
#[derive(Clone, Copy)]
struct Row {
    calls: u64,
    status: Status,
    written: Written,
}

/// Appends how a call of the program ended, and what its sink holds; or of calls in which one call of a device fails, one
/// after the other, how many of them in a row ended alike.
pub fn push_calls(
    alloc: Global,
    case: &Case,
    words: &[String],
    out: &mut Vec<u8>,
) -> Result<(), Fault> {
    if is_single(case.source) && is_single(case.sink) {
        let called = call(alloc, case, words, case.source.fails, case.sink.fails)?;
        push_called(alloc, case, &called, out)
    } else {
        push_rows(alloc, case, words, out)
    }
}

/// Whether one number of a failing call is tried.
fn is_single(device: Device) -> bool {
    device.fails == device.last
}

/// Calls the program, where this read and this write fail.
fn call(
    alloc: Global,
    case: &Case,
    words: &[String],
    read: u64,
    write: u64,
) -> Result<Called, AllocError> {
    let mut source = MemSource::new(alloc, &case.input, case.source.piece.max(1), &[read])?;
    let mut sink = MemSink::new(alloc, ROOM, case.sink.piece.max(1), &[write])?;
    let status = plain_call(alloc, words, &mut source, &mut sink);
    let bytes = Vec::from_slice(alloc, sink.bytes())?;
    Ok(Called { status, bytes })
}

/// Appends how a call ended, and what it wrote, or the name of the file with these bytes.
fn push_called(
    alloc: Global,
    case: &Case,
    called: &Called,
    out: &mut Vec<u8>,
) -> Result<(), Fault> {
    push_status(alloc, called.status, out)?;
    match &case.like {
        Some(file) if file.bytes == called.bytes => {
            out.extend_from_slice(b"\\like ")?;
            out.extend_from_slice(&file.name)?;
            Ok(out.extend_from_slice(b"\n")?)
        }
        _ => Ok(push_lines(out, &called.bytes)?),
    }
}

/// Appends how the calls end in which one call of a device fails: of those that end alike in a row, how many they are.
fn push_rows(alloc: Global, case: &Case, words: &[String], out: &mut Vec<u8>) -> Result<(), Fault> {
    let whole = call(alloc, case, words, 0, 0)?;
    let mut row: Option<Row> = None;
    for read in case.source.fails..=case.source.last {
        for write in case.sink.fails..=case.sink.last {
            let called = call(alloc, case, words, read, write)?;
            let taken = write
                .saturating_sub(1)
                .saturating_mul(u64::from(case.sink.piece));
            let written = written_of(&called.bytes, &whole.bytes, taken);
            row = Some(match row {
                Some(before) if before.status == called.status && before.written == written => Row {
                    calls: before.calls.saturating_add(1),
                    ..before
                },
                _ => {
                    push_row(alloc, row, out)?;
                    Row {
                        calls: 1,
                        status: called.status,
                        written,
                    }
                }
            });
        }
    }
    push_row(alloc, row, out)
}

/// What these bytes are beside those of the whole output, where the calls before the failing one take so many.
fn written_of(bytes: &[u8], whole: &[u8], taken: u64) -> Written {
    if bytes.is_empty() {
        Written::Nothing
    } else if bytes == whole {
        Written::Whole
    } else if bytes.len() as u64 == taken && whole.starts_with(bytes) {
        Written::Front
    } else {
        Written::Other
    }
}

/// Appends how many calls ended alike, and how.
fn push_row(alloc: Global, row: Option<Row>, out: &mut Vec<u8>) -> Result<(), Fault> {
    let Some(row) = row else {
        return Ok(());
    };
    out.extend_from_slice(b"\\calls ")?;
    push_number(out, row.calls)?;
    out.extend_from_slice(b"\n")?;
    push_status(alloc, row.status, out)?;
    Ok(out.extend_from_slice(match row.written {
        Written::Nothing => b"\\nothing\n",
        Written::Whole => b"\\whole\n",
        Written::Front => b"\\front\n",
        Written::Other => b"\\other\n",
    })?)
}

/// Appends the number of a status and the line that the program tells of it.
fn push_status(alloc: Global, status: Status, out: &mut Vec<u8>) -> Result<(), Fault> {
    out.extend_from_slice(b"status ")?;
    push_number(out, status.number() as u64)?;
    if status != Status::Done {
        out.extend_from_slice(b" ")?;
        out.extend_from_slice(status.to_string(alloc)?.as_bytes())?;
    }
    Ok(out.extend_from_slice(b"\n")?)
}
