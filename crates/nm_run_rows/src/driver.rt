//! A run of a script over a source and a sink in memory, and a look at the report that it writes.

use nm_io::{Gate, MemSink, MemSource};
use nm_top::{Status, run_call};
use std::alloc::{AllocError, Global};
use std::sync::Wait;
use std::thread::Threads;

/// The room of a sink, in bytes.
const ROOM: usize = 100_000;

/// The most bytes of one read and of one write.
const PIECE: u32 = 16;

/// The line with which the report of a settled run ends.
pub const SETTLED: &[u8] = b"\nsettled yes\n";

/// How a run ended, and the bytes that it wrote.
#[derive(Drop)]
pub struct Ran {
    pub status: Status,
    pub bytes: Vec<u8>,
}

/// The number of the read that fails, and of the write, each from 1, or 0 for none.
#[derive(Clone, Copy)]
pub struct Fails {
    pub read: u64,
    pub write: u64,
}

/// No call fails.
pub const NONE: Fails = Fails { read: 0, write: 0 };

/// Runs the script of a text, each step through this gate.
pub fn run<T: Threads + Wait + Sync, G: Gate>(
    rt: &T,
    alloc: Global,
    gate: &G,
    text: &[u8],
    fails: Fails,
) -> Result<Ran, AllocError> {
    let mut source = MemSource::new(alloc, text, PIECE, &[fails.read])?;
    let mut sink = MemSink::new(alloc, ROOM, PIECE, &[fails.write])?;
    let status = run_call(rt, alloc, gate, &mut source, &mut sink);
    let bytes = Vec::from_slice(alloc, sink.bytes())?;
    Ok(Ran { status, bytes })
}

/// What follows a beginning that is as this pattern, in which `#` stands for a number.
pub fn after<'a>(bytes: &'a [u8], pattern: &[u8]) -> Option<&'a [u8]> {
    let mut rest = bytes;
    for sign in pattern {
        rest = if *sign == b'#' {
            after_number(rest)?
        } else {
            after_sign(rest, *sign)?
        };
    }
    Some(rest)
}

/// What follows this sign at the front.
fn after_sign(bytes: &[u8], sign: u8) -> Option<&[u8]> {
    match bytes.split_first() {
        Some((first, after)) if *first == sign => Some(after),
        _ => None,
    }
}

/// What follows the digits at the front, of which there is one at least.
fn after_number(bytes: &[u8]) -> Option<&[u8]> {
    let mut rest = bytes;
    for _ in 0..bytes.len() {
        match rest.split_first() {
            Some((first, after)) if first.is_ascii_digit() => rest = after,
            _ => break,
        }
    }
    if rest.len() < bytes.len() {
        Some(rest)
    } else {
        None
    }
}
