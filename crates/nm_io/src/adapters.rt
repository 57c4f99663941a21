//! std's readers and writers as sources and sinks, the edge to the system.
ghost use Rattle.std.specs.Prelude.{◌≡◌, ℕ, ◌^◌, ◌<◌, ◌≤◌, length, None, IfOk, OnOk, OnErr};
ghost use Rattle.std.specs.Io.KnownBytes.{ReadConsumes, WriteAppends};
ghost use Rattle.nm_io.specs.Count.{Rose};
ghost use Rattle.nm_io.specs.Source.{Reads, moved_bytes};
ghost use Rattle.nm_io.specs.Sink.{Writes};
ghost use Rattle.nm_io.specs.Adapters.{source_reader, source_faults, sink_writer, sink_faults, CountsErrors, SourceGives, SinkTakes};

use crate::faults::Failed;
use crate::sinks::Sink;
use crate::sources::Source;
use std::io::{Read, Write};

/// A reader as a source, which doesn't tell what is left. A read fails where the reader's does, an
/// interrupted one included.
#[derive(Drop)]
pub struct StdSource<R> {
    reader: R,
    faults: u64,
}

impl<R: Read> StdSource<R> {
    /// A source that reads from `reader`.
    pub fn new(reader: R) -> StdSource<R>
        ensures reader { source_reader result ≡ reader }
        ensures faults { source_faults result ≡ 0 }
    {
        StdSource { reader, faults: 0 }
    }
}

impl<R: Read> Source for StdSource<R> {
    ghost left = { λ _. None };

    ghost faults = { source_faults };

    ghost read_gives = { SourceGives R.remaining };

    fn read(&mut self, into: &mut [u8]) -> Result<usize, Failed>
        // What it does beyond a source: it counts errors alone, and gives what the reader gives.
        ensures counts { CountsErrors (source_faults self.old) (source_faults self.new) result }
        ensures passes { ReadConsumes (R.remaining (source_reader self.old)) (R.remaining (source_reader self.new))
            result into.new }

        // What every source does.
        ensures count { source_faults self.old ≤ source_faults self.new }
        ensures fits { source_faults self.new < 2 ^ 64 }
        ensures kept { OnOk result (source_faults self.new ≡ source_faults self.old) }
        ensures failed { OnErr result (Rose (source_faults self.old) (source_faults self.new)) }
        ensures bound { IfOk result (λ n. n ≤ length into.new) }
        ensures bytes { Reads None None result into.new }
        ensures gives { 0 < length into.old
            → SourceGives R.remaining self.old (moved_bytes result into.new) self.new }
    {
        let faults = self.faults;
        match self.reader.read(into) {
            Ok(n) => Ok(n),
            Err(_) => {
                self.faults = faults.saturating_add(1);
                Err(Failed)
            }
        }
    }
}

/// A writer as a sink, which doesn't tell what it holds. A write fails where the writer's does, an
/// interrupted one included, and where the writer takes nothing of a piece that isn't empty.
/// Nothing is flushed, so the writer is one that keeps nothing back.
#[derive(Drop)]
pub struct StdSink<W> {
    writer: W,
    faults: u64,
}

impl<W: Write> StdSink<W> {
    /// A sink that writes to `writer`.
    pub fn new(writer: W) -> StdSink<W>
        ensures writer { sink_writer result ≡ writer }
        ensures faults { sink_faults result ≡ 0 }
    {
        StdSink { writer, faults: 0 }
    }
}

impl<W: Write> Sink for StdSink<W> {
    ghost held = { λ _. None };

    ghost faults = { sink_faults };

    ghost write_takes = { SinkTakes W.contents };

    fn write(&mut self, from: &[u8]) -> Result<usize, Failed>
        // What it does beyond a sink: it counts errors alone, and the writer takes what it says.
        ensures counts { CountsErrors (sink_faults self.old) (sink_faults self.new) result }
        ensures passes { WriteAppends (W.contents (sink_writer self.old)) (W.contents (sink_writer self.new))
            result from.now }

        // What every sink does.
        ensures count { sink_faults self.old ≤ sink_faults self.new }
        ensures fits { sink_faults self.new < 2 ^ 64 }
        ensures kept { OnOk result (sink_faults self.new ≡ sink_faults self.old) }
        ensures failed { OnErr result (Rose (sink_faults self.old) (sink_faults self.new)) }
        ensures bound { IfOk result (λ n. n ≤ length from.now) }
        ensures some { IfOk result (λ n. 0 < length from.now → 0 < n) }
        ensures bytes { Writes None None result from.now }
        ensures takes { SinkTakes W.contents self.old from.now result self.new }
    {
        let faults = self.faults;
        match self.writer.write(from) {
            Ok(n) if n > 0 || from.is_empty() => Ok(n),
            _ => {
                self.faults = faults.saturating_add(1);
                Err(Failed)
            }
        }
    }
}
