//! A sink over memory, some calls of which fail.
ghost use Rattle.std.specs.Prelude.{◌≡◌, ℕ, ◌^◌, ◌<◌, ◌≤◌, [], length, Some, IfOk, OnOk, OnErr};
ghost use Rattle.nm_io.specs.Count.{Rose};
ghost use Rattle.nm_io.specs.Sink.{Writes};
ghost use Rattle.nm_io.specs.SinkState.{write_result, after_write, StateTakes};

use crate::faults::Failed;
use crate::sinks::Sink;
use std::alloc::{AllocError, Global};
use std::marker::Model;

/// Room in memory for a number of bytes, of which a write takes at most `piece`, and what fits. A
/// write of which nothing fits fails. Its calls are numbered from 1, and those that are listed
/// fail. The count of calls stands still at 2^64 - 1, so that this is the number of each later call
/// too.
#[derive(Drop)]
pub struct MemSink {
    bytes: Vec<u8>,
    room: usize,
    piece: u32,
    calls: u64,
    fails: Vec<u64>,
    faults: u64,
}

impl Model for MemSink {
    ghost use Rattle.std.specs.Prelude.{◌≤◌, vec_len, vec_capacity};
    ghost use Rattle.nm_io.specs.SinkState.{SinkState};

    ghost Value = { SinkState };

    ghost view = { λ s. record {
      held = s.bytes.items;
      room = s.room;
      piece = s.piece;
      calls = s.calls;
      fails = s.fails.items;
      faults = s.faults;
    } };

    ghost invariant = { λ s. (vec_len s.bytes ≤ s.room) × (s.room ≤ vec_capacity s.bytes) × (1 ≤ s.piece) };
}

impl MemSink {
    /// An empty sink with room for `room` bytes, of which a write takes at most `piece`. The room
    /// is taken now. The calls with the numbers in `fails`, from 1, fail. It fails where memory
    /// runs out.
    pub fn new(alloc: Global, room: usize, piece: u32, fails: &[u64]) -> Result<MemSink, AllocError>
        requires { 1 ≤ piece }
        ensures { IfOk result (λ sink. sink ≡ record {
          held = [];
          room = room;
          piece = piece;
          calls = 0;
          fails = fails.now;
          faults = 0;
        }) }
    {
        Ok(MemSink {
            bytes: Vec::with_capacity(alloc, room)?,
            room,
            piece,
            calls: 0,
            fails: Vec::from_slice(alloc, fails)?,
            faults: 0,
        })
    }

    /// The bytes that were written.
    pub fn bytes(&self) -> &[u8]
        ensures { result.now ≡ self.now.held }
    {
        self.bytes.as_slice()
    }
}

impl Sink for MemSink {
    ghost held = { λ s. Some s.held };

    ghost faults = { λ s. s.faults };

    ghost write_takes = { StateTakes };

    fn write(&mut self, from: &[u8]) -> Result<usize, Failed>
        // What it does, exactly.
        ensures value { result ≡ write_result self.old (length from.now) }
        ensures after { self.new ≡ after_write self.old from.now }

        // What every sink does.
        ensures count { self.old.faults ≤ self.new.faults }
        ensures fits { self.new.faults < 2 ^ 64 }
        ensures kept { OnOk result (self.new.faults ≡ self.old.faults) }
        ensures failed { OnErr result (Rose self.old.faults self.new.faults) }
        ensures bound { IfOk result (λ n. n ≤ length from.now) }
        ensures some { IfOk result (λ n. 0 < length from.now → 0 < n) }
        ensures bytes { Writes (Some self.old.held) (Some self.new.held) result from.now }
        ensures takes { StateTakes self.old from.now result self.new }
    {
        self.calls = self.calls.saturating_add(1);
        let left = self.room - self.bytes.len();
        let n = from.len().min(self.piece as usize).min(left);
        let fits = n > 0 || from.is_empty();
        if !fits || self.fails.contains(&self.calls) {
            self.faults = self.faults.saturating_add(1);
            return Err(Failed);
        }
        self.bytes.extend_from_slice(&from[..n]).unwrap();
        Ok(n)
    }
}
