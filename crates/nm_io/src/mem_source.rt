//! A source over bytes in memory, some calls of which fail.
ghost use Rattle.std.specs.Prelude.{◌≡◌, ℕ, ◌^◌, ◌<◌, ◌≤◌, length, Some, IfOk, OnOk, OnErr};
ghost use Rattle.nm_io.specs.Count.{Rose};
ghost use Rattle.nm_io.specs.Source.{Reads, moved_bytes};
ghost use Rattle.nm_io.specs.SourceState.{read_result, after_read, slice_after_read, StateGives};

use crate::faults::Failed;
use crate::sources::Source;
use std::alloc::{AllocError, Global};
use std::marker::Model;

/// Bytes in memory, of which a read gives at most `piece`. Its calls are numbered from 1, and those
/// that are listed fail. The count of calls stands still at 2^64 - 1, so that this is the number of
/// each later call too.
#[derive(Drop)]
pub struct MemSource {
    bytes: Vec<u8>,
    taken: usize,
    piece: u32,
    calls: u64,
    fails: Vec<u64>,
    faults: u64,
}

impl Model for MemSource {
    ghost use Rattle.std.specs.Prelude.{◌≤◌, drop, vec_len};
    ghost use Rattle.nm_io.specs.SourceState.{SourceState};

    ghost Value = { SourceState };

    ghost view = { λ s. record {
      left = drop s.taken s.bytes.items;
      piece = s.piece;
      calls = s.calls;
      fails = s.fails.items;
      faults = s.faults;
    } };

    ghost invariant = { λ s. (s.taken ≤ vec_len s.bytes) × (1 ≤ s.piece) };
}

impl MemSource {
    /// A source of these bytes, of which a read gives at most `piece`. The calls with the numbers
    /// in `fails`, from 1, fail. It fails where memory runs out.
    pub fn new(
        alloc: Global,
        bytes: &[u8],
        piece: u32,
        fails: &[u64],
    ) -> Result<MemSource, AllocError>
        requires { 1 ≤ piece }
        ensures { IfOk result (λ source. source ≡ record {
          left = bytes.now;
          piece = piece;
          calls = 0;
          fails = fails.now;
          faults = 0;
        }) }
    {
        Ok(MemSource {
            bytes: Vec::from_slice(alloc, bytes)?,
            taken: 0,
            piece,
            calls: 0,
            fails: Vec::from_slice(alloc, fails)?,
            faults: 0,
        })
    }
}

impl Source for MemSource {
    ghost left = { λ s. Some s.left };

    ghost faults = { λ s. s.faults };

    ghost read_gives = { StateGives };

    fn read(&mut self, into: &mut [u8]) -> Result<usize, Failed>
        // What it does, exactly.
        ensures value { result ≡ read_result self.old (length into.old) }
        ensures after { self.new ≡ after_read self.old (length into.old) }
        ensures moved { into.new ≡ slice_after_read self.old into.old }

        // What every source does.
        ensures count { self.old.faults ≤ self.new.faults }
        ensures fits { self.new.faults < 2 ^ 64 }
        ensures kept { OnOk result (self.new.faults ≡ self.old.faults) }
        ensures failed { OnErr result (Rose self.old.faults self.new.faults) }
        ensures bound { IfOk result (λ n. n ≤ length into.new) }
        ensures bytes { Reads (Some self.old.left) (Some self.new.left) result into.new }
        ensures gives { 0 < length into.old → StateGives self.old (moved_bytes result into.new) self.new }
    {
        self.calls = self.calls.saturating_add(1);
        if self.fails.contains(&self.calls) {
            self.faults = self.faults.saturating_add(1);
            return Err(Failed);
        }
        let left = &self.bytes[self.taken..];
        let n = into.len().min(self.piece as usize).min(left.len());
        into[..n].copy_from_slice(&left[..n]);
        self.taken += n;
        Ok(n)
    }
}
