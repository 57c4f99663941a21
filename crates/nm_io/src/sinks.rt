//! Sinks for bytes, and writing a whole list to one.
ghost use Rattle.std.specs.Prelude.{◌≡◌, ℕ, ◌^◌, ◌<◌, ◌≤◌, List, length, Option, Result, IfOk, OnOk, OnErr};
ghost use Rattle.std.specs.Io.KnownBytes.{Appends};
ghost use Rattle.nm_io.specs.Count.{Rose};
ghost use Rattle.nm_io.specs.Sink.{Writes, HoldsFront, WritesInTurn};
ghost use Rattle.nm_io.specs.declared.faults.Failed.{Failed};

use crate::faults::{Failed, WriteFault};

/// What bytes are written to.
pub trait Sink {
    // The bytes that were written, where the sink tells them.
    ghost held: { Self → Option (List ℕ) };

    // How many calls failed. It stands still at 2^64 - 1.
    ghost faults: { Self → ℕ };

    // What one write of these bytes may answer, and what sink it leaves.
    ghost write_takes: { Self → List ℕ → Result ℕ Failed → Self → Type 0 };

    /// Takes bytes from the front of `from`, and gives how many: 0 only where `from` is empty.
    /// A write that fails takes nothing, and the count of faults rises; it stays at one that doesn't.
    fn write(&mut self, from: &[u8]) -> Result<usize, Failed>
        ensures count { faults self.old ≤ faults self.new }
        ensures fits { faults self.new < 2 ^ 64 }
        ensures kept { OnOk result (faults self.new ≡ faults self.old) }
        ensures failed { OnErr result (Rose (faults self.old) (faults self.new)) }
        ensures bound { IfOk result (λ n. n ≤ length from.now) }
        ensures some { IfOk result (λ n. 0 < length from.now → 0 < n) }
        ensures bytes { Writes (held self.old) (held self.new) result from.now }
        ensures takes { write_takes self.old from.now result self.new };
}

/// Writes all of `bytes`, giving each write all that is left of them, and takes no memory. It
/// refuses at the first write that fails; the sink then holds only a front of `bytes`. The count of
/// faults stays where it doesn't refuse.
pub fn write_all<K: Sink>(snk: &mut K, bytes: &[u8]) -> Result<(), WriteFault>
    ensures count { K.faults snk.old ≤ K.faults snk.new }
    ensures fits { K.faults snk.old < 2 ^ 64 → K.faults snk.new < 2 ^ 64 }
    ensures kept { OnOk result (K.faults snk.new ≡ K.faults snk.old) }
    ensures fault { OnErr result (Rose (K.faults snk.old) (K.faults snk.new)) }
    ensures calls { WritesInTurn K.write_takes snk.old snk.new bytes.now result }
    ensures ok { OnOk result (Appends (K.held snk.old) (K.held snk.new) bytes.now) }
    ensures front { OnErr result (HoldsFront (K.held snk.old) (K.held snk.new) bytes.now) }
{
    let mut rest = bytes;
    while !rest.is_empty() {
        match snk.write(rest) {
            Ok(n) => rest = &rest[n..],
            Err(Failed) => return Err(WriteFault),
        }
    }
    Ok(())
}
