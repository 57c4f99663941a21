//! Sources of bytes, and reading one to its end.
ghost use Rattle.std.specs.Prelude.{◌≡◌, ◌≢◌, ℕ, ◌+◌, ◌^◌, ◌<◌, ◌≤◌, List, [], length, take, drop, Option, Result, IfOk, OnOk, OnErr, IsErrOf, vec_len};
ghost use Rattle.std.specs.Io.KnownBytes.{Consumes, Keeps};
ghost use Rattle.nm_io.specs.Count.{Rose};
ghost use Rattle.nm_io.specs.Source.{Reads, ReadsAll, ReadsInTurn, ReadsOnce, GivesAll, moved_bytes};
ghost use Rattle.nm_io.specs.declared.faults.Failed.{Failed};

use crate::faults::{Failed, ReadRefusal};
use std::alloc::{AllocError, Global};

/// The most bytes that `read_all` gives.
pub const MOST_BYTES: usize = 16_777_216;

/// The bound by its number: each definition that speaks of the most bytes speaks of 16,777,216.
pub fn bound_of_a_text()
    ensures { MOST_BYTES ≡ 16777216 }
{}

/// The length of the first slice that `read_all` reads into.
const FIRST_ROOM: usize = 65_536;

/// What bytes are read from.
pub trait Source {
    // The bytes that are left to read, where the source tells them.
    ghost left: { Self → Option (List ℕ) };

    // How many calls failed. It stands still at 2^64 - 1.
    ghost faults: { Self → ℕ };

    // What one read into a slice with room may answer, the bytes that it moved or that it failed,
    // and what source it leaves.
    ghost read_gives: { Self → Result (List ℕ) Failed → Self → Type 0 };

    /// Moves bytes to the front of `into`, and gives how many: 0 only at the end or with no room.
    /// A read that fails takes nothing, and the count of faults rises; it stays at one that doesn't.
    fn read(&mut self, into: &mut [u8]) -> Result<usize, Failed>
        ensures count { faults self.old ≤ faults self.new }
        ensures fits { faults self.new < 2 ^ 64 }
        ensures kept { OnOk result (faults self.new ≡ faults self.old) }
        ensures failed { OnErr result (Rose (faults self.old) (faults self.new)) }
        ensures bound { IfOk result (λ n. n ≤ length into.new) }
        ensures bytes { Reads (left self.old) (left self.new) result into.new }
        ensures gives { 0 < length into.old → read_gives self.old (moved_bytes result into.new) self.new };
}

/// Reads until a read gives 0, and gives all the bytes. It refuses with `ReadFault` at the first
/// read that fails, with `TooLong` once it has taken more than `MOST_BYTES` bytes, after which it
/// makes no further read, and with `Memory` where memory runs out. What it took is then gone. The
/// count of faults stays but at `ReadFault`.
pub fn read_all<S: Source>(alloc: Global, src: &mut S) -> Result<Vec<u8>, ReadRefusal>
    ensures count { S.faults src.old ≤ S.faults src.new }
    ensures fits { S.faults src.old < 2 ^ 64 → S.faults src.new < 2 ^ 64 }
    ensures kept { result ≢ Err ReadRefusal.ReadFault → S.faults src.new ≡ S.faults src.old }
    ensures fault { IsErrOf result ReadRefusal.ReadFault → Rose (S.faults src.old) (S.faults src.new) }
    ensures calls { ReadsInTurn S.read_gives src.old src.new result }
    ensures reads { ReadsAll (S.left src.old) (S.left src.new) result }
    ensures within { IfOk result (λ bytes. vec_len bytes ≤ MOST_BYTES) }
{
    let mut bytes = Vec::new(alloc);
    let mut taken = 0;
    while taken <= MOST_BYTES {
        let n = read_more(src, &mut bytes, taken)?;
        if n == 0 {
            bytes.truncate(taken);
            return Ok(bytes);
        }
        taken += n;
    }
    Err(ReadRefusal::TooLong)
}

// One read into `bytes` behind the first `taken`. Room is made before, so that want of memory loses
// no byte.
fn read_more<S: Source>(
    src: &mut S,
    bytes: &mut Vec<u8>,
    taken: usize,
) -> Result<usize, ReadRefusal>
    requires within { taken ≤ vec_len bytes.old }
    requires few { taken ≤ MOST_BYTES }
    requires most { vec_len bytes.old ≤ MOST_BYTES + 1 }
    ensures most { vec_len bytes.new ≤ MOST_BYTES + 1 }
    ensures front { take taken bytes.new.items ≡ take taken bytes.old.items }
    ensures room { IfOk result (λ n. taken + n ≤ vec_len bytes.new) }
    ensures count { S.faults src.old ≤ S.faults src.new }
    ensures fit { S.faults src.old < 2 ^ 64 → S.faults src.new < 2 ^ 64 }
    ensures kept { result ≢ Err ReadRefusal.ReadFault → S.faults src.new ≡ S.faults src.old }
    ensures fault { IsErrOf result ReadRefusal.ReadFault → Rose (S.faults src.old) (S.faults src.new) }
    ensures once { ReadsOnce S.read_gives src.old src.new result (drop taken bytes.new.items) }
    ensures ok { IfOk result (λ n. Consumes (S.left src.old) (S.left src.new)
        (take n (drop taken bytes.new.items))) }
    ensures err { OnErr result (Keeps (S.left src.old) (S.left src.new)) }
    ensures end { IfOk result (λ n. n ≡ 0 → GivesAll (S.left src.old) (S.left src.new) []) }
{
    make_room(bytes, taken)?;
    Ok(read_at(src, bytes.as_mut_slice(), taken)?)
}

// Makes `bytes` longer than `taken`, by zeros, and at most one byte longer than the limit. The
// length doubles, so that the copies of a growing vector stay linear.
fn make_room(bytes: &mut Vec<u8>, taken: usize) -> Result<(), AllocError>
    requires within { taken ≤ vec_len bytes.old }
    requires few { taken ≤ MOST_BYTES }
    requires most { vec_len bytes.old ≤ MOST_BYTES + 1 }
    ensures room { OnOk result (taken < vec_len bytes.new) }
    ensures within { taken ≤ vec_len bytes.new }
    ensures most { vec_len bytes.new ≤ MOST_BYTES + 1 }
    ensures front { take taken bytes.new.items ≡ take taken bytes.old.items }
{
    let len = bytes.len();
    if taken < len {
        return Ok(());
    }
    let longer = (len * 2).max(FIRST_ROOM).min(MOST_BYTES + 1);
    bytes.reserve_exact(longer - len)?;
    bytes.resize(longer, 0)
}

// One read into `into` from `at` on.
fn read_at<S: Source>(src: &mut S, into: &mut [u8], at: usize) -> Result<usize, Failed>
    requires { at < length into.old }
    ensures front { take at into.new ≡ take at into.old }
    ensures fits { IfOk result (λ n. at + n ≤ length into.new) }
    ensures count { S.faults src.old ≤ S.faults src.new }
    ensures fit { S.faults src.new < 2 ^ 64 }
    ensures kept { OnOk result (S.faults src.new ≡ S.faults src.old) }
    ensures failed { OnErr result (Rose (S.faults src.old) (S.faults src.new)) }
    ensures gives { S.read_gives src.old (moved_bytes result (drop at into.new)) src.new }
    ensures ok { IfOk result (λ n. Consumes (S.left src.old) (S.left src.new) (take n (drop at into.new))) }
    ensures err { OnErr result (Keeps (S.left src.old) (S.left src.new)) }
    ensures end { IfOk result (λ n. n ≡ 0 → GivesAll (S.left src.old) (S.left src.new) []) }
{
    src.read(&mut into[at..])
}
