//! What a source or a sink answers when it fails.
ghost use Rattle.std.specs.Prelude.{◌≡◌};
ghost use Rattle.nm_io.specs.declared.faults.ReadRefusal.TheVariants.{Memory, ReadFault};

use std::alloc::AllocError;
use thiserror::Error;

/// One read or one write failed. It took nothing, and the count of faults rose.
#[derive(Clone, Copy, Debug, PartialEq, Eq)]
pub struct Failed;

/// A write of the whole failed: the sink holds only a front of it.
#[derive(Clone, Copy, Debug, PartialEq, Eq)]
pub struct WriteFault;

/// Why reading to the end gave no bytes.
#[derive(Clone, Copy, Debug, PartialEq, Eq, Error)]
pub enum ReadRefusal {
    /// A read failed.
    #[error("ReadFault")]
    ReadFault,
    /// The source gave more than `MOST_BYTES` bytes.
    #[error("TooLong")]
    TooLong,
    /// Memory ran out.
    #[error("Memory")]
    Memory,
}

impl From<Failed> for ReadRefusal {
    ghost from_gives = { λ _ refusal. refusal ≡ ReadFault };

    fn from(_failed: Failed) -> ReadRefusal {
        ReadRefusal::ReadFault
    }
}

impl From<AllocError> for ReadRefusal {
    ghost from_gives = { λ _ refusal. refusal ≡ Memory };

    fn from(_error: AllocError) -> ReadRefusal {
        ReadRefusal::Memory
    }
}
