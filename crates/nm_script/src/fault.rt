//! Why a text is no script.

ghost use Rattle.std.specs.Prelude.{◌≡◌};
ghost use Rattle.nm_script.specs.declared.fault.ReadError.TheVariants.{Memory, Fault};

use std::alloc::{AllocError, AllocFailed};
use thiserror::Error;

/// What is wrong with a text.
#[derive(Clone, Copy, Debug, PartialEq, Eq)]
pub enum ScriptFault {
    /// The text has more than 16,777,216 bytes. No parser gives it: it is the answer of who takes the bytes.
    TooLong,
    /// The text has no bytes.
    Empty,
    /// The first line is neither `nomad 1` nor `nomad 2`.
    BadHeader,
    /// No line that may stand here begins with this word and has as many fields, or another fixed word differs.
    BadLine,
    /// A field is no number.
    BadNumber,
    /// A number is outside its range.
    OutOfRange,
    /// The virtual page is mapped already.
    DuplicateMap,
    /// An access is to a virtual page that is not mapped.
    Unmapped,
    /// A store or an add is to a page that may not be written.
    ReadOnly,
    /// The text ends before a line that must stand.
    MissingLine,
    /// The backing pages up to this one leave too few frames.
    TooManyPages,
    /// The nodes would form five tiers.
    TooManyTiers,
    /// The nodes form one tier.
    TooFewTiers,
}

/// Why there is no script.
#[derive(Clone, Copy, Debug, PartialEq, Eq, Error)]
pub enum ScriptRefusal {
    /// The first fault of the text, and the number of its line, the first line being 1.
    #[error("{fault:?} at line {line}")]
    At {
        /// What is wrong.
        fault: ScriptFault,
        /// The number of the line.
        line: u32,
    },
    /// There is no memory for the script.
    #[error("Memory")]
    Memory,
}

/// Why a line was not taken.
#[derive(Debug, Drop)]
pub enum ReadError {
    /// There is no memory for it.
    Memory,
    /// What is wrong with it.
    Fault(ScriptFault),
}

impl From<ScriptFault> for ReadError {
    ghost from_gives = { λ f e. e ≡ Fault f };

    fn from(fault: ScriptFault) -> ReadError {
        ReadError::Fault(fault)
    }
}

impl From<AllocError> for ReadError {
    ghost from_gives = { λ _ e. e ≡ Memory };

    fn from(_e: AllocError) -> ReadError {
        ReadError::Memory
    }
}

impl<T: Drop> From<AllocFailed<T>> for ReadError {
    ghost from_gives = { λ _ e. e ≡ Memory };

    fn from(_e: AllocFailed<T>) -> ReadError {
        ReadError::Memory
    }
}
