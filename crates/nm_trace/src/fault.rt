//! Why a text is no trace.

use thiserror::Error;

/// What is wrong with a text.
#[derive(Clone, Copy, Debug, PartialEq, Eq)]
pub enum TraceFault {
    /// The first record is missing, or is not the four names.
    BadHeader,
    /// The record has not four fields, its kind is neither `r` nor `w`, or it has a value at `r`.
    BadRecord,
    /// A field is no number.
    BadNumber,
    /// The processor is above 15, or the address is no multiple of 8.
    OutOfRange,
    /// The pages up to this record leave too few frames.
    TooManyPages,
    /// No record stands after the first.
    Empty,
    /// The text of the script would have more than 16,777,216 bytes.
    ScriptTooLong,
}

/// Why there is no script of a text.
#[derive(Clone, Copy, Debug, PartialEq, Eq, Error)]
pub enum TraceRefusal {
    /// The first fault of the text, and the number of its record, the header being record 1.
    #[error("{fault:?} at record {row}")]
    At {
        /// What is wrong.
        fault: TraceFault,
        /// The number of the record, or 0 where the script is too long.
        row: u32,
    },
    /// There is no memory for the script.
    #[error("Memory")]
    Memory,
}
