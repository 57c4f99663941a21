//! Why no answers were written.

use nm_io::{ReadRefusal, WriteFault};
use std::alloc::AllocError;

/// Why the rows could not be made.
#[derive(Clone, Copy, Debug, PartialEq, Eq, Drop)]
pub enum Fault {
    /// The line of this number, from 1, is not one of a case, or the text ends within the case that it began.
    Line(u64),
    /// A file that a case names is not there.
    File,
    /// Standard input or a file could not be read, or is longer than `nm_io::MOST_BYTES`.
    Read,
    /// Standard output could not be written.
    Write,
    /// Memory ran out.
    Memory,
}

impl From<AllocError> for Fault {
    fn from(_error: AllocError) -> Fault {
        Fault::Memory
    }
}

impl From<ReadRefusal> for Fault {
    fn from(refusal: ReadRefusal) -> Fault {
        match refusal {
            ReadRefusal::Memory => Fault::Memory,
            ReadRefusal::ReadFault | ReadRefusal::TooLong => Fault::Read,
        }
    }
}

impl From<WriteFault> for Fault {
    fn from(_fault: WriteFault) -> Fault {
        Fault::Write
    }
}
